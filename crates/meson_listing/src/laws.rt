//! Laws of the listings. The functions do nothing; their contracts are the laws.

ghost use Rattle.meson_listing.specs.Followed.{FoldersFound};
ghost use Rattle.meson_listing.specs.Laws.{NamesRise};

/// The names of the keyword arguments in a listing are in rising order, and each has its value.
pub fn names_rise()
    ensures { NamesRise }
{}

/// The folder that is reported of a file is that in which a search finds the file.
pub fn folders_found()
    ensures { FoldersFound }
{}
