//! Laws of layout. The functions do nothing: what they ensure is the law.

ghost use Rattle.meson_layout.specs.FileLaws.{AppendLaw, AssignmentLaw, LinesLaw, StatementRemovalLaw};
ghost use Rattle.meson_layout.specs.Local.{LocalLaw};
ghost use Rattle.meson_layout.specs.Laws.{CodingLaw, FilesLaw, FirstLaw, InsertionLaw, RemovalLaw, ReplacementLaw, TextsLaw, WrapKeeps, WrapLaw};

/// The first element of an empty list.
pub fn first_element()
    ensures { FirstLaw }
{}

/// In each of its layouts an insertion gives the list with the new element after a comma.
pub fn insertions()
    ensures { InsertionLaw }
{}

/// In each of its layouts a removal gives the list without the element and one comma.
pub fn removals()
    ensures { RemovalLaw }
{}

/// A replaced value gives the list with the other value.
pub fn replacements()
    ensures { ReplacementLaw }
{}

/// A wrapped value gives the list with the array of that value, which keeps its bytes.
pub fn wrapped_values()
    ensures list { WrapLaw }
    ensures bytes { WrapKeeps }
{}

/// A removed statement leaves all other tokens, and all bytes but blanks beside it and its line end.
pub fn removed_statements()
    ensures { StatementRemovalLaw }
{}

/// An appended statement is last, and the file before it stays as it is.
pub fn appended_statements()
    ensures { AppendLaw }
{}

/// Lines that are inserted leave all bytes as they are. They are above a statement's line and the comment lines directly above it, below its line, or at
/// the end.
pub fn inserted_lines()
    ensures { LinesLaw }
{}

/// An assigned value that is replaced leaves all other tokens, and all bytes before and after the value.
pub fn assigned_values()
    ensures { AssignmentLaw }
{}

/// In a set of files the splices of an edit change the one file, as they change its bytes.
pub fn sets_of_files()
    ensures { FilesLaw }
{}

/// If each item of a text is UTF-8, an edit makes a text in UTF-8.
pub fn coding()
    ensures whole { CodingLaw }
    // So are the texts that its splices remove and insert.
    ensures splices { TextsLaw }
{}

/// The place of a list in its file changes nothing in how an edit of it is laid out.
pub fn lists_alone()
    ensures { LocalLaw }
{}
