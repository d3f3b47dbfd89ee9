//! Laws of projects. The functions do nothing: what they ensure is the law.

ghost use Rattle.meson_calls.specs.AllParts.{PartsAreAll, PartsInOrder};
ghost use Rattle.meson_calls.specs.Entering.{FolderRows, PlainFoldersStay};

/// The parts of a project, among which commands look for calls, are all expressions in it, each at its place.
pub fn parts_are_all()
    ensures { PartsAreAll }
{}

/// The parts are in file order and source order, each once and before what is within it. So are the calls of targets, and those that an id names.
pub fn parts_in_order()
    ensures { PartsInOrder }
{}

/// Where they are followed, plain folders mean what they mean elsewhere, and some others mean plain ones.
pub fn folders()
    ensures plain { PlainFoldersStay }
    ensures rows { FolderRows }
{}
