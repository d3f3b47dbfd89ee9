//! Laws of splices and changes. The functions do nothing: what they ensure is the law.

ghost use Rattle.meson_splice.specs.Laws.{InverseRestores, InverseRestoresFiles, InversesRestore, OneIsAnUndo, PatchedMeansPatches, UndosFollow};

/// A splice is done exactly if the text is a front, the old bytes and a rest. Then it is the front, the new bytes and the rest.
pub fn patched_means_patches()
    ensures { PatchedMeansPatches }
{}

/// The inverse of a splice that was done restores a text, and a file set.
pub fn inverse_restores()
    ensures text { InverseRestores }
    ensures files { InverseRestoresFiles }
{}

/// The inverses of a change that was done, last to first, restore the file set.
pub fn inverses_restore()
    ensures { InversesRestore }
{}

/// A number of undos are undos one after another. One of them is an undo, and `n` and then `m` of them are `n + m` of them.
pub fn undos_follow()
    ensures one { OneIsAnUndo }
    ensures more { UndosFollow }
{}
