//! Laws of a commit that failed. The functions do nothing: what they ensure is the law.

ghost use Rattle.meson_store.specs.Laws.{OldNewOrHeld, OldOrTold, ToldWasTried, UntoldIsAsBefore};

/// Each file that a failed commit tried holds its old bytes, or the fault names it. And each holds its old bytes, its new ones, or what it held. The fault
/// names no other.
pub fn failed_commit_leaves_old_or_told()
    ensures old_or_told { OldOrTold }
    ensures one_of_three { OldNewOrHeld }
    ensures no_other { ToldWasTried }
{}

/// A file that a failed commit does not name is as before.
pub fn untold_files_are_as_before()
    ensures { UntoldIsAsBefore }
{}
