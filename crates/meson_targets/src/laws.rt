//! Laws of targets. The functions do nothing: what they ensure is the law.

ghost use Rattle.meson_targets.specs.Effects.{AddedTargetsAreNamed, RemovedTargetsAreGone};

/// A target that is added is the one that its name names afterwards. It is a call of the function in the build file of its folder, with the name and each
/// source once as its arguments.
pub fn added_targets_are_named()
    ensures { AddedTargetsAreNamed }
{}

/// A target that is removed is gone with its statement. The block of that statement has the others in their order, and all else is as it was. The calls of the
/// project are the others in their order, and none of a target has the name. If the id was that of a variable, it names none.
pub fn removed_targets_are_gone()
    ensures { RemovedTargetsAreGone }
{}
