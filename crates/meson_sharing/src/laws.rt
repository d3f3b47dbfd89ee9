//! Laws of lists that are read for one target alone. The functions do nothing: what they ensure is the law.

ghost use Rattle.meson_sharing.specs.Laws.{NotSharedAreOwn, OthersReadNothing, OwnAreNotShared, OwnAreReadForOne, OwnAreUnshared};
ghost use Rattle.meson_sharing.specs.Laws.{OwnReachNoOther, UnsharedAreReadForOne};
ghost use Rattle.meson_sharing.specs.SharedLists.{Alone, OtherNames, OtherReads, OtherTargets, Sharers, Through, Uses};
ghost use Rattle.meson_sharing.specs.ToldRows.{Branching, Entering, InTurn, Looping, Shared};

/// Which lists of some build files are read for one target alone.
pub fn shared_lists()
    ensures alone { Alone }
    ensures through { Through }
    ensures other_targets { OtherTargets }
    ensures other_reads { OtherReads }
    ensures other_names { OtherNames }
    ensures uses { Uses }
    ensures sharers { Sharers }
{}

/// What is reported of the sources of the targets of some build files.
pub fn told_rows()
    ensures in_turn { InTurn }
    ensures branching { Branching }
    ensures looping { Looping }
    ensures entering { Entering }
    ensures shared { Shared }
{}

/// What it means that a list is a target's own, or unshared.
pub fn own_lists()
    ensures own_are_read_for_one { OwnAreReadForOne }
    ensures unshared_are_read_for_one { UnsharedAreReadForOne }
    ensures own_are_unshared { OwnAreUnshared }
    ensures own_are_not_shared { OwnAreNotShared }
    ensures not_shared_are_own { NotSharedAreOwn }
    ensures others_read_nothing { OthersReadNothing }
    ensures own_reach_no_other { OwnReachNoOther }
{}
