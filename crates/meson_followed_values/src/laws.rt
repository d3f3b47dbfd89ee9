//! Laws of changes where variables are followed. The functions do nothing: what they ensure is the law.

ghost use Rattle.meson_followed_values.specs.Laws.{AddsToOwnValue, FollowedStepsAreDoable, FollowedStepsLeave, LosesEachValue, LosesOwnValues, MakersAreAssigned, PlainIsPlain};
ghost use Rattle.meson_followed_values.specs.Rows.{Branching, InTurn, ReadElsewhere, Sums};

/// Which values are changed in some build files.
pub fn rows()
    ensures in_turn { InTurn }
    ensures branching { Branching }
    ensures read_elsewhere { ReadElsewhere }
    ensures sums { Sums }
{}

/// What may have made the value of a variable is what its assignments assign.
pub fn makers_are_assigned()
    ensures { MakersAreAssigned }
{}

/// Nobody else reads a value that is changed for a call; and no value of a variable is forgotten where elements are removed or replaced.
pub fn own_values()
    ensures added { AddsToOwnValue }
    ensures lost { LosesOwnValues }
    ensures each { LosesEachValue }
{}

/// A value without variables is changed as without following.
pub fn plain_is_plain()
    ensures { PlainIsPlain }
{}

/// The steps that change a value may be done one after another.
pub fn steps_are_doable()
    ensures { FollowedStepsAreDoable }
{}

/// What the steps leave: the value that is named is changed, or values that nobody else reads.
pub fn steps_leave()
    ensures { FollowedStepsLeave }
{}
