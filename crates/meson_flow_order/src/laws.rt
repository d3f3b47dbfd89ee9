//! Laws of what is known of variables. The functions do nothing: what they ensure is the law.

ghost use Rattle.meson_flow_order.specs.Laws.{AddedKeeps, AssignedKeeps, BelowInTurn, BelowItself, BlocksAddTheSame, BlocksKeep, EitherKeeps, FilesKeep, JoinedIsAbove, JoinedIsLeast, JoinedKeeps, LoopsHold, NoneIsLeast, OneMoreIsLeftOut, ReadsAreAbove, ReadsAreGood, ReadsKeep, StatementsKeep, StayGood, ThenKeeps, TouchedIsAbove, TouchedKeeps};
ghost use Rattle.meson_flow_order.specs.Standing.{AddAlike, MakersStand};
ghost use Rattle.meson_flow_order.specs.Rows.{EitherIsAbove, NoneIsOverlooked, SureSaysMore, UnsetIsApart};

/// What is known of a variable is in an order: what is above says no more, and overlooks nothing.
pub fn is_order()
    ensures itself { BelowItself }
    ensures in_turn { BelowInTurn }
    ensures none_is_least { NoneIsLeast }
{}

/// What each step of an evaluation makes is above what it is made of.
pub fn steps_go_up()
    ensures joined_is_above { JoinedIsAbove }
    ensures joined_is_least { JoinedIsLeast }
    ensures touched_is_above { TouchedIsAbove }
    ensures stay_good { StayGood }
{}

/// Each step of an evaluation keeps the order.
pub fn steps_keep()
    ensures joined { JoinedKeeps }
    ensures touched { TouchedKeeps }
    ensures added { AddedKeeps }
    ensures assigned { AssignedKeeps }
    ensures left_out { OneMoreIsLeftOut }
{}

/// Parts of the files that are begun with more end with more.
pub fn flows_keep()
    ensures either { EitherKeeps }
    ensures in_turn { ThenKeeps }
    ensures statements { StatementsKeep }
    ensures blocks { BlocksKeep }
    ensures files { FilesKeep }
{}

/// What is read at a place is above what is known wherever it is evaluated.
pub fn reads_are_above()
    ensures above { ReadsAreAbove }
    ensures good { ReadsAreGood }
    ensures keep { ReadsKeep }
{}

/// What is known where a turn of a loop begins holds in each turn.
pub fn loops_hold()
    ensures blocks_add_the_same { BlocksAddTheSame }
    ensures in_turns { LoopsHold }
{}

/// The order on small values.
pub fn order_rows()
    ensures either_is_above { EitherIsAbove }
    ensures sure_says_more { SureSaysMore }
    ensures none_is_overlooked { NoneIsOverlooked }
    ensures unset_is_apart { UnsetIsApart }
{}

/// What is known of a variable is made by assignments to it that stand in the project.
pub fn makers_stand()
    ensures stand { MakersStand }
    ensures alike { AddAlike }
{}
