//! Laws of steps. The functions do nothing: what they ensure is the law.

ghost use Rattle.meson_steps.specs.Code.{CodeIsExpression};
ghost use Rattle.meson_steps.specs.Keeping.{MakingKeeps};
ghost use Rattle.meson_steps.specs.Order.{KeepsOrder, NeedsOrder};
ghost use Rattle.meson_steps.specs.OrderRows.{AmongFour, InCalls, InFront, NoOrder, OneAfterAnother};
ghost use Rattle.meson_steps.specs.OneStanding.{OneMaking, OneStanding};
ghost use Rattle.meson_steps.specs.Steps.{ListsAreReadAgain};

/// Each of the steps that make splices changes one file, and keeps in it all that its edit does not touch.
pub fn keeping()
    ensures making_keeps { MakingKeeps }
{}

/// A step on a list has the bytes of the list's new text read again, and no others.
pub fn reading()
    ensures lists_are_read_again { ListsAreReadAgain }
{}

/// Steps have one result on a project, after each of them: one list of splices, and of each file one text and one tree.
pub fn one_making()
    ensures one_making { OneMaking }
    ensures one_standing { OneStanding }
{}

/// The function that says of each text whether it is an expression says so exactly of those that are.
pub fn code_is_expression()
    ensures { CodeIsExpression }
{}

/// In a list that is in order, a new element is put where the list is in order with it. At the end it is put only if none may be put in front.
pub fn keeps_order()
    ensures { KeepsOrder }
{}

/// A new element is put at another place than the end only where the list is in order for it, and it may be put in its place.
pub fn needs_order()
    ensures { NeedsOrder }
{}

/// Lists, and where new elements come in each of them.
pub fn order_rows()
    ensures among_four { AmongFour }
    ensures in_front { InFront }
    ensures no_order { NoOrder }
    ensures one_after_another { OneAfterAnother }
    ensures in_calls { InCalls }
{}
