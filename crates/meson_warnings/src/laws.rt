//! Laws of warnings. The functions do nothing: what they ensure is the law.

ghost use Rattle.meson_warnings.specs.Laws.{LeftAreUnread, SharersRead, UnsetAreUnset};

/// A name that is said to be set by no build file is one of those that are written, and no assignment, no `foreach` and no `set_variable` in the project sets
/// it. The warning stands at a call that is named.
pub fn unset_are_unset()
    ensures { UnsetAreUnset }
{}

/// A target that is said to use a list that is changed is another one than the named one, and a variable that names such a list is read in its call.
pub fn sharers_read()
    ensures { SharersRead }
{}

/// A variable that is said to be left is one of the removed target. It is read in its call alone, and by no literal name; and the warning stands at an assignment
/// that sets it.
pub fn left_are_unread()
    ensures { LeftAreUnread }
{}
