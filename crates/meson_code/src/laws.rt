//! Laws of the statement beside which code is put, and of the one that is removed. The functions do nothing: what they ensure is the law.

ghost use Rattle.meson_code.specs.AnchorLaws.{AnchorsAreOnLine, AnchorsAreThere, NoneOverlooked};
ghost use Rattle.meson_code.specs.RemovalLaws.{RemovalsLeave};
ghost use Rattle.meson_code.specs.UnusedLaws.{UnusedAreUnneeded};

/// The statement that a search finds is there.
pub fn anchors_are_there()
    ensures { AnchorsAreThere }
{}

/// The statement that a line finds is in the file of the line, and its first byte is on the line.
pub fn anchors_are_on_line()
    ensures { AnchorsAreOnLine }
{}

/// Where a line finds no statement, none in the files that are searched begins on it.
pub fn none_overlooked()
    ensures { NoneOverlooked }
{}

/// Each assignment that goes after a statement is needed by nothing else when it is its turn.
pub fn unused_are_unneeded()
    ensures { UnusedAreUnneeded }
{}

/// The statement that is removed was there, and nothing outside it used a variable that it set. All else of the trees stays, but for what else goes.
pub fn removals_leave()
    ensures { RemovalsLeave }
{}
