//! Laws of explanations. The contract of each function is a law.

ghost use Rattle.meson_explaining.specs.Laws.{FaultLinesHaveNoControl, NearestAreNear, PrintableHasNoControl};
ghost use Rattle.meson_explaining.specs.NameLaws.{MeantNamesAreRefused};

/// Each of the calls that are told as the nearest is one of the calls, and its name is up to a third of the id's length away from the id. They are three at
/// most.
pub fn nearest_are_near()
    ensures { NearestAreNear }
{}

/// Nothing of a file or of a word reaches a terminal as a control character: a line has none but its end.
pub fn printable_has_no_control()
    ensures { PrintableHasNoControl }
{}

/// The lines that explain why a file does not parse have no control characters but their ends, whatever the file and its name hold.
pub fn fault_lines_have_no_control()
    ensures { FaultLinesHaveNoControl }
{}

/// Where a command is refused since a name is not valid, not found or not among the known ones, the name that is meant is the first with which alone the
/// command is refused for the same reason.
pub fn meant_names_are_refused()
    ensures { MeantNamesAreRefused }
{}
