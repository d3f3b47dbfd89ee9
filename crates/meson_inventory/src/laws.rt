//! Laws of what a project holds. The contract of each function is a law.

ghost use Rattle.meson_inventory.specs.Laws.{AssignmentsAreListed, FoundAreListed, NamedAreSearched, NotEnteredMeansUnknown, OneIsNamed};

use meson_calls::laws::parts_are_all;

/// Each call that an id finds is among the listed targets of a project. It has the id there as its name or as its variable.
pub fn found_are_listed()
    ensures { FoundAreListed }
{
    parts_are_all();
}

/// Where a command finds one call, that call alone is among the calls that are named.
pub fn one_is_named()
    ensures { OneIsNamed }
{}

/// Each of the calls that are named with a folder is in the build file of that folder.
pub fn named_are_searched()
    ensures { NamedAreSearched }
{}

/// The calls that are listed as not entered are the `subdir` calls by which any variable may be set. With such a call, no
/// variable of the project is known. Without one, no `subdir` call is the reason why a variable is unknown.
pub fn not_entered_means_unknown()
    ensures { NotEnteredMeansUnknown }
{}

/// An assignment is listed exactly where a statement of the project is one.
pub fn assignments_are_listed()
    ensures { AssignmentsAreListed }
{}
