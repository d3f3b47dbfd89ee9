//! How a value in a project is named, and what is done with it.

use crate::given::Given;
use meson_splice::{Many, Text};

/// The function of a call.
#[derive(Debug)]
pub enum Callee {
    /// One of the functions that make targets.
    Target,
    /// The function of this name.
    Function(Text),
}

/// What names a place: a call, or the value of an assignment.
#[derive(Debug)]
pub enum PlaceName {
    /// The call of `project`, by `/` or `//`.
    Project(Text),
    /// A call of a function, by the text of its first argument without a name, or by the variable that is set to it.
    Call { callee: Callee, id: Text },
    /// The value to which the variable of this name is set.
    Variable(Text),
    /// What begins on a line of the file of this name, counted from 1: an assigned value, or a call by its opening bracket. If there is neither, the first array
    /// or dictionary that opens on the line.
    Line { file: Text, line: usize },
}

/// A name, and the folder whose build file alone is searched for it, if one is given. `.` is the root folder.
#[derive(Debug, Drop)]
pub struct Search {
    pub name: PlaceName,
    pub folder: Option<Text>,
}

/// What names a value: the search for a place, and the keys that lead to the value from there.
#[derive(Debug, Drop)]
pub struct ValueName {
    pub place: Search,
    pub keys: Many<Text>,
}

/// What is done with a value.
#[derive(Debug)]
pub enum ValueChange {
    /// It becomes this one.
    Set(Given),
    /// The elements of its array become these values, or it becomes the array of them.
    SetAll(Many<Given>),
    /// Those of these values that it does not have yet are added to its last list.
    Add(Many<Given>),
    /// Those of these values that it does not have yet are added after the first element of its lists that says a value.
    AddAfter { after: Given, values: Many<Given> },
    /// Those of these values that it does not have yet are added to its last list, each in its place where the list is in order.
    AddSorted(Many<Given>),
    /// What says one of these values is removed: elements of its lists, or all of it.
    Remove(Many<Given>),
    /// What says the old value becomes the new one: elements of its lists, or all of it.
    Replace { old: Given, new: Given },
    /// Its argument, entry or element is removed.
    Delete,
}

/// Written by hand, so that it is proved here alone, and not in each crate that drops a command.
impl Drop for Callee {
    fn drop(self) {
        match self {
            Callee::Target => {}
            Callee::Function(_) => {}
        }
    }
}

/// Written by hand, as that of `Callee` is.
impl Drop for PlaceName {
    fn drop(self) {
        match self {
            PlaceName::Project(_) => {}
            PlaceName::Call { callee: _, id: _ } => {}
            PlaceName::Variable(_) => {}
            PlaceName::Line { file: _, line: _ } => {}
        }
    }
}

/// Written by hand, as that of `Callee` is.
impl Drop for ValueChange {
    fn drop(self) {
        match self {
            ValueChange::Set(_) => {}
            ValueChange::SetAll(_) => {}
            ValueChange::Add(_) => {}
            ValueChange::AddAfter {
                after: _,
                values: _,
            } => {}
            ValueChange::AddSorted(_) => {}
            ValueChange::Remove(_) => {}
            ValueChange::Replace { old: _, new: _ } => {}
            ValueChange::Delete => {}
        }
    }
}
