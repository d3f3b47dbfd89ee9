//! How the sources of a target are changed where variables are followed.

use meson_splice::{Many, Text};

/// Whether lists that another target gets too are changed.
#[derive(Clone, Copy, Debug, PartialEq, Eq)]
pub enum SharedLists {
    /// They stay as they are.
    Kept,
    /// They are changed for all that get them.
    Changed,
}

/// What is done with the sources of a target. A name means the file at its path from the folder of the target.
#[derive(Debug)]
pub enum SourceChange {
    /// Those of these that are not there in each evaluation are added.
    Add(Many<Text>),
    /// Each of these is removed, in whatever branch it is.
    Remove(Many<Text>),
    /// Each source at the path of the old name gets the new one, in its place.
    Rename { old: Text, new: Text },
}

/// Written by hand, so that it is proved here alone, and not in each crate that drops a command.
impl Drop for SourceChange {
    fn drop(self) {
        match self {
            SourceChange::Add(_) => {}
            SourceChange::Remove(_) => {}
            SourceChange::Rename { old: _, new: _ } => {}
        }
    }
}
