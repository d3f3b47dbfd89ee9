//! Calls by their places.

ghost use Rattle.std.specs.Prelude.{◌≡◌};

use meson_splice::Text;
use meson_syntax::Path;

/// What a command is about.
#[derive(Clone, Copy, Debug, PartialEq, Eq)]
pub enum Role {
    /// A call of one of the functions that make targets.
    Target,
    /// A call of `dependency`.
    Dependency,
    /// A call of `project`.
    Project,
}

/// How build files are read.
#[derive(Clone, Copy, Debug, PartialEq, Eq)]
pub enum Reading {
    /// A variable is known where a single assignment outside `if` and `foreach` sets it, and nothing else may.
    Written,
    /// Variables are followed as Meson evaluates the files: through `+=`, branches, loops and folders.
    Followed,
}

/// What names a call: an id, and the folder whose build file alone is searched for it, if one is given. `.` is the root folder.
#[derive(Debug, Drop)]
pub struct CallName {
    pub id: Text,
    pub folder: Option<Text>,
}

/// The same, borrowed.
#[derive(Clone, Copy)]
pub struct BorrowedName<'n> {
    pub id: &'n str,
    pub folder: Option<&'n Text>,
}

impl CallName {
    ghost use Rattle.meson_calls.specs.Searching.{name_at};

    /// The name, borrowed from here.
    pub fn as_name(&self) -> BorrowedName<'_>
        ensures { name_at result ≡ self.now }
    {
        BorrowedName {
            id: self.id.get(),
            folder: self.folder.as_ref(),
        }
    }
}

/// The place of a node, mostly of a call or an array: the number of its file, and the path in it.
#[derive(Debug, Drop)]
pub struct CallRef {
    pub file: usize,
    pub path: Path,
}

/// The same, with a borrowed path.
#[derive(Clone, Copy)]
pub struct BorrowedPlace<'t> {
    pub file: usize,
    pub path: &'t [usize],
}

impl CallRef {
    ghost use Rattle.meson_calls.specs.Project.{place_at};

    /// The place, with its path borrowed from here.
    pub fn as_place(&self) -> BorrowedPlace<'_>
        ensures { place_at result ≡ self.now }
    {
        BorrowedPlace {
            file: self.file,
            path: self.path.steps.get(),
        }
    }
}
