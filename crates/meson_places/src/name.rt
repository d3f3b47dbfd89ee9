//! The sources of a project.

use meson_splice::FileSet;
use meson_syntax::Parsed;

/// The files of a project, and the tree of each.
#[derive(Clone, Copy)]
pub struct Sources<'p> {
    pub files: &'p FileSet,
    pub trees: &'p [Parsed],
}
