//! A project with notes of its trees.

use crate::kept::Kept;
use crate::note::Note;
use meson_splice::FileSet;
use meson_syntax::Parsed;

/// The files of a project, the tree of each, and the notes of them that a command looks at. Also what is kept of each file, if that is known.
#[derive(Clone, Copy)]
pub struct Noted<'p> {
    pub files: &'p FileSet,
    pub trees: &'p [Parsed],
    pub notes: &'p [Note<'p, 'p>],
    pub kept: &'p [Kept],
}
