//! Notes while they are gathered.

ghost use Rattle.std.specs.Prelude.{◌≡◌, ◌∷◌, ◌++◌, [], IfOk, OnOk, length};
ghost use Rattle.meson_calls.specs.Project.{place, placed};
ghost use Rattle.meson_calls.specs.Ranges.{AreInside};

use crate::call::BorrowedPlace;
use crate::note::{Note, Ranged, What};
use std::alloc::{AllocError, Global};

/// Notes, and the paths of all of them in one list: a note itself allocates nothing.
#[derive(Drop)]
pub struct Taken<'t> {
    steps: Vec<usize>,
    notes: Vec<Ranged<'t>>,
    ghost inside: { AreInside (length steps.items) notes.items },
}

impl<'t> Taken<'t> {
    ghost use Rattle.meson_calls.specs.Notes.{note_views, taken_view, what_view};

    /// None so far. Does not allocate.
    pub fn new(alloc: Global) -> Self
        ensures { taken_view result ≡ [] }
    {
        Taken {
            steps: Vec::new(alloc),
            notes: Vec::new(alloc),
        }
    }

    /// Takes a note of what is at a path of a file.
    pub fn take(
        &mut self,
        file: usize,
        path: &[usize],
        source: &'t [u8],
        what: What<'t>,
    ) -> Result<(), AllocError>
        ensures { OnOk result (taken_view self.new ≡ taken_view self.old ++ placed (place file path.now) (what_view source.now what.entry) ∷ []) }
    {
        let from = self.steps.len();
        self.steps.extend_from_slice(path)?;
        let to = self.steps.len();
        self.notes.push(Ranged {
            file,
            from,
            to,
            source,
            what,
        })?;
        Ok(())
    }

    /// The notes, with their paths borrowed from here.
    pub fn all(&self, alloc: Global) -> Result<Vec<Note<'_, 't>>, AllocError>
        ensures { IfOk result (λ all. note_views all.items ≡ taken_view self.now) }
    {
        let mut all = Vec::with_capacity(alloc, self.notes.len())?;
        for i in 0..self.notes.len() {
            let note = &self.notes[i];
            all.push(Note {
                place: BorrowedPlace {
                    file: note.file,
                    path: &self.steps[note.from..note.to],
                },
                source: note.source,
                what: note.what,
            })?;
        }
        Ok(all)
    }
}
