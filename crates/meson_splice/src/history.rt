//! What was done to the files, and what was undone.

ghost use Rattle.std.specs.Prelude.{◌≡◌, ◌≢◌, ◌<◌, ◌++◌, ◌∷◌, [], Err, IfErr, Ok, OnErr, OnOk, length};
ghost use Rattle.meson_splice.specs.Past.{Forgets, redone, undone};
ghost use Rattle.meson_splice.specs.declared.fault.SpliceFault.TheVariants.{NothingToUndo, OutOfMemory};

use crate::change::{Change, applied, put_bytes_back, reverted};
use crate::fault::SpliceFault;
use crate::file_set::FileSet;
use meson_values::Many;
use std::alloc::{AllocFailed, Global};
use std::mem;

/// The changes that were done and those that were undone. In each list the next to undo or redo is last.
#[derive(Debug, Drop)]
pub struct History {
    pub past: Many<Change>,
    pub future: Many<Change>,
}

/// A change that was not kept, with the reason.
#[derive(Debug, Drop)]
pub struct Unkept {
    pub change: Change,
    pub fault: SpliceFault,
}

impl From<AllocFailed<Change>> for Unkept {
    ghost from_gives = { λ refused u. u ≡ record { change = refused.value; fault = OutOfMemory } };

    fn from(refused: AllocFailed<Change>) -> Unkept {
        Unkept {
            change: refused.value,
            fault: SpliceFault::OutOfMemory,
        }
    }
}

impl History {
    /// No changes. Does not allocate.
    pub fn new(alloc: Global) -> Self
        ensures { result ≡ record { past = []; future = [] } }
    {
        History {
            past: Many::new(alloc),
            future: Many::new(alloc),
        }
    }

    /// The number of changes that can be undone, and of those that can be redone.
    pub fn depths(&self) -> (usize, usize)
        ensures { result ≡ (length self.now.past, length self.now.future) }
    {
        (self.past.get().len(), self.future.get().len())
    }

    /// Adds a change that was done to the past. What was undone can't be redone from then on.
    pub fn keep(&mut self, change: Change) -> Result<(), Unkept>
        ensures ok { OnOk result (self.new ≡ record { past = self.old.past ++ change ∷ []; future = [] }) }
        ensures err { IfErr result (λ u. u ≡ record { change = change; fault = OutOfMemory }) }
        ensures kept { OnErr result (self.new ≡ self.old) }
    {
        self.past.push(change)?;
        self.future.clear();
        Ok(())
    }

    /// Takes the newest change back. It is then the next to redo.
    pub fn undo(&mut self, alloc: Global, files: &mut FileSet) -> Result<(), SpliceFault>
        ensures done { OnOk result (undone self.old files.old ≡ Ok (self.new, files.new)) }
        ensures refused { IfErr result (λ e. e ≢ OutOfMemory → undone self.old files.old ≡ Err e) }
        ensures kept { OnErr result ((self.new ≡ self.old) × (files.new ≡ files.old)) }
    {
        let Some(change) = self.past.last() else {
            return Err(SpliceFault::NothingToUndo);
        };
        let saved = reverted(alloc, files, change)?;
        match self.past.move_last(&mut self.future) {
            Ok(()) => Ok(()),
            Err(refused) => {
                put_bytes_back(files, saved);
                Err(SpliceFault::from(refused))
            }
        }
    }

    /// Does again the change that was undone last. It is then the newest.
    pub fn redo(&mut self, alloc: Global, files: &mut FileSet) -> Result<(), SpliceFault>
        ensures done { OnOk result (redone self.old files.old ≡ Ok (self.new, files.new)) }
        ensures refused { IfErr result (λ e. e ≢ OutOfMemory → redone self.old files.old ≡ Err e) }
        ensures kept { OnErr result ((self.new ≡ self.old) × (files.new ≡ files.old)) }
    {
        let Some(change) = self.future.last() else {
            return Err(SpliceFault::NothingToRedo);
        };
        let saved = applied(alloc, files, change)?;
        match self.future.move_last(&mut self.past) {
            Ok(()) => Ok(()),
            Err(refused) => {
                put_bytes_back(files, saved);
                Err(SpliceFault::from(refused))
            }
        }
    }

    /// Drops this number of the oldest changes that can be undone. Does not allocate.
    ///
    /// # Errors
    /// There are fewer. Nothing is changed then.
    pub fn forget_oldest(&mut self, alloc: Global, count: usize) -> Result<(), SpliceFault>
        ensures done { OnOk result (Forgets count self.old self.new) }
        ensures refused { IfErr result (λ e. (e ≡ NothingToUndo) × (length self.old.past < count)) }
        ensures kept { OnErr result (self.new ≡ self.old) }
    {
        if self.past.get().len() < count {
            return Err(SpliceFault::NothingToUndo);
        }
        let mut past = mem::replace(&mut self.past, Many::new(alloc)).take();
        past.drain(..count);
        self.past = Many::of(past);
        Ok(())
    }

    /// Drops all changes, those that can be undone and those that can be redone. Does not allocate.
    pub fn forget_all(&mut self)
        ensures { self.new ≡ record { past = []; future = [] } }
    {
        self.past.clear();
        self.future.clear();
    }
}
