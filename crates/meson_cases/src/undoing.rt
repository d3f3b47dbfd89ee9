//! Splices of the files, done and taken back, and the history of changes.

use crate::files::Files;
use crate::performing::put_changed;
use meson_case_files::{Transcript, bytes_of, text_of};
use meson_splice::{
    Bytes, Change, FileSet, History, Many, Splice, SpliceFault, Text, apply_all, revert,
};
use std::alloc::{AllocError, Global};
use std::mem;

/// The change that splices are put into, and the history of those that were kept.
#[derive(Drop)]
pub struct Undoing {
    alloc: Global,
    change: Change,
    history: History,
}

fn no_change(alloc: Global) -> Change {
    Change::untitled(alloc, Many::new(alloc))
}

/// A splice by its words: the file and the offset, and after ` :: ` the bytes there and what they become.
fn splice_of(alloc: Global, words: &str) -> Result<Splice, AllocError> {
    let (place, bytes) = words.split_once(" :: ").unwrap_or((words, ""));
    let (file, at) = place.split_once(' ').unwrap_or((place, ""));
    let (was, now) = bytes.split_once(" :: ").unwrap_or((bytes, ""));
    Ok(Splice {
        file: Text::of(text_of(alloc, file)?),
        at: at.parse::<usize>().unwrap_or(0),
        was: Bytes::of(bytes_of(alloc, was)?),
        now: Bytes::of(bytes_of(alloc, now)?),
    })
}

impl Undoing {
    pub fn new(alloc: Global) -> Self {
        Undoing {
            alloc,
            change: no_change(alloc),
            history: History::new(alloc),
        }
    }

    /// Adds a splice after those of the change.
    pub fn add(&mut self, words: &str) -> Result<(), AllocError> {
        let splice = splice_of(self.alloc, words)?;
        self.change.splices.push(splice)?;
        Ok(())
    }

    /// Adds the change to the past; the next one has no splice yet.
    fn keep(&mut self) -> Result<(), SpliceFault> {
        let change = mem::replace(&mut self.change, no_change(self.alloc));
        match self.history.keep(change) {
            Ok(()) => Ok(()),
            Err(unkept) => Err(unkept.fault),
        }
    }

    fn done(&mut self, word: &str, set: &mut FileSet) -> Result<(), SpliceFault> {
        match word {
            "apply" => apply_all(self.alloc, set, &self.change),
            "revert" => revert(self.alloc, set, &self.change),
            "undo" => self.history.undo(self.alloc, set),
            "redo" => self.history.redo(self.alloc, set),
            _ => self.keep(),
        }
    }

    /// Does what the word says to the files. It writes why not, the files that differ then, and the number of changes in the history.
    pub fn answer(
        &mut self,
        word: &str,
        files: &mut Files,
        to: &mut Transcript,
    ) -> Result<(), AllocError> {
        let mut set = files.file_set()?;
        if let Err(fault) = self.done(word, &mut set) {
            to.show_line(&fault);
        }
        put_changed(&set, files, to)?;
        let (past, future) = self.history.depths();
        to.put("  past ");
        to.show(&past);
        to.put(", future ");
        to.show(&future);
        to.put("\n");
        Ok(())
    }
}
