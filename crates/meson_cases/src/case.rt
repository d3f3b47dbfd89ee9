//! A case on files: a project of them, or the program in their folder.

use crate::cutting::put_cuts;
use crate::failures::{Failing, Failures};
use crate::files::Files;
use crate::performing::{make, perform};
use crate::program::{call, expect_logs, words_of};
use crate::project::{put_entered, put_is_target, put_loaded, put_named, put_targets};
use crate::sources::put_sources;
use crate::undoing::Undoing;
use meson_case_files::{Case, Transcript, line_of};
use std::alloc::{AllocError, Global};

/// The program's name.
const PROGRAM: &str = "meson_rewrite";

/// The files, and what the store fails to do in the next call of the program.
#[derive(Drop)]
pub struct ProjectCase {
    alloc: Global,
    files: Files,
    failures: Failures,
    undoing: Undoing,
}

impl ProjectCase {
    /// Changes the state before a call. Returns whether the word does that.
    fn prepare(&mut self, word: &str, rest: &str) -> Result<bool, AllocError> {
        match word {
            "file" => self.files.begin(rest)?,
            "with" => self.files.set_root(rest)?,
            "absent" => self.files.set(rest, None)?,
            "many-files" => self.files.begin_many(rest)?,
            "nested-files" => self.files.begin_nested(rest)?,
            "splice" => self.undoing.add(rest)?,
            "fail-read" => self.failures.reads = Failing::of(rest),
            "fail-replace" => self.failures.replaces = Failing::of(rest),
            "fail-out" => self.failures.out = Failing::of(rest),
            "fail-err" => self.failures.err = Failing::of(rest),
            "leave-new" => self.failures.leaves_new = true,
            "be-sure" => self.failures.is_sure = true,
            _ => return Ok(false),
        }
        Ok(true)
    }

    /// Answers a question about the project.
    fn ask(&mut self, word: &str, rest: &str, to: &mut Transcript) -> Result<(), AllocError> {
        match word {
            "load" => put_loaded(&self.files, self.alloc, to),
            "targets" => put_targets(&self.files, self.alloc, to),
            "entered" => put_entered(&self.files, self.alloc, rest, to),
            "is-target" => put_is_target(&self.files, self.alloc, rest, to)?,
            "find" => put_named(&self.files, self.alloc, rest, to)?,
            "sources" => put_sources(&self.files, self.alloc, rest, to)?,
            _ => to.line("not understood"),
        }
        Ok(())
    }

    /// Calls the program.
    fn call(
        &mut self,
        first: Option<&str>,
        rest: &str,
        is_brief: bool,
        to: &mut Transcript,
    ) -> Result<(), AllocError> {
        let words = words_of(self.alloc, first, rest)?;
        let failures = self.failures;
        self.failures = Failures::NONE;
        let files = &mut self.files;
        call(self.alloc, files, failures, words, is_brief, to)
    }

    /// Calls the program on the files, with one of them cut at each length.
    fn cut(&mut self, rest: &str, to: &mut Transcript) -> Result<(), AllocError> {
        let (name, rest) = rest.split_once(' ').unwrap_or((rest, ""));
        let words = words_of(self.alloc, Some(PROGRAM), rest)?;
        expect_logs(self.alloc, &mut self.files)?;
        put_cuts(self.alloc, &self.files, name, words.as_slice(), to)
    }

    fn answer(&mut self, word: &str, rest: &str, to: &mut Transcript) -> Result<(), AllocError> {
        match word {
            "do" => perform(self.alloc, &mut self.files, rest, false, to),
            "count" => perform(self.alloc, &mut self.files, rest, true, to),
            "make" => make(self.alloc, &self.files, rest, false, to),
            "make-by" => make(self.alloc, &self.files, rest, true, to),
            "run" => self.call(Some(PROGRAM), rest, false, to),
            "brief" => self.call(Some(PROGRAM), rest, true, to),
            "cut" => self.cut(rest, to),
            "apply" | "revert" | "keep" | "undo" | "redo" => {
                self.undoing.answer(word, &mut self.files, to)
            }
            "call" => self.call(None, rest, false, to),
            _ => self.ask(word, rest, to),
        }
    }
}

impl Case for ProjectCase {
    fn new(alloc: Global) -> Self {
        ProjectCase {
            alloc,
            files: Files::new(alloc),
            failures: Failures::NONE,
            undoing: Undoing::new(alloc),
        }
    }

    fn step(&mut self, line: &str, to: &mut Transcript) -> Result<(), AllocError> {
        if let Some(text) = line.strip_prefix("|") {
            let bytes = line_of(self.alloc, text)?;
            return self.files.extend(bytes.as_slice());
        }
        if line.is_empty() || line.starts_with('#') {
            return Ok(());
        }
        let (word, rest) = line.split_once(' ').unwrap_or((line, ""));
        if self.prepare(word, rest)? {
            return Ok(());
        }
        self.answer(word, rest, to)
    }
}
