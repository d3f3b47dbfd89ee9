//! A case on the places of a project.

use crate::answers::{Question, answer};
use meson_calls::loading::loaded;
use meson_case_files::{Case, Transcript, bytes_of, line_of};
use meson_places::Sources;
use meson_splice::FileSet;
use std::alloc::{AllocError, Global};

/// A file of the case.
#[derive(Drop)]
struct CaseFile {
    name: String,
    bytes: Vec<u8>,
}

/// The files of a project.
#[derive(Drop)]
pub struct PlaceCase {
    alloc: Global,
    files: Vec<CaseFile>,
}

impl PlaceCase {
    /// The files as a set. Of files with the same name the first is taken.
    fn file_set(&self) -> Result<FileSet, AllocError> {
        let mut set = FileSet::new(self.alloc);
        for file in &self.files {
            let name = String::from_str(self.alloc, file.name.as_str())?;
            let bytes = Vec::from_slice(self.alloc, file.bytes.as_slice())?;
            let _twice = set.push(name, bytes).is_err();
        }
        Ok(set)
    }

    /// Answers a question about the files.
    fn ask(&self, word: &str, words: &str, to: &mut Transcript) -> Result<(), AllocError> {
        let files = self.file_set()?;
        match loaded(self.alloc, &files) {
            Ok(trees) => {
                let sources = Sources {
                    files: &files,
                    trees: trees.as_slice(),
                };
                let question = Question { word, words };
                answer(self.alloc, sources, question, to)
            }
            Err(fault) => {
                to.show_line(&fault);
                Ok(())
            }
        }
    }
}

impl Case for PlaceCase {
    fn new(alloc: Global) -> Self {
        PlaceCase {
            alloc,
            files: Vec::new(alloc),
        }
    }

    fn step(&mut self, line: &str, to: &mut Transcript) -> Result<(), AllocError> {
        if let Some(text) = line.strip_prefix("|") {
            let bytes = line_of(self.alloc, text)?;
            if let Some(file) = self.files.last_mut() {
                file.bytes.extend_from_slice(bytes.as_slice())?;
            }
            return Ok(());
        }
        if line.is_empty() || line.starts_with('#') {
            return Ok(());
        }
        let (word, rest) = line.split_once(' ').unwrap_or((line, ""));
        if word == "file" {
            let name = String::from_str(self.alloc, rest)?;
            return Ok(
                self.files.push(CaseFile {
                    name,
                    bytes: Vec::new(self.alloc),
                })?,
            );
        }
        self.ask(word, rest, to)
    }
}
