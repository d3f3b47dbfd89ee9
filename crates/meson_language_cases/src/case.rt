//! A case on a text.

use crate::edits::{edit_of, lay_out, put_splices};
use crate::moved::{put_moved, put_shifted};
use crate::nodes::{put_elements, put_expression};
use crate::putting::put_put;
use crate::texts::{
    put_copied, put_depth, put_first_fault, put_identifier, put_items, put_list, put_list_within,
    put_literal, put_read, put_value, put_wide, put_within,
};
use crate::tree::{put_spans, put_tree};
use meson_case_files::{Case, Transcript, bytes_of, line_of};
use std::alloc::{AllocError, Global};

/// The lines of the text that were read.
#[derive(Drop)]
pub struct TextCase {
    alloc: Global,
    text: Vec<u8>,
}

/// Answers the question of a word about a text. An unknown word is no question.
fn answer(alloc: Global, word: &str, text: &[u8], to: &mut Transcript) -> bool {
    match word {
        "items" => put_items(text, to),
        "fault" => put_first_fault(text, to),
        "copy" => put_copied(alloc, text, to),
        "tree" => put_tree(alloc, text, to),
        "spans" => put_spans(alloc, text, to),
        "read" => put_read(alloc, text, to),
        "wide" => put_wide(alloc, text, to),
        "round" | "square" | "curly" => put_list(alloc, word, text, to),
        "depth" => put_depth(alloc, text, to),
        "value" => put_value(alloc, text, to),
        "literal" => put_literal(alloc, text, to),
        "identifier" => put_identifier(text, to),
        _ => return false,
    }
    true
}

impl TextCase {
    /// Answers the question of a word about the words after it, or about the text.
    fn ask(&self, word: &str, rest: &str, to: &mut Transcript) -> Result<bool, AllocError> {
        if rest.is_empty() {
            return Ok(answer(self.alloc, word, self.text.as_slice(), to));
        }
        let text = bytes_of(self.alloc, rest)?;
        Ok(answer(self.alloc, word, text.as_slice(), to))
    }

    /// Answers the question of a word about the text and the words after it.
    fn ask_about(&self, word: &str, rest: &str, to: &mut Transcript) -> Result<(), AllocError> {
        let text = self.text.as_slice();
        match word {
            "expression" => put_expression(self.alloc, text, rest, to),
            "elements" => put_elements(self.alloc, text, rest, to),
            "within" => {
                put_within(self.alloc, text, rest, to);
                Ok(())
            }
            "round-within" | "square-within" | "curly-within" => {
                put_list_within(self.alloc, word, text, rest, to);
                Ok(())
            }
            "put" => put_put(self.alloc, text, rest, to),
            "moved" => put_moved(self.alloc, text, rest, to),
            "shifted" => put_shifted(self.alloc, text, rest, to),
            "splices" => self.splices(rest, to),
            _ => self.edit(word, rest, to),
        }
    }

    /// The splices alone of an edit.
    fn splices(&self, words: &str, to: &mut Transcript) -> Result<(), AllocError> {
        let (word, rest) = words.split_once(' ').unwrap_or((words, ""));
        match edit_of(word) {
            Some(edit) => put_splices(self.alloc, self.text.as_slice(), edit, rest, to),
            None => Ok(()),
        }
    }

    fn edit(&self, word: &str, rest: &str, to: &mut Transcript) -> Result<(), AllocError> {
        match edit_of(word) {
            Some(edit) => lay_out(self.alloc, self.text.as_slice(), edit, rest, to),
            None => {
                to.line("not understood");
                Ok(())
            }
        }
    }
}

impl Case for TextCase {
    fn new(alloc: Global) -> Self {
        TextCase {
            alloc,
            text: Vec::new(alloc),
        }
    }

    fn step(&mut self, line: &str, to: &mut Transcript) -> Result<(), AllocError> {
        if let Some(text) = line.strip_prefix("|") {
            let bytes = line_of(self.alloc, text)?;
            return self.text.extend_from_slice(bytes.as_slice());
        }
        if line.is_empty() || line.starts_with('#') {
            return Ok(());
        }
        let (word, rest) = line.split_once(' ').unwrap_or((line, ""));
        if self.ask(word, rest, to)? {
            return Ok(());
        }
        self.ask_about(word, rest, to)
    }
}
