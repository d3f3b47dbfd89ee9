//! Code that is given for statements.

ghost use Rattle.std.specs.Prelude.{◌≡◌, IfOk, List, length, true, ℕ};
ghost use Rattle.std.specs.Str.{IsUtf8};
ghost use Rattle.meson_lex.specs.Items.{IsItemList, Lexeme};
ghost use Rattle.meson_syntax.specs.Reads.{Reads};
ghost use Rattle.meson_syntax.specs.Tree.{Plain};
ghost use Rattle.meson_edit.specs.ExchangedLines.{IsLinesText, file_statements};
ghost use Rattle.meson_statements.specs.Code.{IsStatements};
ghost use Rattle.meson_statements.specs.CodeTexts.{statement_code};
ghost use Rattle.meson_statements.specs.Places.{IsBeside, text_at};

use crate::places::Surroundings;
use meson_splice::Text;
use meson_syntax::{ParseFault, parse};
use std::alloc::{AllocError, Global};
use std::marker::Model;

/// A text that is one statement of the grammar or more. Contracts see its bytes.
#[derive(Debug, Drop)]
pub struct StatementCode {
    text: Text,
}

impl Model for StatementCode {
    ghost use Rattle.std.specs.Prelude.{ℕ, List};
    ghost use Rattle.meson_statements.specs.Code.{IsStatements};

    ghost Value = { List ℕ };

    ghost view = { λ c. c.text };

    ghost invariant = { λ c. IsStatements c.text };
}

/// Whether a text is one statement of the grammar or more.
///
/// # Errors
/// Out of memory.
fn has_statements(alloc: Global, text: &str) -> Result<bool, AllocError>
    ensures yes { IfOk result (λ b. b ≡ true → IsStatements text.now) }
    ensures no { IsStatements text.now → IfOk result (λ b. b ≡ true) }
{
    match parse(alloc, text.as_bytes()) {
        Ok(tree) => Ok(!tree.block.statements.get().is_empty()),
        Err(ParseFault::OutOfMemory) => Err(AllocError),
        Err(_) => Ok(false),
    }
}

impl StatementCode {
    /// The code of a text but for the white space at both of its ends, if that is statements of the grammar.
    ///
    /// # Errors
    /// Out of memory.
    pub fn of(alloc: Global, text: &str) -> Result<Option<StatementCode>, AllocError>
        ensures code { IfOk result (λ o. o ≡ statement_code text.now) }
    {
        let code = text.trim_ascii();
        if !has_statements(alloc, code)? {
            return Ok(None);
        }
        let text = Text::of(String::from_str(alloc, code)?);
        Ok(Some(StatementCode { text }))
    }

    /// The text.
    pub fn get(&self) -> &str
        ensures text { result.now ≡ self.now }
        ensures statements { IsStatements self.now }
    {
        self.text.get()
    }

    /// What is inserted beside a statement or at the end of a file: the lines of the code, each with the indent of that statement and with the line end of the
    /// file, and the blank lines that part them from what is there.
    ///
    /// # Errors
    /// Out of memory.
    pub fn placed(&self, alloc: Global, around: Surroundings<'_>) -> Result<Vec<u8>, AllocError>
        requires { IsBeside around.side (length around.source.now) }
        ensures bytes { (xs ys : List Lexeme) → IsItemList around.entry.source.now xs → IsItemList self.now ys
            → IfOk result (λ v. v.items ≡ text_at around.entry.source.now xs around.entry.blank self.now ys around.entry.side) }
        ensures lines { (xs : List Lexeme) → IsItemList around.entry.source.now xs → (t : Plain) → Reads self.now t
            → IfOk result (λ v. IsLinesText v.items (file_statements t)) }
        ensures utf8 { (xs : List Lexeme) → IsItemList around.entry.source.now xs → IfOk result (λ v. IsUtf8 v.items) }
    {
        around.placed(alloc, self.text.get().as_bytes())
    }
}
