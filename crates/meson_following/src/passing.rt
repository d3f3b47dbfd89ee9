//! Statements that are passed over, since nothing in them matters to a variable.

ghost use Rattle.std.specs.Prelude.{◌≡◌, ◌≤◌, IfOk, OnOk, false, length, true};
ghost use Rattle.memchr.specs.Find.{Nowhere, OccursAt};
ghost use Rattle.meson_syntax.specs.Tree.{branches_of};
ghost use Rattle.meson_syntax.specs.View.{block_view, branches_view, expr_view, stmt_view, text_at};
ghost use Rattle.meson_calls.specs.Calls.{call_of};
ghost use Rattle.meson_calls.specs.ChosenNotes.{Source};
ghost use Rattle.meson_calls.specs.Project.{child, place};
ghost use Rattle.meson_calls.specs.Spelling.{HasNone, HasNoneOf};
ghost use Rattle.meson_calls.specs.inside.Walks.{else_view};
ghost use Rattle.meson_following.specs.CodeMakers.{known_view};
ghost use Rattle.meson_following.specs.Passing.{AreSearches, IsSearch, MayPass, are_branches_calm, asks_in, is_block_calm, is_calm, is_error, is_kept, is_otherwise_calm, mattering_words};

use crate::makers::{Known, MAX_MAKERS};
use crate::walk::{Aim, Walk, is_in};
use memchr::memmem::Finder;
use meson_calls::roles::text_of;
use meson_lex::Span;
use meson_steps::statements::span_of_stmt;
use meson_syntax::{Block, Branch, Expr, Stmt};
use std::alloc::AllocError;

/// A search for a word in parts of a text. If these come in order, each byte is looked at about once.
#[derive(Drop)]
pub(crate) struct WordSearch<'w> {
    word: Finder<'w>,
    /// The word begins at no offset from this one on, in bytes, ..
    from: usize,
    /// .. up to this one.
    to: usize,
}

/// Searches for the words of which one is in each statement that matters to a variable.
#[derive(Drop)]
pub(crate) struct WordSearches<'w> {
    variable: WordSearch<'w>,
    setter: WordSearch<'w>,
    folder: WordSearch<'w>,
}

impl<'w> WordSearch<'w> {
    fn new(word: &'w [u8]) -> WordSearch<'w>
        ensures word { result.word ≡ word.now }
        ensures none { (bytes : Source) → IsSearch bytes result }
    {
        WordSearch {
            word: Finder::new(word),
            from: 0,
            to: 0,
        }
    }

    /// The first offset from this one on at which the word begins; the length of the text if it begins at no such offset.
    fn first_from(&self, bytes: &[u8], from: usize) -> usize
        requires { from ≤ length bytes.now }
        ensures { Nowhere (OccursAt bytes.now self.now.word) from result }
    {
        match self.word.find(&bytes[from..]) {
            Some(offset) => from + offset,
            None => bytes.len(),
        }
    }

    /// Whether the word may be in a part of the text.
    fn may_be_in(&mut self, bytes: &[u8], part: Span) -> bool
        requires { IsSearch bytes.now self.old }
        ensures same { self.new.word ≡ self.old.word }
        ensures passed { IsSearch bytes.now self.new }
        ensures none { result ≡ false → HasNone self.old.word (text_at bytes.now part) }
    {
        if part.from >= part.to || part.from > bytes.len() {
            return true;
        }
        if part.from < self.from || self.to < part.from {
            self.to = self.first_from(bytes, part.from);
            self.from = part.from;
        }
        self.to < part.to
    }
}

impl<'w> WordSearches<'w> {
    /// Those for what matters to a variable.
    pub(crate) fn new(variable: &'w [u8]) -> WordSearches<'w>
        ensures variable { result.variable.word ≡ variable.now }
        ensures searches { (bytes : Source) → AreSearches bytes result }
    {
        WordSearches {
            variable: WordSearch::new(variable),
            setter: WordSearch::new(b"_variable".as_slice()),
            folder: WordSearch::new(b"subdir".as_slice()),
        }
    }

    /// Whether one of the words may be in a part of the text.
    fn may_be_in(&mut self, bytes: &[u8], part: Span) -> bool
        requires { AreSearches bytes.now self.old }
        ensures same { self.new.variable.word ≡ self.old.variable.word }
        ensures passed { AreSearches bytes.now self.new }
        ensures none { result ≡ false → HasNoneOf (mattering_words self.old.variable.word) (text_at bytes.now part) }
    {
        if self.variable.may_be_in(bytes, part) {
            return true;
        }
        if self.setter.may_be_in(bytes, part) {
            return true;
        }
        self.folder.may_be_in(bytes, part)
    }
}

/// Whether an expression is a call of `error`.
fn is_error(source: &[u8], value: &Expr) -> bool
    ensures { result ≡ is_error (call_of (expr_view source.now value.now)) }
{
    match value {
        Expr::Call { name, .. } => text_of(source, *name) == b"error".as_slice(),
        _ => false,
    }
}

/// Whether no turn of a loop ends in a statement, and no call of `error` is one of its statements.
#[cycle(calm)]
fn is_calm(source: &[u8], stmt: &Stmt) -> bool
    ensures { result ≡ is_calm (stmt_view source.now stmt.now) }
{
    match stmt {
        Stmt::Expr(value) => !is_error(source, value),
        Stmt::Assign { .. } => true,
        Stmt::If {
            branches,
            otherwise,
            ..
        } => are_branches_calm(source, branches.get()) && is_otherwise_calm(source, otherwise),
        Stmt::Foreach { body, .. } => is_block_calm(source, body),
        Stmt::Break(_) => false,
        Stmt::Continue(_) => false,
    }
}

#[cycle(calm)]
fn are_branches_calm(source: &[u8], branches: &[Branch]) -> bool
    ensures { result ≡ are_branches_calm (branches_of (branches_view source.now branches.now)) }
{
    for i in 0..branches.len() {
        if !is_block_calm(source, &branches[i].block) {
            return false;
        }
    }
    true
}

#[cycle(calm)]
fn is_otherwise_calm(source: &[u8], otherwise: &Option<Block>) -> bool
    ensures { result ≡ is_otherwise_calm (else_view source.now otherwise.now) }
{
    match otherwise {
        Some(block) => is_block_calm(source, block),
        None => true,
    }
}

#[cycle(calm)]
fn is_block_calm(source: &[u8], block: &Block) -> bool
    ensures { result ≡ is_block_calm (block_view source.now block.now) }
{
    let stmts = block.statements.get();
    for i in 0..stmts.len() {
        if !is_calm(source, &stmts[i]) {
            return false;
        }
    }
    true
}

/// Whether no more makers are known than are kept apart.
fn is_kept(known: &Known<'_>) -> bool
    ensures { result ≡ is_kept (known_view known.now) }
{
    match known {
        Some(made) => made.makers.len() <= MAX_MAKERS,
        None => true,
    }
}

impl Walk<'_> {
    /// Whether the place of the question is in what is at the path.
    fn asks_in(&self, path: &[usize]) -> bool
        ensures { result ≡ asks_in self.now.question.aim (place self.now.file path.now) }
    {
        match self.question.aim {
            Aim::Place(wanted) => is_in(wanted, self.file, path),
            Aim::Makers(_) => false,
        }
    }

    /// Whether the statement that is the n-th child of what is at the path, before which this is known, may be passed over.
    ///
    /// # Errors
    /// Out of memory.
    pub(crate) fn may_pass(
        &self,
        searches: &mut WordSearches<'_>,
        number: usize,
        stmt: &Stmt,
        now: &Known<'_>,
        path: &mut Vec<usize>,
    ) -> Result<bool, AllocError>
        requires { AreSearches self.now.source.now searches.old }
        ensures back { OnOk result (path.new.items ≡ path.old.items) }
        ensures same { OnOk result (searches.new.variable.word ≡ searches.old.variable.word) }
        ensures passed { OnOk result (AreSearches self.now.source.now searches.new) }
        ensures passes { IfOk result (λ is. is ≡ true → searches.old.variable.word ≡ self.now.question.variable.now
            → MayPass self.now (child (place self.now.file path.old.items) number) (stmt_view self.now.source.now stmt.now) (known_view now.now)) }
    {
        path.push(number)?;
        let asks = self.asks_in(path.as_slice());
        path.pop();
        if asks || !is_kept(now) {
            return Ok(false);
        }
        if searches.may_be_in(self.source, span_of_stmt(stmt)) {
            return Ok(false);
        }
        Ok(is_calm(self.source, stmt))
    }
}
