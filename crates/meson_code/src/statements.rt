//! The statement that begins on a line of a file.

ghost use Rattle.std.specs.Prelude.{◌≡◌, ◌∷◌, ◌<◌, ◌^◌, IfOk, OnOk, length, option_map};
ghost use Rattle.meson_lex.specs.declared.kinds.Kind.TheVariants.{WordIf};
ghost use Rattle.meson_syntax.specs.Grammar.{block_words, branches_words, otherwise_words, statement_words, statements_words};
ghost use Rattle.meson_syntax.specs.Reads.{IsSpanned};
ghost use Rattle.meson_syntax.specs.Tree.{branches_of, statements_of};
ghost use Rattle.meson_syntax.specs.View.{block_view, branches_view, otherwise_view, stmt_view, stmts_view, view};
ghost use Rattle.meson_calls.specs.Project.{child, place};
ghost use Rattle.meson_targets.specs.inside.TargetViews.{place_view};
ghost use Rattle.meson_code.specs.Statements.{first_on, placed_in, statements_from, statements_of_block, statements_of_branches};
ghost use Rattle.meson_code.specs.Statements.{statements_of_file, statements_of_otherwise, statements_within};

use meson_calls::place::place_of;
use meson_places::lines::Line;
use meson_steps::statements::span_of_stmt;
use meson_syntax::{Block, Branch, Parsed, Stmt};
use meson_targets::StatementPlace;
use std::alloc::{AllocError, Global};

/// A search for the first statement that begins on a line of the file of a number.
#[derive(Clone, Copy)]
struct Seeker<'s> {
    alloc: Global,
    file: usize,
    line: Line<'s>,
}

impl<'s> Seeker<'s> {
    /// The n-th statement of the block at the path, or the first one within it.
    #[cycle(statements)]
    fn at_stmt(
        &self,
        number: usize,
        stmt: &Stmt,
        path: &mut Vec<usize>,
    ) -> Result<Option<StatementPlace>, AllocError>
        requires fits { length (statement_words (stmt_view self.now.line.source.now stmt.now)) < 2 ^ 64 }
        ensures back { OnOk result (path.new.items ≡ path.old.items) }
        ensures first { let source = self.now.line.source.now in
            let block = place self.now.file path.old.items in
            IfOk result (λ found. option_map place_view found ≡ first_on source self.now.line.number
            (placed_in block number (stmt_view source stmt.now) ∷ statements_within (child block number) (stmt_view source stmt.now))) }
    {
        if self.line.has(span_of_stmt(stmt).from) {
            let block = place_of(self.alloc, self.file, path.as_slice())?;
            return Ok(Some(StatementPlace { block, number }));
        }
        path.push(number)?;
        let found = self.in_stmt(stmt, path)?;
        path.pop();
        Ok(found)
    }

    /// The first one within the statement at the path.
    #[cycle(statements)]
    fn in_stmt(
        &self,
        stmt: &Stmt,
        path: &mut Vec<usize>,
    ) -> Result<Option<StatementPlace>, AllocError>
        requires fits { length (statement_words (stmt_view self.now.line.source.now stmt.now)) < 2 ^ 64 }
        ensures back { OnOk result (path.new.items ≡ path.old.items) }
        ensures first { let source = self.now.line.source.now in
            IfOk result (λ found. option_map place_view found ≡ first_on source self.now.line.number
            (statements_within (place self.now.file path.old.items) (stmt_view source stmt.now))) }
    {
        match stmt {
            Stmt::If {
                branches,
                otherwise,
                ..
            } => {
                let branches = branches.get();
                if let Some(found) = self.in_branches(branches, path)? {
                    return Ok(Some(found));
                }
                self.in_otherwise(2 * branches.len(), otherwise, path)
            }
            Stmt::Foreach { body, .. } => self.in_block(1, body, path),
            Stmt::Expr(_) | Stmt::Break(_) | Stmt::Continue(_) => Ok(None),
            Stmt::Assign { .. } => Ok(None),
        }
    }

    /// The first one of the block that is the n-th child.
    #[cycle(statements)]
    fn in_block(
        &self,
        number: usize,
        block: &Block,
        path: &mut Vec<usize>,
    ) -> Result<Option<StatementPlace>, AllocError>
        requires fits { length (block_words (block_view self.now.line.source.now block.now)) < 2 ^ 64 }
        ensures back { OnOk result (path.new.items ≡ path.old.items) }
        ensures first { let source = self.now.line.source.now in
            IfOk result (λ found. option_map place_view found ≡ first_on source self.now.line.number
            (statements_of_block (child (place self.now.file path.old.items) number) (block_view source block.now))) }
    {
        path.push(number)?;
        let found = self.in_stmts(block.statements.get(), path)?;
        path.pop();
        Ok(found)
    }

    /// The first one of the statements of the block at the path.
    #[cycle(statements)]
    fn in_stmts(
        &self,
        stmts: &[Stmt],
        path: &mut Vec<usize>,
    ) -> Result<Option<StatementPlace>, AllocError>
        requires fits { length (statements_words (statements_of (stmts_view self.now.line.source.now stmts.now))) < 2 ^ 64 }
        ensures back { OnOk result (path.new.items ≡ path.old.items) }
        ensures first { let source = self.now.line.source.now in
            IfOk result (λ found. option_map place_view found ≡ first_on source self.now.line.number
            (statements_from (place self.now.file path.old.items) 0 (statements_of (stmts_view source stmts.now)))) }
    {
        for i in 0..stmts.len() {
            if let Some(found) = self.at_stmt(i, &stmts[i], path)? {
                return Ok(Some(found));
            }
        }
        Ok(None)
    }

    /// The first one of the blocks of branches, which are the children 1, 3 and so on.
    #[cycle(statements)]
    fn in_branches(
        &self,
        branches: &[Branch],
        path: &mut Vec<usize>,
    ) -> Result<Option<StatementPlace>, AllocError>
        requires fits { length (branches_words (branches_of (branches_view self.now.line.source.now branches.now)) WordIf) < 2 ^ 64 }
        ensures back { OnOk result (path.new.items ≡ path.old.items) }
        ensures first { let source = self.now.line.source.now in
            IfOk result (λ found. option_map place_view found ≡ first_on source self.now.line.number
            (statements_of_branches (place self.now.file path.old.items) 0 (branches_of (branches_view source branches.now)))) }
    {
        for i in 0..branches.len() {
            if let Some(found) = self.in_block(2 * i + 1, &branches[i].block, path)? {
                return Ok(Some(found));
            }
        }
        Ok(None)
    }

    /// The first one of the block after `else`, which is the n-th child.
    #[cycle(statements)]
    fn in_otherwise(
        &self,
        number: usize,
        otherwise: &Option<Block>,
        path: &mut Vec<usize>,
    ) -> Result<Option<StatementPlace>, AllocError>
        requires fits { length (otherwise_words (otherwise_view self.now.line.source.now otherwise.now)) < 2 ^ 64 }
        ensures back { OnOk result (path.new.items ≡ path.old.items) }
        ensures first { let source = self.now.line.source.now in
            IfOk result (λ found. option_map place_view found ≡ first_on source self.now.line.number
            (statements_of_otherwise (place self.now.file path.old.items) number (otherwise_view source otherwise.now))) }
    {
        match otherwise {
            Some(block) => self.in_block(number, block, path),
            None => Ok(None),
        }
    }
}

/// The first statement that begins on a line of the file of this number.
///
/// # Errors
/// Out of memory.
pub(crate) fn first_on(
    alloc: Global,
    file: usize,
    line: Line<'_>,
    parsed: &Parsed,
) -> Result<Option<StatementPlace>, AllocError>
    requires { IsSpanned line.source.now (view line.source.now parsed.now) }
    ensures { IfOk result (λ found. option_map place_view found
        ≡ first_on line.entry.source.now line.entry.number (statements_of_file file (view line.entry.source.now parsed.now))) }
{
    let seeker = Seeker { alloc, file, line };
    let mut path = Vec::new(alloc);
    seeker.in_stmts(parsed.block.statements.get(), &mut path)
}
