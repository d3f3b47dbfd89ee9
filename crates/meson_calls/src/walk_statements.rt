//! The walk through the statements of files.

ghost use Rattle.std.specs.Prelude.{◌≡◌, ◌*◌, ◌<◌, ◌^◌, OnOk, length};
ghost use Rattle.meson_lex.specs.declared.kinds.Kind.TheVariants.{WordIf};
ghost use Rattle.meson_syntax.specs.Grammar.{expression_words, statement_words, branches_words, otherwise_words, statements_words, block_words};
ghost use Rattle.meson_syntax.specs.Reads.{IsSpanned};
ghost use Rattle.meson_syntax.specs.Tree.{branches_of, statements_of};
ghost use Rattle.meson_syntax.specs.View.{stmt_view, stmts_view, block_view, branch_view, branches_view, view};
ghost use Rattle.meson_calls.specs.Loading.{AreParsed, named_trees, views};
ghost use Rattle.meson_calls.specs.Project.{place, child};
ghost use Rattle.meson_calls.specs.Parts.{parts_of_statement, parts_of_statements, parts_of_block, parts_of_branches, parts_of_otherwise, parts_of_file, parts};
ghost use Rattle.meson_calls.specs.Walks.{KeepsParts};
ghost use Rattle.meson_calls.specs.inside.Walks.{else_view, parts_of_branch, parts_inside};

use crate::keeper::Keeper;
use crate::part::{Part, Walk};
use meson_splice::FileSet;
use meson_syntax::{Block, Branch, Parsed, Stmt};
use std::alloc::{AllocError, Global};

impl<'t> Walk<'t> {
    /// Visits the statement that is the n-th child, and the parts within it.
    #[cycle(statements)]
    fn in_stmt_at(
        &self,
        number: usize,
        stmt: &'t Stmt,
        path: &mut Vec<usize>,
        keeper: &mut Keeper<'_, 't>,
    ) -> Result<(), AllocError>
        requires fits { length (statement_words (stmt_view self.now.source.now stmt.now)) < 2 ^ 64 }
        ensures back { OnOk result (path.new.items ≡ path.old.items) }
        ensures all { OnOk result (KeepsParts keeper.old
            (parts_of_statement (child (place self.now.file path.old.items) number) (stmt_view self.now.source.now stmt.now)) keeper.new) }
    {
        path.push(number)?;
        self.visit(path.as_slice(), Part::Statement(stmt), keeper)?;
        self.in_stmt(stmt, path, keeper)?;
        path.pop();
        Ok(())
    }

    /// Visits the parts within the statement at the path.
    #[cycle(statements)]
    fn in_stmt(
        &self,
        stmt: &'t Stmt,
        path: &mut Vec<usize>,
        keeper: &mut Keeper<'_, 't>,
    ) -> Result<(), AllocError>
        requires fits { length (statement_words (stmt_view self.now.source.now stmt.now)) < 2 ^ 64 }
        ensures back { OnOk result (path.new.items ≡ path.old.items) }
        ensures all { OnOk result (KeepsParts keeper.old
            (parts_inside (place self.now.file path.old.items) (stmt_view self.now.source.now stmt.now)) keeper.new) }
    {
        match stmt {
            Stmt::Expr(value) => self.in_child(0, value, path, keeper),
            Stmt::Assign { value, .. } => self.in_child(0, value, path, keeper),
            Stmt::If {
                branches,
                otherwise,
                ..
            } => {
                let branches = branches.get();
                self.in_branches(branches, path, keeper)?;
                self.in_otherwise(2 * branches.len(), otherwise, path, keeper)?;
                Ok(())
            }
            Stmt::Foreach { items, body, .. } => {
                self.in_child(0, items, path, keeper)?;
                self.in_block(1, body, path, keeper)?;
                Ok(())
            }
            Stmt::Break(_) => Ok(()),
            Stmt::Continue(_) => Ok(()),
        }
    }

    /// Visits those of the block that is the n-th child.
    #[cycle(statements)]
    fn in_block(
        &self,
        number: usize,
        block: &'t Block,
        path: &mut Vec<usize>,
        keeper: &mut Keeper<'_, 't>,
    ) -> Result<(), AllocError>
        requires fits { length (block_words (block_view self.now.source.now block.now)) < 2 ^ 64 }
        ensures back { OnOk result (path.new.items ≡ path.old.items) }
        ensures all { OnOk result (KeepsParts keeper.old
            (parts_of_block (child (place self.now.file path.old.items) number) (block_view self.now.source.now block.now)) keeper.new) }
    {
        path.push(number)?;
        self.in_stmts(block.statements.get(), path, keeper)?;
        path.pop();
        Ok(())
    }

    #[cycle(statements)]
    fn in_stmts(
        &self,
        stmts: &'t [Stmt],
        path: &mut Vec<usize>,
        keeper: &mut Keeper<'_, 't>,
    ) -> Result<(), AllocError>
        requires fits { length (statements_words (statements_of (stmts_view self.now.source.now stmts.now))) < 2 ^ 64 }
        ensures back { OnOk result (path.new.items ≡ path.old.items) }
        ensures all { OnOk result (KeepsParts keeper.old
            (parts_of_statements (place self.now.file path.old.items) 0 (statements_of (stmts_view self.now.source.now stmts.now))) keeper.new) }
    {
        for i in 0..stmts.len() {
            self.in_stmt_at(i, &stmts[i], path, keeper)?;
        }
        Ok(())
    }

    /// Visits those of conditions and of the blocks after them.
    #[cycle(statements)]
    fn in_branches(
        &self,
        branches: &'t [Branch],
        path: &mut Vec<usize>,
        keeper: &mut Keeper<'_, 't>,
    ) -> Result<(), AllocError>
        requires fits { length (branches_words (branches_of (branches_view self.now.source.now branches.now)) WordIf) < 2 ^ 64 }
        ensures back { OnOk result (path.new.items ≡ path.old.items) }
        ensures all { OnOk result (KeepsParts keeper.old
            (parts_of_branches (place self.now.file path.old.items) 0 (branches_of (branches_view self.now.source.now branches.now))) keeper.new) }
    {
        for i in 0..branches.len() {
            self.in_branch(i, &branches[i], path, keeper)?;
        }
        Ok(())
    }

    /// Visits those of the n-th condition and of the block after it.
    #[cycle(statements)]
    fn in_branch(
        &self,
        number: usize,
        branch: &'t Branch,
        path: &mut Vec<usize>,
        keeper: &mut Keeper<'_, 't>,
    ) -> Result<(), AllocError>
        requires small { number < 2 ^ 63 }
        requires condition { length (expression_words (branch_view self.now.source.now branch.now).0) < 2 ^ 64 }
        requires block { length (block_words (branch_view self.now.source.now branch.now).1) < 2 ^ 64 }
        ensures back { OnOk result (path.new.items ≡ path.old.items) }
        ensures all { OnOk result (KeepsParts keeper.old
            (parts_of_branch (place self.now.file path.old.items) (2 * number) (branch_view self.now.source.now branch.now)) keeper.new) }
    {
        self.in_child(2 * number, &branch.condition, path, keeper)?;
        self.in_block(2 * number + 1, &branch.block, path, keeper)?;
        Ok(())
    }

    /// Visits those of the block after `else`, which is the n-th child.
    #[cycle(statements)]
    fn in_otherwise(
        &self,
        number: usize,
        otherwise: &'t Option<Block>,
        path: &mut Vec<usize>,
        keeper: &mut Keeper<'_, 't>,
    ) -> Result<(), AllocError>
        requires fits { length (otherwise_words (else_view self.now.source.now otherwise.now)) < 2 ^ 64 }
        ensures back { OnOk result (path.new.items ≡ path.old.items) }
        ensures all { OnOk result (KeepsParts keeper.old
            (parts_of_otherwise (place self.now.file path.old.items) number (else_view self.now.source.now otherwise.now)) keeper.new) }
    {
        match otherwise {
            Some(block) => self.in_block(number, block, path, keeper),
            None => Ok(()),
        }
    }
}

/// Visits the parts of the file of this number, in source order: each before those within it.
///
/// # Errors
/// Out of memory.
pub fn walk_file<'t>(
    alloc: Global,
    file: usize,
    source: &'t [u8],
    parsed: &'t Parsed,
    keeper: &mut Keeper<'_, 't>,
) -> Result<(), AllocError>
    requires { IsSpanned source.now (view source.now parsed.now) }
    ensures { OnOk result (KeepsParts keeper.old
        (parts_of_file file (view source.now parsed.now)) keeper.new) }
{
    let walk = Walk {
        alloc,
        file,
        source,
    };
    let mut path = Vec::new(alloc);
    walk.in_stmts(parsed.block.statements.get(), &mut path, keeper)?;
    Ok(())
}

/// Visits the parts of the files of a project, in file order and source order.
///
/// # Errors
/// Out of memory.
pub fn walk_files<'t>(
    alloc: Global,
    files: &'t FileSet,
    trees: &'t [Parsed],
    keeper: &mut Keeper<'_, 't>,
) -> Result<(), AllocError>
    requires { AreParsed files.now trees.now }
    ensures { OnOk result (KeepsParts keeper.old
        (parts (named_trees files.now (views files.now trees.now))) keeper.new) }
{
    for i in 0..trees.len() {
        walk_file(alloc, i, files.bytes(i), &trees[i], keeper)?;
    }
    Ok(())
}
