//! The statement that is a call, or sets a variable to it.

ghost use Rattle.std.specs.Prelude.{◌≡◌, IfOk, option_and_then, option_map};
ghost use Rattle.meson_syntax.specs.View.{stmt_view};
ghost use Rattle.meson_calls.specs.Loading.{AreParsed, named_trees, views};
ghost use Rattle.meson_targets.specs.TargetEdits.{held_by, holder, statement_of, statement_there};
ghost use Rattle.meson_targets.specs.inside.TargetViews.{held_view, holder_view, place_view};

use crate::uses::StatementPlace;
use meson_calls::CallRef;
use meson_calls::roles::text_of;
use meson_splice::FileSet;
use meson_steps::statements::stmt_at;
use meson_syntax::{Assignment, Many, Parsed, Path, Stmt};
use std::alloc::{AllocError, Global};

/// What a statement does with its expression: nothing more, or it sets a variable of this name to it.
#[derive(Clone, Copy)]
pub(crate) enum Held<'t> {
    Alone,
    SetTo(&'t [u8]),
}

/// A statement, and what it does with its expression.
#[derive(Drop)]
pub(crate) struct Holder<'t> {
    pub statement: StatementPlace,
    pub held: Held<'t>,
}

/// What a statement does with its expression.
fn held_by<'t>(source: &'t [u8], stmt: &Stmt) -> Option<Held<'t>>
    ensures { option_map held_view result ≡ held_by (stmt_view source.entry.now stmt.now) }
{
    match stmt {
        Stmt::Expr(_) => Some(Held::Alone),
        Stmt::Assign {
            name,
            assignment,
            ..
        } => match assignment {
            Assignment::Set => Some(Held::SetTo(text_of(source, *name))),
            Assignment::Add => None,
        },
        _ => None,
    }
}

/// The statement whose expression would be at the place: that of the block around it, at the number before the last one of the path.
///
/// # Errors
/// Out of memory.
pub fn statement_of(alloc: Global, call: &CallRef) -> Result<Option<StatementPlace>, AllocError>
    ensures { IfOk result (λ line. option_map place_view line ≡ statement_of call.now) }
{
    let steps = call.path.steps.get();
    if steps.len() < 2 {
        return Ok(None);
    }
    let above = steps.len() - 2;
    let block = Vec::from_slice(alloc, &steps[..above])?;
    Ok(Some(StatementPlace {
        block: CallRef {
            file: call.file,
            path: Path {
                steps: Many::of(block),
            },
        },
        number: steps[above],
    }))
}

/// What the statement there does with its expression, if there is one.
fn held_at<'t>(files: &'t FileSet, trees: &[Parsed], line: &StatementPlace) -> Option<Held<'t>>
    requires { AreParsed files.now trees.now }
    ensures { let project = named_trees files.entry.now (views files.entry.now trees.now) in
        option_map held_view result ≡ option_and_then held_by (statement_there project (place_view line.now)) }
{
    if line.block.file >= trees.len() {
        return None;
    }
    match stmt_at(&trees[line.block.file], &line.block.path, line.number) {
        Some(stmt) => held_by(files.bytes(line.block.file), stmt),
        None => None,
    }
}

/// The statement that is the call at a place or sets a variable to it, if one does.
///
/// # Errors
/// Out of memory.
pub(crate) fn holder_of<'t>(
    alloc: Global,
    files: &'t FileSet,
    trees: &[Parsed],
    call: &CallRef,
) -> Result<Option<Holder<'t>>, AllocError>
    requires { AreParsed files.now trees.now }
    ensures { let project = named_trees files.entry.now (views files.entry.now trees.now) in
        IfOk result (λ found. option_map holder_view found ≡ holder project call.now) }
{
    let Some(statement) = statement_of(alloc, call)? else {
        return Ok(None);
    };
    match held_at(files, trees, &statement) {
        Some(held) => Ok(Some(Holder { statement, held })),
        None => Ok(None),
    }
}
