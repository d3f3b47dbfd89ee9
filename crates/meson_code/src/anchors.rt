//! The statement beside which code is put.

ghost use Rattle.std.specs.Prelude.{◌≡◌, IfOk, Ok, option_map};
ghost use Rattle.meson_syntax.specs.View.{Bytes, stmt_view};
ghost use Rattle.meson_calls.specs.Loading.{AreParsed, project};
ghost use Rattle.meson_calls.specs.Refusals.{RefusedAs};
ghost use Rattle.meson_targets.specs.inside.TargetViews.{place_view};
ghost use Rattle.meson_places.specs.Names.{loaded_in};
ghost use Rattle.meson_code.specs.Anchors.{anchor_by_id, anchor_on, holds_value, if_searched, statement_on, statement_with, the_anchor};

use crate::statements::first_on;
use meson_calls::{CallRef, Refusal};
use meson_places::Sources;
use meson_places::lines::Line;
use meson_places::lookup::{found_by_id, is_searched, numbered_file, searched_file};
use meson_steps::argument::{PlaceName, Search};
use meson_steps::statements::stmt_at;
use meson_syntax::Stmt;
use meson_targets::StatementPlace;
use meson_targets::holder::statement_of;
use std::alloc::{AllocError, Global};

/// Whether a statement is an expression by itself or an assignment.
fn holds_value(stmt: &Stmt) -> bool
    ensures { (source : Bytes) → result ≡ holds_value (stmt_view source stmt.now) }
{
    match stmt {
        Stmt::Expr(_) | Stmt::Assign { .. } => true,
        _ => false,
    }
}

/// The statement that is the expression at a place, or assigns it.
pub(crate) fn statement_with(
    alloc: Global,
    sources: Sources<'_>,
    place: &CallRef,
) -> Result<Option<StatementPlace>, AllocError>
    requires { AreParsed sources.files.now sources.trees.now }
    ensures { IfOk result (λ found. option_map place_view found ≡ statement_with (project (loaded_in sources.entry)) place.now) }
{
    let Some(found) = statement_of(alloc, place)? else {
        return Ok(None);
    };
    if found.block.file >= sources.trees.len() {
        return Ok(None);
    }
    match stmt_at(
        &sources.trees[found.block.file],
        &found.block.path,
        found.number,
    ) {
        Some(stmt) if holds_value(stmt) => Ok(Some(found)),
        _ => Ok(None),
    }
}

/// The statement that is what an id finds, or assigns it.
///
/// # Errors
/// The id finds nothing or more than one place, what it finds is within another expression, or out of memory.
fn anchor_by_id(
    alloc: Global,
    sources: Sources<'_>,
    within: Option<usize>,
    name: &PlaceName,
) -> Result<StatementPlace, Refusal>
    requires { AreParsed sources.files.now sources.trees.now }
    ensures found { IfOk result (λ a. anchor_by_id (loaded_in sources.entry) within name.now ≡ Ok (place_view a)) }
    ensures refused { RefusedAs result (anchor_by_id (loaded_in sources.entry) within name.now) }
{
    let place = found_by_id(alloc, sources, within, name)?;
    statement_with(alloc, sources, &place)?.ok_or(Refusal::NotStatement)
}

/// The first statement of the file of this number that begins on a line.
fn statement_on(
    alloc: Global,
    sources: Sources<'_>,
    file: usize,
    line: usize,
) -> Result<Option<StatementPlace>, AllocError>
    requires { AreParsed sources.files.now sources.trees.now }
    ensures { IfOk result (λ found. option_map place_view found ≡ statement_on (loaded_in sources.entry) file line) }
{
    if file >= sources.trees.len() {
        return Ok(None);
    }
    let line = Line::find(sources.files.bytes(file), line);
    first_on(alloc, file, line, &sources.trees[file])
}

/// A statement, if its file is searched.
///
/// # Errors
/// It is not.
fn if_searched(within: Option<usize>, found: StatementPlace) -> Result<StatementPlace, Refusal>
    ensures found { IfOk result (λ a. if_searched within (place_view found) ≡ Ok (place_view a)) }
    ensures refused { RefusedAs result (if_searched within (place_view found)) }
{
    if !is_searched(within, &found.block) {
        return Err(Refusal::NotFound);
    }
    Ok(found)
}

/// The statement that begins on a line of the file of this number, if the file is searched.
///
/// # Errors
/// No statement begins there, or out of memory.
fn anchor_on(
    alloc: Global,
    sources: Sources<'_>,
    within: Option<usize>,
    file: usize,
    line: usize,
) -> Result<StatementPlace, Refusal>
    requires { AreParsed sources.files.now sources.trees.now }
    ensures found { IfOk result (λ a. anchor_on (loaded_in sources.entry) within file line ≡ Ok (place_view a)) }
    ensures refused { RefusedAs result (anchor_on (loaded_in sources.entry) within file line) }
{
    let found = statement_on(alloc, sources, file, line)?.ok_or(Refusal::NotFound)?;
    if_searched(within, found)
}

/// The statement that a search finds: the one that begins on a line, or the one that is what another name finds or assigns it.
///
/// # Errors
/// The folder or the file of the line is not in the project; nothing is found, or more than one place; what is found is neither a statement nor assigned by
/// one; or out of memory.
pub fn find_anchor(
    alloc: Global,
    sources: Sources<'_>,
    search: &Search,
) -> Result<StatementPlace, Refusal>
    requires { AreParsed sources.files.now sources.trees.now }
    ensures found { IfOk result (λ a. the_anchor (loaded_in sources.entry) search.now ≡ Ok (place_view a)) }
    ensures refused { RefusedAs result (the_anchor (loaded_in sources.entry) search.now) }
{
    let within = searched_file(alloc, sources.files, &search.folder)?;
    match &search.name {
        PlaceName::Line { file, line } => {
            let file = numbered_file(sources.files, file.get())?;
            anchor_on(alloc, sources, within, file, *line)
        }
        name => anchor_by_id(alloc, sources, within, name),
    }
}
