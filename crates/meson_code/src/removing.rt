//! The removal of a statement from a project, and of the assignments that nothing needs after that.

ghost use Rattle.std.specs.Prelude.{◌≡◌, ◌∷◌, ◌++◌, [], true, IfErr, IfOk, List, OnErr, OnOk, length};
ghost use Rattle.meson_calls.specs.Loading.{AreParsed, IsProject, Loaded, project};
ghost use Rattle.meson_calls.specs.Notes.{notes};
ghost use Rattle.meson_calls.specs.Refusals.{IfRefused};
ghost use Rattle.meson_steps.specs.Done.{IsDone, MayNotBeDone};
ghost use Rattle.meson_steps.specs.ResultLimits.{plain_trees};
ghost use Rattle.meson_steps.specs.Steps as meant;
ghost use Rattle.meson_steps.specs.Working.{IsFresh, Restores, so_far};
ghost use Rattle.meson_targets.specs.inside.TargetViews.{place_view};
ghost use Rattle.meson_places.specs.Names.{loaded_in};
ghost use Rattle.meson_code.specs.AnchorLaws.{IsStatementAt};
ghost use Rattle.meson_code.specs.Removal.{removal_step};
ghost use Rattle.meson_code.specs.Removing.{code_removed, code_removed_at};
ghost use Rattle.meson_code.specs.Unused.{names_read, unused_steps};
ghost use Rattle.meson_code.specs.inside.Removing.{HasRemoved, IsNextRemoval};

use crate::anchors::find_anchor;
use crate::removal::{removal_step, removed_at};
use crate::unused::{names_read, next_unused};
use meson_calls::Refusal;
use meson_calls::notes::notes_of;
use meson_places::Sources;
use meson_splice::{Bytes, FileSet};
use meson_steps::argument::Search;
use meson_steps::work::{Work, done};
use meson_targets::StatementPlace;
use std::alloc::{AllocError, Global};

/// A statement to remove from a project.
#[derive(Clone, Copy)]
pub struct CodeRemoval<'c> {
    /// What finds it.
    pub statement: &'c Search,
    /// Whether each assignment goes too that nothing needs after that.
    pub unused: bool,
}

/// The files and trees so far.
fn sources_of(work: &Work) -> Sources<'_>
    ensures { loaded_in result ≡ so_far work.entry.now }
{
    Sources {
        files: &work.files,
        trees: work.trees.as_slice(),
    }
}

/// The number of calls, assignments and loops of a project.
fn count_notes(alloc: Global, sources: Sources<'_>) -> Result<usize, AllocError>
    requires { AreParsed sources.files.now sources.trees.now }
    ensures { IfOk result (λ n. n ≡ length (notes (project (loaded_in sources.entry)))) }
{
    let taken = notes_of(alloc, sources.files, sources.trees)?;
    let notes = taken.all(alloc)?;
    Ok(notes.len())
}

/// Adds names behind others.
fn append(names: &mut Vec<Bytes>, more: Vec<Bytes>) -> Result<(), AllocError>
    ensures { OnOk result (names.new.items ≡ names.old.items ++ more.items) }
{
    names.reserve(more.len())?;
    for name in more {
        names.push(name)?;
    }
    Ok(())
}

/// Removes the statement at a place, and adds the variables that it reads to the names.
///
/// # Errors
/// Out of memory.
fn take_out(
    alloc: Global,
    work: &mut Work,
    statement: StatementPlace,
    names: &mut Vec<Bytes>,
) -> Result<(), Refusal>
    requires { IsNextRemoval (place_view statement) work.old }
    ensures names { OnOk result (names.new.items ≡ names.old.items ++ names_read (project (so_far work.old)) (place_view statement)) }
    ensures done { (old : Loaded) (before : List meant.Step) → HasRemoved old before work.old
        → OnOk result (HasRemoved old (before ++ removal_step (project (so_far work.old)) (place_view statement) ∷ []) work.new) }
    ensures restores { (first : Loaded) → Restores work.old first → Restores work.new first }
    ensures refused { IfErr result (λ e. e ≡ Refusal.OutOfMemory) }
{
    let sources = sources_of(work);
    let read = names_read(alloc, sources, &statement)?;
    let steps = removal_step(alloc, sources, statement)?;
    work.do_steps(alloc, steps)?;
    append(names, read)?;
    Ok(())
}

/// Removes assignments, one in each of this number of turns, as long as one sets a variable of these names that nothing else needs. The variables that it reads
/// are added to the names. The files are those as they were before any statement was removed.
///
/// # Errors
/// Out of memory.
fn remove_unused(
    alloc: Global,
    work: &mut Work,
    files: &FileSet,
    names: Vec<Bytes>,
    turns: usize,
) -> Result<(), Refusal>
    requires { (old : Loaded) × (before : List meant.Step) × HasRemoved old before work.old }
    ensures done { (old : Loaded) (before : List meant.Step) → HasRemoved old before work.old
        → OnOk result (HasRemoved old (before ++ unused_steps turns files.now names.items (plain_trees (so_far work.old))) work.new) }
    ensures restores { (first : Loaded) → Restores work.old first → Restores work.new first }
    ensures refused { IfErr result (λ e. e ≡ Refusal.OutOfMemory) }
{
    let mut sought = names;
    for _turn in 0..turns {
        let sources = sources_of(work);
        match next_unused(alloc, files, sources, sought.as_slice())? {
            Some(statement) => take_out(alloc, work, statement, &mut sought)?,
            None => return Ok(()),
        }
    }
    Ok(())
}

/// Removes a statement, and then the assignments that nothing needs any more.
///
/// # Errors
/// A variable that the statement sets is used outside it, or out of memory.
fn remove_with_unused(
    alloc: Global,
    work: &mut Work,
    statement: StatementPlace,
) -> Result<(), Refusal>
    requires fresh { IsFresh work.old }
    requires there { IsStatementAt (so_far work.old) (place_view statement) }
    ensures done { let old = so_far work.old in OnOk result (IsDone old (code_removed_at old true (place_view statement)) work.new) }
    ensures restores { (first : Loaded) → Restores work.old first → Restores work.new first }
    ensures refused { let old = so_far work.old in IfRefused result (MayNotBeDone old (code_removed_at old true (place_view statement))) }
{
    let sources = sources_of(work);
    let turns = count_notes(alloc, sources)?;
    let names = names_read(alloc, sources, &statement)?;
    let steps = removed_at(alloc, sources, statement)?;
    let Ok(files) = work.files.copy(alloc) else {
        return Err(Refusal::OutOfMemory);
    };
    work.do_steps(alloc, steps)?;
    remove_unused(alloc, work, &files, names, turns)?;
    work.within_limits()
}

/// Removes a statement, with the blank lines beside it that would be too many then. With `unused` it also removes, one after another, each assignment by `=` to
/// a variable that a removed statement read and nothing else in the project needs.
///
/// # Errors
/// The folder or the file is not in the project. Or no statement is found, or more than one, or what is found is within a larger expression. Or a variable that
/// the statement sets is used outside it. Or out of memory.
pub fn remove_code(alloc: Global, work: &mut Work, removal: CodeRemoval<'_>) -> Result<(), Refusal>
    requires { IsFresh work.old }
    ensures done { let old = so_far work.old in OnOk result (IsDone old (code_removed old removal.entry.statement.now removal.entry.unused) work.new) }
    ensures restores { (first : Loaded) → Restores work.old first → Restores work.new first }
    ensures refused { let old = so_far work.old in IfRefused result (MayNotBeDone old (code_removed old removal.entry.statement.now removal.entry.unused)) }
{
    let sources = sources_of(work);
    let statement = find_anchor(alloc, sources, removal.statement)?;
    if removal.unused {
        return remove_with_unused(alloc, work, statement);
    }
    let steps = removed_at(alloc, sources, statement)?;
    done(alloc, work, steps)
}
