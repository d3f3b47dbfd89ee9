//! How a command is done: by the steps of a plan, which are all known at once, or by changes of a call or of a value.

ghost use Rattle.std.specs.Prelude.{◌≡◌, false, IfOk, OnOk};
ghost use Rattle.meson_calls.specs.Loading.{AreParsed, IsProject, Loaded, loaded_from};
ghost use Rattle.meson_calls.specs.NotedProjects.{IsNotedFor, loaded_in};
ghost use Rattle.meson_calls.specs.Refusals.{IfRefused, RefusedAs};
ghost use Rattle.meson_calls.specs.Setters.{AreKept};
ghost use Rattle.meson_plan.specs.Listing.{asks};
ghost use Rattle.meson_plan.specs.inside.Orders.{Ends, plan_steps, sought};
ghost use Rattle.meson_steps.specs.Done.{IsDone, MayNotBeDone};
ghost use Rattle.meson_steps.specs.Plans.{ArePlanned};
ghost use Rattle.meson_steps.specs.Working.{IsFresh, Restores, so_far};

use crate::kept::keep;
use crate::order::{Order, Plan, order_of};
use meson_calls::Refusal;
use meson_calls::kept::Kept;
use meson_calls::noted::Noted;
use meson_calls::notes::notes_for;
use meson_code::insertion_steps;
use meson_code::removing::remove_code;
use meson_followed::change_sources;
use meson_keywords::changing::changed;
use meson_places::Sources;
use meson_places::arguments::argument_steps;
use meson_sources::renaming::on_sources;
use meson_sources::sorting::sort_sources;
use meson_sources::targeting::on_target;
use meson_splice::FileSet;
use meson_steps::command::Command;
use meson_steps::step::ListStep;
use meson_steps::work::{Work, done};
use meson_syntax::Parsed;
use meson_targets::target_adding::target_added;
use meson_targets::target_removing::target_removed;
use std::alloc::{AllocError, Global};

/// Keeps of each file what sets variables in it, if the plan follows variables.
fn keep_for(
    alloc: Global,
    files: &FileSet,
    trees: &[Parsed],
    kept: &mut Vec<Kept>,
    plan: Plan<'_>,
) -> Result<(), AllocError>
    requires parsed { AreParsed files.now trees.now }
    requires kept { AreKept kept.old.items files.now trees.now }
    ensures { AreKept kept.new.items files.now trees.now }
{
    match plan {
        Plan::OnTarget(_, _, _) => keep(alloc, files, trees, kept),
        Plan::SortSources(_, _) => keep(alloc, files, trees, kept),
        Plan::RenameSources(_, _) => keep(alloc, files, trees, kept),
        _ => Ok(()),
    }
}

/// The steps of a plan.
///
/// # Errors
/// Why it is refused, or out of memory.
fn planned(
    alloc: Global,
    files: &FileSet,
    trees: &[Parsed],
    kept: &mut Vec<Kept>,
    plan: Plan<'_>,
) -> Result<Vec<ListStep>, Refusal>
    requires project { IsProject (loaded_from files.now trees.now) }
    requires kept { AreKept kept.old.items files.now trees.now }
    ensures kept { AreKept kept.new.items files.now trees.now }
    ensures plan { let old = loaded_from files.now trees.now in
        IfOk result (λ steps. ArePlanned old (plan_steps old plan.entry) steps.items) }
    ensures refused { RefusedAs result (plan_steps (loaded_from files.now trees.now) plan.entry) }
{
    keep_for(alloc, files, trees, kept, plan)?;
    let (role, id) = plan.sought();
    let taken = notes_for(alloc, role, id, files, trees)?;
    let notes = taken.all(alloc)?;
    let noted = Noted {
        files,
        trees,
        kept: kept.as_slice(),
        notes: notes.as_slice(),
    };
    steps_of(alloc, &noted, plan)
}

/// The same for a project with the notes by which the call is found.
///
/// # Errors
/// Why it is refused, or out of memory.
fn steps_of(alloc: Global, noted: &Noted<'_>, plan: Plan<'_>) -> Result<Vec<ListStep>, Refusal>
    requires { IsNotedFor (sought plan).0 (sought plan).1 noted.now }
    ensures plan { IfOk result (λ steps. ArePlanned (loaded_in noted.now) (plan_steps (loaded_in noted.now) plan.entry) steps.items) }
    ensures refused { RefusedAs result (plan_steps (loaded_in noted.now) plan.entry) }
{
    match plan {
        Plan::OnTarget(target, change, names) => on_target(alloc, noted, target, change, names),
        Plan::SortSources(target, names) => sort_sources(alloc, noted, target, names),
        Plan::RenameSources(target, names) => on_sources(alloc, noted, target, names),
        Plan::FollowSources(target, change, shared) => {
            change_sources(alloc, noted, target, change, shared)
        }
        Plan::AddTarget(new) => target_added(alloc, noted, new),
        Plan::RemoveTarget(target) => target_removed(alloc, noted, target),
    }
}

/// Performs a command that changes something. What is kept is about the files and trees as they were before it.
///
/// # Errors
/// The first refusal that holds, or out of memory.
pub(crate) fn performed(
    alloc: Global,
    work: &mut Work,
    kept: &mut Vec<Kept>,
    command: &Command,
) -> Result<(), Refusal>
    requires changes { asks command.now ≡ false }
    requires fresh { IsFresh work.old }
    requires kept { AreKept kept.old.items work.old.files work.old.trees.items }
    ensures kept { AreKept kept.new.items work.old.files work.old.trees.items }
    ensures done { OnOk result (Ends (so_far work.old) command.now (λ meant. IsDone (so_far work.old) meant work.new)) }
    ensures restores { (first : Loaded) → Restores work.old first → Restores work.new first }
    ensures refused { IfRefused result (λ e. Ends (so_far work.old) command.now (λ meant. MayNotBeDone (so_far work.old) meant e)) }
{
    match order_of(command) {
        Order::Planned(plan) => {
            let steps = planned(alloc, &work.files, work.trees.as_slice(), kept, plan)?;
            done(alloc, work, steps)
        }
        Order::Changed(request) => changed(alloc, work, request),
        Order::OnValue(name, change) => {
            let sources = Sources {
                files: &work.files,
                trees: work.trees.as_slice(),
            };
            let steps = argument_steps(alloc, sources, name, change)?;
            done(alloc, work, steps)
        }
        Order::InsertCode(insertion) => {
            let sources = Sources {
                files: &work.files,
                trees: work.trees.as_slice(),
            };
            let steps = insertion_steps(alloc, sources, insertion)?;
            done(alloc, work, steps)
        }
        Order::RemoveCode(removal) => remove_code(alloc, work, removal),
    }
}
