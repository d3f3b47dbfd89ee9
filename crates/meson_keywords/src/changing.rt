//! Changes of one call, each made after the one before it.

ghost use Rattle.std.specs.Prelude.{◌≡◌, IfOk, List, Ok, OnOk};
ghost use Rattle.meson_calls.specs.Calls.{value_with_name};
ghost use Rattle.meson_keywords.specs.Changing.{Between, CallStands, IsNextTask, TaskDone, request_steps, steps_of_task};
ghost use Rattle.meson_calls.specs.GoodLists.{GoodArgs};
ghost use Rattle.meson_calls.specs.Loading.{AreParsed, Loaded, named_trees, project, views};
ghost use Rattle.meson_calls.specs.Notes.{notes};
ghost use Rattle.meson_calls.specs.OnePlace.{the_place};
ghost use Rattle.meson_calls.specs.Refusals.{IfRefused, RefusedAs};
ghost use Rattle.meson_calls.specs.Searching.{name_at, names_of};
ghost use Rattle.meson_steps.specs.Done.{IsDone, MayNotBeDone};
ghost use Rattle.meson_steps.specs.ResultLimits.{plain_trees};
ghost use Rattle.meson_calls.specs.NamedArguments.{not_hidden, kept_args, kwargs_key};
ghost use Rattle.meson_steps.specs.Steps as meant;
ghost use Rattle.meson_steps.specs.Meanings.{AreMeant};
ghost use Rattle.meson_steps.specs.Working.{IsFresh, Restores, so_far};
ghost use Rattle.meson_keywords.specs.Tasking.{MayBeWritten, TaskIs, request_view};
ghost use Rattle.meson_keywords.specs.inside.Tasking.{TasksAre, args_of};
ghost use Rattle.meson_keywords.specs.Tasks as changes;
ghost use Rattle.meson_keywords.specs.TaskSteps.{task_steps, tasks_steps};

use crate::elements::Subject;
use crate::keyword_steps::{add_steps, delete_steps, once_steps, remove_steps, set_steps};
use crate::option_steps::{delete_option_steps, set_option_steps};
use crate::request::Request;
use crate::tasks::{Task, tasks_of};
use meson_calls::arguments::count_named;
use meson_calls::finding::{list_of_call, the_call};
use meson_calls::notes::notes_for;
use meson_calls::{BorrowedName, CallRef, Refusal, Role};
use meson_splice::FileSet;
use meson_steps::step::ListStep;
use meson_steps::work::Work;
use meson_syntax::{Arg, Parsed};
use std::alloc::Global;

/// The steps of a task.
///
/// # Errors
/// The call can't be changed so, or out of memory.
fn task_steps(alloc: Global, subject: Subject<'_>, task: Task<'_>) -> Result<Vec<ListStep>, Refusal>
    requires { GoodArgs subject.source.now subject.args.now }
    ensures meant { (t : changes.Task) → TaskIs task.entry t
        → IfOk result (λ steps. AreMeant (task_steps t subject.entry.call.now (args_of subject.entry)) steps.items) }
    ensures refused { (t : changes.Task) → TaskIs task.entry t
        → RefusedAs result (task_steps t subject.entry.call.now (args_of subject.entry)) }
{
    match task {
        Task::Set(key, new) => set_steps(alloc, subject, key, new),
        Task::Delete(key) => delete_steps(alloc, subject, key),
        Task::Add(key, kind, values) => add_steps(alloc, subject, key, kind, values.as_slice()),
        Task::Remove(key, kind, value) => remove_steps(alloc, subject, key, kind, value),
        Task::Once(key) => once_steps(alloc, subject, key),
        Task::SetOption(name, value) => set_option_steps(alloc, subject, name, value),
        Task::DeleteOption(name) => delete_option_steps(alloc, subject, name),
    }
}

/// Does a task on the call at a place, as the steps so far leave it.
///
/// # Errors
/// The call can't be changed so, or out of memory.
fn do_task(alloc: Global, work: &mut Work, call: &CallRef, task: Task<'_>) -> Result<(), Refusal>
    requires { (old : Loaded) × IsNextTask old call.now task work.old }
    ensures done { (old : Loaded) (before : List meant.Step) (t : changes.Task) → Between old call.now before work.old → TaskIs task.entry t
        → MayBeWritten t → OnOk result (TaskDone old call.now before t work.old work.new) }
    ensures restores { (first : Loaded) → Restores work.old first → Restores work.new first }
    ensures refused { (old : Loaded) (before : List meant.Step) (t : changes.Task) → Between old call.now before work.old → TaskIs task.entry t
        → MayBeWritten t → RefusedAs result (steps_of_task call.now t work.old) }
{
    let file = call.file;
    if file >= work.trees.len() {
        unreachable!();
    }
    let source = work.files.bytes(file);
    let steps = match work.trees[file].list_at(&call.path) {
        Some(list) => {
            let args = list.items.get();
            let subject = Subject { call, source, args };
            task_steps(alloc, subject, task)?
        }
        None => unreachable!(),
    };
    work.do_steps(alloc, steps)
}

/// Refuses a call that may have hidden arguments.
///
/// # Errors
/// It may have hidden arguments.
fn not_hidden(source: &[u8], args: &[Arg]) -> Result<(), Refusal>
    ensures { result ≡ not_hidden (kept_args source.now (value_with_name kwargs_key) 0 args.now) }
{
    if count_named(source, args, b"kwargs".as_slice()) > 0 {
        return Err(Refusal::HiddenKeywords);
    }
    Ok(())
}

/// Does tasks on the call at a place.
///
/// # Errors
/// The call can't be changed so, or the result passes a limit, or out of memory.
fn tasks_done(
    alloc: Global,
    work: &mut Work,
    call: &CallRef,
    tasks: Vec<Task<'_>>,
) -> Result<(), Refusal>
    requires fresh { IsFresh work.old }
    requires stands { CallStands call.now (plain_trees (so_far work.old)) }
    requires tasks { (ts : List changes.Task) × TasksAre tasks.items ts }
    ensures done { (ts : List changes.Task) → TasksAre tasks.entry.items ts
        → OnOk result (IsDone (so_far work.old) (tasks_steps call.now ts (plain_trees (so_far work.old))) work.new) }
    ensures restores { (first : Loaded) → Restores work.old first → Restores work.new first }
    ensures refused { (ts : List changes.Task) → TasksAre tasks.entry.items ts
        → IfRefused result (MayNotBeDone (so_far work.old) (tasks_steps call.now ts (plain_trees (so_far work.old)))) }
{
    for task in tasks {
        do_task(alloc, work, call, task)?;
    }
    work.within_limits()
}

/// The place of the one call that is named.
///
/// # Errors
/// The folder has no build file. Or there is no project, no such call or more than one, or out of memory.
fn place_named(
    alloc: Global,
    files: &FileSet,
    trees: &[Parsed],
    role: Role,
    name: BorrowedName<'_>,
) -> Result<CallRef, Refusal>
    requires { AreParsed files.now trees.now }
    ensures found { IfOk result (λ c. the_place role (name_at name.entry) (names_of files.now) (notes (named_trees files.now (views files.now trees.now))) ≡ Ok c) }
    ensures refused { RefusedAs result (the_place role (name_at name.entry) (names_of files.now) (notes (named_trees files.now (views files.now trees.now)))) }
{
    let taken = notes_for(alloc, role, name.id, files, trees)?;
    let notes = taken.all(alloc)?;
    the_call(alloc, role, name, files, notes.as_slice())
}

/// Performs the request.
///
/// # Errors
/// The call is missing or not the only one. Or the words do not fit such a request, the call can't be changed so, or the result passes a limit. Or out of
/// memory.
pub fn changed(alloc: Global, work: &mut Work, request: Request<'_>) -> Result<(), Refusal>
    requires { IsFresh work.old }
    ensures done { OnOk result (IsDone (so_far work.old) (request_steps (project (so_far work.old)) (request_view request.entry)) work.new) }
    ensures restores { (first : Loaded) → Restores work.old first → Restores work.new first }
    ensures refused { IfRefused result (MayNotBeDone (so_far work.old) (request_steps (project (so_far work.old)) (request_view request.entry))) }
{
    let trees = work.trees.as_slice();
    let call = place_named(alloc, &work.files, trees, request.role, request.name)?;
    let tasks = tasks_of(alloc, request.role, request.words)?;
    let args = list_of_call(trees, &call).items.get();
    not_hidden(work.files.bytes(call.file), args)?;
    tasks_done(alloc, work, &call, tasks)
}
