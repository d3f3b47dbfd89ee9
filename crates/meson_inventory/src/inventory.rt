//! What a project holds, as JSON.

ghost use Rattle.std.specs.Prelude.{◌≡◌, IfOk, map};
ghost use Rattle.serde_json.specs.Data.{array};
ghost use Rattle.serde_json.specs.View.{items_of, view};
ghost use Rattle.meson_inventory.specs.Inventory.{assignment_data, assignments_data, calls_data, held_data, file_data, operator_of, project_data, spot_data};

use crate::assignments::{HeldAssignment, assignments_held};
use crate::holdings::{HeldCall, Holdings, calls_held, holdings_of};
use meson_calls::Reading;
use meson_listing::entries::{file_name, spot_members, text_or_null};
use meson_plan::Project;
use meson_splice::{FileSet, Many};
use serde_json::{Map, Value, put};
use std::alloc::{AllocError, Global};

/// The names of the files.
pub(crate) fn files_value(alloc: Global, files: &FileSet) -> Result<Value, AllocError>
    ensures { IfOk result (λ v. view v ≡ array (items_of (map file_data files.now))) }
{
    let mut list = Vec::new(alloc);
    for i in 0..files.len() {
        list.push(Value::try_from_str(alloc, file_name(files, i))?)?;
    }
    Ok(Value::Array(list))
}

/// A call, with its names.
fn call_value(alloc: Global, files: &FileSet, call: HeldCall) -> Result<Value, AllocError>
    ensures { IfOk result (λ v. view v ≡ held_data files.now call) }
{
    let HeldCall {
        file,
        head,
        variable,
        end: _,
    } = call;
    let mut members = spot_members(alloc, head.at, file_name(files, file))?;
    put(
        &mut members,
        alloc,
        "function",
        Value::String(head.function.take()),
    )?;
    put(&mut members, alloc, "name", text_or_null(head.name))?;
    put(&mut members, alloc, "variable", text_or_null(variable))?;
    Ok(Value::Object(members))
}

/// Calls, with their names.
fn calls_value(alloc: Global, files: &FileSet, calls: Many<HeldCall>) -> Result<Value, AllocError>
    ensures { IfOk result (λ v. view v ≡ array (items_of (map (held_data files.now) calls))) }
{
    let mut list = Vec::new(alloc);
    for call in calls.take() {
        list.push(call_value(alloc, files, call)?)?;
    }
    Ok(Value::Array(list))
}

/// The places of some calls.
fn spots_value(alloc: Global, files: &FileSet, calls: &[HeldCall]) -> Result<Value, AllocError>
    ensures { IfOk result (λ v. view v ≡ array (items_of (map (spot_data files.now) calls.now))) }
{
    let mut list = Vec::new(alloc);
    for call in calls {
        let members = spot_members(alloc, call.head.at, file_name(files, call.file))?;
        list.push(Value::Object(members))?;
    }
    Ok(Value::Array(list))
}

/// What a project holds whose build files are read so: its files, the calls that make its targets, and the `subdir` calls that enter none of its files.
///
/// # Errors
/// Out of memory.
pub fn project_object(
    alloc: Global,
    reading: Reading,
    project: &Project,
) -> Result<Value, AllocError>
    ensures { IfOk result (λ v. view v ≡ project_data reading project.now) }
{
    let Holdings {
        targets,
        not_entered,
    } = holdings_of(alloc, reading, project)?;
    let files = project.files();
    let mut members = Map::new(alloc);
    put(&mut members, alloc, "files", files_value(alloc, files)?)?;
    put(
        &mut members,
        alloc,
        "not_entered",
        spots_value(alloc, files, not_entered.get())?,
    )?;
    put(
        &mut members,
        alloc,
        "targets",
        calls_value(alloc, files, targets)?,
    )?;
    Ok(Value::Object(members))
}

/// The calls of a function, of any name: an object with the member `calls`.
///
/// # Errors
/// Out of memory.
pub fn calls_object(alloc: Global, project: &Project, function: &str) -> Result<Value, AllocError>
    ensures { IfOk result (λ v. view v ≡ calls_data project.now function.now) }
{
    let calls = calls_held(alloc, project, function)?;
    let mut members = Map::new(alloc);
    put(
        &mut members,
        alloc,
        "calls",
        calls_value(alloc, project.files(), calls)?,
    )?;
    Ok(Value::Object(members))
}

/// The operator of an assignment that sets its variable, or that adds to it.
pub(crate) fn operator_of(sets: bool) -> &'static str
    ensures { result.now ≡ operator_of sets }
{
    if sets { "=" } else { "+=" }
}

/// An assignment.
fn assignment_value(
    alloc: Global,
    files: &FileSet,
    assignment: HeldAssignment,
) -> Result<Value, AllocError>
    ensures { IfOk result (λ v. view v ≡ assignment_data files.now assignment) }
{
    let HeldAssignment {
        file,
        span,
        variable,
        sets,
    } = assignment;
    let mut members = spot_members(alloc, span.from, file_name(files, file))?;
    put(&mut members, alloc, "name", Value::String(variable.take()))?;
    put(
        &mut members,
        alloc,
        "operator",
        Value::try_from_str(alloc, operator_of(sets))?,
    )?;
    Ok(Value::Object(members))
}

/// Assignments.
fn assignments_value(
    alloc: Global,
    files: &FileSet,
    assignments: Many<HeldAssignment>,
) -> Result<Value, AllocError>
    ensures { IfOk result (λ v. view v ≡ array (items_of (map (assignment_data files.now) assignments))) }
{
    let mut list = Vec::new(alloc);
    for assignment in assignments.take() {
        list.push(assignment_value(alloc, files, assignment)?)?;
    }
    Ok(Value::Array(list))
}

/// The assignments: an object with the member `assignments`.
///
/// # Errors
/// Out of memory.
pub fn assignments_object(alloc: Global, project: &Project) -> Result<Value, AllocError>
    ensures { IfOk result (λ v. view v ≡ assignments_data project.now) }
{
    let assignments = assignments_held(alloc, project)?;
    let mut members = Map::new(alloc);
    put(
        &mut members,
        alloc,
        "assignments",
        assignments_value(alloc, project.files(), assignments)?,
    )?;
    Ok(Value::Object(members))
}
