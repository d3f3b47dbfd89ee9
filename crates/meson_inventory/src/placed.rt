//! What a project holds, as JSON with positions.

ghost use Rattle.std.specs.Prelude.{◌≡◌, IfOk, codes, map};
ghost use Rattle.serde_json.specs.Data.{array, member, no_members, object};
ghost use Rattle.serde_json.specs.View.{items_of, members_view, view};
ghost use Rattle.meson_inventory.specs.Inventory.{operator_of};
ghost use Rattle.meson_inventory.specs.Placed.{bytes_data, call_span, count, placed_assignment_data, placed_assignments_data, placed_call_data, placed_calls_data, placed_project_data, placed_spot_data, unentered_data};

use crate::assignments::{HeldAssignment, assignments_held};
use crate::holdings::{HeldCall, Holdings, calls_held, holdings_of};
use crate::inventory::{files_value, operator_of};
use crate::line_counter::file_bytes;
use crate::position_counter::PositionCounter;
use meson_calls::Reading;
use meson_calls::roles::text_of;
use meson_lex::Span;
use meson_listing::entries::{file_name, text_or_null};
use meson_plan::Project;
use meson_ranges::Position;
use meson_splice::{FileSet, Many};
use serde_json::{Map, Value, put};
use std::alloc::{AllocError, Global};
use std::str;

/// An offset with its position.
pub(crate) fn offset_members(
    alloc: Global,
    at: usize,
    position: Position,
) -> Result<Map<String, Value>, AllocError>
    ensures { IfOk result (λ m. members_view m.entries ≡ member (codes "at") (count at)
        (member (codes "character") (count position.character) (member (codes "line") (count position.line) no_members))) }
{
    let mut members = Map::new(alloc);
    put(&mut members, alloc, "at", Value::from(at))?;
    put(
        &mut members,
        alloc,
        "character",
        Value::from(position.character),
    )?;
    put(&mut members, alloc, "line", Value::from(position.line))?;
    Ok(members)
}

/// The place of a call or an assignment: where it begins in its file and where it ends.
fn place_members(
    alloc: Global,
    files: &FileSet,
    positions: &mut PositionCounter<'_>,
    file: usize,
    span: Span,
) -> Result<Map<String, Value>, AllocError>
    requires { positions.old.files.now ≡ files.now }
    ensures members { IfOk result (λ m. object (members_view m.entries) ≡ placed_spot_data files.now file span) }
    ensures files { positions.new.files.now ≡ positions.old.files.now }
{
    let start = positions.go_to(file, span.from);
    let end = positions.position_of(file, span.to);
    let mut members = offset_members(alloc, span.from, start)?;
    let end = offset_members(alloc, span.to, end)?;
    put(&mut members, alloc, "end", Value::Object(end))?;
    put(
        &mut members,
        alloc,
        "file",
        Value::try_from_str(alloc, file_name(files, file))?,
    )?;
    Ok(members)
}

/// From the first byte of a call to its last.
fn call_span(call: &HeldCall) -> Span
    ensures { result ≡ call_span call.now }
{
    Span {
        from: call.head.at,
        to: call.end,
    }
}

/// A call, with its place and its names.
fn call_value(
    alloc: Global,
    files: &FileSet,
    positions: &mut PositionCounter<'_>,
    call: HeldCall,
) -> Result<Value, AllocError>
    requires { positions.old.files.now ≡ files.now }
    ensures value { IfOk result (λ v. view v ≡ placed_call_data files.now call) }
    ensures files { positions.new.files.now ≡ positions.old.files.now }
{
    let mut members = place_members(alloc, files, positions, call.file, call_span(&call))?;
    let HeldCall {
        file: _,
        head,
        variable,
        end: _,
    } = call;
    put(
        &mut members,
        alloc,
        "function",
        Value::String(head.function.take()),
    )?;
    put(&mut members, alloc, "name", text_or_null(head.name))?;
    put(&mut members, alloc, "variable", text_or_null(variable))?;
    Ok(Value::Object(members))
}

/// Calls, with their places and their names.
fn calls_value(alloc: Global, files: &FileSet, calls: Many<HeldCall>) -> Result<Value, AllocError>
    ensures { IfOk result (λ v. view v ≡ array (items_of (map (placed_call_data files.now) calls))) }
{
    let mut positions = PositionCounter::new(files);
    let mut list = Vec::new(alloc);
    for call in calls.take() {
        list.push(call_value(alloc, files, &mut positions, call)?)?;
    }
    Ok(Value::Array(list))
}

/// Bytes as a text; null if they are not UTF-8.
fn bytes_value(alloc: Global, bytes: &[u8]) -> Result<Value, AllocError>
    ensures { IfOk result (λ v. view v ≡ bytes_data bytes.now) }
{
    match str::from_utf8(bytes) {
        Ok(text) => Value::try_from_str(alloc, text),
        Err(_) => Ok(Value::Null),
    }
}

/// A call with its place and its text.
fn unentered_value(
    alloc: Global,
    files: &FileSet,
    positions: &mut PositionCounter<'_>,
    call: &HeldCall,
) -> Result<Value, AllocError>
    requires { positions.old.files.now ≡ files.now }
    ensures value { IfOk result (λ v. view v ≡ unentered_data files.now call.now) }
    ensures files { positions.new.files.now ≡ positions.old.files.now }
{
    let span = call_span(call);
    let mut members = place_members(alloc, files, positions, call.file, span)?;
    let text = text_of(file_bytes(files, call.file), span);
    put(&mut members, alloc, "text", bytes_value(alloc, text)?)?;
    Ok(Value::Object(members))
}

/// Calls with their places and their texts.
fn unentered_values(alloc: Global, files: &FileSet, calls: &[HeldCall]) -> Result<Value, AllocError>
    ensures { IfOk result (λ v. view v ≡ array (items_of (map (unentered_data files.now) calls.now))) }
{
    let mut positions = PositionCounter::new(files);
    let mut list = Vec::new(alloc);
    for call in calls {
        list.push(unentered_value(alloc, files, &mut positions, call)?)?;
    }
    Ok(Value::Array(list))
}

/// What a project holds, as `project_object` has it, with the position of each call and where it ends, and the text of each `subdir` call that enters none
/// of the files. Lines are counted from 0, characters in UTF-16 code units.
///
/// # Errors
/// Out of memory.
pub fn placed_project_object(
    alloc: Global,
    reading: Reading,
    project: &Project,
) -> Result<Value, AllocError>
    ensures { IfOk result (λ v. view v ≡ placed_project_data reading project.now) }
{
    let Holdings {
        targets,
        not_entered,
    } = holdings_of(alloc, reading, project)?;
    let files = project.files();
    let mut members = Map::new(alloc);
    put(&mut members, alloc, "files", files_value(alloc, files)?)?;
    put(
        &mut members,
        alloc,
        "not_entered",
        unentered_values(alloc, files, not_entered.get())?,
    )?;
    put(
        &mut members,
        alloc,
        "targets",
        calls_value(alloc, files, targets)?,
    )?;
    Ok(Value::Object(members))
}

/// The calls of a function, as `calls_object` has them, with the position of each and where it ends.
///
/// # Errors
/// Out of memory.
pub fn placed_calls_object(
    alloc: Global,
    project: &Project,
    function: &str,
) -> Result<Value, AllocError>
    ensures { IfOk result (λ v. view v ≡ placed_calls_data project.now function.now) }
{
    let calls = calls_held(alloc, project, function)?;
    let mut members = Map::new(alloc);
    put(
        &mut members,
        alloc,
        "calls",
        calls_value(alloc, project.files(), calls)?,
    )?;
    Ok(Value::Object(members))
}

/// An assignment, with its place.
fn assignment_value(
    alloc: Global,
    files: &FileSet,
    positions: &mut PositionCounter<'_>,
    assignment: HeldAssignment,
) -> Result<Value, AllocError>
    requires { positions.old.files.now ≡ files.now }
    ensures value { IfOk result (λ v. view v ≡ placed_assignment_data files.now assignment) }
    ensures files { positions.new.files.now ≡ positions.old.files.now }
{
    let HeldAssignment {
        file,
        span,
        variable,
        sets,
    } = assignment;
    let mut members = place_members(alloc, files, positions, file, span)?;
    put(&mut members, alloc, "name", Value::String(variable.take()))?;
    put(
        &mut members,
        alloc,
        "operator",
        Value::try_from_str(alloc, operator_of(sets))?,
    )?;
    Ok(Value::Object(members))
}

/// Assignments, with their places.
fn assignments_value(
    alloc: Global,
    files: &FileSet,
    assignments: Many<HeldAssignment>,
) -> Result<Value, AllocError>
    ensures { IfOk result (λ v. view v ≡ array (items_of (map (placed_assignment_data files.now) assignments))) }
{
    let mut positions = PositionCounter::new(files);
    let mut list = Vec::new(alloc);
    for assignment in assignments.take() {
        list.push(assignment_value(alloc, files, &mut positions, assignment)?)?;
    }
    Ok(Value::Array(list))
}

/// The assignments, as `assignments_object` has them, with the position of each and where it ends.
///
/// # Errors
/// Out of memory.
pub fn placed_assignments_object(alloc: Global, project: &Project) -> Result<Value, AllocError>
    ensures { IfOk result (λ v. view v ≡ placed_assignments_data project.now) }
{
    let assignments = assignments_held(alloc, project)?;
    let mut members = Map::new(alloc);
    put(
        &mut members,
        alloc,
        "assignments",
        assignments_value(alloc, project.files(), assignments)?,
    )?;
    Ok(Value::Object(members))
}
