//! What a project holds, as lines for people.

ghost use Rattle.std.specs.Prelude.{◌≡◌, IfOk, flat_map, string_bytes};
ghost use Rattle.meson_splice.specs.Files.{bytes_at};
ghost use Rattle.meson_inventory.specs.Inventory.{assignment_line, assignments_lines, call_line, call_words, calls_lines, file_line, line_number};
ghost use Rattle.meson_inventory.specs.Inventory.{named_part, project_lines, variable_part};

use crate::assignments::{HeldAssignment, assignments_held};
use crate::holdings::{HeldCall, calls_held, holdings_of};
use crate::line_counter::LineCounter;
use meson_calls::Reading;
use meson_listing::entries::file_name;
use meson_plan::Project;
use meson_splice::{FileSet, Text};
use std::alloc::{AllocError, Global};

/// What a line says of a call's name.
fn named_part(alloc: Global, name: &Option<Text>) -> Result<String, AllocError>
    ensures { IfOk result (λ text. string_bytes text ≡ named_part name.now) }
{
    match name {
        Some(name) => {
            let name = name.get();
            format!(in alloc; " '{name}'")
        }
        None => String::from_str(alloc, " without a literal name"),
    }
}

/// What a line says of a call's variable.
fn variable_part(alloc: Global, variable: &Option<Text>) -> Result<String, AllocError>
    ensures { IfOk result (λ text. string_bytes text ≡ variable_part variable.now) }
{
    match variable {
        Some(name) => {
            let name = name.get();
            format!(in alloc; ", variable {name}")
        }
        None => Ok(String::new(alloc)),
    }
}

/// What a line says of a call: its function, its name, and its variable if it has one.
///
/// # Errors
/// Out of memory.
pub fn call_words(alloc: Global, call: &HeldCall) -> Result<String, AllocError>
    ensures { IfOk result (λ words. string_bytes words ≡ call_words call.now) }
{
    let function = call.head.function.get();
    let named = named_part(alloc, &call.head.name)?;
    let variable = variable_part(alloc, &call.variable)?;
    format!(in alloc; "{function}{named}{variable}")
}

/// The line of a call, which begins on the line of this number; more text may be added at its end.
fn call_line(
    alloc: Global,
    files: &FileSet,
    number: usize,
    more: &str,
    call: &HeldCall,
) -> Result<String, AllocError>
    requires { number ≡ line_number (bytes_at call.now.file files.now) call.now.head.at }
    ensures { IfOk result (λ line. string_bytes line ≡ call_line files.now more.now call.now) }
{
    let file = file_name(files, call.file);
    let words = call_words(alloc, call)?;
    format!(in alloc; "{file}:{number}: {words}{more}\n")
}

/// The lines of some calls; each says more at its end.
fn call_lines(
    alloc: Global,
    files: &FileSet,
    more: &str,
    calls: &[HeldCall],
) -> Result<String, AllocError>
    ensures { IfOk result (λ text. string_bytes text ≡ flat_map (call_line files.now more.now) calls.now) }
{
    let mut lines = LineCounter::new(files);
    let mut text = String::new(alloc);
    for call in calls {
        let number = lines.line_of(call.file, call.head.at);
        let line = call_line(alloc, files, number, more, call)?;
        text.push_str(line.as_str())?;
    }
    Ok(text)
}

/// The lines of the files.
fn file_lines(alloc: Global, files: &FileSet) -> Result<String, AllocError>
    ensures { IfOk result (λ text. string_bytes text ≡ flat_map file_line files.now) }
{
    let mut text = String::new(alloc);
    for i in 0..files.len() {
        text.push_str(file_name(files, i))?;
        text.push_str(":1: build file\n")?;
    }
    Ok(text)
}

/// What a project holds, in lines of the form `FILE:LINE: WHAT`, with the number of the line counted from 1. There is a line for each call that makes a target,
/// for each file, and for each `subdir` call that enters none of the files.
///
/// # Errors
/// Out of memory.
pub fn project_lines(
    alloc: Global,
    reading: Reading,
    project: &Project,
) -> Result<String, AllocError>
    ensures { IfOk result (λ text. string_bytes text ≡ project_lines reading project.now) }
{
    let held = holdings_of(alloc, reading, project)?;
    let files = project.files();
    let mut text = call_lines(alloc, files, "", held.targets.get())?;
    let names = file_lines(alloc, files)?;
    text.push_str(names.as_str())?;
    let left = call_lines(alloc, files, ", not entered", held.not_entered.get())?;
    text.push_str(left.as_str())?;
    Ok(text)
}

/// The calls of a function, of any name, in lines of the form `FILE:LINE: WHAT`, with the number of the line counted from 1.
///
/// # Errors
/// Out of memory.
pub fn calls_lines(alloc: Global, project: &Project, function: &str) -> Result<String, AllocError>
    ensures { IfOk result (λ text. string_bytes text ≡ calls_lines project.now function.now) }
{
    let calls = calls_held(alloc, project, function)?;
    call_lines(alloc, project.files(), "", calls.get())
}

/// The line of an assignment, which begins on the line of this number.
fn assignment_line(
    alloc: Global,
    files: &FileSet,
    number: usize,
    assignment: &HeldAssignment,
) -> Result<String, AllocError>
    requires { number ≡ line_number (bytes_at assignment.now.file files.now) assignment.now.span.from }
    ensures { IfOk result (λ line. string_bytes line ≡ assignment_line files.now assignment.now) }
{
    let file = file_name(files, assignment.file);
    let variable = assignment.variable.get();
    let added = if assignment.sets { "" } else { ", added to" };
    format!(in alloc; "{file}:{number}: variable {variable}{added}\n")
}

/// The lines of some assignments.
fn assignment_lines(
    alloc: Global,
    files: &FileSet,
    assignments: &[HeldAssignment],
) -> Result<String, AllocError>
    ensures { IfOk result (λ text. string_bytes text ≡ flat_map (assignment_line files.now) assignments.now) }
{
    let mut lines = LineCounter::new(files);
    let mut text = String::new(alloc);
    for assignment in assignments {
        let number = lines.line_of(assignment.file, assignment.span.from);
        let line = assignment_line(alloc, files, number, assignment)?;
        text.push_str(line.as_str())?;
    }
    Ok(text)
}

/// The assignments, in lines of the form `FILE:LINE: WHAT`, with the number of the line counted from 1.
///
/// # Errors
/// Out of memory.
pub fn assignments_lines(alloc: Global, project: &Project) -> Result<String, AllocError>
    ensures { IfOk result (λ text. string_bytes text ≡ assignments_lines project.now) }
{
    let assignments = assignments_held(alloc, project)?;
    assignment_lines(alloc, project.files(), assignments.get())
}
