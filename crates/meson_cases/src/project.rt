//! Questions about the project of the files: whether they are one, its targets, the calls that ids name, and the files entered.

use crate::command::role_of;
use crate::files::Files;
use meson_calls::folders::is_file_name;
use meson_case_files::{Transcript, text_of};
use meson_entering::{SourceFile, entered_by};
use meson_plan::{BorrowedName, CallRef, LoadFault, Project, Reading, Refusal, Role, Unloaded};
use meson_splice::FileSet;
use meson_syntax::{Many, ParseFault, Path, parse};
use std::alloc::{AllocError, Global};

/// Writes why the files cannot be loaded, and how many were handed back.
fn put_unloaded(unloaded: &Unloaded, to: &mut Transcript) {
    to.put("  no project: ");
    if let LoadFault::Parse { index, .. } = &unloaded.fault {
        to.put("file ");
        to.show(index);
        to.put(": ");
    }
    to.show(&unloaded.fault);
    to.put("; files back: ");
    to.show(&unloaded.files.len());
    to.put("\n");
}

/// The project of the files, or none with the reason written.
pub fn loaded(files: &Files, alloc: Global, to: &mut Transcript) -> Option<Project> {
    let set = files.file_set().ok()?;
    match Project::load(alloc, set) {
        Ok(project) => Some(project),
        Err(unloaded) => {
            put_unloaded(&unloaded, to);
            None
        }
    }
}

/// Whether the files are a project.
pub fn put_loaded(files: &Files, alloc: Global, to: &mut Transcript) {
    if let Some(project) = loaded(files, alloc, to) {
        to.put("  files: ");
        to.show(&project.files().len());
        to.put("\n");
    }
}

/// A place: the file's name, and the steps of the path.
pub fn put_place(files: &FileSet, place: &CallRef, to: &mut Transcript) {
    if place.file < files.len() {
        to.put(files.name(place.file));
    } else {
        to.put("no file");
    }
    for step in place.path.steps.get() {
        to.put(" ");
        to.show(step);
    }
}

/// A line for each call, with what else it is.
fn put_calls(project: &Project, calls: &[CallRef], to: &mut Transcript) {
    for call in calls {
        to.put("  ");
        put_place(project.files(), call, to);
        if project.is_target(call) {
            to.put(", a target");
        }
        to.put("\n");
    }
    if calls.is_empty() {
        to.line("none");
    }
}

fn put_found(project: &Project, found: Result<Vec<CallRef>, Refusal>, to: &mut Transcript) {
    if let Ok(calls) = found {
        put_calls(project, calls.as_slice(), to);
    }
}

/// The targets of the project, as a copy of it reports them.
pub fn put_targets(files: &Files, alloc: Global, to: &mut Transcript) {
    if let Some(project) = loaded(files, alloc, to) {
        if let Ok(copy) = project.copy(alloc) {
            put_found(&project, copy.targets(alloc), to);
        }
    }
}

/// The place that numbers name: that of the file, and the steps.
fn place_of(alloc: Global, words: &str) -> Result<CallRef, AllocError> {
    let mut file = 0;
    let mut steps = Vec::new(alloc);
    for (i, word) in words.split(' ').enumerate() {
        let number = word.parse::<usize>().unwrap_or(0);
        if i == 0 {
            file = number;
        } else {
            steps.push(number)?;
        }
    }
    let steps = Many::of(steps);
    Ok(CallRef {
        file,
        path: Path { steps },
    })
}

/// Whether a target is at the place that numbers name.
pub fn put_is_target(
    files: &Files,
    alloc: Global,
    words: &str,
    to: &mut Transcript,
) -> Result<(), AllocError> {
    let place = place_of(alloc, words)?;
    if let Some(project) = loaded(files, alloc, to) {
        to.line(if project.is_target(&place) {
            "yes"
        } else {
            "no"
        });
    }
    Ok(())
}

/// The calls that an id names: a role, and the id.
pub fn put_named(
    files: &Files,
    alloc: Global,
    words: &str,
    to: &mut Transcript,
) -> Result<(), AllocError> {
    let (function, id) = words.split_once(' ').unwrap_or((words, ""));
    let id = text_of(alloc, id)?;
    let role = role_of(function).unwrap_or(Role::Target);
    if let Some(project) = loaded(files, alloc, to) {
        let name = BorrowedName {
            id: id.as_str(),
            folder: None,
        };
        put_found(&project, project.find(alloc, role, name), to);
    }
    Ok(())
}

fn put_names(names: &[String], to: &mut Transcript) {
    for name in names {
        to.line(name.as_str());
    }
    if names.is_empty() {
        to.line("none");
    }
}

/// The files that the file of a name enters, as files are written.
pub fn put_entered(files: &Files, alloc: Global, name: &str, to: &mut Transcript) {
    let Some(bytes) = files.bytes(name) else {
        return to.line("no file");
    };
    if !is_file_name(name.as_bytes()) {
        return to.line("no build file");
    }
    let tree = match parse(alloc, bytes) {
        Ok(tree) => tree,
        Err(fault) => return to.show_line(&fault),
    };
    let file = SourceFile {
        name,
        source: bytes,
        tree: &tree,
    };
    match entered_by(alloc, Reading::Written, file) {
        Ok(names) => put_names(names.as_slice(), to),
        Err(_) => to.show_line(&ParseFault::OutOfMemory),
    }
}
