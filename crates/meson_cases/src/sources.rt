//! The sources of a target.

use crate::files::Files;
use crate::performing::put_refusal;
use crate::project::{loaded, put_place};
use meson_case_files::{Transcript, text_of};
use meson_plan::{BorrowedName, CallRef, Project, Role, SourceItem, Sources};
use meson_splice::FileSet;
use std::alloc::{AllocError, Global};

/// The bytes of a source, as they are in its file.
fn bytes_of_item<'a>(files: &'a FileSet, item: &SourceItem) -> Option<&'a [u8]> {
    if item.file < files.len() {
        files.bytes(item.file).get(item.span.from..item.span.to)
    } else {
        None
    }
}

/// A source: its text, its bytes and their place, its list and the variable that was followed to it.
fn put_item(files: &FileSet, item: &SourceItem, to: &mut Transcript) {
    to.put("  ");
    to.escape(item.value.get().as_bytes());
    to.put(": |");
    let bytes = bytes_of_item(files, item).unwrap_or(b"?");
    to.escape(bytes);
    to.put("| at ");
    to.show(&item.span.from);
    if let Some(list) = &item.list {
        to.put(" in ");
        put_place(files, list, to);
    }
    if let Some(variable) = &item.variable {
        to.put(" by ");
        to.put(variable.get());
    }
    to.put("\n");
}

fn put_all(files: &FileSet, sources: &Sources, to: &mut Transcript) {
    for item in sources.items.get() {
        put_item(files, item, to);
    }
    to.put("  not known: ");
    to.show(&sources.opaque);
    to.put(", further ones into ");
    put_place(files, &sources.home, to);
    to.put("\n");
}

fn put_of(project: &Project, alloc: Global, call: &CallRef, to: &mut Transcript) {
    if project.is_target(call) {
        match project.sources(alloc, call) {
            Ok(sources) => put_all(project.files(), &sources, to),
            Err(refusal) => put_refusal(&refusal, to),
        }
    }
}

/// The sources of each target that an id names.
pub fn put_sources(
    files: &Files,
    alloc: Global,
    id: &str,
    to: &mut Transcript,
) -> Result<(), AllocError> {
    let id = text_of(alloc, id)?;
    if let Some(project) = loaded(files, alloc, to) {
        let name = BorrowedName {
            id: id.as_str(),
            folder: None,
        };
        if let Ok(calls) = project.find(alloc, Role::Target, name) {
            for call in calls.as_slice() {
                put_of(&project, alloc, call, to);
            }
        }
    }
    Ok(())
}
