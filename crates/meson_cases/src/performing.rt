//! Commands done on the project of the files.

use crate::command::command_of;
use crate::files::Files;
use crate::project::loaded;
use meson_case_files::Transcript;
use meson_plan::{Command, Done, Project, Refusal};
use meson_splice::{FileSet, Splice};
use std::alloc::{AllocError, Global};

fn put_splice(splice: &Splice, to: &mut Transcript) {
    to.put("  ");
    to.put(splice.file.get());
    to.put(" at ");
    to.show(&splice.at);
    to.put(": |");
    to.escape(splice.was.get());
    to.put("| becomes |");
    to.escape(splice.now.get());
    to.put("|\n");
}

/// Writes why a command was refused, and about which key.
pub fn put_refusal(refusal: &Refusal, to: &mut Transcript) {
    to.put("  refused: ");
    to.show(refusal);
    if let Refusal::UnknownKey(key) | Refusal::WrongKind(key) = refusal {
        to.put(": ");
        to.put(key.get());
    }
    to.put("\n");
}

fn put_done(done: &Done, is_counted: bool, to: &mut Transcript) {
    if done.change.splices.get().is_empty() {
        to.line("no splice");
    }
    for splice in done.change.splices.get() {
        put_splice(splice, to);
    }
    if is_counted {
        to.put("  bytes read again: ");
        to.show(&done.relexed);
        to.put("\n");
    }
}

/// Writes the files of the project that differ now, and takes their bytes.
pub fn put_changed(
    set: &FileSet,
    files: &mut Files,
    to: &mut Transcript,
) -> Result<(), AllocError> {
    for i in 0..set.len() {
        if i < set.len() {
            files.change(set.name(i), set.bytes(i), to)?;
        }
    }
    Ok(())
}

fn put_answer(answer: &Result<Done, Refusal>, is_counted: bool, to: &mut Transcript) {
    match answer {
        Ok(done) => put_done(done, is_counted, to),
        Err(refusal) => put_refusal(refusal, to),
    }
}

/// Does a command to the project, and writes the splices or the refusal, and the files that differ then.
fn perform_on(
    alloc: Global,
    project: &mut Project,
    files: &mut Files,
    command: &Command,
    is_counted: bool,
    to: &mut Transcript,
) -> Result<(), AllocError> {
    put_answer(&project.perform(alloc, command), is_counted, to);
    put_changed(project.files(), files, to)
}

/// Writes what a command makes of the root file, with the number of splices if that is requested.
fn put_made(
    project: &mut Project,
    alloc: Global,
    command: &Command,
    is_counted: bool,
    to: &mut Transcript,
) {
    match project.perform(alloc, command) {
        Ok(done) => {
            to.put("  ");
            if is_counted {
                to.show(&done.change.splices.get().len());
                to.put(" splices: ");
            }
            put_root(project.files(), to);
        }
        Err(refusal) => put_refusal(&refusal, to),
    }
}

fn put_root(files: &FileSet, to: &mut Transcript) {
    if !files.is_empty() {
        to.escape(files.bytes(0));
    }
    to.put("\n");
}

/// What the command of these words makes of the one file, which stays as it is.
pub fn make(
    alloc: Global,
    files: &Files,
    words: &str,
    is_counted: bool,
    to: &mut Transcript,
) -> Result<(), AllocError> {
    let words: Vec<&str> = words.split(' ').collect(alloc)?;
    let Some(command) = command_of(alloc, words.as_slice())? else {
        to.line("not understood");
        return Ok(());
    };
    if let Some(mut project) = loaded(files, alloc, to) {
        put_made(&mut project, alloc, &command, is_counted, to);
    }
    Ok(())
}

/// Performs the command of these words on the project of the files. If requested, counts the bytes that were read again.
pub fn perform(
    alloc: Global,
    files: &mut Files,
    words: &str,
    is_counted: bool,
    to: &mut Transcript,
) -> Result<(), AllocError> {
    let words: Vec<&str> = words.split(' ').collect(alloc)?;
    let Some(command) = command_of(alloc, words.as_slice())? else {
        to.line("not understood");
        return Ok(());
    };
    match loaded(files, alloc, to) {
        Some(mut project) => perform_on(alloc, &mut project, files, &command, is_counted, to),
        None => Ok(()),
    }
}
