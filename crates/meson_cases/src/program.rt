//! Calls of the whole program on a store in memory.

use crate::failures::{FailingWriter, Failures};
use crate::files::{Files, LOG};
use meson_case_files::{Transcript, text_of};
use meson_rewrite::{Counted, Memory, rewrite, words_with_code};
use std::alloc::{AllocError, Global};

/// A store of the files that exist.
pub fn store_of(files: &Files, alloc: Global, failures: Failures) -> Result<Memory, AllocError> {
    let mut store = Memory::new(alloc);
    for file in files.get() {
        if let Some(bytes) = &file.bytes {
            store.put(file.name.as_str(), bytes.as_slice())?;
        }
    }
    store.fail_read(failures.reads.first, failures.reads.count);
    let replaces = failures.replaces;
    if failures.is_sure {
        store.fail_unchanged(replaces.first, replaces.count);
    } else {
        store.fail_replace(replaces.first, replaces.count, failures.leaves_new);
    }
    Ok(store)
}

/// Says whether an output got something.
fn put_brief(name: &str, bytes: &[u8], to: &mut Transcript) {
    if !bytes.is_empty() {
        to.put("  ");
        to.put(name);
        to.put(" got text\n");
    }
}

/// Runs the program on these words, and writes its output and its status.
fn run(
    alloc: Global,
    store: &mut Memory,
    failures: Failures,
    words: Vec<String>,
    is_brief: bool,
    to: &mut Transcript,
) {
    let mut out = Counted::new(FailingWriter::new(Vec::new(alloc), failures.out));
    let mut err = Counted::new(FailingWriter::new(Vec::new(alloc), failures.err));
    let status = match words_with_code(alloc, store, words) {
        Ok(words) => rewrite(alloc, store, words.as_slice(), &mut out, &mut err),
        Err(unread) => unread.tell(alloc, &mut out, &mut err),
    };
    if is_brief {
        put_brief("out", out.take().bytes.as_slice(), to);
        put_brief("err", err.take().bytes.as_slice(), to);
    } else {
        to.lines("  out |", out.take().bytes.as_slice());
        to.lines("  err |", err.take().bytes.as_slice());
    }
    to.put("  status ");
    to.show(&status);
    to.put("\n");
}

/// Writes the files that differ in the store now, and takes their bytes.
fn put_stored(store: &Memory, files: &mut Files, to: &mut Transcript) -> Result<(), AllocError> {
    for i in 0..files.get().len() {
        if let Some(file) = files.get().get(i) {
            let name = file.name.clone()?;
            if let Some(bytes) = store.get(name.as_str()) {
                files.change(name.as_str(), bytes, to)?;
            }
        }
    }
    Ok(())
}

/// Expects an undo log in each folder that has a build file, so that a log is shown where it appears.
pub fn expect_logs(alloc: Global, files: &mut Files) -> Result<(), AllocError> {
    for i in 0..files.get().len() {
        if let Some(file) = files.get().get(i)
            && let Some(folder) = file.name.as_str().strip_suffix("meson.build")
        {
            let mut log = String::from_str(alloc, folder)?;
            log.push_str(LOG)?;
            files.expect(log.as_str())?;
        }
    }
    files.expect(LOG)
}

/// Runs the program on these words, of which the first is its name. For a brief call the texts of the outputs are left out.
pub fn call(
    alloc: Global,
    files: &mut Files,
    failures: Failures,
    words: Vec<String>,
    is_brief: bool,
    to: &mut Transcript,
) -> Result<(), AllocError> {
    expect_logs(alloc, files)?;
    let mut store = store_of(files, alloc, failures)?;
    run(alloc, &mut store, failures, words, is_brief, to);
    put_stored(&store, files, to)
}

/// Words with blanks between them, after a first one if there is one.
pub fn words_of(
    alloc: Global,
    first: Option<&str>,
    words: &str,
) -> Result<Vec<String>, AllocError> {
    let mut all = Vec::new(alloc);
    if let Some(first) = first {
        all.push(String::from_str(alloc, first)?)?;
    }
    if !words.is_empty() {
        for word in words.split(' ') {
            all.push(text_of(alloc, word)?)?;
        }
    }
    Ok(all)
}
