//! Sets of files by themselves. The files are named `f` and `g`.

use meson_splice::{Bytes, FileSet, PushFault, Splice, Text, apply, inverse};
use std::alloc::Global;
use std::process::Abort;

fn bytes(rt: &impl Abort, alloc: Global, of: &[u8]) -> Vec<u8> {
    Vec::from_slice(alloc, of).expect(rt, "memory")
}

fn text(rt: &impl Abort, alloc: Global, of: &str) -> String {
    String::from_str(alloc, of).expect(rt, "memory")
}

/// The files `f` and `g`.
fn two_files(rt: &impl Abort, alloc: Global) -> FileSet {
    let mut files = FileSet::new(alloc);
    let pushed = files.push(text(rt, alloc, "f"), bytes(rt, alloc, b"abc"));
    assert!(rt; pushed.is_ok());
    let pushed = files.push(text(rt, alloc, "g"), bytes(rt, alloc, b"d"));
    assert!(rt; pushed.is_ok());
    files
}

/// Whether the set's file of that name has these bytes.
fn has(files: &FileSet, name: &str, of: &[u8]) -> bool {
    match files.find(name) {
        Some(place) => place < files.len() && files.bytes(place) == of,
        None => false,
    }
}

#[test]
fn a_name_is_pushed_once(rt: HostRuntime) {
    let alloc = rt.alloc();
    let mut files = two_files(&rt, alloc);
    let Err(unpushed) = files.push(text(&rt, alloc, "f"), bytes(&rt, alloc, b"x")) else {
        panic!(rt; "the name stands twice");
    };
    assert!(rt; unpushed.name.get() == "f");
    assert!(rt; unpushed.bytes.get() == b"x".as_slice());
    assert!(rt; unpushed.fault == PushFault::NameTwice);
    assert!(rt; has(&files, "f", b"abc"));
}

#[test]
fn a_set_tells_its_files(rt: HostRuntime) {
    let alloc = rt.alloc();
    assert!(rt; FileSet::new(alloc).is_empty());
    let files = two_files(&rt, alloc);
    assert!(rt; !files.is_empty());
    assert!(rt; files.len() == 2);
    assert!(rt; files.name(1) == "g");
    assert!(rt; files.find("g") == Some(1));
    assert!(rt; files.find("h").is_none());
}

#[test]
fn a_copy_has_the_same_files(rt: HostRuntime) {
    let alloc = rt.alloc();
    let Ok(copy) = two_files(&rt, alloc).copy(alloc) else {
        panic!(rt; "no memory");
    };
    assert!(rt; copy.len() == 2);
    assert!(rt; has(&copy, "f", b"abc"));
    assert!(rt; has(&copy, "g", b"d"));
}

#[test]
fn a_splice_and_its_inverse(rt: HostRuntime) {
    let alloc = rt.alloc();
    let mut files = two_files(&rt, alloc);
    let splice = Splice {
        file: Text::of(text(&rt, alloc, "f")),
        at: 1,
        was: Bytes::of(bytes(&rt, alloc, b"b")),
        now: Bytes::of(bytes(&rt, alloc, b"XY")),
    };
    assert!(rt; apply(alloc, &mut files, &splice).is_ok());
    assert!(rt; has(&files, "f", b"aXYc"));
    assert!(rt; apply(alloc, &mut files, &inverse(splice)).is_ok());
    assert!(rt; has(&files, "f", b"abc"));
}
