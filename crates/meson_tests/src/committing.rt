//! The commit of several files to a store in memory, with replaces that fail.

ghost use Rattle.std.specs.Prelude.{◌≡◌, ◌++◌, ◌∷◌, [], codes, map};

use meson_rewrite::{Memory, StoreFault, commit};
use meson_splice::FileSet;
use std::alloc::Global;
use std::process::Abort;

/// The names of the files, in order.
const NAMES: [&str; 3] = ["a", "b", "c"];

/// Adds a file after the others.
fn add(rt: &impl Abort, alloc: Global, files: &mut FileSet, name: &str, bytes: &str)
    ensures { map (λ f. f.name) files.new ≡ map (λ f. f.name) files.old ++ name.now ∷ [] }
{
    let name = String::from_str(alloc, name).expect(rt, "memory");
    let bytes = Vec::from_slice(alloc, bytes.as_bytes()).expect(rt, "memory");
    let Ok(()) = files.push(name, bytes) else {
        panic!(rt; "not pushed");
    };
}

/// The file `a` with these bytes.
fn one(rt: &impl Abort, alloc: Global, a: &str) -> FileSet
    ensures { map (λ f. f.name) result ≡ codes "a" ∷ [] }
{
    let mut files = FileSet::new(alloc);
    add(rt, alloc, &mut files, "a", a);
    files
}

/// The files `a` and `b` with these bytes.
fn two(rt: &impl Abort, alloc: Global, a: &str, b: &str) -> FileSet
    ensures { map (λ f. f.name) result ≡ codes "a" ∷ codes "b" ∷ [] }
{
    let mut files = one(rt, alloc, a);
    add(rt, alloc, &mut files, "b", b);
    files
}

/// The files `a`, `b` and `c` with these bytes.
fn three(rt: &impl Abort, alloc: Global, a: &str, b: &str, c: &str) -> FileSet
    ensures { map (λ f. f.name) result ≡ codes "a" ∷ codes "b" ∷ codes "c" ∷ [] }
{
    let mut files = two(rt, alloc, a, b);
    add(rt, alloc, &mut files, "c", c);
    files
}

/// A store with these files in the folder `d`.
fn store(rt: &impl Abort, alloc: Global, contents: &[&str]) -> Memory {
    let mut store = Memory::new(alloc);
    for (name, bytes) in NAMES.iter().zip(contents) {
        let mut path = String::from_str(alloc, "d/").expect(rt, "memory");
        path.push_str(name).expect(rt, "memory");
        store
            .put(path.as_str(), bytes.as_bytes())
            .expect(rt, "memory");
    }
    store
}

/// Whether the store holds these bytes under the name.
fn holds(store: &Memory, name: &str, bytes: &str) -> bool {
    match store.get(name) {
        Some(held) => held == bytes.as_bytes(),
        None => false,
    }
}

/// Whether a commit failed at the file `name` and listed these, joined by commas.
fn failed_at(end: Result<(), StoreFault>, name: &str, listed: &str) -> bool {
    let Err(
        StoreFault::WriteFailed {
            name: failed,
            still_new,
        },
    ) = end
    else {
        return false;
    };
    if failed.get() != name {
        return false;
    }
    let mut left = listed.split(',').filter(|x| !x.is_empty());
    for file in still_new.get() {
        if left.next() != Some(file.get()) {
            return false;
        }
    }
    left.next().is_none()
}

#[test]
fn replaces_what_differs_alone(rt: HostRuntime) {
    let alloc = rt.alloc();
    let before = three(&rt, alloc, "1", "2", "3");
    let after = three(&rt, alloc, "1", "22", "3");
    let mut store = store(&rt, alloc, &["1", "2", "3"]);
    // The second replace would fail: there is no second one.
    store.fail_replace(2, 1, false);
    let done = commit(alloc, &mut store, Some("d"), &before, &after);
    assert!(rt; done.is_ok());
    assert!(rt; holds(&store, "d/a", "1"));
    assert!(rt; holds(&store, "d/b", "22"));
    assert!(rt; holds(&store, "d/c", "3"));
}

#[test]
fn replaces_nothing_where_nothing_differs(rt: HostRuntime) {
    let alloc = rt.alloc();
    let before = two(&rt, alloc, "1", "2");
    let after = two(&rt, alloc, "1", "2");
    let mut store = store(&rt, alloc, &["9", "9"]);
    store.fail_replace(1, 1, false);
    let done = commit(alloc, &mut store, Some("d"), &before, &after);
    assert!(rt; done.is_ok());
    assert!(rt; holds(&store, "d/a", "9"));
    assert!(rt; holds(&store, "d/b", "9"));
}

#[test]
fn a_file_without_a_folder_has_its_own_name(rt: HostRuntime) {
    let alloc = rt.alloc();
    let before = one(&rt, alloc, "1");
    let after = one(&rt, alloc, "2");
    let mut store = Memory::new(alloc);
    store.put("a", b"1").expect(&rt, "memory");
    let done = commit(alloc, &mut store, None, &before, &after);
    assert!(rt; done.is_ok());
    assert!(rt; holds(&store, "a", "2"));
}

#[test]
fn the_first_replace_fails_and_leaves_the_old_file(rt: HostRuntime) {
    let alloc = rt.alloc();
    let before = two(&rt, alloc, "1", "2");
    let after = two(&rt, alloc, "11", "22");
    let mut store = store(&rt, alloc, &["1", "2"]);
    store.fail_replace(1, 1, false);
    let end = commit(alloc, &mut store, Some("d"), &before, &after);
    assert!(rt; failed_at(end, "a", ""));
    assert!(rt; holds(&store, "d/a", "1"));
    assert!(rt; holds(&store, "d/b", "2"));
}

#[test]
fn the_first_replace_fails_and_leaves_the_new_file_which_stays(rt: HostRuntime) {
    let alloc = rt.alloc();
    let before = two(&rt, alloc, "1", "2");
    let after = two(&rt, alloc, "11", "22");
    let mut store = store(&rt, alloc, &["1", "2"]);
    store.fail_replace(1, 2, true);
    let end = commit(alloc, &mut store, Some("d"), &before, &after);
    assert!(rt; failed_at(end, "a", "a"));
    assert!(rt; holds(&store, "d/a", "11"));
    assert!(rt; holds(&store, "d/b", "2"));
}

#[test]
fn the_second_replace_fails_and_the_first_file_is_put_back(rt: HostRuntime) {
    let alloc = rt.alloc();
    let before = three(&rt, alloc, "1", "2", "3");
    let after = three(&rt, alloc, "11", "22", "33");
    let mut store = store(&rt, alloc, &["1", "2", "3"]);
    store.fail_replace(2, 1, true);
    let end = commit(alloc, &mut store, Some("d"), &before, &after);
    assert!(rt; failed_at(end, "b", ""));
    assert!(rt; holds(&store, "d/a", "1"));
    assert!(rt; holds(&store, "d/b", "2"));
    assert!(rt; holds(&store, "d/c", "3"));
}

#[test]
fn the_second_file_stays_new_and_the_first_is_put_back(rt: HostRuntime) {
    let alloc = rt.alloc();
    let before = three(&rt, alloc, "1", "2", "3");
    let after = three(&rt, alloc, "11", "22", "33");
    let mut store = store(&rt, alloc, &["1", "2", "3"]);
    store.fail_replace(2, 2, true);
    let end = commit(alloc, &mut store, Some("d"), &before, &after);
    assert!(rt; failed_at(end, "b", "b"));
    assert!(rt; holds(&store, "d/a", "1"));
    assert!(rt; holds(&store, "d/b", "22"));
    assert!(rt; holds(&store, "d/c", "3"));
}

#[test]
fn nothing_is_put_back_and_all_are_listed_last_first(rt: HostRuntime) {
    let alloc = rt.alloc();
    let before = three(&rt, alloc, "1", "2", "3");
    let after = three(&rt, alloc, "11", "22", "33");
    let mut store = store(&rt, alloc, &["1", "2", "3"]);
    store.fail_replace(3, 4, false);
    let end = commit(alloc, &mut store, Some("d"), &before, &after);
    assert!(rt; failed_at(end, "c", "c,b,a"));
    assert!(rt; holds(&store, "d/b", "22"));
    assert!(rt; holds(&store, "d/c", "3"));
}

#[test]
fn an_equal_file_between_is_not_listed(rt: HostRuntime) {
    let alloc = rt.alloc();
    let before = three(&rt, alloc, "1", "2", "3");
    let after = three(&rt, alloc, "11", "2", "33");
    let mut store = store(&rt, alloc, &["1", "2", "3"]);
    store.fail_replace(2, 3, false);
    let end = commit(alloc, &mut store, Some("d"), &before, &after);
    assert!(rt; failed_at(end, "c", "c,a"));
    assert!(rt; holds(&store, "d/a", "11"));
    assert!(rt; holds(&store, "d/b", "2"));
    assert!(rt; holds(&store, "d/c", "3"));
}
