//! Diffs of sets of files, as `patch` and `git apply` take them.

ghost use Rattle.std.specs.Prelude.{◌≡◌, ◌∷◌, [], IfOk, map};

use meson_diff::diff;
use meson_splice::FileSet;
use std::alloc::{AllocError, Global};
use std::process::Abort;

/// A set of one file.
pub(crate) fn one_file(alloc: Global, name: &str, text: &str) -> Result<FileSet, AllocError>
    ensures { IfOk result (λ files. map (λ f. f.name) files ≡ name.now ∷ []) }
{
    let mut files = FileSet::new(alloc);
    let name = String::from_str(alloc, name)?;
    let text = String::from_str(alloc, text)?;
    files.push_new(name, text.into_bytes())?;
    Ok(files)
}

/// Whether this is the diff of one file's texts.
fn is_diff(rt: &impl Abort, alloc: Global, name: &str, old: &str, new: &str, told: &str) -> bool {
    let old = one_file(alloc, name, old).expect(rt, "memory");
    let new = one_file(alloc, name, new).expect(rt, "memory");
    diff(alloc, &old, &new).expect(rt, "memory").as_slice() == told.as_bytes()
}

/// The text of most files here.
const NINE: &str = "a\nb\nc\nd\ne\nf\ng\nh\ni\n";

/// What each case is about, the file's old and new text, and the hunks.
const CASES: [(&str, &str, &str, &str); 12] = [
    (
        "in the middle",
        NINE,
        "a\nb\nc\nd\nE\nf\ng\nh\ni\n",
        "@@ -2,7 +2,7 @@\n b\n c\n d\n-e\n+E\n f\n g\n h\n",
    ),
    (
        "at the first line",
        NINE,
        "A\nb\nc\nd\ne\nf\ng\nh\ni\n",
        "@@ -1,4 +1,4 @@\n-a\n+A\n b\n c\n d\n",
    ),
    (
        "at the last line",
        NINE,
        "a\nb\nc\nd\ne\nf\ng\nh\nI\n",
        "@@ -6,4 +6,4 @@\n f\n g\n h\n-i\n+I\n",
    ),
    (
        "two far ones",
        NINE,
        "A\nb\nc\nd\ne\nf\ng\nh\nI\n",
        "@@ -1,4 +1,4 @@\n-a\n+A\n b\n c\n d\n@@ -6,4 +6,4 @@\n f\n g\n h\n-i\n+I\n",
    ),
    (
        "two near ones",
        NINE,
        "a\nc\nd\ne\nf\ng\nh\nI\n",
        "@@ -1,9 +1,8 @@\n a\n-b\n c\n d\n e\n f\n g\n h\n-i\n+I\n",
    ),
    (
        "a line that comes",
        NINE,
        "a\nb\nc\nd\ne\nx\nf\ng\nh\ni\n",
        "@@ -3,6 +3,7 @@\n c\n d\n e\n+x\n f\n g\n h\n",
    ),
    (
        "no line end before",
        "a\nb",
        "a\nb\n",
        "@@ -1,2 +1,2 @@\n a\n-b\n\\ No newline at end of file\n+b\n",
    ),
    (
        "no line end after",
        "a\nb\n",
        "a\nb",
        "@@ -1,2 +1,2 @@\n a\n-b\n+b\n\\ No newline at end of file\n",
    ),
    (
        "no line end at all",
        "a\nb",
        "A\nb",
        "@@ -1,2 +1,2 @@\n-a\n+A\n b\n\\ No newline at end of file\n",
    ),
    ("an empty file", "", "a\nb\n", "@@ -0,0 +1,2 @@\n+a\n+b\n"),
    (
        "a file that becomes empty",
        "a\nb\n",
        "",
        "@@ -1,2 +0,0 @@\n-a\n-b\n",
    ),
    (
        "lines that end in CR LF",
        "a\r\nb\r\n",
        "a\r\nB\r\n",
        "@@ -1,2 +1,2 @@\n a\r\n-b\r\n+B\r\n",
    ),
];

#[test]
fn a_file_is_told_by_its_hunks(rt: HostRuntime) {
    let alloc = rt.alloc();
    for (title, old, new, hunks) in CASES {
        let told = format!(in alloc; "--- a/f\n+++ b/f\n{hunks}").expect(&rt, "memory");
        assert!(rt;
            is_diff(&rt, alloc, "f", old, new, told.as_str()),
            "{title}"
        );
    }
}

#[test]
fn a_name_with_a_space_ends_in_a_tab(rt: HostRuntime) {
    let alloc = rt.alloc();
    let told = "--- a/a b/meson.build\t\n+++ b/a b/meson.build\t\n@@ -1,1 +1,1 @@\n-x\n+y\n";
    assert!(rt; is_diff(&rt, alloc, "a b/meson.build", "x\n", "y\n", told));
    assert!(rt; is_diff(&rt, alloc, "a b/meson.build", "x\n", "x\n", ""));
}
