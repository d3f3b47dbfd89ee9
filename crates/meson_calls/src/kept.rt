//! What is kept of files: whether a call in them sets variables, and else their assignments.

ghost use Rattle.std.specs.Prelude.{◌≡◌, ℕ, ◌≤◌, ◌∷◌, [], List, false, get_or, length, IfOk, IsTrue, MatchOption, OnOk, ⊤};
ghost use Rattle.meson_lex.specs.declared.kinds.Span.{Span};
ghost use Rattle.meson_syntax.specs.Reads.{IsSpanned};
ghost use Rattle.meson_syntax.specs.View.{view};
ghost use Rattle.meson_calls.specs.declared.kept.Kept.TheVariants.{Unknown};
ghost use Rattle.meson_calls.specs.Loading.{AreParsed};
ghost use Rattle.meson_calls.specs.Notes.{note_views, noted, what_view};
ghost use Rattle.meson_calls.specs.Parts.{Part, parts_of_file};
ghost use Rattle.meson_calls.specs.Project.{Placed};
ghost use Rattle.meson_calls.specs.Setters.{AllKnown, AreKept, IsKept, any_sets_by_call, file_sets_by_call, is_known, sets_by_call};
ghost use Rattle.meson_calls.specs.Spelling.{setter_words};
ghost use Rattle.meson_calls.specs.Walks.{assignments_kept, keeper_view, with_parts};

use crate::keeper::{Assignments, Keeper};
use crate::note::{Note, What};
use crate::notes::notes_in;
use crate::roles::text_of;
use crate::spelling::Words;
use crate::walk_statements::walk_file;
use meson_lex::Span;
use meson_splice::FileSet;
use meson_syntax::{Parsed, Path};
use std::alloc::{AllocError, Global};

/// An assignment: the place of the variable's name, whether it is set rather than added to, and the path of the value.
#[derive(Drop)]
pub struct KeptAssignment {
    pub name: Span,
    pub sets: bool,
    pub value: Path,
}

/// What is kept of a file.
#[derive(Drop)]
pub enum Kept {
    /// It is not known.
    Unknown,
    /// A call in it sets variables: all its notes are read.
    Calls,
    /// No call does, but there is a loop: its statements are read.
    Loops,
    /// Neither is there: these are its assignments.
    Assignments(Vec<KeptAssignment>),
}

/// What is kept of a file, if there is an entry for it.
pub(crate) fn entry(kept: &[Kept], file: usize) -> Option<&Kept>
    ensures { MatchOption result ⊤ (λ entry. get_or kept.now file Unknown ≡ entry.now) }
{
    if file < kept.len() {
        Some(&kept[file])
    } else {
        None
    }
}

/// Whether anything is known.
fn is_known(kept: &Kept) -> bool
    ensures { result ≡ is_known kept.now }
{
    match kept {
        Kept::Unknown => false,
        _ => true,
    }
}

/// Whether it is a call of `subdir` or `set_variable`.
fn sets_by_call(source: &[u8], what: What<'_>) -> bool
    ensures { result ≡ sets_by_call (what_view source.now what.entry) }
{
    match what {
        What::Call { function, .. } => {
            let name = text_of(source, function);
            name == b"subdir".as_slice() || name == b"set_variable".as_slice()
        }
        _ => false,
    }
}

/// Whether one of the notes is such a call.
fn any_sets_by_call(notes: &[Note<'_, '_>]) -> bool
    ensures { result ≡ any_sets_by_call (note_views notes.now) }
{
    for i in 0..notes.len() {
        let note = &notes[i];
        if sets_by_call(note.source, note.what) {
            return true;
        }
    }
    false
}

/// Whether a call in the file sets variables. Its notes are read only if one of the words occurs in the bytes.
fn file_sets_by_call(
    alloc: Global,
    words: &Words<'_>,
    file: usize,
    source: &[u8],
    parsed: &Parsed,
) -> Result<bool, AllocError>
    requires spanned { IsSpanned source.now (view source.now parsed.now) }
    requires words { words.now.words.items ≡ setter_words }
    ensures { IfOk result (λ sets. sets ≡ file_sets_by_call file source.now parsed.now) }
{
    if !words.may_stand_in(source) {
        return Ok(false);
    }
    let taken = notes_in(alloc, file, source, parsed)?;
    let notes = taken.all(alloc)?;
    Ok(any_sets_by_call(notes.as_slice()))
}

/// What is kept of a file in which no call sets variables and whose parts were visited.
fn kept_by(keeper: Keeper<'_, '_>) -> Kept
    ensures known { IsTrue (is_known result) }
    ensures kept { (ps : List (Placed (Part Span))) → any_sets_by_call (noted ps) ≡ false
        → keeper_view keeper.entry ≡ with_parts (assignments_kept false []) ps → IsKept result ps }
{
    match keeper {
        Keeper::Assignments(assignments) => {
            let Assignments { loops, found } = assignments;
            if loops {
                Kept::Loops
            } else {
                Kept::Assignments(found)
            }
        }
        _ => Kept::Calls,
    }
}

/// What is to be kept of a file.
fn read(
    alloc: Global,
    words: &Words<'_>,
    file: usize,
    source: &[u8],
    parsed: &Parsed,
) -> Result<Kept, AllocError>
    requires spanned { IsSpanned source.now (view source.now parsed.now) }
    requires words { words.now.words.items ≡ setter_words }
    ensures known { IfOk result (λ kept. IsTrue (is_known kept)) }
    ensures kept { IfOk result (λ kept. IsKept kept (parts_of_file file (view source.now parsed.now))) }
{
    if file_sets_by_call(alloc, words, file, source, parsed)? {
        return Ok(Kept::Calls);
    }
    let mut keeper = Keeper::Assignments(Assignments {
        loops: false,
        found: Vec::new(alloc),
    });
    walk_file(alloc, file, source, parsed, &mut keeper)?;
    Ok(kept_by(keeper))
}

/// Makes room for this number of entries: the added ones are not known.
fn make_room(kept: &mut Vec<Kept>, count: usize) -> Result<(), AllocError>
    ensures same { (i : ℕ) → get_or kept.new.items i Unknown ≡ get_or kept.old.items i Unknown }
    ensures room { OnOk result (count ≤ length kept.new.items) }
{
    while kept.len() < count {
        kept.push(Kept::Unknown)?;
    }
    Ok(())
}

/// For each file where it is not known yet, keeps whether a call in it sets variables, and else its assignments.
///
/// # Errors
/// Out of memory.
pub fn keep_setters(
    alloc: Global,
    files: &FileSet,
    trees: &[Parsed],
    kept: &mut Vec<Kept>,
) -> Result<(), AllocError>
    requires parsed { AreParsed files.now trees.now }
    requires kept { AreKept kept.old.items files.now trees.now }
    ensures kept { AreKept kept.new.items files.now trees.now }
    ensures known { OnOk result (AllKnown kept.new.items files.now) }
{
    let words = Words::of_setters(alloc)?;
    make_room(kept, trees.len())?;
    for i in 0..trees.len() {
        if !is_known(&kept[i]) {
            kept[i] = read(alloc, &words, i, files.bytes(i), &trees[i])?;
        }
    }
    Ok(())
}
