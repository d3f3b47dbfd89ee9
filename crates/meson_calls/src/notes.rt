//! The notes of a project.

ghost use Rattle.std.specs.Prelude.{◌≡◌, ◌∷◌, ◌++◌, [], false, if◌then◌else◌, IfOk, MatchOption, OnOk, ⊤};
ghost use Rattle.std.specs.List.{filter_map};
ghost use Rattle.meson_syntax.specs.Reads.{IsSpanned};
ghost use Rattle.meson_syntax.specs.View.{view};
ghost use Rattle.meson_calls.specs.Parts.{parts_of_file};
ghost use Rattle.meson_calls.specs.Loading.{AreParsed, named_trees, views};
ghost use Rattle.meson_calls.specs.Notes.{noted, notes, taken_view};
ghost use Rattle.meson_calls.specs.Setters.{AreAssignments, AreKept, AreSetters, IsKept, notes_asked};
ghost use Rattle.meson_calls.specs.Spelling.{AreNotesWith, setter_words, sought_words};
ghost use Rattle.meson_calls.specs.inside.Setters.{ComeBehind, kept_note};

use crate::call::Role;
use crate::keeper::Keeper;
use crate::kept::{Kept, KeptAssignment, entry};
use crate::note::What;
use crate::roles::{is_among, text_of};
use crate::spelling::Words;
use crate::taken::Taken;
use crate::walk_statements::{walk_file, walk_files};
use meson_splice::FileSet;
use meson_syntax::Parsed;
use std::alloc::{AllocError, Global};

/// What commands read of a file, by the number of the file.
///
/// # Errors
/// Out of memory.
pub fn notes_in<'t>(
    alloc: Global,
    file: usize,
    source: &'t [u8],
    parsed: &'t Parsed,
) -> Result<Taken<'t>, AllocError>
    requires { IsSpanned source.now (view source.now parsed.now) }
    ensures { IfOk result (λ found. taken_view found ≡ noted (parts_of_file file (view source.entry.now parsed.entry.now))) }
{
    let mut keeper = Keeper::Notes(Taken::new(alloc));
    walk_file(alloc, file, source, parsed, &mut keeper)?;
    match keeper.notes() {
        Some(found) => Ok(found),
        None => unreachable!(),
    }
}

/// What commands read, in file order and source order.
///
/// # Errors
/// Out of memory.
pub fn notes_of<'t>(
    alloc: Global,
    files: &'t FileSet,
    trees: &'t [Parsed],
) -> Result<Taken<'t>, AllocError>
    requires { AreParsed files.now trees.now }
    ensures { IfOk result (λ found. taken_view found ≡ notes (named_trees files.now (views files.now trees.now))) }
{
    let mut keeper = Keeper::Notes(Taken::new(alloc));
    walk_files(alloc, files, trees, &mut keeper)?;
    match keeper.notes() {
        Some(found) => Ok(found),
        None => unreachable!(),
    }
}

/// The notes so far, followed by those of a file, if these are requested.
fn with_file<'t>(
    alloc: Global,
    file: usize,
    source: &'t [u8],
    parsed: &'t Parsed,
    asked: bool,
    taken: Taken<'t>,
) -> Result<Taken<'t>, AllocError>
    requires { IsSpanned source.now (view source.now parsed.now) }
    ensures { let before = taken_view taken.entry in let here = noted (parts_of_file file (view source.entry.now parsed.entry.now)) in
        IfOk result (λ found. taken_view found ≡ (if asked then before ++ here else before)) }
{
    if !asked {
        return Ok(taken);
    }
    let mut keeper = Keeper::Notes(taken);
    walk_file(alloc, file, source, parsed, &mut keeper)?;
    match keeper.notes() {
        Some(found) => Ok(found),
        None => unreachable!(),
    }
}

/// The notes of all files but those in which none of the words occurs.
fn notes_with<'t>(
    alloc: Global,
    words: &Words<'_>,
    files: &'t FileSet,
    trees: &'t [Parsed],
) -> Result<Taken<'t>, AllocError>
    requires { AreParsed files.now trees.now }
    ensures { IfOk result (λ found. AreNotesWith words.now.words.items 0 files.now trees.now (taken_view found)) }
{
    let mut taken = Taken::new(alloc);
    for i in 0..trees.len() {
        let source = files.bytes(i);
        let asked = words.may_stand_in(source);
        taken = with_file(alloc, i, source, &trees[i], asked, taken)?;
    }
    Ok(taken)
}

/// The notes by which an id is found. Files that cannot matter for it are left out.
///
/// # Errors
/// Out of memory.
pub fn notes_for<'t>(
    alloc: Global,
    role: Role,
    id: &str,
    files: &'t FileSet,
    trees: &'t [Parsed],
) -> Result<Taken<'t>, AllocError>
    requires { AreParsed files.now trees.now }
    ensures { IfOk result (λ found. AreNotesWith (sought_words role id.now) 0 files.now trees.now (taken_view found)) }
{
    let words = Words::of_id(alloc, role, id)?;
    notes_with(alloc, &words, files, trees)
}

/// The notes so far, followed by those of a file: all, or its assignments to these variables and its loops.
fn with_setters<'t>(
    alloc: Global,
    file: usize,
    source: &'t [u8],
    parsed: &'t Parsed,
    names: &[&[u8]],
    all: bool,
    taken: Taken<'t>,
) -> Result<Taken<'t>, AllocError>
    requires { IsSpanned source.now (view source.now parsed.now) }
    ensures { IfOk result (λ found. taken_view found
        ≡ taken_view taken.entry ++ notes_asked names.now all file source.entry.now parsed.entry.now) }
{
    let mut keeper = Keeper::asked(names, all, taken);
    walk_file(alloc, file, source, parsed, &mut keeper)?;
    match keeper.notes() {
        Some(found) => Ok(found),
        None => unreachable!(),
    }
}

/// Takes a note of an assignment that is kept of a file, if it is to one of these variables.
fn take_kept<'t>(
    file: usize,
    source: &'t [u8],
    parsed: &'t Parsed,
    names: &[&[u8]],
    assignment: &KeptAssignment,
    taken: &mut Taken<'t>,
) -> Result<(), AllocError>
    ensures { OnOk result (taken_view taken.new
        ≡ taken_view taken.old ++ filter_map (kept_note names.now file source.now parsed.now) (assignment.now ∷ [])) }
{
    if !is_among(names, text_of(source, assignment.name)) {
        return Ok(());
    }
    match parsed.expr_at(&assignment.value) {
        Some(value) => {
            let path = assignment.value.steps.get();
            let what = What::Assign {
                name: assignment.name,
                sets: assignment.sets,
                value,
            };
            taken.take(file, &path[..path.len() - 1], source, what)
        }
        None => Ok(()),
    }
}

/// The notes so far, followed by those of assignments to these variables, of all that are kept of a file.
fn with_assignments<'t>(
    file: usize,
    source: &'t [u8],
    parsed: &'t Parsed,
    names: &[&[u8]],
    assignments: &[KeptAssignment],
    taken: Taken<'t>,
) -> Result<Taken<'t>, AllocError>
    requires spanned { IsSpanned source.now (view source.now parsed.now) }
    requires are { AreAssignments (parts_of_file file (view source.now parsed.now)) assignments.now }
    ensures { IfOk result (λ found. taken_view found
        ≡ taken_view taken.entry ++ notes_asked names.now false file source.entry.now parsed.entry.now) }
{
    let mut taken = taken;
    for i in 0..assignments.len() {
        take_kept(file, source, parsed, names, &assignments[i], &mut taken)?;
    }
    Ok(taken)
}

/// The notes so far, followed by those of a file. What is kept of the file decides which; if nothing is kept, its bytes decide.
fn with_kept<'t>(
    alloc: Global,
    words: &Words<'_>,
    file: usize,
    source: &'t [u8],
    parsed: &'t Parsed,
    names: &[&[u8]],
    kept: Option<&Kept>,
    taken: Taken<'t>,
) -> Result<Taken<'t>, AllocError>
    requires words { words.now.words.items ≡ setter_words }
    requires spanned { IsSpanned source.now (view source.now parsed.now) }
    requires kept { MatchOption kept ⊤ (λ k. IsKept k.now (parts_of_file file (view source.now parsed.now))) }
    ensures { IfOk result (λ found. ComeBehind names.now file source.entry.now parsed.entry.now (taken_view taken.entry) (taken_view found)) }
{
    match kept {
        Some(Kept::Calls) => with_setters(alloc, file, source, parsed, names, true, taken),
        Some(Kept::Loops) => with_setters(alloc, file, source, parsed, names, false, taken),
        Some(Kept::Assignments(assignments)) => {
            with_assignments(file, source, parsed, names, assignments.as_slice(), taken)
        }
        _ => {
            let all = words.may_stand_in(source);
            with_setters(alloc, file, source, parsed, names, all, taken)
        }
    }
}

/// The notes by which the values of these variables are found. If no call in a file sets a variable, its assignments to them and its loops are enough. If
/// nothing is kept of a file, its bytes decide.
///
/// # Errors
/// Out of memory.
pub fn notes_naming<'t>(
    alloc: Global,
    names: &[&[u8]],
    files: &'t FileSet,
    trees: &'t [Parsed],
    kept: &[Kept],
) -> Result<Taken<'t>, AllocError>
    requires parsed { AreParsed files.now trees.now }
    requires kept { AreKept kept.now files.now trees.now }
    ensures { IfOk result (λ found. AreSetters names.now 0 files.now trees.now (taken_view found)) }
{
    let words = Words::of_setters(alloc)?;
    let mut taken = Taken::new(alloc);
    for i in 0..trees.len() {
        let source = files.bytes(i);
        taken = with_kept(
            alloc,
            &words,
            i,
            source,
            &trees[i],
            names,
            entry(kept, i),
            taken,
        )?;
    }
    Ok(taken)
}
