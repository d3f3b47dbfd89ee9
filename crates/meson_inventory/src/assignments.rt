//! The assignments of a project.

ghost use Rattle.std.specs.Prelude.{◌≡◌, [], IfOk, List, Some, false, map, option_map, ℕ};
ghost use Rattle.meson_lex.specs.Kinds.{IsIdentifier};
ghost use Rattle.meson_lex.specs.declared.kinds.Span.{Span};
ghost use Rattle.meson_syntax.specs.Reads.{IsSpanned};
ghost use Rattle.meson_syntax.specs.View.{text_at, view};
ghost use Rattle.meson_calls.specs.Loading.{AreParsed, named_trees, views};
ghost use Rattle.meson_calls.specs.Parts.{Part, parts, parts_of_file};
ghost use Rattle.meson_calls.specs.Project.{Placed};
ghost use Rattle.meson_calls.specs.Setters.{assignments_in as kept_in};
ghost use Rattle.meson_calls.specs.Walks.{assignments_kept, keeper_view, with_parts};
ghost use Rattle.meson_inventory.specs.Assignments.{assignments, assignments_among};
ghost use Rattle.meson_inventory.specs.inside.Assignments.{AreNamed, held_at, value_end};

use meson_calls::keeper::{Assignments, Keeper};
use meson_calls::kept::KeptAssignment;
use meson_calls::roles::{identifier_text, text_of};
use meson_calls::walk_statements::walk_file;
use meson_edit::span_of;
use meson_lex::Span;
use meson_plan::Project;
use meson_splice::{FileSet, Many, Text};
use meson_syntax::{Parsed, Path};
use std::alloc::{AllocError, Global};

/// An assignment of a project.
#[derive(Drop)]
pub struct HeldAssignment {
    /// The number of its file.
    pub file: usize,
    /// From the variable to the end of the value.
    pub span: Span,
    pub variable: Text,
    /// Whether the variable is set, rather than added to.
    pub sets: bool,
}

/// The places that a walk kept, if it kept those of assignments.
fn places_of(keeper: Keeper<'_, '_>) -> Option<Vec<KeptAssignment>>
    ensures { (ps : List (Placed (Part Span))) → keeper_view keeper.entry ≡ with_parts (assignments_kept false []) ps
        → option_map (λ found. found.items) result ≡ Some (kept_in ps) }
{
    match keeper {
        Keeper::Assignments(assignments) => {
            let Assignments { loops: _, found } = assignments;
            Some(found)
        }
        _ => None,
    }
}

/// The assignments of a file, by the places of their variables and values.
fn places_in(
    alloc: Global,
    file: usize,
    source: &[u8],
    parsed: &Parsed,
) -> Result<Vec<KeptAssignment>, AllocError>
    requires { IsSpanned source.now (view source.now parsed.now) }
    ensures { IfOk result (λ found. found.items ≡ kept_in (parts_of_file file (view source.now parsed.now))) }
{
    let mut keeper = Keeper::Assignments(Assignments {
        loops: false,
        found: Vec::new(alloc),
    });
    walk_file(alloc, file, source, parsed, &mut keeper)?;
    match places_of(keeper) {
        Some(found) => Ok(found),
        None => unreachable!(),
    }
}

/// The offset after the value at a path; 0 if none is there.
fn value_end(parsed: &Parsed, path: &Path) -> usize
    ensures { (source : List ℕ) → result ≡ value_end (view source parsed.now) path.now.steps }
{
    match parsed.expr_at(path) {
        Some(value) => span_of(value).to,
        None => 0,
    }
}

/// The assignment whose variable and value are at these places of a file.
fn held_at(
    alloc: Global,
    file: usize,
    source: &[u8],
    parsed: &Parsed,
    place: &KeptAssignment,
) -> Result<HeldAssignment, AllocError>
    requires { IsIdentifier (text_at source.now place.now.name) }
    ensures { IfOk result (λ held. held ≡ held_at file source.now parsed.now place.now) }
{
    let variable = identifier_text(text_of(source, place.name));
    Ok(HeldAssignment {
        file,
        span: Span {
            from: place.name.from,
            to: value_end(parsed, &place.value),
        },
        variable: Text::of(String::from_str(alloc, variable)?),
        sets: place.sets,
    })
}

/// Those of all these places of a file.
fn all_held_at(
    alloc: Global,
    file: usize,
    source: &[u8],
    parsed: &Parsed,
    places: &[KeptAssignment],
) -> Result<Vec<HeldAssignment>, AllocError>
    requires { AreNamed source.now places.now }
    ensures { IfOk result (λ held. held.items ≡ map (held_at file source.now parsed.now) places.now) }
{
    let mut held = Vec::new(alloc);
    for place in places {
        held.push(held_at(alloc, file, source, parsed, place)?)?;
    }
    Ok(held)
}

/// The assignments of a file.
fn assignments_in(
    alloc: Global,
    file: usize,
    source: &[u8],
    parsed: &Parsed,
) -> Result<Vec<HeldAssignment>, AllocError>
    requires { IsSpanned source.now (view source.now parsed.now) }
    ensures { IfOk result (λ held. held.items ≡ assignments_among (parts_of_file file (view source.now parsed.now))) }
{
    let places = places_in(alloc, file, source, parsed)?;
    all_held_at(alloc, file, source, parsed, places.as_slice())
}

/// The assignments of files with trees, in file order and source order.
fn assignments_of(
    alloc: Global,
    files: &FileSet,
    trees: &[Parsed],
) -> Result<Vec<HeldAssignment>, AllocError>
    requires { AreParsed files.now trees.now }
    ensures { IfOk result (λ held. held.items ≡ assignments_among (parts (named_trees files.now (views files.now trees.now)))) }
{
    let mut all = Vec::new(alloc);
    for i in 0..trees.len() {
        let mut held = assignments_in(alloc, i, files.bytes(i), &trees[i])?;
        all.append(&mut held)?;
    }
    Ok(all)
}

/// The assignments of a project, in file order and source order.
///
/// # Errors
/// Out of memory.
pub fn assignments_held(
    alloc: Global,
    project: &Project,
) -> Result<Many<HeldAssignment>, AllocError>
    ensures { IfOk result (λ held. held ≡ assignments project.now) }
{
    project.reads();
    let held = assignments_of(alloc, project.files(), project.trees())?;
    Ok(Many::of(held))
}
