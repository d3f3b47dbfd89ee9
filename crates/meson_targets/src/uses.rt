//! Uses of a variable outside a statement.

ghost use Rattle.std.specs.Prelude.{◌≡◌, ◌++◌, ◌∷◌, [], IfOk};
ghost use Rattle.meson_syntax.specs.Grammar.{listing_words};
ghost use Rattle.meson_syntax.specs.View.{list_view, text_at};
ghost use Rattle.meson_syntax.specs.declared.operator.Bracket.TheVariants as bracket;
ghost use Rattle.meson_calls.specs.Loading.{IsProject};
ghost use Rattle.meson_calls.specs.NotedProjects.{loaded_in, project_in};
ghost use Rattle.meson_calls.specs.Notes.{note_view, note_views};
ghost use Rattle.meson_calls.specs.Parts.{parts};
ghost use Rattle.meson_calls.specs.ChosenNotes.{call_with};
ghost use Rattle.meson_calls.specs.Project.{place_at};
ghost use Rattle.meson_calls.specs.Roles.{one_of};
ghost use Rattle.meson_calls.specs.Strings.{AreGood, NotesGood, note_words};
ghost use Rattle.meson_calls.specs.Walks.{read_in};
ghost use Rattle.meson_targets.specs.TargetEdits.{call_uses, goes_through, is_used_outside, variable_functions};
ghost use Rattle.meson_targets.specs.inside.TargetViews.{place_view};
ghost use Rattle.meson_targets.specs.inside.Uses.{is_noted_outside, is_outside, is_read_outside, note_uses};

use meson_calls::keeper::Keeper;
use meson_calls::literals::first_literal;
use meson_calls::note::{Note, What};
use meson_calls::noted::Noted;
use meson_calls::notes::notes_of;
use meson_calls::roles::text_of;
use meson_calls::walk_statements::walk_files;
use meson_calls::{BorrowedPlace, CallRef};
use meson_lex::Span;
use meson_syntax::List;
use meson_variables::setters::one_of;
use std::alloc::{AllocError, Global};

/// A statement: the place of its block, and its number there.
#[derive(Drop)]
pub struct StatementPlace {
    pub block: CallRef,
    pub number: usize,
}

impl StatementPlace {
    /// Whether a path in its file leads through the statement.
    fn is_on(&self, path: &[usize]) -> bool
        ensures { result ≡ goes_through (self.now.block.path.steps ++ self.now.number ∷ []) path.now }
    {
        let block = self.block.path.steps.get();
        if path.len() <= block.len() {
            return false;
        }
        for i in 0..block.len() {
            if block[i] != path[i] {
                return false;
            }
        }
        self.number == path[block.len()]
    }

    /// Whether a place is outside the statement.
    pub fn is_outside(&self, place: BorrowedPlace<'_>) -> bool
        ensures { result ≡ is_outside (place_view self.now) (place_at place.entry) }
    {
        self.block.file != place.file || !self.is_on(place.path)
    }
}

/// Whether the first argument of a function names a variable.
fn names_variable(function: &[u8]) -> bool
    ensures { result ≡ one_of variable_functions function.now }
{
    b"get_variable".as_slice() == function
        || b"set_variable".as_slice() == function
        || b"is_variable".as_slice() == function
        || b"unset_variable".as_slice() == function
}

/// Whether a call names the variable.
fn call_uses(
    alloc: Global,
    source: &[u8],
    function: Span,
    arguments: &List,
    name: &[u8],
) -> Result<bool, AllocError>
    requires { AreGood (listing_words (list_view source.now arguments.now) bracket.Round) }
    ensures { IfOk result (λ uses. uses ≡ call_uses name.now (call_with (text_at source.now function) (list_view source.now arguments.now))) }
{
    if !names_variable(text_of(source, function)) {
        return Ok(false);
    }
    match first_literal(alloc, source, arguments)? {
        Some(text) => Ok(name == text.as_bytes()),
        None => Ok(false),
    }
}

/// Whether a call, an assignment or a loop names the variable.
fn note_uses(alloc: Global, note: &Note<'_, '_>, name: &[u8]) -> Result<bool, AllocError>
    requires { AreGood (note_words (note_view note.now).it) }
    ensures { IfOk result (λ uses. uses ≡ note_uses name.now (note_view note.now).it) }
{
    match note.what {
        What::Call {
            function,
            arguments,
        } => call_uses(alloc, note.source, function, arguments, name),
        What::Assign { name: variable, .. } => Ok(text_of(note.source, variable) == name),
        What::Loop { names } => Ok(one_of(note.source, names, name)),
    }
}

/// Whether calls, assignments or loops outside a statement name the variable.
fn is_noted_outside(
    alloc: Global,
    notes: &[Note<'_, '_>],
    line: &StatementPlace,
    name: &[u8],
) -> Result<bool, AllocError>
    requires { NotesGood (note_views notes.now) }
    ensures { IfOk result (λ used. used ≡ is_noted_outside (place_view line.now) name.now (note_views notes.now)) }
{
    for i in 0..notes.len() {
        let note = &notes[i];
        if line.is_outside(note.place) && note_uses(alloc, note, name)? {
            return Ok(true);
        }
    }
    Ok(false)
}

/// Whether one of some places is outside a statement.
fn is_read_outside(places: &[CallRef], line: &StatementPlace) -> bool
    ensures { result ≡ is_read_outside (place_view line.now) places.now }
{
    for i in 0..places.len() {
        if line.is_outside(places[i].as_place()) {
            return true;
        }
    }
    false
}

/// The places of a project where a variable is read, in file order and source order.
fn reads_of<'t>(
    alloc: Global,
    noted: &Noted<'t>,
    name: &'t [u8],
) -> Result<Vec<CallRef>, AllocError>
    requires { IsProject (loaded_in noted.now) }
    ensures { IfOk result (λ found. found.items ≡ read_in name.now (parts (project_in noted.now))) }
{
    let mut keeper = Keeper::Reads {
        name,
        found: Vec::new(alloc),
    };
    walk_files(alloc, noted.files, noted.trees, &mut keeper)?;
    match keeper.reads() {
        Some(found) => Ok(found),
        None => unreachable!(),
    }
}

/// Whether the variable is used outside a statement.
///
/// # Errors
/// Out of memory.
pub fn is_used_outside(
    alloc: Global,
    noted: &Noted<'_>,
    line: &StatementPlace,
    name: &[u8],
) -> Result<bool, AllocError>
    requires { IsProject (loaded_in noted.now) }
    ensures { IfOk result (λ used. used ≡ is_used_outside (project_in noted.now) (place_view line.now) name.now) }
{
    let taken = notes_of(alloc, noted.files, noted.trees)?;
    let notes = taken.all(alloc)?;
    if is_noted_outside(alloc, notes.as_slice(), line, name)? {
        return Ok(true);
    }
    let places = reads_of(alloc, noted, name)?;
    Ok(is_read_outside(places.as_slice(), line))
}
