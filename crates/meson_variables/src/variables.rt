//! The values of the variables of a project.

ghost use Rattle.std.specs.Prelude.{◌≡◌, ℕ, List, not, true, All, IfOk, IfSome, IsTrue, option_map};
ghost use Rattle.meson_variables.specs.CodeVariables.{AreVariables, is_sought, project_of};
ghost use Rattle.meson_calls.specs.Setters.{AreKept, is_among};
ghost use Rattle.meson_variables.specs.UnknownSetters.{has_unknown};
ghost use Rattle.meson_calls.specs.Loading.{HasFileName, IsProject, loaded_from, project};
ghost use Rattle.meson_variables.specs.inside.Noted.{by_notes};
ghost use Rattle.meson_calls.specs.NotedProjects.{IsNotedFor, project_in};
ghost use Rattle.meson_calls.specs.Notes.{note_views};
ghost use Rattle.meson_calls.specs.Strings.{NotesGood};
ghost use Rattle.meson_variables.specs.CodeValues.{value_in, value_view};
ghost use Rattle.meson_variables.specs.inside.CodeValues.{has_any};
ghost use Rattle.meson_variables.specs.Variables.{single};
ghost use Rattle.meson_calls.specs.declared.call.Role.{Role};

use crate::mentions::Mentions;
use crate::target_sources::arguments_of;
use crate::unknown_setters::all_known;
use crate::values::{Value, Values};
use meson_calls::call::CallRef;
use meson_calls::kept::Kept;
use meson_calls::note::Note;
use meson_calls::noted::Noted;
use meson_calls::notes::{notes_naming, notes_of};
use meson_calls::roles::is_among;
use meson_splice::FileSet;
use meson_syntax::Parsed;
use std::alloc::{AllocError, Global};

/// The variables whose values are at hand.
#[derive(Drop)]
pub enum Sought<'t> {
    All,
    These(Vec<&'t [u8]>),
}

impl<'t> Sought<'t> {
    /// Whether a variable is one of these.
    fn has(&self, name: &[u8]) -> bool
        ensures { result ≡ is_sought self.now name.now }
    {
        match self {
            Sought::All => true,
            Sought::These(names) => is_among(names.as_slice(), name),
        }
    }
}

/// The variables of a project. The values of those that a command follows are at hand; others are searched for on request.
#[derive(Drop)]
pub struct Variables<'t> {
    pub alloc: Global,
    pub files: &'t FileSet,
    pub trees: &'t [Parsed],
    /// What is kept of each file, if that is known.
    pub kept: &'t [Kept],
    sought: Sought<'t>,
    values: Values<'t>,
}

/// The values by the notes of files: none if a call may set any variable.
fn known_values<'t>(
    alloc: Global,
    files: &FileSet,
    found: &[Note<'_, 't>],
) -> Result<Values<'t>, AllocError>
    requires named { All HasFileName files.now }
    requires good { NotesGood (note_views found.now) }
    ensures { IfOk result (λ values. (x : List ℕ) → value_in values x
        ≡ by_notes x (not (has_unknown files.now (note_views found.now))) (note_views found.now)) }
{
    if all_known(alloc, files, found)? {
        let values = Values::by_notes(alloc, found)?;
        Ok(values)
    } else {
        Ok(Values::new(alloc))
    }
}

/// The values of all variables.
fn all_values<'t>(
    alloc: Global,
    files: &'t FileSet,
    trees: &'t [Parsed],
) -> Result<Values<'t>, AllocError>
    requires { IsProject (loaded_from files.now trees.now) }
    ensures { IfOk result (λ values. (x : List ℕ) → value_in values x ≡ single (project (loaded_from files.now trees.now)) x) }
{
    let taken = notes_of(alloc, files, trees)?;
    let notes = taken.all(alloc)?;
    known_values(alloc, files, notes.as_slice())
}

/// The values of all variables by notes of a project, if these are all its notes. Of a file all notes are taken or none. So those of a project of one file are
/// all, if there is any.
fn noted_values<'t>(alloc: Global, noted: &Noted<'t>) -> Result<Option<Values<'t>>, AllocError>
    requires { (role : Role) × (id : List ℕ) × IsNotedFor role id noted.now }
    ensures { IfOk result (λ o. IfSome o (λ values. (x : List ℕ) → value_in values x ≡ single (project_in noted.now) x)) }
{
    if noted.files.len() != 1 || noted.notes.is_empty() {
        return Ok(None);
    }
    let values = known_values(alloc, noted.files, noted.notes)?;
    Ok(Some(values))
}

/// Whether one of the variables has a value.
fn has_any(values: &Values<'_>, names: &[&[u8]]) -> bool
    ensures { result ≡ has_any values.now names.now }
{
    for i in 0..names.len() {
        if values.of(names[i]).is_some() {
            return true;
        }
    }
    false
}

/// The values of these variables by the notes of files. Whether a call may set any variable is checked only if one has a value.
fn values_named<'t>(
    alloc: Global,
    files: &FileSet,
    found: &[Note<'_, 't>],
    names: &[&[u8]],
) -> Result<Values<'t>, AllocError>
    requires named { All HasFileName files.now }
    requires good { NotesGood (note_views found.now) }
    ensures { IfOk result (λ values. (x : List ℕ) → IsTrue (is_among names.now x)
        → value_in values x ≡ by_notes x (not (has_unknown files.now (note_views found.now))) (note_views found.now)) }
{
    let values = Values::by_notes(alloc, found)?;
    if !has_any(&values, names) {
        return Ok(values);
    }
    if all_known(alloc, files, found)? {
        Ok(values)
    } else {
        Ok(Values::new(alloc))
    }
}

/// The values of these variables. It says nothing about others.
fn some_values<'t>(
    alloc: Global,
    files: &'t FileSet,
    trees: &'t [Parsed],
    kept: &[Kept],
    names: &[&[u8]],
) -> Result<Values<'t>, AllocError>
    requires whole { IsProject (loaded_from files.now trees.now) }
    requires kept { AreKept kept.now files.now trees.now }
    ensures { let p = project (loaded_from files.now trees.now) in
        IfOk result (λ values. (x : List ℕ) → IsTrue (is_among names.now x) → value_in values x ≡ single p x) }
{
    let taken = notes_naming(alloc, names, files, trees, kept)?;
    let notes = taken.all(alloc)?;
    values_named(alloc, files, notes.as_slice(), names)
}

/// The variables that are followed from the arguments of the call at a place on; none if there is no call.
fn mentioned<'t>(
    alloc: Global,
    files: &'t FileSet,
    trees: &'t [Parsed],
    call: &CallRef,
) -> Result<Mentions<'t>, AllocError>
    requires { IsProject (loaded_from files.now trees.now) }
{
    let mut mentions = Mentions::new(alloc);
    if call.file < trees.len() {
        if let Some(expr) = trees[call.file].expr_at(&call.path) {
            if let Some(arguments) = arguments_of(expr) {
                mentions.meet_call(files.bytes(call.file), arguments)?;
            }
        }
    }
    Ok(mentions)
}

impl<'t> Variables<'t> {
    /// Those of a project: the values of these variables are at hand, if they are few and name no others.
    fn of_few(
        alloc: Global,
        files: &'t FileSet,
        trees: &'t [Parsed],
        kept: &'t [Kept],
        mentions: &Mentions<'t>,
    ) -> Result<Option<Variables<'t>>, AllocError>
        requires whole { IsProject (loaded_from files.now trees.now) }
        requires kept { AreKept kept.now files.now trees.now }
        ensures holds { IfOk result (λ o. IfSome o AreVariables) }
        ensures files { IfOk result (λ o. IfSome o (λ v. v.files.now ≡ files.now)) }
        ensures trees { IfOk result (λ o. IfSome o (λ v. v.trees.now ≡ trees.now)) }
    {
        if mentions.are_many() {
            return Ok(None);
        }
        let names = Vec::from_slice(alloc, mentions.names())?;
        let values = some_values(alloc, files, trees, kept, names.as_slice())?;
        let mut further = Mentions::new(alloc);
        further.meet_values(names.as_slice(), &values)?;
        if further.names().is_empty() {
            Ok(Some(Variables {
                alloc,
                files,
                trees,
                kept,
                sought: Sought::These(names),
                values,
            }))
        } else {
            Ok(None)
        }
    }

    /// Those of a project. The values of these variables are at hand, and of those to which they lead.
    fn mentioning(
        alloc: Global,
        files: &'t FileSet,
        trees: &'t [Parsed],
        kept: &'t [Kept],
        mentions: &Mentions<'t>,
    ) -> Result<Variables<'t>, AllocError>
        requires whole { IsProject (loaded_from files.now trees.now) }
        requires kept { AreKept kept.now files.now trees.now }
        ensures holds { IfOk result AreVariables }
        ensures files { IfOk result (λ v. v.files.now ≡ files.now) }
        ensures trees { IfOk result (λ v. v.trees.now ≡ trees.now) }
    {
        match Self::of_few(alloc, files, trees, kept, mentions)? {
            Some(variables) => Ok(variables),
            None => {
                let values = all_values(alloc, files, trees)?;
                Ok(Variables {
                    alloc,
                    files,
                    trees,
                    kept,
                    sought: Sought::All,
                    values,
                })
            }
        }
    }

    /// Those of a project. The values of all variables that are followed from the arguments of a call on are at hand.
    ///
    /// # Errors
    /// Out of memory.
    pub fn near(
        alloc: Global,
        files: &'t FileSet,
        trees: &'t [Parsed],
        kept: &'t [Kept],
        call: &CallRef,
    ) -> Result<Variables<'t>, AllocError>
        requires whole { IsProject (loaded_from files.now trees.now) }
        requires kept { AreKept kept.now files.now trees.now }
        ensures holds { IfOk result AreVariables }
        ensures files { IfOk result (λ v. v.files.now ≡ files.now) }
        ensures trees { IfOk result (λ v. v.trees.now ≡ trees.now) }
    {
        let mentions = mentioned(alloc, files, trees, call)?;
        Self::mentioning(alloc, files, trees, kept, &mentions)
    }

    /// The same for a project with notes of it, which are used again if they are all.
    ///
    /// # Errors
    /// Out of memory.
    pub fn near_noted(
        alloc: Global,
        noted: &Noted<'t>,
        call: &CallRef,
    ) -> Result<Variables<'t>, AllocError>
        requires { (role : Role) × (id : List ℕ) × IsNotedFor role id noted.now }
        ensures holds { IfOk result AreVariables }
        ensures files { IfOk result (λ v. v.files.now ≡ noted.now.files.now) }
        ensures trees { IfOk result (λ v. v.trees.now ≡ noted.now.trees.now) }
    {
        let mentions = mentioned(alloc, noted.files, noted.trees, call)?;
        if !mentions.names().is_empty() {
            if let Some(values) = noted_values(alloc, noted)? {
                return Ok(Variables {
                    alloc,
                    files: noted.files,
                    trees: noted.trees,
                    kept: noted.kept,
                    sought: Sought::All,
                    values,
                });
            }
        }
        Self::mentioning(alloc, noted.files, noted.trees, noted.kept, &mentions)
    }

    /// The one expression that is the value of a variable.
    ///
    /// # Errors
    /// Out of memory.
    pub fn single(&self, name: &[u8]) -> Result<Option<Value<'t>>, AllocError>
        requires { AreVariables self.now }
        ensures { IfOk result (λ found. option_map value_view found ≡ single (project_of self.now) name.now) }
    {
        if self.sought.has(name) {
            return Ok(self.values.of(name));
        }
        let names = [name];
        let values = some_values(
            self.alloc,
            self.files,
            self.trees,
            self.kept,
            names.as_slice(),
        )?;
        Ok(values.of(name))
    }
}
