//! The steps that add a target at the end of a build file.

ghost use Rattle.std.specs.Prelude.{◌≡◌, ◌∷◌, [], All, IfErr, IfOk, Ok, map};
ghost use Rattle.std.specs.Str.{IsUtf8};
ghost use Rattle.meson_calls.specs.Loading.{IsProject};
ghost use Rattle.meson_calls.specs.NotedProjects.{IsNotedFor, loaded_in, project_in};
ghost use Rattle.meson_calls.specs.Project.{place};
ghost use Rattle.meson_calls.specs.Refusals.{RefusedAs};
ghost use Rattle.meson_steps.specs.Names.{checked_names};
ghost use Rattle.meson_targets.specs.TargetEdits.{checked_kind, is_target_kind, not_taken, number_in, targets_named, written_target};
ghost use Rattle.meson_targets.specs.TargetViews.{new_target};
ghost use Rattle.meson_steps.specs.Meanings.{AreMeant};

use meson_calls::entering::file_in;
use meson_calls::naming::with_name;
use meson_calls::noted::Noted;
use meson_calls::roles::makes_target;
use meson_calls::{CallRef, Refusal, Role};
use meson_splice::{Bytes, Text};
use meson_steps::literals::push_literal;
use meson_steps::names::{checked_names, distinct};
use meson_steps::step::{ListEdit, ListStep, push_step};
use meson_syntax::{Many, Path};
use std::alloc::Global;

/// A target to be: its name, the function that makes it, its folder and its sources.
#[derive(Clone, Copy)]
pub struct NewTarget<'n> {
    pub name: &'n Text,
    pub kind: &'n Text,
    pub folder: &'n Text,
    pub sources: &'n [Text],
}

/// Whether a function says by its name what is built.
fn is_target_kind(kind: &[u8]) -> bool
    ensures { result ≡ is_target_kind kind.now }
{
    makes_target(kind) && kind != b"build_target".as_slice()
}

/// Refuses any other function.
///
/// # Errors
/// The function does not say what is built, or out of memory.
fn checked_kind(alloc: Global, kind: &Text) -> Result<(), Refusal>
    ensures checked { IfOk result (λ u. checked_kind kind.now ≡ Ok tt) }
    ensures refused { RefusedAs result (checked_kind kind.now) }
{
    if is_target_kind(kind.get().as_bytes()) {
        return Ok(());
    }
    let key = String::from_str(alloc, "target_type")?;
    Err(Refusal::WrongKind(Text::of(key)))
}

/// Refuses the name of a target that exists.
///
/// # Errors
/// A target has the name, or out of memory.
fn not_taken(alloc: Global, noted: &Noted<'_>, name: &str) -> Result<(), Refusal>
    requires { IsNotedFor Role.Target name.now noted.now }
    ensures checked { IfOk result (λ u. not_taken (targets_named (project_in noted.now) name.now) ≡ Ok tt) }
    ensures refused { RefusedAs result (not_taken (targets_named (project_in noted.now) name.now)) }
{
    let targets = with_name(alloc, Role::Target, name, noted.notes)?;
    if !targets.as_slice().is_empty() {
        return Err(Refusal::NameTaken);
    }
    Ok(())
}

/// The number of the build file of a folder, which is the root file for the empty text.
///
/// # Errors
/// There is no such file, or out of memory.
fn number_in(alloc: Global, noted: &Noted<'_>, folder: &str) -> Result<usize, Refusal>
    requires { IsProject (loaded_in noted.now) }
    ensures found { IfOk result (λ n. number_in (project_in noted.now) folder.now ≡ Ok n) }
    ensures refused { RefusedAs result (number_in (project_in noted.now) folder.now) }
{
    if folder.is_empty() {
        return match noted.files.find("meson.build") {
            Some(number) => Ok(number),
            None => Err(Refusal::NoFile),
        };
    }
    let Some(name) = file_in(alloc, "meson.build", folder)? else {
        return Err(Refusal::NoFile);
    };
    match noted.files.find(name.as_str()) {
        Some(number) => Ok(number),
        None => Err(Refusal::NoFile),
    }
}

/// `KIND('NAME', 'SOURCE', ..)`.
fn written_target(
    alloc: Global,
    kind: &Text,
    name: &Text,
    sources: &[&Text],
) -> Result<Bytes, Refusal>
    ensures done { IfOk result (λ b. b ≡ (written_target kind.now (name.now ∷ map (λ x. x.now) sources.now)).bytes) }
    ensures refused { IfErr result (λ e. e ≡ Refusal.OutOfMemory) }
{
    let mut out = Vec::new(alloc);
    out.extend_from_slice(kind.get().as_bytes())?;
    out.extend_from_slice(b"(")?;
    push_literal(alloc, &mut out, name.get())?;
    for i in 0..sources.len() {
        out.extend_from_slice(b", ")?;
        push_literal(alloc, &mut out, sources[i].get())?;
    }
    out.extend_from_slice(b")")?;
    Ok(Bytes::of(out))
}

/// Refuses an empty name, of the target or of a source.
///
/// # Errors
/// A name is empty.
fn checked_texts(name: &Text, sources: &[Text]) -> Result<(), Refusal>
    ensures checked { result ≡ checked_names (name.now ∷ sources.now) }
    ensures utf8 { IfOk result (λ u. All IsUtf8 (name.now ∷ sources.now)) }
{
    if name.get().is_empty() {
        return Err(Refusal::BadName);
    }
    checked_names(sources)
}

/// The step that adds a target at the end of its file.
///
/// # Errors
/// The kind is not valid, a name is empty, the name is taken, the folder has no file, or out of memory.
pub fn target_added(
    alloc: Global,
    noted: &Noted<'_>,
    new: NewTarget<'_>,
) -> Result<Vec<ListStep>, Refusal>
    requires { IsNotedFor Role.Target new.name.now noted.now }
    ensures meant { IfOk result (λ steps. AreMeant (new_target (project_in noted.now) new.entry) steps.items) }
    ensures refused { RefusedAs result (new_target (project_in noted.now) new.entry) }
    ensures utf8 { IfOk result (λ steps. All IsUtf8 (new.entry.name.now ∷ new.entry.sources.now)) }
{
    checked_kind(alloc, new.kind)?;
    checked_texts(new.name, new.sources)?;
    not_taken(alloc, noted, new.name.get())?;
    let file = number_in(alloc, noted, new.folder.get())?;
    let sources = distinct(alloc, new.sources)?;
    let statement = written_target(alloc, new.kind, new.name, sources.as_slice())?;
    one_step(alloc, file, statement)
}

/// The step that appends a statement to a file.
fn one_step(alloc: Global, file: usize, statement: Bytes) -> Result<Vec<ListStep>, Refusal>
    ensures done { IfOk result (λ steps. steps.items ≡ record { list = place file []; edit = ListEdit.Append statement } ∷ []) }
    ensures refused { IfErr result (λ e. e ≡ Refusal.OutOfMemory) }
{
    let block = CallRef {
        file,
        path: Path {
            steps: Many::of(Vec::new(alloc)),
        },
    };
    let mut steps = Vec::new(alloc);
    push_step(&mut steps, block, ListEdit::Append(statement))?;
    Ok(steps)
}
