//! Sources of a target that get another name.

ghost use Rattle.std.specs.Prelude.{◌≡◌, ◌++◌, ◌∷◌, [], IfErr, IfOk, OnOk, Some, false, length, map, true};
ghost use Rattle.std.specs.List.{list_any};
ghost use Rattle.std.specs.Str.{IsUtf8};
ghost use Rattle.meson_calls.specs.ChosenNotes.{Source, placed_call};
ghost use Rattle.meson_calls.specs.GoodLists.{GoodListing};
ghost use Rattle.meson_calls.specs.NotedProjects.{IsNotedFor, loaded_in, project_in};
ghost use Rattle.meson_calls.specs.Refusals.{RefusedAs};
ghost use Rattle.meson_calls.specs.Searching.{name_at};
ghost use Rattle.meson_sources.specs.SourceEdits.{renaming, sources_renamed};
ghost use Rattle.meson_sources.specs.Targeted.{renamed_steps};
ghost use Rattle.meson_sources.specs.inside.CodeSpots.{renamed_among, spot_view};
ghost use Rattle.meson_sources.specs.inside.Naming.{has_value};
ghost use Rattle.meson_steps.specs.ListSteps.{bare};
ghost use Rattle.meson_steps.specs.Meanings.{AreMeant};
ghost use Rattle.meson_steps.specs.Names.{checked_names};
ghost use Rattle.meson_steps.specs.Plans.{ArePlanned};
ghost use Rattle.meson_syntax.specs.View.{list_view};
ghost use Rattle.meson_variables.specs.CodeVariables.{AreVariables, project_of};

use crate::inserting::is_known;
use crate::removing::{ElementSpot, spots_of};
use meson_calls::arguments::at_most_once;
use meson_calls::finding::{list_of_call, the_call};
use meson_calls::noted::Noted;
use meson_calls::place::place_of;
use meson_calls::{BorrowedName, CallRef, Refusal, Role};
use meson_splice::Text;
use meson_steps::literals::written_text;
use meson_steps::names::checked_names;
use meson_steps::step::{ListEdit, ListStep, push_step};
use meson_syntax::List;
use meson_variables::SourceItem;
use meson_variables::call_sources::{MAX_FOLLOWED, met};
use meson_variables::marks::Marks;
use meson_variables::variables::Variables;
use std::alloc::Global;
use std::slice;

/// The name that sources have, and the one that they get.
#[derive(Clone, Copy)]
pub struct Renaming<'n> {
    pub old: &'n Text,
    pub new: &'n Text,
}

impl Renaming<'_> {
    /// Refuses an empty name.
    ///
    /// # Errors
    /// A name is empty.
    fn check(self) -> Result<(), Refusal>
        ensures checked { result ≡ checked_names (self.entry.old.now ∷ self.entry.new.now ∷ []) }
        ensures utf8 { OnOk result (IsUtf8 self.entry.new.now) }
    {
        checked_names(slice::from_ref(self.old))?;
        checked_names(slice::from_ref(self.new))
    }
}

/// Adds the step that writes a name in the place of the string at a spot.
///
/// # Errors
/// Out of memory.
fn push_renaming(
    alloc: Global,
    spot: &ElementSpot,
    name: &Text,
    steps: &mut Vec<ListStep>,
) -> Result<(), Refusal>
    ensures done { OnOk result (map Some steps.new.items ≡ map Some steps.old.items ++ bare (renaming name.now (spot_view spot.now)) ∷ []) }
    ensures refused { IfErr result (λ e. e ≡ Refusal.OutOfMemory) }
{
    let list = place_of(alloc, spot.file, spot.list.as_slice())?;
    let new = written_text(alloc, name)?;
    push_step(steps, list, ListEdit::Replace(spot.number, new))?;
    Ok(())
}

/// The steps that write a name in the place of the strings at spots.
///
/// # Errors
/// Out of memory.
fn renamings(alloc: Global, spots: &[ElementSpot], name: &Text) -> Result<Vec<ListStep>, Refusal>
    ensures done { IfOk result (λ steps. map Some steps.items ≡ map bare (map (renaming name.now) (map spot_view spots.now))) }
    ensures refused { IfErr result (λ e. e ≡ Refusal.OutOfMemory) }
{
    let mut steps = Vec::new(alloc);
    for i in 0..spots.len() {
        push_renaming(alloc, &spots[i], name, &mut steps)?;
    }
    Ok(steps)
}

/// Refuses a name that an item has.
///
/// # Errors
/// An item has it.
fn refuse_known(items: &[SourceItem], name: &Text) -> Result<(), Refusal>
    ensures fresh { OnOk result (list_any (has_value name.now) items.now ≡ false) }
    ensures taken { IfErr result (λ e. (e ≡ Refusal.ThereAlready) × (list_any (has_value name.now) items.now ≡ true)) }
{
    if is_known(items, name) {
        return Err(Refusal::ThereAlready);
    }
    Ok(())
}

/// The steps that give all items of a name another one.
///
/// # Errors
/// The old name is not one of the items, or one of them is in no list, or the new name is one; or out of memory.
fn names_renamed(
    alloc: Global,
    marks: &Marks<'_>,
    names: Renaming<'_>,
) -> Result<Vec<ListStep>, Refusal>
    requires { length marks.now.numbers.items ≡ length marks.now.items.items }
    ensures meant { IfOk result (λ steps. AreMeant (renamed_among marks.now names.entry.old.now names.entry.new.now) steps.items) }
    ensures refused { RefusedAs result (renamed_among marks.now names.entry.old.now names.entry.new.now) }
{
    let spots = spots_of(alloc, marks, slice::from_ref(&names.old))?;
    refuse_known(marks.items.as_slice(), names.new)?;
    renamings(alloc, spots.as_slice(), names.new)
}

/// The steps that rename sources, in whatever list they are.
///
/// # Errors
/// A name is empty, `sources:` is there twice, or out of memory. Or the old name is not one of the sources, is one that is in no list, or the new name is one.
fn sources_renamed<'t>(
    variables: &Variables<'t>,
    call: &CallRef,
    source: &'t [u8],
    arguments: &'t List,
    names: Renaming<'_>,
) -> Result<Vec<ListStep>, Refusal>
    requires holds { AreVariables variables.now }
    requires good { GoodListing (list_view source.now arguments.now) }
    ensures meant { (function : Source) → IfOk result (λ steps. AreMeant (sources_renamed (project_of variables.now)
        (placed_call call.now function source.entry.now arguments.entry.now) names.entry.old.now names.entry.new.now) steps.items) }
    ensures refused { (function : Source) → RefusedAs result (sources_renamed (project_of variables.now)
        (placed_call call.now function source.entry.now arguments.entry.now) names.entry.old.now names.entry.new.now) }
    ensures utf8 { IfOk result (λ steps. IsUtf8 names.entry.new.now) }
{
    let alloc = variables.alloc;
    names.check()?;
    at_most_once(alloc, source, arguments, b"sources".as_slice())?;
    let marks = met(variables, MAX_FOLLOWED, call, source, arguments.items.get())?;
    names_renamed(alloc, &marks, names)
}

/// The steps that rename sources of a target.
///
/// # Errors
/// There is no such target or more than one, or the sources can't be renamed, or out of memory.
fn renamed_steps(
    alloc: Global,
    noted: &Noted<'_>,
    target: BorrowedName<'_>,
    names: Renaming<'_>,
) -> Result<Vec<ListStep>, Refusal>
    requires { IsNotedFor Role.Target target.id.now noted.now }
    ensures meant { IfOk result (λ steps.
        AreMeant (renamed_steps (project_in noted.now) (name_at target.entry) names.entry.old.now names.entry.new.now) steps.items) }
    ensures refused { RefusedAs result (renamed_steps (project_in noted.now) (name_at target.entry) names.entry.old.now names.entry.new.now) }
    ensures utf8 { IfOk result (λ steps. IsUtf8 names.entry.new.now) }
{
    let call = the_call(alloc, Role::Target, target, noted.files, noted.notes)?;
    let arguments = list_of_call(noted.trees, &call);
    let source = noted.files.bytes(call.file);
    let variables = Variables::near_noted(alloc, noted, &call)?;
    sources_renamed(&variables, &call, source, arguments, names)
}

/// Renames sources of a target.
///
/// # Errors
/// Why it is refused, or out of memory.
pub fn on_sources(
    alloc: Global,
    noted: &Noted<'_>,
    target: BorrowedName<'_>,
    names: Renaming<'_>,
) -> Result<Vec<ListStep>, Refusal>
    requires { IsNotedFor Role.Target target.id.now noted.now }
    ensures plan { IfOk result (λ steps.
        ArePlanned (loaded_in noted.now) (renamed_steps (project_in noted.now) (name_at target.entry) names.entry.old.now names.entry.new.now) steps.items) }
    ensures refused { RefusedAs result (renamed_steps (project_in noted.now) (name_at target.entry) names.entry.old.now names.entry.new.now) }
{
    renamed_steps(alloc, noted, target, names)
}
