//! The steps that add values to the lists of a value.

ghost use Rattle.std.specs.Prelude.{◌≡◌, ◌≢◌, ◌<◌, ◌^◌, ◌++◌, ◌∷◌, [], Err, IfErr, IfOk, List, MatchOption, MatchResult, OnOk, Result, Some, length, map, option_map};
ghost use Rattle.meson_edit.specs.Edits.{Replace, Written};
ghost use Rattle.meson_splice.specs.Files.{bytes_at};
ghost use Rattle.meson_syntax.specs.Grammar.{expression_words};
ghost use Rattle.meson_syntax.specs.Tree.{Expression, Nowhere};
ghost use Rattle.meson_syntax.specs.View.{expr_view};
ghost use Rattle.meson_calls.specs.declared.refusal.Refusal.{Refusal as TheRefusal};
ghost use Rattle.meson_calls.specs.declared.refusal.Refusal.TheVariants.{OutOfMemory};
ghost use Rattle.meson_calls.specs.Loading.{AreParsed, IsProject, project};
ghost use Rattle.meson_calls.specs.Project.{expression_at};
ghost use Rattle.meson_calls.specs.Strings.{AreGood};
ghost use Rattle.meson_steps.specs.ListSteps.{AreBare};
ghost use Rattle.meson_steps.specs.Meanings.{AreMeant};
ghost use Rattle.meson_steps.specs.Steps.{Step, step_in};
ghost use Rattle.meson_steps.specs.WrittenTexts.{comma_between};
ghost use Rattle.meson_places.specs.Equality.{fresh, is_old};
ghost use Rattle.meson_places.specs.Names.{loaded_in};
ghost use Rattle.meson_places.specs.NewElements.{add_steps, add_there, add_to_list, add_to_lone, add_to_value, add_to_whole, array_with, beside, lone_token};
ghost use Rattle.meson_places.specs.Room.{if_room};
ghost use Rattle.meson_places.specs.Several.{AllMayBeGiven, put_each};
ghost use Rattle.meson_places.specs.Values.{given_bytes};
ghost use Rattle.meson_places.specs.inside.Found.{IsArrayValue, IsGoodKnown, LoneStands, found_list, is_known};
ghost use Rattle.meson_places.specs.inside.Wanted.{child_view};

use crate::changes::{element_child, push_edit};
use crate::known::{Known, fresh};
use crate::lone_values::add_to_lone;
use crate::name::Sources;
use crate::several::{Held, add_array, has_room_for_all, put_at};
use crate::slots::Slot;
use crate::value_lists::{FoundList, last_list, lists_of};
use crate::values::given_bytes;
use meson_calls::place::child_place;
use meson_calls::{CallRef, Refusal};
use meson_splice::Text;
use meson_steps::given::Given;
use meson_steps::step::{ListEdit, ListStep};
use meson_syntax::{Arg, Expr};
use std::alloc::{AllocError, Global};

/// The steps that put values after this many elements of the list at a place, one after another.
pub(crate) fn put_behind(
    alloc: Global,
    list: &CallRef,
    many: usize,
    values: &[&Given],
) -> Result<Vec<ListStep>, Refusal>
    requires { many < 2 ^ 63 }
    ensures done { (ws : List (Written (Expression Nowhere)))
        → map (λ w. w.bytes) ws ≡ map given_bytes (map (λ x. x.now) values.now) → IfOk result (λ steps. AreBare (put_each list.now many many ws) steps.items) }
    ensures refused { IfErr result (λ e. e ≡ OutOfMemory) }
{
    let mut steps = Vec::new(alloc);
    for i in 0..values.len() {
        let new = given_bytes(alloc, values[i])?;
        let edit = put_at(many, many + i, new);
        push_edit(alloc, list, edit, &mut steps)?;
    }
    Ok(steps)
}

/// The steps that put values after all elements of the list at a place.
fn put_behind_all(
    alloc: Global,
    list: &CallRef,
    elements: &[Arg],
    values: &[&Given],
) -> Result<Vec<ListStep>, Refusal>
    ensures done { let many = length elements.now in (ws : List (Written (Expression Nowhere)))
        → map (λ w. w.bytes) ws ≡ map given_bytes (map (λ x. x.now) values.now) → IfOk result (λ steps. AreBare (put_each list.now many many ws) steps.items) }
    ensures refused { IfErr result (λ e. e ≡ OutOfMemory) }
{
    put_behind(alloc, list, elements.len(), values)
}

/// A list among the files: the source, and what says values already.
#[derive(Clone, Copy)]
struct Receiver<'t> {
    source: &'t [u8],
    known: Known<'t>,
    list: &'t FoundList<'t>,
}

/// The steps that add the values that nothing says already behind all elements of a list.
///
/// # Errors
/// The file would nest too deep, or out of memory.
fn add_to_list(
    alloc: Global,
    sources: Sources<'_>,
    to: Receiver<'_>,
    values: &[Given],
) -> Result<Vec<ListStep>, Refusal>
    requires parsed { AreParsed sources.files.now sources.trees.now }
    requires good { IsGoodKnown to.source.now to.known }
    ensures made { (may : AllMayBeGiven values.now) → let t = to.entry in
        let meant = add_to_list (loaded_in sources.entry) (is_known t.source.now t.known) values.now may (found_list t.source.now t.list.now) in
        MatchResult result (λ steps. AreMeant meant steps.items) (λ e. e ≢ OutOfMemory → meant ≡ Err e) }
{
    let place = &to.list.place;
    if !has_room_for_all(alloc, sources, place, values)? {
        return Err(Refusal::TooDeep);
    }
    let new = fresh(alloc, to.source, to.known, values)?;
    put_behind_all(alloc, place, to.list.elements, new.as_slice())
}

/// The steps that add values to the last list of the expression at a place, if it has one.
///
/// # Errors
/// The file would nest too deep, or out of memory.
fn add_to_value(
    alloc: Global,
    sources: Sources<'_>,
    source: &[u8],
    place: &CallRef,
    value: &Expr,
    values: &[Given],
) -> Result<Option<Vec<ListStep>>, Refusal>
    requires parsed { AreParsed sources.files.now sources.trees.now }
    requires good { AreGood (expression_words (expr_view source.now value.now)) }
    requires source { source.now ≡ bytes_at place.now.file sources.files.now }
    ensures made { (may : AllMayBeGiven values.now) (otherwise : Result (List Step) TheRefusal)
        → let meant = add_to_value (loaded_in sources.entry) values.now may otherwise place.now (expr_view source.now value.now) in
        MatchResult result (λ o. MatchOption o (meant ≡ otherwise) (λ steps. AreMeant meant steps.items)) (λ e. e ≢ OutOfMemory → meant ≡ Err e) }
{
    let lists = lists_of(alloc, source, place, value)?;
    let all = lists.as_slice();
    match last_list(all) {
        Some(list) => {
            let known = Known::Lists(all);
            let to = Receiver {
                source,
                known,
                list,
            };
            let steps = add_to_list(alloc, sources, to, values)?;
            Ok(Some(steps))
        }
        None => Ok(None),
    }
}

/// The steps that add values to a value that is there.
///
/// # Errors
/// It has no list and is not lone; the file would nest too deep; or out of memory.
fn add_there(
    alloc: Global,
    sources: Sources<'_>,
    values: &[Given],
    held: Held<'_>,
) -> Result<Vec<ListStep>, Refusal>
    requires parsed { AreParsed sources.files.now sources.trees.now }
    requires good { AreGood (expression_words (expr_view held.source.now held.child.value.now)) }
    requires source { held.source.now ≡ bytes_at held.list.now.file sources.files.now }
    ensures made { (may : AllMayBeGiven values.now) → let h = held.entry in let c = child_view h.source.now h.child in LoneStands c.value
        → let meant = add_there (loaded_in sources.entry) values.now may h.key.now h.list.now h.number (Some c) in
        MatchResult result (λ steps. AreMeant meant steps.items) (λ e. e ≢ OutOfMemory → meant ≡ Err e) }
{
    let place = child_place(alloc, held.list.as_place(), held.child.number)?;
    match add_to_value(
        alloc,
        sources,
        held.source,
        &place,
        held.child.value,
        values,
    )? {
        Some(steps) => Ok(steps),
        None => add_to_lone(alloc, sources, values, held),
    }
}

/// The steps that add values to the expression at a place.
///
/// # Errors
/// No expression is there, or it has no list; the file would nest too deep; or out of memory.
fn add_to_whole(
    alloc: Global,
    sources: Sources<'_>,
    values: &[Given],
    key: &Text,
    place: &CallRef,
) -> Result<Vec<ListStep>, Refusal>
    requires { AreParsed sources.files.now sources.trees.now }
    ensures made { (may : AllMayBeGiven values.now) → let l = loaded_in sources.entry in
        let meant = add_to_whole l values.now may key.now place.now (expression_at (project l) place.now) in
        MatchResult result (λ steps. AreMeant meant steps.items) (λ e. e ≢ OutOfMemory → meant ≡ Err e) }
{
    if place.file >= sources.trees.len() {
        return Err(Refusal::NoSuchValue(key.clone()?));
    }
    match sources.trees[place.file].expr_at(&place.path) {
        Some(value) => {
            let source = sources.files.bytes(place.file);
            match add_to_value(alloc, sources, source, place, value, values)? {
                Some(steps) => Ok(steps),
                None => Err(Refusal::NotLiteral(key.clone()?)),
            }
        }
        None => Err(Refusal::NoSuchValue(key.clone()?)),
    }
}

/// The steps that add values to the value of a slot: behind the last element of its last list, each that no list of it says. A literal or an identifier becomes
/// the array of it and the values, and an absent key is added with their array.
///
/// # Errors
/// The value has no list; the key of a keyword argument is not an identifier; the file would nest too deep; or out of memory.
pub(crate) fn add_steps(
    alloc: Global,
    sources: Sources<'_>,
    values: &[Given],
    key: &Text,
    slot: &Slot,
) -> Result<Vec<ListStep>, Refusal>
    requires { AreParsed sources.files.now sources.trees.now }
    ensures made { (may : AllMayBeGiven values.now) → let meant = add_steps (loaded_in sources.entry) values.now may key.now slot.now in
        MatchResult result (λ steps. AreMeant meant steps.items) (λ e. e ≢ OutOfMemory → meant ≡ Err e) }
{
    match slot {
        Slot::Element { list, number } => match element_child(sources, list, *number) {
            Some(child) => {
                let held = Held {
                    key,
                    source: sources.files.bytes(list.file),
                    list,
                    number: *number,
                    child,
                };
                add_there(alloc, sources, values, held)
            }
            None => Err(Refusal::NoSuchValue(key.clone()?)),
        },
        Slot::Absent { list, key } => add_array(alloc, sources, values, key, list),
        Slot::Whole(place) => add_to_whole(alloc, sources, values, key, place),
    }
}
