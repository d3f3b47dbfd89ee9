//! The steps that replace what says a value: elements of the lists of a value, or all of it.

ghost use Rattle.std.specs.Prelude.{◌≡◌, ◌≢◌, ℕ, List, Err, IfOk, MatchOption, MatchResult, Result, Some};
ghost use Rattle.meson_splice.specs.Files.{bytes_at};
ghost use Rattle.meson_syntax.specs.Grammar.{expression_words};
ghost use Rattle.meson_syntax.specs.View.{expr_view};
ghost use Rattle.meson_calls.specs.declared.refusal.Refusal.{Refusal as TheRefusal};
ghost use Rattle.meson_calls.specs.declared.refusal.Refusal.TheVariants.{OutOfMemory};
ghost use Rattle.meson_calls.specs.Loading.{AreParsed, project};
ghost use Rattle.meson_calls.specs.Project.{expression_at};
ghost use Rattle.meson_calls.specs.Strings.{AreGood};
ghost use Rattle.meson_steps.specs.GivenWords.{MayBeGiven};
ghost use Rattle.meson_steps.specs.Meanings.{AreMeant};
ghost use Rattle.meson_steps.specs.Steps.{Step};
ghost use Rattle.meson_places.specs.Names.{loaded_in};
ghost use Rattle.meson_places.specs.Replacements.{exchange, exchange_steps, have_room, if_assigned, replace_assigned, replace_by, replace_lone, replace_roomy, replace_said, replace_there, replace_whole};
ghost use Rattle.meson_places.specs.ValueLists.{lists_of};
ghost use Rattle.meson_places.specs.Values.{given_node};
ghost use Rattle.meson_places.specs.inside.Found.{AreGoodLists, found_lists};
ghost use Rattle.meson_places.specs.inside.Wanted.{child_view};

use crate::assigned::{assign_steps, assigned_room, is_assigned};
use crate::changes::{element_child, push_edit};
use crate::equality::{lists_say, says};
use crate::name::Sources;
use crate::removals::{Keyed, says_other};
use crate::room::has_room;
use crate::said_elements::{Said, edit_lists};
use crate::several::Held;
use crate::slots::Slot;
use crate::value_lists::{FoundList, lists_of};
use crate::values::given_bytes;
use meson_calls::place::child_place;
use meson_calls::{CallRef, Refusal};
use meson_splice::Text;
use meson_steps::given::Given;
use meson_steps::step::{ListEdit, ListStep};
use std::alloc::{AllocError, Global};
use std::slice;

/// A value that is sought, and the one that takes its place.
#[derive(Clone, Copy)]
pub struct Pair<'v> {
    pub old: &'v Given,
    pub new: &'v Given,
}

/// Whether each of some lists has room for a value.
fn have_room(
    alloc: Global,
    sources: Sources<'_>,
    lists: &[FoundList<'_>],
    given: &Given,
) -> Result<bool, AllocError>
    requires { AreParsed sources.files.now sources.trees.now }
    ensures { (source : List ℕ) (may : MayBeGiven given.now)
        → IfOk result (λ b. b ≡ have_room (loaded_in sources.entry) (given_node given.now may) (found_lists source lists.now)) }
{
    for i in 0..lists.len() {
        if !has_room(alloc, sources, &lists[i].place, given)? {
            return Ok(false);
        }
    }
    Ok(true)
}

/// The steps that replace those elements of lists that say a value, if the lists have room for the new one.
///
/// # Errors
/// The file would nest too deep, or out of memory.
fn replace_roomy(
    alloc: Global,
    sources: Sources<'_>,
    source: &[u8],
    pair: Pair<'_>,
    lists: &[FoundList<'_>],
) -> Result<Vec<ListStep>, Refusal>
    requires parsed { AreParsed sources.files.now sources.trees.now }
    requires good { AreGoodLists source.now lists.now }
    ensures made { (may : MayBeGiven pair.entry.new.now) → let p = pair.entry in
        let meant = replace_roomy (loaded_in sources.entry) source.now (exchange p.old.now p.new.now may) (found_lists source.now lists.now) in
        MatchResult result (λ steps. AreMeant meant steps.items) (λ e. e ≢ OutOfMemory → meant ≡ Err e) }
{
    if !have_room(alloc, sources, lists, pair.new)? {
        return Err(Refusal::TooDeep);
    }
    let said = Said {
        values: slice::from_ref(pair.old),
        new: Some(pair.new),
    };
    edit_lists(alloc, source, lists, said)
}

/// The steps that replace those elements of lists that say a value, where none says the new one.
///
/// # Errors
/// An element says the new value, or none says the old one; the file would nest too deep; or out of memory.
fn replace_said(
    alloc: Global,
    sources: Sources<'_>,
    keyed: Keyed<'_>,
    pair: Pair<'_>,
    lists: &[FoundList<'_>],
) -> Result<Vec<ListStep>, Refusal>
    requires parsed { AreParsed sources.files.now sources.trees.now }
    requires good { AreGoodLists keyed.source.now lists.now }
    ensures made { (may : MayBeGiven pair.entry.new.now) → let p = pair.entry in let k = keyed.entry in
        let meant = replace_said (loaded_in sources.entry) k.key.now k.source.now (exchange p.old.now p.new.now may) (found_lists k.source.now lists.now) in
        MatchResult result (λ steps. AreMeant meant steps.items) (λ e. e ≢ OutOfMemory → meant ≡ Err e) }
{
    if lists_say(alloc, keyed.source, pair.new, lists)? {
        return Err(Refusal::ThereAlready);
    }
    if !lists_say(alloc, keyed.source, pair.old, lists)? {
        return Err(Refusal::NoSuchValue(keyed.key.clone()?));
    }
    replace_roomy(alloc, sources, keyed.source, pair, lists)
}

/// The steps that replace elements of the lists of the value at a place, if it has any.
///
/// # Errors
/// The faults of `replace_said`.
fn replace_in(
    alloc: Global,
    sources: Sources<'_>,
    keyed: Keyed<'_>,
    pair: Pair<'_>,
    place: &CallRef,
) -> Result<Option<Vec<ListStep>>, Refusal>
    requires parsed { AreParsed sources.files.now sources.trees.now }
    requires good { AreGood (expression_words (expr_view keyed.source.now keyed.value.now)) }
    ensures made { (may : MayBeGiven pair.entry.new.now) (otherwise : Result (List Step) TheRefusal) → let p = pair.entry in let k = keyed.entry in
        let lists = lists_of place.now (expr_view k.source.now k.value.now) in
        let meant = replace_by (loaded_in sources.entry) k.key.now k.source.now (exchange p.old.now p.new.now may) otherwise lists in
        MatchResult result (λ o. MatchOption o (meant ≡ otherwise) (λ steps. AreMeant meant steps.items)) (λ e. e ≢ OutOfMemory → meant ≡ Err e) }
{
    let lists = lists_of(alloc, keyed.source, place, keyed.value)?;
    if lists.is_empty() {
        return Ok(None);
    }
    let steps = replace_said(alloc, sources, keyed, pair, lists.as_slice())?;
    Ok(Some(steps))
}

/// The steps that replace a value without a list.
///
/// # Errors
/// It says the new value, or does not say the old one; the file would nest too deep; or out of memory.
fn replace_lone(
    alloc: Global,
    sources: Sources<'_>,
    held: Held<'_>,
    pair: Pair<'_>,
) -> Result<Vec<ListStep>, Refusal>
    requires parsed { AreParsed sources.files.now sources.trees.now }
    requires good { AreGood (expression_words (expr_view held.source.now held.child.value.now)) }
    ensures made { (may : MayBeGiven pair.entry.new.now) → let p = pair.entry in let h = held.entry in
        let e = expr_view h.source.now h.child.value.now in
        let meant = replace_lone (loaded_in sources.entry) h.key.now h.source.now (exchange p.old.now p.new.now may) h.list.now h.number e in
        MatchResult result (λ steps. AreMeant meant steps.items) (λ e. e ≢ OutOfMemory → meant ≡ Err e) }
{
    let value = held.child.value;
    if says(alloc, held.source, pair.new, value)? {
        return Err(Refusal::ThereAlready);
    }
    if !says(alloc, held.source, pair.old, value)? {
        let keyed = Keyed {
            key: held.key,
            source: held.source,
            value,
        };
        return Err(says_other(alloc, keyed)?);
    }
    if !has_room(alloc, sources, held.list, pair.new)? {
        return Err(Refusal::TooDeep);
    }
    let mut steps = Vec::new(alloc);
    let edit = ListEdit::Replace(held.number, given_bytes(alloc, pair.new)?);
    push_edit(alloc, held.list, edit, &mut steps)?;
    Ok(steps)
}

/// The steps that replace elements of the lists of a value that is there; or all of it, where it has no list.
///
/// # Errors
/// The faults of `replace_in` or `replace_lone`.
fn replace_there(
    alloc: Global,
    sources: Sources<'_>,
    pair: Pair<'_>,
    held: Held<'_>,
) -> Result<Vec<ListStep>, Refusal>
    requires parsed { AreParsed sources.files.now sources.trees.now }
    requires good { AreGood (expression_words (expr_view held.source.now held.child.value.now)) }
    requires source { held.source.now ≡ bytes_at held.list.now.file sources.files.now }
    ensures made { (may : MayBeGiven pair.entry.new.now) → let p = pair.entry in let h = held.entry in let c = child_view h.source.now h.child in
        let meant = replace_there (loaded_in sources.entry) (exchange p.old.now p.new.now may) h.key.now h.list.now h.number (Some c) in
        MatchResult result (λ steps. AreMeant meant steps.items) (λ e. e ≢ OutOfMemory → meant ≡ Err e) }
{
    let place = child_place(alloc, held.list.as_place(), held.child.number)?;
    let keyed = Keyed {
        key: held.key,
        source: held.source,
        value: held.child.value,
    };
    match replace_in(alloc, sources, keyed, pair, &place)? {
        Some(steps) => Ok(steps),
        None => replace_lone(alloc, sources, held, pair),
    }
}

/// The steps that replace an assigned value without a list.
///
/// # Errors
/// It says the new value, or does not say the old one; the new one is code of more than one line; the file would nest too deep; or out of memory.
fn replace_assigned(
    alloc: Global,
    keyed: Keyed<'_>,
    pair: Pair<'_>,
    place: &CallRef,
) -> Result<Vec<ListStep>, Refusal>
    requires { AreGood (expression_words (expr_view keyed.source.now keyed.value.now)) }
    ensures made { (may : MayBeGiven pair.entry.new.now) → let p = pair.entry in let k = keyed.entry in let e = expr_view k.source.now k.value.now in
        let meant = replace_assigned k.key.now k.source.now (exchange p.old.now p.new.now may) place.now e in
        MatchResult result (λ steps. AreMeant meant steps.items) (λ e. e ≢ OutOfMemory → meant ≡ Err e) }
{
    if says(alloc, keyed.source, pair.new, keyed.value)? {
        return Err(Refusal::ThereAlready);
    }
    if !says(alloc, keyed.source, pair.old, keyed.value)? {
        return Err(says_other(alloc, keyed)?);
    }
    if !assigned_room(alloc, place, pair.new)? {
        return Err(Refusal::TooDeep);
    }
    assign_steps(alloc, place, pair.new, keyed.key)
}

/// The same, if the value is an assigned one.
///
/// # Errors
/// It is not, or the faults of `replace_assigned`.
fn if_assigned(
    alloc: Global,
    sources: Sources<'_>,
    keyed: Keyed<'_>,
    pair: Pair<'_>,
    place: &CallRef,
) -> Result<Vec<ListStep>, Refusal>
    requires parsed { AreParsed sources.files.now sources.trees.now }
    requires good { AreGood (expression_words (expr_view keyed.source.now keyed.value.now)) }
    requires source { keyed.source.now ≡ bytes_at place.now.file sources.files.now }
    ensures made { (may : MayBeGiven pair.entry.new.now) → let p = pair.entry in let k = keyed.entry in let e = expr_view k.source.now k.value.now in
        let meant = if_assigned (loaded_in sources.entry) k.key.now (exchange p.old.now p.new.now may) place.now e in
        MatchResult result (λ steps. AreMeant meant steps.items) (λ e. e ≢ OutOfMemory → meant ≡ Err e) }
{
    if !is_assigned(alloc, sources, place)? {
        return Err(Refusal::NotLiteral(keyed.key.clone()?));
    }
    replace_assigned(alloc, keyed, pair, place)
}

/// The steps that replace elements of the lists of the expression at a place, or all of it, where it has no list and is an assigned value.
///
/// # Errors
/// No expression is there; or the faults of `replace_in` or `if_assigned`.
pub(crate) fn replace_whole(
    alloc: Global,
    sources: Sources<'_>,
    pair: Pair<'_>,
    key: &Text,
    place: &CallRef,
) -> Result<Vec<ListStep>, Refusal>
    requires { AreParsed sources.files.now sources.trees.now }
    ensures made { (may : MayBeGiven pair.entry.new.now) → let p = pair.entry in let l = loaded_in sources.entry in
        let meant = replace_whole l (exchange p.old.now p.new.now may) key.now place.now (expression_at (project l) place.now) in
        MatchResult result (λ steps. AreMeant meant steps.items) (λ e. e ≢ OutOfMemory → meant ≡ Err e) }
{
    if place.file >= sources.trees.len() {
        return Err(Refusal::NoSuchValue(key.clone()?));
    }
    match sources.trees[place.file].expr_at(&place.path) {
        Some(value) => {
            let source = sources.files.bytes(place.file);
            let keyed = Keyed { key, source, value };
            match replace_in(alloc, sources, keyed, pair, place)? {
                Some(steps) => Ok(steps),
                None => if_assigned(alloc, sources, keyed, pair, place),
            }
        }
        None => Err(Refusal::NoSuchValue(key.clone()?)),
    }
}

/// The steps that replace what says the old value by the new one: each element of the lists of the value of a slot, or a value without a list.
///
/// # Errors
/// The slot is absent, nothing says the old value, or something says the new one; the value has no list and is another expression; the new value of an
/// assignment is code of more than one line; the file would nest too deep; or out of memory.
pub fn replace_steps(
    alloc: Global,
    sources: Sources<'_>,
    pair: Pair<'_>,
    key: &Text,
    slot: &Slot,
) -> Result<Vec<ListStep>, Refusal>
    requires { AreParsed sources.files.now sources.trees.now }
    ensures made { (may : MayBeGiven pair.entry.new.now) → let p = pair.entry in
        let meant = exchange_steps (loaded_in sources.entry) (exchange p.old.now p.new.now may) key.now slot.now in
        MatchResult result (λ steps. AreMeant meant steps.items) (λ e. e ≢ OutOfMemory → meant ≡ Err e) }
{
    match slot {
        Slot::Element { list, number } => match element_child(sources, list, *number) {
            Some(child) => {
                let held = Held {
                    key,
                    source: sources.files.bytes(list.file),
                    list,
                    number: *number,
                    child,
                };
                replace_there(alloc, sources, pair, held)
            }
            None => Err(Refusal::NoSuchValue(key.clone()?)),
        },
        Slot::Absent { key, .. } => Err(Refusal::NoSuchValue(key.clone()?)),
        Slot::Whole(place) => replace_whole(alloc, sources, pair, key, place),
    }
}
