//! The steps that remove what says a value: elements of the lists of a value, or all of it.

ghost use Rattle.std.specs.Prelude.{◌≡◌, ◌≢◌, List, Err, IfOk, MatchOption, MatchResult, Result, Some};
ghost use Rattle.meson_splice.specs.Files.{bytes_at};
ghost use Rattle.meson_syntax.specs.Grammar.{expression_words};
ghost use Rattle.meson_syntax.specs.View.{expr_view};
ghost use Rattle.meson_calls.specs.declared.refusal.Refusal.{Refusal as TheRefusal};
ghost use Rattle.meson_calls.specs.declared.refusal.Refusal.TheVariants.{OutOfMemory};
ghost use Rattle.meson_calls.specs.Loading.{AreParsed, Loaded, project};
ghost use Rattle.meson_calls.specs.Project.{expression_at};
ghost use Rattle.meson_calls.specs.Strings.{AreGood};
ghost use Rattle.meson_steps.specs.Meanings.{AreMeant};
ghost use Rattle.meson_steps.specs.Steps.{Step};
ghost use Rattle.meson_places.specs.Names.{loaded_in};
ghost use Rattle.meson_places.specs.Removals.{is_lone, remove_by, remove_lone, remove_said, remove_steps, remove_there, remove_whole, says_other};
ghost use Rattle.meson_places.specs.ValueLists.{lists_of};
ghost use Rattle.meson_places.specs.inside.Found.{AreGoodLists, found_lists};
ghost use Rattle.meson_places.specs.inside.Wanted.{child_view};

use crate::changes::{element_child, push_edit};
use crate::known::{Known, any_known, are_known};
use crate::lone_values::lone_token;
use crate::name::Sources;
use crate::said_elements::{Said, edit_lists};
use crate::several::Held;
use crate::slots::Slot;
use crate::value_lists::{FoundList, lists_of};
use meson_calls::place::child_place;
use meson_calls::{CallRef, Refusal};
use meson_splice::Text;
use meson_steps::given::Given;
use meson_steps::step::{ListEdit, ListStep};
use meson_syntax::Expr;
use std::alloc::{AllocError, Global};

/// A value in a source, and the key that refusals name.
#[derive(Clone, Copy)]
pub(crate) struct Keyed<'t> {
    pub key: &'t Text,
    pub source: &'t [u8],
    pub value: &'t Expr,
}

/// Whether an expression is a literal, an identifier or a truth value.
fn is_lone(alloc: Global, source: &[u8], value: &Expr) -> Result<bool, AllocError>
    requires { AreGood (expression_words (expr_view source.now value.now)) }
    ensures { IfOk result (λ b. b ≡ is_lone (expr_view source.now value.now)) }
{
    match lone_token(alloc, source, value)? {
        Some(_) => Ok(true),
        None => Ok(matches!(value, Expr::Boolean { .. })),
    }
}

/// Why a value without a list does not say what it should.
pub(crate) fn says_other(alloc: Global, keyed: Keyed<'_>) -> Result<Refusal, AllocError>
    requires { AreGood (expression_words (expr_view keyed.source.now keyed.value.now)) }
    ensures { let k = keyed.entry in IfOk result (λ e. e ≡ says_other k.key.now (expr_view k.source.now k.value.now)) }
{
    if is_lone(alloc, keyed.source, keyed.value)? {
        Ok(Refusal::NoSuchValue(keyed.key.clone()?))
    } else {
        Ok(Refusal::NotLiteral(keyed.key.clone()?))
    }
}

/// The steps that remove elements of lists, where each of the values is said by one.
///
/// # Errors
/// No element says one of the values, or out of memory.
fn remove_said(
    alloc: Global,
    source: &[u8],
    key: &Text,
    values: &[Given],
    lists: &[FoundList<'_>],
) -> Result<Vec<ListStep>, Refusal>
    requires { AreGoodLists source.now lists.now }
    ensures made { let meant = remove_said key.now source.now values.now (found_lists source.now lists.now) in
        MatchResult result (λ steps. AreMeant meant steps.items) (λ e. e ≢ OutOfMemory → meant ≡ Err e) }
{
    if !are_known(alloc, source, Known::Lists(lists), values)? {
        return Err(Refusal::NoSuchValue(key.clone()?));
    }
    edit_lists(alloc, source, lists, Said { values, new: None })
}

/// Checks that a value without a list says each of the values.
///
/// # Errors
/// It says another one, or none of them; or out of memory.
fn check_lone(alloc: Global, keyed: Keyed<'_>, values: &[Given]) -> Result<(), Refusal>
    requires { AreGood (expression_words (expr_view keyed.source.now keyed.value.now)) }
    ensures made { (gone : Result (List Step) TheRefusal) → let k = keyed.entry in
        let meant = remove_lone k.key.now k.source.now values.now gone (expr_view k.source.now k.value.now) in
        MatchResult result (λ u. meant ≡ gone) (λ e. e ≢ OutOfMemory → meant ≡ Err e) }
{
    let known = Known::Value(keyed.value);
    if !any_known(alloc, keyed.source, known, values)? {
        return Err(says_other(alloc, keyed)?);
    }
    if !are_known(alloc, keyed.source, known, values)? {
        return Err(Refusal::NoSuchValue(keyed.key.clone()?));
    }
    Ok(())
}

/// The steps that remove elements of the lists of the value at a place. Nothing where it has no list and says each of the values.
///
/// # Errors
/// The faults of `remove_said` or `check_lone`.
fn remove_from(
    alloc: Global,
    keyed: Keyed<'_>,
    place: &CallRef,
    values: &[Given],
) -> Result<Option<Vec<ListStep>>, Refusal>
    requires { AreGood (expression_words (expr_view keyed.source.now keyed.value.now)) }
    ensures made { (gone : Result (List Step) TheRefusal) → let k = keyed.entry in let e = expr_view k.source.now k.value.now in
        let meant = remove_by k.key.now k.source.now values.now gone e (lists_of place.now e) in
        MatchResult result (λ o. MatchOption o (meant ≡ gone) (λ steps. AreMeant meant steps.items)) (λ e. e ≢ OutOfMemory → meant ≡ Err e) }
{
    let lists = lists_of(alloc, keyed.source, place, keyed.value)?;
    if lists.is_empty() {
        check_lone(alloc, keyed, values)?;
        return Ok(None);
    }
    let lists = lists.as_slice();
    let steps = remove_said(alloc, keyed.source, keyed.key, values, lists)?;
    Ok(Some(steps))
}

/// The steps that remove elements of the lists of a value that is there; or its argument or entry, where it has no list and says each of the values.
///
/// # Errors
/// The faults of `remove_from`.
fn remove_there(alloc: Global, values: &[Given], held: Held<'_>) -> Result<Vec<ListStep>, Refusal>
    requires good { AreGood (expression_words (expr_view held.source.now held.child.value.now)) }
    ensures made { (l : Loaded) → let h = held.entry in h.source.now ≡ bytes_at h.list.now.file l.files
        → let meant = remove_there l values.now h.key.now h.list.now h.number (Some (child_view h.source.now h.child)) in
        MatchResult result (λ steps. AreMeant meant steps.items) (λ e. e ≢ OutOfMemory → meant ≡ Err e) }
{
    let place = child_place(alloc, held.list.as_place(), held.child.number)?;
    let keyed = Keyed {
        key: held.key,
        source: held.source,
        value: held.child.value,
    };
    match remove_from(alloc, keyed, &place, values)? {
        Some(steps) => Ok(steps),
        None => {
            let mut steps = Vec::new(alloc);
            push_edit(alloc, held.list, ListEdit::Remove(held.number), &mut steps)?;
            Ok(steps)
        }
    }
}

/// The steps that remove elements of the lists of the expression at a place.
///
/// # Errors
/// No expression is there, or it has no list; or the faults of `remove_from`.
fn remove_whole(
    alloc: Global,
    sources: Sources<'_>,
    values: &[Given],
    key: &Text,
    place: &CallRef,
) -> Result<Vec<ListStep>, Refusal>
    requires { AreParsed sources.files.now sources.trees.now }
    ensures made { let l = loaded_in sources.entry in
        let meant = remove_whole l values.now key.now place.now (expression_at (project l) place.now) in
        MatchResult result (λ steps. AreMeant meant steps.items) (λ e. e ≢ OutOfMemory → meant ≡ Err e) }
{
    if place.file >= sources.trees.len() {
        return Err(Refusal::NoSuchValue(key.clone()?));
    }
    match sources.trees[place.file].expr_at(&place.path) {
        Some(value) => {
            let source = sources.files.bytes(place.file);
            let keyed = Keyed { key, source, value };
            match remove_from(alloc, keyed, place, values)? {
                Some(steps) => Ok(steps),
                None => Err(Refusal::NotRemovable),
            }
        }
        None => Err(Refusal::NoSuchValue(key.clone()?)),
    }
}

/// The steps that remove what says one of the values: each element of the lists of the value of a slot. A value without a list takes its argument or entry
/// along.
///
/// # Errors
/// The slot is absent, or nothing says one of the values; the value has no list and is another expression, or an assigned one that says them; or out of memory.
pub fn remove_steps(
    alloc: Global,
    sources: Sources<'_>,
    values: &[Given],
    key: &Text,
    slot: &Slot,
) -> Result<Vec<ListStep>, Refusal>
    requires { AreParsed sources.files.now sources.trees.now }
    ensures made { let meant = remove_steps (loaded_in sources.entry) values.now key.now slot.now in
        MatchResult result (λ steps. AreMeant meant steps.items) (λ e. e ≢ OutOfMemory → meant ≡ Err e) }
{
    match slot {
        Slot::Element { list, number } => match element_child(sources, list, *number) {
            Some(child) => {
                let held = Held {
                    key,
                    source: sources.files.bytes(list.file),
                    list,
                    number: *number,
                    child,
                };
                remove_there(alloc, values, held)
            }
            None => Err(Refusal::NoSuchValue(key.clone()?)),
        },
        Slot::Absent { key, .. } => Err(Refusal::NoSuchValue(key.clone()?)),
        Slot::Whole(place) => remove_whole(alloc, sources, values, key, place),
    }
}
