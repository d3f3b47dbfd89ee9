//! What is done to the elements of lists that say a value: they are removed, or their values become another one.

ghost use Rattle.std.specs.Prelude.{◌≡◌, ◌++◌, IfErr, IfOk, OnOk, Option, Some, map, option_map};
ghost use Rattle.meson_edit.specs.Edits.{Written};
ghost use Rattle.meson_syntax.specs.Grammar.{argument_words};
ghost use Rattle.meson_syntax.specs.Tree.{Expression, Nowhere};
ghost use Rattle.meson_syntax.specs.View.{arg_view, args_view};
ghost use Rattle.meson_calls.specs.GoodLists.{GoodArgs};
ghost use Rattle.meson_calls.specs.Strings.{AreGood};
ghost use Rattle.meson_calls.specs.declared.refusal.Refusal.TheVariants.{OutOfMemory};
ghost use Rattle.meson_steps.specs.ListSteps.{AreBare, bare};
ghost use Rattle.meson_steps.specs.Steps.{step_in};
ghost use Rattle.meson_places.specs.SaidElements.{element_edit, lists_edited, passing_edited, says_one};
ghost use Rattle.meson_places.specs.Values.{given_bytes};
ghost use Rattle.meson_places.specs.inside.Found.{AreGoodLists, found_lists};

use crate::changes::push_edit;
use crate::equality::element_says;
use crate::value_lists::FoundList;
use crate::values::given_bytes;
use meson_calls::{CallRef, Refusal};
use meson_steps::given::Given;
use meson_steps::step::{ListEdit, ListStep};
use meson_syntax::Arg;
use std::alloc::{AllocError, Global};

/// The values of elements that are removed, or become a new one if there is one.
#[derive(Clone, Copy)]
pub(crate) struct Said<'v> {
    pub values: &'v [Given],
    pub new: Option<&'v Given>,
}

/// Whether an element says one of some values.
fn says_one(
    alloc: Global,
    source: &[u8],
    values: &[Given],
    element: &Arg,
) -> Result<bool, AllocError>
    requires { AreGood (argument_words (arg_view source.now element.now)) }
    ensures { IfOk result (λ b. b ≡ says_one source.now values.now (arg_view source.now element.now)) }
{
    for i in 0..values.len() {
        if element_says(alloc, source, &values[i], element)? {
            return Ok(true);
        }
    }
    Ok(false)
}

/// The edit of an element: it is removed, or its value becomes the new one.
fn element_edit(alloc: Global, number: usize, new: Option<&Given>) -> Result<ListEdit, Refusal>
    ensures done { (list : CallRef) (w : Option (Written (Expression Nowhere))) → option_map (λ v. v.bytes) w ≡ option_map (λ g. given_bytes g.now) new.entry
        → IfOk result (λ edit. bare (step_in list (element_edit list.path.steps w number)) ≡ Some (record { list = list; edit = edit })) }
    ensures refused { IfErr result (λ e. e ≡ OutOfMemory) }
{
    match new {
        Some(given) => {
            let bytes = given_bytes(alloc, given)?;
            Ok(ListEdit::Replace(number, bytes))
        }
        None => Ok(ListEdit::Remove(number)),
    }
}

/// Adds the edits of those elements of a list that say one of the values, the last one first.
fn edit_elements(
    alloc: Global,
    source: &[u8],
    list: (&CallRef, &[Arg]),
    said: Said<'_>,
    steps: &mut Vec<ListStep>,
) -> Result<(), Refusal>
    requires { GoodArgs source.now list.1.now }
    ensures done { (w : Option (Written (Expression Nowhere))) → option_map (λ v. v.bytes) w ≡ option_map (λ g. given_bytes g.now) said.entry.new
        → OnOk result (map Some steps.new.items ≡ map Some steps.old.items
        ++ map bare (passing_edited list.entry.0.now w (says_one source.now said.entry.values.now) 0 (args_view source.now list.entry.1.now))) }
    ensures refused { IfErr result (λ e. e ≡ OutOfMemory) }
{
    let (place, elements) = list;
    let mut left = elements.len();
    while left > 0 {
        left -= 1;
        if says_one(alloc, source, said.values, &elements[left])? {
            let edit = element_edit(alloc, left, said.new)?;
            push_edit(alloc, place, edit, steps)?;
        }
    }
    Ok(())
}

/// The edits of those elements of lists that say one of the values.
pub(crate) fn edit_lists(
    alloc: Global,
    source: &[u8],
    lists: &[FoundList<'_>],
    said: Said<'_>,
) -> Result<Vec<ListStep>, Refusal>
    requires { AreGoodLists source.now lists.now }
    ensures done { (w : Option (Written (Expression Nowhere))) → option_map (λ v. v.bytes) w ≡ option_map (λ g. given_bytes g.now) said.entry.new
        → IfOk result (λ steps. AreBare (lists_edited w (says_one source.now said.entry.values.now) (found_lists source.now lists.now)) steps.items) }
    ensures refused { IfErr result (λ e. e ≡ OutOfMemory) }
{
    let mut steps = Vec::new(alloc);
    for i in 0..lists.len() {
        let list = &lists[i];
        let elements = (&list.place, list.elements);
        edit_elements(alloc, source, elements, said, &mut steps)?;
    }
    Ok(steps)
}
