//! Names added to a list.

ghost use Rattle.std.specs.Prelude.{◌≡◌, ◌<◌, ◌^◌, ◌++◌, IfErr, IfOk, OnOk, Some, map};
ghost use Rattle.std.specs.List.{list_any};
ghost use Rattle.meson_steps.specs.ListSteps.{bare};
ghost use Rattle.meson_sources.specs.inside.Naming.{has_value, new_among};
ghost use Rattle.meson_sources.specs.SourceEdits.{insertion_steps};
ghost use Rattle.meson_steps.specs.Names.{distinct};

use meson_calls::place::copy_place;
use meson_calls::{CallRef, Refusal};
use meson_splice::Text;
use meson_steps::literals::written_text;
use meson_steps::names::distinct;
use meson_steps::step::{ListEdit, ListStep, push_step};
use meson_variables::SourceItem;
use meson_variables::marks::Marks;
use std::alloc::{AllocError, Global};

/// Whether an item has this value.
pub(crate) fn is_known(items: &[SourceItem], name: &Text) -> bool
    ensures { result ≡ list_any (has_value name.now) items.now }
{
    for i in 0..items.len() {
        if items[i].value == *name {
            return true;
        }
    }
    false
}

/// The names that are not items yet, each once.
pub(crate) fn new_names<'n>(
    alloc: Global,
    items: &[SourceItem],
    names: &'n [Text],
) -> Result<Vec<&'n Text>, AllocError>
    ensures { IfOk result (λ new. map (λ x. x.now) new.items ≡ new_among items.now names.now) }
{
    let mut new = distinct(alloc, names)?;
    new.retain(|name| !is_known(items, name));
    Ok(new)
}

/// The list of the first item that is in one, and the first empty list.
pub(crate) fn places_of(marks: Marks<'_>) -> (Option<CallRef>, Option<CallRef>)
    ensures list { result.0 ≡ marks.entry.list }
    ensures vacant { result.1 ≡ marks.entry.vacant }
{
    let Marks {
        items: _,
        numbers: _,
        unknown: _,
        list,
        vacant,
        followed: _,
    } = marks;
    (list, vacant)
}

/// Adds names to a list, in order, after this number of elements.
///
/// # Errors
/// Out of memory.
pub fn insert(
    alloc: Global,
    list: &CallRef,
    from: usize,
    names: &[&Text],
    steps: &mut Vec<ListStep>,
) -> Result<(), Refusal>
    requires { from < 2 ^ 63 }
    ensures done { OnOk result (map Some steps.new.items
        ≡ map Some steps.old.items ++ map bare (insertion_steps list.now from (map (λ x. x.now) names.now))) }
    ensures refused { IfErr result (λ e. e ≡ Refusal.OutOfMemory) }
{
    for i in 0..names.len() {
        let before = from + i;
        let new = written_text(alloc, names[i])?;
        let edit = if before == 0 {
            ListEdit::First(new)
        } else {
            ListEdit::After(before - 1, new)
        };
        let list = copy_place(alloc, list)?;
        push_step(steps, list, edit)?;
    }
    Ok(())
}
