//! The extra files of a target.

ghost use Rattle.std.specs.Prelude.{◌≡◌, IfOk, Ok};
ghost use Rattle.meson_syntax.specs.View.{list_view};
ghost use Rattle.meson_calls.specs.GoodLists.{GoodListing};
ghost use Rattle.meson_variables.specs.CodeVariables.{AreVariables, project_of};
ghost use Rattle.meson_calls.specs.ChosenNotes.{Source, placed_call};
ghost use Rattle.meson_calls.specs.Refusals.{RefusedAs};
ghost use Rattle.meson_sources.specs.Extras.{extra_of_call};

use crate::extra_edits::extra_met;
use meson_calls::arguments::at_most_once;
use meson_calls::{CallRef, Refusal};
use meson_splice::Many;
use meson_syntax::List;
use meson_variables::Sources;
use meson_variables::call_sources::{MAX_FOLLOWED, home_of};
use meson_variables::marks::Marks;
use meson_variables::variables::Variables;

/// The extra files of the call at a place.
///
/// # Errors
/// `extra_files:` is there twice, or out of memory.
pub fn extra_files_of<'t>(
    variables: &Variables<'t>,
    call: &CallRef,
    source: &'t [u8],
    arguments: &'t List,
) -> Result<Sources, Refusal>
    requires holds { AreVariables variables.now }
    requires good { GoodListing (list_view source.now arguments.now) }
    ensures found { (function : Source) → IfOk result (λ s.
        extra_of_call (project_of variables.now) (placed_call call.now function source.entry.now arguments.entry.now) ≡ Ok s) }
    ensures refused { (function : Source) →
        RefusedAs result (extra_of_call (project_of variables.now) (placed_call call.now function source.entry.now arguments.entry.now)) }
{
    let alloc = variables.alloc;
    at_most_once(alloc, source, arguments, b"extra_files".as_slice())?;
    let marks = extra_met(variables, MAX_FOLLOWED, call, source, arguments.items.get())?;
    let Marks {
        items,
        numbers: _,
        unknown,
        list,
        vacant,
        followed: _,
    } = marks;
    let home = home_of(alloc, call, list, vacant)?;
    Ok(Sources {
        items: Many::of(items),
        opaque: unknown.len(),
        home,
    })
}
