//! The sources of a call, and the list to which a further one is added.

ghost use Rattle.std.specs.Prelude.{◌≡◌, Ok, IfOk, OnOk};
ghost use Rattle.meson_syntax.specs.View.{list_view};
ghost use Rattle.meson_calls.specs.GoodLists.{GoodArgs, GoodListing};
ghost use Rattle.meson_variables.specs.CodeVariables.{AreVariables, project_of};
ghost use Rattle.meson_calls.specs.ChosenNotes.{Source, placed_call};
ghost use Rattle.meson_calls.specs.Refusals.{RefusedAs};
ghost use Rattle.meson_variables.specs.TargetSources.{or_option, or_call, sources_of_call};
ghost use Rattle.meson_variables.specs.Tallies.{gathered, no_marks};
ghost use Rattle.meson_variables.specs.ExpandedArguments.{all_gathered};

use crate::marks::{Marks, Site};
use crate::source::Sources;
use crate::variables::Variables;
use meson_calls::arguments::{behind_first, count_named};
use meson_calls::call::CallRef;
use meson_calls::place::copy_place;
use meson_calls::refusal::Refusal;
use meson_splice::{Many, Text};
use meson_syntax::{Arg, List};
use std::alloc::{AllocError, Global};

/// The number of variables that may be followed inside one another.
pub const MAX_FOLLOWED: usize = 64;

/// Meets what the arguments of a call with this path hold, if nothing was met before.
fn meet_arguments<'t>(
    variables: &Variables<'t>,
    left: usize,
    call: &CallRef,
    source: &'t [u8],
    args: &'t [Arg],
    path: &mut Vec<usize>,
    marks: &mut Marks<'t>,
) -> Result<(), AllocError>
    requires holds { AreVariables variables.now }
    requires good { GoodArgs source.now args.now }
    requires path { path.old.items ≡ call.now.path.steps }
    requires none { gathered marks.old ≡ no_marks }
    ensures { OnOk result (gathered marks.new ≡ all_gathered (project_of variables.now) left call.now source.entry.now args.entry.now) }
{
    let site = Site {
        file: call.file,
        source,
        variable: None,
    };
    let from = behind_first(args);
    variables.expand_plains(left, site, from, args, path, marks)?;
    let named = b"sources".as_slice();
    variables.expand_nameds(left, site, args, named, path, marks)?;
    if count_named(source, args, b"kwargs".as_slice()) > 0 {
        marks.miss(call.file)?;
    }
    Ok(())
}

/// What the arguments of a call hold: those without a name after the first, `sources:`, and, not known, `kwargs:`.
pub fn met<'t>(
    variables: &Variables<'t>,
    left: usize,
    call: &CallRef,
    source: &'t [u8],
    args: &'t [Arg],
) -> Result<Marks<'t>, AllocError>
    requires holds { AreVariables variables.now }
    requires good { GoodArgs source.now args.now }
    ensures { IfOk result (λ marks. gathered marks ≡ all_gathered (project_of variables.now) left call.now source.entry.now args.entry.now) }
{
    let mut path = Vec::from_slice(variables.alloc, call.path.steps.get())?;
    let mut marks = Marks::new(variables.alloc);
    meet_arguments(variables, left, call, source, args, &mut path, &mut marks)?;
    Ok(marks)
}

/// The list of the first item that is in one, else the first empty list, else the call.
pub fn home_of(
    alloc: Global,
    call: &CallRef,
    list: Option<CallRef>,
    vacant: Option<CallRef>,
) -> Result<CallRef, AllocError>
    ensures { IfOk result (λ home. home ≡ or_call call.now (or_option list vacant)) }
{
    match list {
        Some(place) => Ok(place),
        None => match vacant {
            Some(place) => Ok(place),
            None => copy_place(alloc, call),
        },
    }
}

/// The sources of the call at a place.
///
/// # Errors
/// `sources:` is there twice, or out of memory.
pub(crate) fn sources_of<'t>(
    variables: &Variables<'t>,
    call: &CallRef,
    source: &'t [u8],
    arguments: &'t List,
) -> Result<Sources, Refusal>
    requires holds { AreVariables variables.now }
    requires good { GoodListing (list_view source.now arguments.now) }
    ensures found { (function : Source) → IfOk result (λ s.
        sources_of_call (project_of variables.now) (placed_call call.now function source.entry.now arguments.entry.now) ≡ Ok s) }
    ensures refused { (function : Source) →
        RefusedAs result (sources_of_call (project_of variables.now) (placed_call call.now function source.entry.now arguments.entry.now)) }
{
    let alloc = variables.alloc;
    let args = arguments.items.get();
    if count_named(source, args, b"sources".as_slice()) > 1 {
        let key = String::from_str(alloc, "sources")?;
        return Err(Refusal::DuplicateKeyword(Text::of(key)));
    }
    let marks = met(variables, MAX_FOLLOWED, call, source, args)?;
    let Marks {
        items,
        numbers: _,
        unknown,
        list,
        vacant,
        followed: _,
    } = marks;
    let home = home_of(alloc, call, list, vacant)?;
    Ok(Sources {
        items: Many::of(items),
        opaque: unknown.len(),
        home,
    })
}
