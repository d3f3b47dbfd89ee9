//! Items removed from their lists.

ghost use Rattle.std.specs.Prelude.{◌≡◌, ◌++◌, ◌∷◌, [], IfOk, None, Ok, OnOk, Some, true, length, map, option_map};
ghost use Rattle.meson_calls.specs.Refusals.{IfRefused, RefusedAs};
ghost use Rattle.meson_steps.specs.ListSteps.{bare};
ghost use Rattle.meson_steps.specs.Meanings.{AreMeant};
ghost use Rattle.meson_steps.specs.Names.{distinct};
ghost use Rattle.meson_calls.specs.Project.{place, place_at};
ghost use Rattle.meson_sources.specs.inside.CodeSpots.{all_spots_in, all_there, before_all, is_some_there, spot_if_there, spot_view, spots_in};
ghost use Rattle.meson_sources.specs.SourceEdits.{is_before, number_without, path_without, removal_steps, removed_at, spot_without};

use meson_calls::call::BorrowedPlace;
use meson_calls::place::place_of;
use meson_calls::{CallRef, Refusal};
use meson_splice::Text;
use meson_steps::names::distinct;
use meson_steps::step::{ListEdit, ListStep, push_step};
use meson_variables::marks::Marks;
use std::alloc::{AllocError, Global};

/// An element of a list: the list's file and path, and the element's number.
#[derive(Debug, Drop)]
pub struct ElementSpot {
    pub file: usize,
    pub list: Vec<usize>,
    pub number: usize,
}

/// Whether a spot is an element of this list, before the one of this number.
fn is_before(spot: &ElementSpot, list: BorrowedPlace<'_>, number: usize) -> bool
    ensures { result ≡ is_before (place_at list.entry) number (spot_view spot.now) }
{
    spot.file == list.file && (spot.list.as_slice() == list.path && spot.number < number)
}

/// The number of an element of a list, once other elements are removed.
fn number_without(gone: &[ElementSpot], list: BorrowedPlace<'_>, number: usize) -> usize
    ensures { result ≡ number_without (map spot_view gone.now) (place_at list.entry) number }
{
    let mut before = 0;
    for i in 0..gone.len() {
        if is_before(&gone[i], list, number) {
            before += 1;
        }
    }
    number.saturating_sub(before)
}

/// The path of a list, once elements are removed.
fn path_without(
    alloc: Global,
    gone: &[ElementSpot],
    list: BorrowedPlace<'_>,
) -> Result<Vec<usize>, AllocError>
    ensures { IfOk result (λ path. path.items ≡ path_without (map spot_view gone.now) (place list.entry.file []) list.entry.path.now) }
{
    let mut path = Vec::new(alloc);
    for depth in 0..list.path.len() {
        let above = BorrowedPlace {
            file: list.file,
            path: &list.path[..depth],
        };
        path.push(number_without(gone, above, list.path[depth]))?;
    }
    Ok(path)
}

/// The place of a spot, once others are removed.
fn spot_without(
    alloc: Global,
    gone: &[ElementSpot],
    spot: &ElementSpot,
) -> Result<ElementSpot, AllocError>
    ensures { IfOk result (λ left. spot_view left ≡ spot_without (map spot_view gone.now) (spot_view spot.now)) }
{
    let list = BorrowedPlace {
        file: spot.file,
        path: spot.list.as_slice(),
    };
    Ok(ElementSpot {
        file: spot.file,
        list: path_without(alloc, gone, list)?,
        number: number_without(gone, list, spot.number),
    })
}

/// The steps that remove elements one after the other, each from its place at that time.
///
/// # Errors
/// Out of memory.
pub fn removals(alloc: Global, spots: &[ElementSpot]) -> Result<Vec<ListStep>, AllocError>
    ensures { IfOk result (λ steps. map Some steps.items ≡ map bare (removal_steps (map spot_view spots.now))) }
{
    let mut steps = Vec::new(alloc);
    for i in 0..spots.len() {
        let spot = spot_without(alloc, &spots[..i], &spots[i])?;
        let list = place_of(alloc, spot.file, spot.list.as_slice())?;
        push_step(&mut steps, list, ListEdit::Remove(spot.number))?;
    }
    Ok(steps)
}

/// The spot of an item, if it is in a list.
fn spot_of(
    alloc: Global,
    list: &Option<CallRef>,
    number: Option<usize>,
) -> Result<Option<ElementSpot>, AllocError>
    ensures { IfOk result (λ spot. option_map spot_view spot ≡ spot_if_there list.now number) }
{
    match (list, number) {
        (Some(place), Some(number)) => {
            let list = Vec::from_slice(alloc, place.path.steps.get())?;
            Ok(Some(ElementSpot {
                file: place.file,
                list,
                number,
            }))
        }
        _ => Ok(None),
    }
}

fn push_spot(spots: &mut Vec<ElementSpot>, spot: ElementSpot) -> Result<(), AllocError>
    ensures { OnOk result (spots.new.items ≡ spots.old.items ++ spot ∷ []) }
{
    spots.push(spot)?;
    Ok(())
}

/// Adds the spots of the items of a name, and returns whether there is one.
///
/// # Errors
/// One of them is in no list, or out of memory.
fn find_spots(
    alloc: Global,
    marks: &Marks<'_>,
    name: &Text,
    spots: &mut Vec<ElementSpot>,
) -> Result<bool, Refusal>
    requires { length marks.now.numbers.items ≡ length marks.now.items.items }
    ensures found { OnOk result (before_all (map spot_view spots.old.items)
        (all_there (spots_in marks.now name.now)) ≡ Some (map spot_view spots.new.items)) }
    ensures some { IfOk result (λ b. b ≡ is_some_there (spots_in marks.now name.now)) }
    ensures refused { IfRefused result (λ e. (e ≡ Refusal.NotRemovable) × (all_there (spots_in marks.now name.now) ≡ None)) }
    ensures there { IfRefused result (λ e. is_some_there (spots_in marks.now name.now) ≡ true) }
{
    let mut found = false;
    for i in 0..marks.items.len() {
        let item = &marks.items[i];
        if item.value == *name {
            let Some(spot) = spot_of(alloc, &item.list, marks.numbers[i])? else {
                return Err(Refusal::NotRemovable);
            };
            push_spot(spots, spot)?;
            found = true;
        }
    }
    Ok(found)
}

/// The spots of all items of names.
///
/// # Errors
/// A name is not one of the items, or one of them is in no list, or out of memory.
pub(crate) fn spots_of(
    alloc: Global,
    marks: &Marks<'_>,
    names: &[&Text],
) -> Result<Vec<ElementSpot>, Refusal>
    requires { length marks.now.numbers.items ≡ length marks.now.items.items }
    ensures found { IfOk result (λ spots. all_spots_in marks.now (map (λ x. x.now) names.now) ≡ Ok (map spot_view spots.items)) }
    ensures refused { RefusedAs result (all_spots_in marks.now (map (λ x. x.now) names.now)) }
{
    let mut spots = Vec::new(alloc);
    for i in 0..names.len() {
        let found = find_spots(alloc, marks, names[i], &mut spots)?;
        if !found {
            if marks.unknown.len() > 0 {
                return Err(Refusal::Unresolved);
            }
            return Err(Refusal::SourceNotFound);
        }
    }
    Ok(spots)
}

/// The steps that remove all items of names, each from its place at that time.
///
/// # Errors
/// A name is not one of the items, or one of them is in no list, or out of memory.
pub(crate) fn names_removed(
    alloc: Global,
    marks: &Marks<'_>,
    names: &[Text],
) -> Result<Vec<ListStep>, Refusal>
    requires { length marks.now.numbers.items ≡ length marks.now.items.items }
    ensures meant { IfOk result (λ steps. AreMeant (removed_at (all_spots_in marks.now (distinct names.now))) steps.items) }
    ensures refused { RefusedAs result (removed_at (all_spots_in marks.now (distinct names.now))) }
{
    let names = distinct(alloc, names)?;
    let spots = spots_of(alloc, marks, names.as_slice())?;
    let steps = removals(alloc, spots.as_slice())?;
    Ok(steps)
}
