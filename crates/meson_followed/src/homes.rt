//! Lists that may get further sources.

ghost use Rattle.std.specs.Prelude.{◌≡◌, ◌++◌, [], IfOk, OnOk, map, option_map};
ghost use Rattle.std.specs.List.{cons_option, filter_map};
ghost use Rattle.meson_following.specs.CodeFollowing.{mark_view, way_view};
ghost use Rattle.meson_followed.specs.CodeEdits.{home_view, homes_view};
ghost use Rattle.meson_followed.specs.Homes.{empty_of, holding_of, home_at, homes_of, is_fit, is_from};
ghost use Rattle.meson_followed.specs.Sources.{list_around};
ghost use Rattle.meson_sharing.specs.Told.{last_of};

use meson_calls::CallRef;
use meson_calls::place::{copy_place, place_of};
use meson_following::{Mark, Way};
use std::alloc::{AllocError, Global};

/// A list that may get further sources: its place, and the maker in whose value it is, if it is in one.
#[derive(Drop)]
pub(crate) struct Home {
    pub list: CallRef,
    pub maker: Option<CallRef>,
}

/// Such lists: those that a source is an element of, and those in which nothing is met.
#[derive(Drop)]
pub(crate) struct Homes {
    pub holding: Vec<Home>,
    pub empties: Vec<Home>,
}

/// Whether a name in `files` of this file, if it is in such, is a path from the folder of the file of this number.
fn is_from(number: usize, files: Option<usize>) -> bool
    ensures { result ≡ is_from number files }
{
    match files {
        Some(file) => file == number,
        None => true,
    }
}

/// Whether what is put there comes to the target in each evaluation, as what it is in the file of this number.
fn is_fit(number: usize, way: &Way) -> bool
    ensures { result ≡ is_fit number (way_view way.now) }
{
    way.sure && is_from(number, way.files)
}

/// The maker in whose value something is that was met so, if it is in one.
pub(crate) fn maker_of(alloc: Global, way: &Way) -> Result<Option<CallRef>, AllocError>
    ensures { IfOk result (λ maker. maker ≡ last_of way.now.through.items) }
{
    match way.through.as_slice().last() {
        Some(maker) => {
            let maker = copy_place(alloc, maker)?;
            Ok(Some(maker))
        }
        None => Ok(None),
    }
}

/// The place of the list around an element.
fn list_around(alloc: Global, place: &CallRef) -> Result<CallRef, AllocError>
    ensures { IfOk result (λ list. list ≡ list_around place.now) }
{
    let steps = place.path.steps.get();
    match steps.split_last() {
        Some((_, list)) => place_of(alloc, place.file, list),
        None => place_of(alloc, place.file, steps),
    }
}

/// The list at a place that was met so, if it may get sources of a target whose call is in the file of this number.
fn home_at(
    alloc: Global,
    number: usize,
    list: &CallRef,
    way: &Way,
) -> Result<Option<Home>, AllocError>
    ensures { IfOk result (λ home. option_map home_view home ≡ home_at number list.now (way_view way.now)) }
{
    if !is_fit(number, way) {
        return Ok(None);
    }
    let list = copy_place(alloc, list)?;
    let maker = maker_of(alloc, way)?;
    Ok(Some(Home { list, maker }))
}

/// The list that a literal is an element of, if it may get sources.
fn holding_of(alloc: Global, number: usize, mark: &Mark) -> Result<Option<Home>, AllocError>
    ensures { IfOk result (λ home. option_map home_view home ≡ holding_of number (mark_view mark.now)) }
{
    match mark {
        Mark::Known(item) => {
            if !item.listed {
                return Ok(None);
            }
            let list = list_around(alloc, &item.place)?;
            home_at(alloc, number, &list, &item.way)
        }
        _ => Ok(None),
    }
}

/// The empty list that is met, if it may get sources.
fn empty_of(alloc: Global, number: usize, mark: &Mark) -> Result<Option<Home>, AllocError>
    ensures { IfOk result (λ home. option_map home_view home ≡ empty_of number (mark_view mark.now)) }
{
    match mark {
        Mark::Empty { place, way } => home_at(alloc, number, place, way),
        _ => Ok(None),
    }
}

/// Takes a list, if there is one.
fn take_home(home: Option<Home>, homes: &mut Vec<Home>) -> Result<(), AllocError>
    ensures { OnOk result (map home_view homes.new.items ≡ map home_view homes.old.items ++ cons_option (option_map home_view home) []) }
{
    if let Some(home) = home {
        homes.push(home)?;
    }
    Ok(())
}

/// The lists that a source is an element of.
fn all_holding(alloc: Global, number: usize, marks: &[Mark]) -> Result<Vec<Home>, AllocError>
    ensures { IfOk result (λ homes. map home_view homes.items ≡ filter_map (holding_of number) (map mark_view marks.now)) }
{
    let mut homes = Vec::new(alloc);
    for i in 0..marks.len() {
        let home = holding_of(alloc, number, &marks[i])?;
        take_home(home, &mut homes)?;
    }
    Ok(homes)
}

/// The empty lists.
fn all_empty(alloc: Global, number: usize, marks: &[Mark]) -> Result<Vec<Home>, AllocError>
    ensures { IfOk result (λ homes. map home_view homes.items ≡ filter_map (empty_of number) (map mark_view marks.now)) }
{
    let mut homes = Vec::new(alloc);
    for i in 0..marks.len() {
        let home = empty_of(alloc, number, &marks[i])?;
        take_home(home, &mut homes)?;
    }
    Ok(homes)
}

/// The lists that may get sources of a target whose call is in the file of this number.
pub(crate) fn homes_of(alloc: Global, number: usize, marks: &[Mark]) -> Result<Homes, AllocError>
    ensures { IfOk result (λ homes. homes_view homes ≡ homes_of number (map mark_view marks.now)) }
{
    let holding = all_holding(alloc, number, marks)?;
    let empties = all_empty(alloc, number, marks)?;
    Ok(Homes { holding, empties })
}
