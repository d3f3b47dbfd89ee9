//! The elements that are removed or renamed, by the names of sources.

ghost use Rattle.std.specs.Prelude.{◌≡◌, IfOk, Ok, count_by, map, option_map};
ghost use Rattle.meson_calls.specs.Loading.{IsProject, loaded_from};
ghost use Rattle.meson_calls.specs.Refusals.{RefusedAs};
ghost use Rattle.meson_following.specs.CodeFollowing.{followed_project, mark_view};
ghost use Rattle.meson_sharing.specs.Told.{is_opaque};
ghost use Rattle.meson_sources.specs.SourceEdits.{none_found};
ghost use Rattle.meson_followed.specs.CodeEdits.{met_view, path_now};
ghost use Rattle.meson_followed.specs.CodeRemovals.{removal_view};
ghost use Rattle.meson_followed.specs.FollowedEdits.{removal_of, removals_at, removals_by, removals_named, removals_of};
ghost use Rattle.meson_followed.specs.Sources.{sources_at};

use crate::homes::maker_of;
use crate::named::{Named, distinct_paths};
use crate::sources::{MetSource, sources_of, spot_of_item};
use meson_calls::{CallRef, Refusal};
use meson_following::{Follower, Mark};
use meson_sources::removing::ElementSpot;
use meson_splice::Text;
use std::alloc::{AllocError, Global};

/// A source that is an element of a list: the element, the number of the file from whose folder its name is taken, and the maker in whose value it is, if it is in
/// one.
#[derive(Drop)]
pub(crate) struct Removal {
    pub spot: ElementSpot,
    pub base: usize,
    pub maker: Option<CallRef>,
}

/// The element that a source is; `None` where it is in no list.
fn removal_of(alloc: Global, source: &MetSource<'_>) -> Result<Option<Removal>, AllocError>
    ensures { IfOk result (λ removal. option_map removal_view removal ≡ removal_of (met_view source.now)) }
{
    let Some(spot) = spot_of_item(alloc, source.item)? else {
        return Ok(None);
    };
    let maker = maker_of(alloc, &source.item.way)?;
    let base = source.base;
    Ok(Some(Removal { spot, base, maker }))
}

/// The elements that the sources at a path are; `None` where one of them is in no list.
fn removals_of(
    alloc: Global,
    sources: &[MetSource<'_>],
    path: &Text,
) -> Result<Option<Vec<Removal>>, AllocError>
    ensures { IfOk result (λ all. option_map (λ rs. map removal_view rs.items) all ≡ removals_of (sources_at (map met_view sources.now) path.now)) }
{
    let mut all = Vec::new(alloc);
    for i in 0..sources.len() {
        let source = &sources[i];
        if source.path == *path {
            let Some(removal) = removal_of(alloc, source)? else {
                return Ok(None);
            };
            all.push(removal)?;
        }
    }
    Ok(Some(all))
}

/// Why no source is found where this many things are not known.
fn none_found(unknown: usize) -> Refusal
    ensures { result ≡ none_found unknown }
{
    if unknown == 0 {
        Refusal::SourceNotFound
    } else {
        Refusal::Unresolved
    }
}

/// The elements that the sources at a path are, where this many things are not known.
///
/// # Errors
/// No source is there, or one of them is in no list, or out of memory.
fn removals_by(
    alloc: Global,
    unknown: usize,
    sources: &[MetSource<'_>],
    path: &Text,
) -> Result<Vec<Removal>, Refusal>
    ensures found { IfOk result (λ all. removals_by unknown (sources_at (map met_view sources.now) path.now) ≡ Ok (map removal_view all.items)) }
    ensures refused { RefusedAs result (removals_by unknown (sources_at (map met_view sources.now) path.now)) }
{
    let Some(all) = removals_of(alloc, sources, path)? else {
        return Err(Refusal::NotRemovable);
    };
    if all.is_empty() {
        return Err(none_found(unknown));
    }
    Ok(all)
}

/// The elements that the sources at the paths of names are.
///
/// # Errors
/// No source is at one of them, or one is in no list, or out of memory.
fn removals_at(
    alloc: Global,
    unknown: usize,
    sources: &[MetSource<'_>],
    named: &[Named<'_>],
) -> Result<Vec<Removal>, Refusal>
    ensures found { IfOk result (λ all. removals_at unknown (map met_view sources.now) (map path_now named.now) ≡ Ok (map removal_view all.items)) }
    ensures refused { RefusedAs result (removals_at unknown (map met_view sources.now) (map path_now named.now)) }
{
    let mut all = Vec::new(alloc);
    for i in 0..named.len() {
        let mut here = removals_by(alloc, unknown, sources, &named[i].path)?;
        all.append(&mut here)?;
    }
    Ok(all)
}

/// How many things are not known.
fn count_unknown(marks: &[Mark]) -> usize
    ensures { result ≡ count_by is_opaque (map mark_view marks.now) }
{
    marks
        .iter()
        .filter(|mark| matches!(mark, Mark::Opaque))
        .count()
}

/// The elements that the sources at the paths of these names are, among what a target in the file of this number meets.
///
/// # Errors
/// A name means none of them, or one that is in no list, or out of memory.
pub(crate) fn removals_named(
    follower: &Follower<'_>,
    number: usize,
    marks: &[Mark],
    names: &[Text],
) -> Result<Vec<Removal>, Refusal>
    requires { IsProject (loaded_from follower.now.files.now follower.now.trees.now) }
    ensures found { IfOk result (λ all. removals_named (followed_project follower.now) number (map mark_view marks.now) names.now
        ≡ Ok (map removal_view all.items)) }
    ensures refused { RefusedAs result (removals_named (followed_project follower.now) number (map mark_view marks.now) names.now) }
{
    let alloc = follower.alloc;
    let sources = sources_of(follower, number, marks)?;
    let named = distinct_paths(follower, number, names)?;
    let unknown = count_unknown(marks);
    removals_at(alloc, unknown, sources.as_slice(), named.as_slice())
}
