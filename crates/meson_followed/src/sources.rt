//! The sources that a target may have, as commands name them.

ghost use Rattle.std.specs.Prelude.{◌≡◌, ◌++◌, [], IfOk, OnOk, map, option_map};
ghost use Rattle.std.specs.List.{cons_option};
ghost use Rattle.meson_calls.specs.Loading.{IsProject, loaded_from};
ghost use Rattle.meson_following.specs.CodeFollowing.{followed_project, item_view, mark_view};
ghost use Rattle.meson_followed.specs.CodeEdits.{met_view};
ghost use Rattle.meson_followed.specs.Sources.{base_of, file_name, name_for, named_path, source_of, source_of_item, sources_of, spot_at, spot_of_item};
ghost use Rattle.meson_sources.specs.inside.CodeSpots.{spot_view};

use crate::paths::path_of;
use crate::ways::name_from;
use meson_calls::CallRef;
use meson_following::{Follower, Item, Mark};
use meson_sources::removing::ElementSpot;
use meson_splice::Text;
use std::alloc::{AllocError, Global};

/// A source that is met: its path, the number of the file from whose folder its name is taken, and the literal that names it.
#[derive(Drop)]
pub(crate) struct MetSource<'m> {
    pub path: Text,
    pub base: usize,
    pub item: &'m Item,
}

/// The name of the file of this number; the empty text if no file has it.
fn file_name<'t>(follower: &Follower<'t>, number: usize) -> &'t str
    requires { IsProject (loaded_from follower.now.files.now follower.now.trees.now) }
    ensures { result.now ≡ file_name (followed_project follower.now) number }
{
    if number >= follower.trees.len() {
        return "";
    }
    follower.files.name(number)
}

/// The number of the file from whose folder a text is taken: that of the innermost `files` around it, else the one given.
fn base_of(number: usize, files: Option<usize>) -> usize
    ensures { result ≡ base_of number files }
{
    match files {
        Some(file) => file,
        None => number,
    }
}

/// The path that a text means in the file of this number.
pub(crate) fn path_in(
    follower: &Follower<'_>,
    number: usize,
    text: &str,
) -> Result<Text, AllocError>
    requires { IsProject (loaded_from follower.now.files.now follower.now.trees.now) }
    ensures { IfOk result (λ path. path ≡ named_path (followed_project follower.now) number text.now) }
{
    path_of(follower.alloc, file_name(follower, number), text)
}

/// The name for the path that a name means in the file of this number, where names are taken from the folder of another file. It is written as it is given where it
/// means the same there.
pub(crate) fn name_for(
    follower: &Follower<'_>,
    number: usize,
    name: &Text,
    base: usize,
) -> Result<Text, AllocError>
    requires { IsProject (loaded_from follower.now.files.now follower.now.trees.now) }
    ensures { IfOk result (λ text. text ≡ name_for (followed_project follower.now) number name.now base) }
{
    if base == number || name.get().starts_with('/') {
        return name.clone();
    }
    let file = file_name(follower, number);
    name_from(follower.alloc, file, name.get(), file_name(follower, base))
}

/// The source that a literal names, of a target whose call is in the file of this number.
fn source_of_item<'m>(
    follower: &Follower<'_>,
    number: usize,
    item: &'m Item,
) -> Result<MetSource<'m>, AllocError>
    requires { IsProject (loaded_from follower.now.files.now follower.now.trees.now) }
    ensures { IfOk result (λ s. met_view s ≡ source_of_item (followed_project follower.now) number (item_view item.now)) }
{
    let base = base_of(number, item.way.files);
    let path = path_in(follower, base, item.text.get())?;
    Ok(MetSource { path, base, item })
}

/// Takes what is met, if it is a source.
fn take_source<'m>(
    follower: &Follower<'_>,
    number: usize,
    mark: &'m Mark,
    sources: &mut Vec<MetSource<'m>>,
) -> Result<(), AllocError>
    requires { IsProject (loaded_from follower.now.files.now follower.now.trees.now) }
    ensures { OnOk result (map met_view sources.new.items
        ≡ map met_view sources.old.items ++ cons_option (source_of (followed_project follower.now) number (mark_view mark.now)) []) }
{
    match mark {
        Mark::Known(item) => {
            sources.push(source_of_item(follower, number, item)?)?;
            Ok(())
        }
        _ => Ok(()),
    }
}

/// The sources that are met, of a target whose call is in the file of this number.
pub(crate) fn sources_of<'m>(
    follower: &Follower<'_>,
    number: usize,
    marks: &'m [Mark],
) -> Result<Vec<MetSource<'m>>, AllocError>
    requires { IsProject (loaded_from follower.now.files.now follower.now.trees.now) }
    ensures { IfOk result (λ sources. map met_view sources.items ≡ sources_of (followed_project follower.now) number (map mark_view marks.now)) }
{
    let mut sources = Vec::new(follower.alloc);
    for i in 0..marks.len() {
        take_source(follower, number, &marks[i], &mut sources)?;
    }
    Ok(sources)
}

/// The element at a place: its list, and its number in it.
fn spot_at(alloc: Global, place: &CallRef) -> Result<Option<ElementSpot>, AllocError>
    ensures { IfOk result (λ spot. option_map spot_view spot ≡ spot_at place.now) }
{
    let steps = place.path.steps.get();
    let Some((number, list)) = steps.split_last() else {
        return Ok(None);
    };
    let list = Vec::from_slice(alloc, list)?;
    Ok(Some(ElementSpot {
        file: place.file,
        list,
        number: *number,
    }))
}

/// The spot of a literal, if it is an element of a list.
pub(crate) fn spot_of_item(alloc: Global, item: &Item) -> Result<Option<ElementSpot>, AllocError>
    ensures { IfOk result (λ spot. option_map spot_view spot ≡ spot_of_item (item_view item.now)) }
{
    if item.listed {
        spot_at(alloc, &item.place)
    } else {
        Ok(None)
    }
}
