//! The names in a command, and the paths that they mean.

ghost use Rattle.std.specs.Prelude.{◌≡◌, IfOk, filter, map};
ghost use Rattle.std.specs.List.{list_any};
ghost use Rattle.meson_calls.specs.Loading.{IsProject, loaded_from};
ghost use Rattle.meson_calls.specs.Roles.{one_of};
ghost use Rattle.meson_following.specs.CodeFollowing.{followed_project};
ghost use Rattle.meson_followed.specs.CodeEdits.{AreNamed, is_missing, met_view, name_now, path_now};
ghost use Rattle.meson_followed.specs.FollowedEdits.{is_sure_at, new_sources};
ghost use Rattle.meson_followed.specs.Sources.{distinct_paths};

use crate::sources::{MetSource, path_in};
use meson_following::Follower;
use meson_splice::Text;
use std::alloc::{AllocError, Global};

/// A name, and the path that it means.
#[derive(Drop)]
pub(crate) struct Named<'n> {
    pub name: &'n Text,
    pub path: Text,
}

/// Whether one of these names means this path.
fn has_path(named: &[Named<'_>], path: &Text) -> bool
    ensures { result ≡ one_of (map path_now named.now) path.now }
{
    for i in 0..named.len() {
        if named[i].path == *path {
            return true;
        }
    }
    false
}

/// The names, each path once, by the first name that means it in the file of this number.
pub(crate) fn distinct_paths<'n>(
    follower: &Follower<'_>,
    number: usize,
    names: &'n [Text],
) -> Result<Vec<Named<'n>>, AllocError>
    requires { IsProject (loaded_from follower.now.files.now follower.now.trees.now) }
    ensures { IfOk result (λ all. AreNamed (followed_project follower.now) number (distinct_paths (followed_project follower.now) number names.now) all.items) }
{
    let mut all = Vec::new(follower.alloc);
    for i in 0..names.len() {
        let name = &names[i];
        let path = path_in(follower, number, name.get())?;
        if !has_path(all.as_slice(), &path) {
            all.push(Named { name, path })?;
        }
    }
    Ok(all)
}

/// Whether a source that is there in each evaluation has this path.
fn has_sure(sources: &[MetSource<'_>], path: &Text) -> bool
    ensures { result ≡ list_any (is_sure_at path.now) (map met_view sources.now) }
{
    for i in 0..sources.len() {
        let source = &sources[i];
        if source.item.way.sure && source.path == *path {
            return true;
        }
    }
    false
}

/// Those of the names whose path no source has that is there in each evaluation.
fn missing_among<'n>(
    alloc: Global,
    sources: &[MetSource<'_>],
    named: &[Named<'n>],
) -> Result<Vec<&'n Text>, AllocError>
    ensures { IfOk result (λ new. map (λ x. x.now) new.items
        ≡ map name_now (filter (is_missing (map met_view sources.now)) named.now)) }
{
    let mut new = Vec::new(alloc);
    for i in 0..named.len() {
        let name = &named[i];
        if !has_sure(sources, &name.path) {
            new.push(name.name)?;
        }
    }
    Ok(new)
}

/// The names that mean no source that is there in each evaluation, each path once, for a target whose call is in the file of this number.
pub(crate) fn new_sources<'n>(
    follower: &Follower<'_>,
    number: usize,
    sources: &[MetSource<'_>],
    names: &'n [Text],
) -> Result<Vec<&'n Text>, AllocError>
    requires { IsProject (loaded_from follower.now.files.now follower.now.trees.now) }
    ensures { IfOk result (λ new. map (λ x. x.now) new.items ≡ new_sources (followed_project follower.now) number (map met_view sources.now) names.now) }
{
    let named = distinct_paths(follower, number, names)?;
    let new = missing_among(follower.alloc, sources, named.as_slice())?;
    Ok(new)
}
