//! Which lists of sources are read for one target alone.

ghost use Rattle.std.specs.Prelude.{◌≡◌, IfOk, option_map};
ghost use Rattle.std.specs.List.{list_all};
ghost use Rattle.meson_calls.specs.CallPlaces.{call_at};
ghost use Rattle.meson_calls.specs.ChosenNotes.{Source, placed_call};
ghost use Rattle.meson_calls.specs.GoodLists.{GoodListing};
ghost use Rattle.meson_calls.specs.Loading.{IsProject, loaded_from};
ghost use Rattle.meson_syntax.specs.View.{list_view};
ghost use Rattle.meson_following.specs.CodeFollowing.{followed_project};
ghost use Rattle.meson_sharing.specs.CodeOwning.{are_closed_by, is_closed_by, is_closed_for, is_read_by};
ghost use Rattle.meson_sharing.specs.Sharing.{from_followed, is_own, is_unshared, reads_of};

use crate::takers::{is_way, takers_of, ways_of_sources};
use crate::uses::is_use;
use crate::variable::names_of;
use meson_calls::CallRef;
use meson_calls::place::copy_place;
use meson_following::Follower;
use meson_syntax::{Expr, List};
use std::alloc::AllocError;

/// The places at which the value of one of these makers may be read.
fn reads_of(follower: &Follower<'_>, makers: &[CallRef]) -> Result<Vec<CallRef>, AllocError>
    requires { IsProject (loaded_from follower.now.files.now follower.now.trees.now) }
    ensures { IfOk result (λ reads. reads.items ≡ reads_of (followed_project follower.now) makers.now) }
{
    let names = names_of(follower, makers)?;
    let mut reads = Vec::new(follower.alloc);
    for i in 0..names.len() {
        let mut more = follower.reads_of_variable(names[i], makers)?;
        reads.append(&mut more)?;
    }
    Ok(reads)
}

/// Whether a place is one of these ways of a call, or a way of the value of one of the makers; or a use, if uses are allowed.
fn is_read(
    follower: &Follower<'_>,
    with_uses: bool,
    ways: &[CallRef],
    makers: &[CallRef],
    place: &CallRef,
) -> Result<bool, AllocError>
    requires { IsProject (loaded_from follower.now.files.now follower.now.trees.now) }
    ensures { IfOk result (λ is. is ≡ is_read_by (followed_project follower.now) with_uses ways.now makers.now place.now) }
{
    if is_way(follower, ways, makers, place)? {
        return Ok(true);
    }
    if with_uses {
        is_use(follower, place)
    } else {
        Ok(false)
    }
}

/// Whether each of these places is one of these ways of a call, or a way of the value of one of the makers; or a use, if uses are allowed.
fn are_read(
    follower: &Follower<'_>,
    with_uses: bool,
    ways: &[CallRef],
    makers: &[CallRef],
    places: &[CallRef],
) -> Result<bool, AllocError>
    requires { IsProject (loaded_from follower.now.files.now follower.now.trees.now) }
    ensures { IfOk result (λ are. are ≡ list_all (is_read_by (followed_project follower.now) with_uses ways.now makers.now) places.now) }
{
    for place in places {
        if !is_read(follower, with_uses, ways, makers, place)? {
            return Ok(false);
        }
    }
    Ok(true)
}

/// Values that are made of one value, it among them, and the places at which one of them may be read.
struct Reached {
    makers: Vec<CallRef>,
    reads: Vec<CallRef>,
}

/// A maker, and those of these values that are made of its value; and where they may be read.
fn from_followed(
    follower: &Follower<'_>,
    all: &[CallRef],
    maker: &CallRef,
) -> Result<Reached, AllocError>
    requires { IsProject (loaded_from follower.now.files.now follower.now.trees.now) }
    ensures makers { IfOk result (λ reached. reached.makers.items ≡ from_followed (followed_project follower.now) all.now maker.now) }
    ensures reads { IfOk result (λ reached. reached.reads.items
        ≡ reads_of (followed_project follower.now) (from_followed (followed_project follower.now) all.now maker.now)) }
{
    let mut makers = Vec::new(follower.alloc);
    makers.push(copy_place(follower.alloc, maker)?)?;
    for _ in 0..all.len() {
        let reads = reads_of(follower, makers.as_slice())?;
        let mut takers = takers_of(follower, all, makers.as_slice(), reads.as_slice())?;
        if takers.is_empty() {
            return Ok(Reached { makers, reads });
        }
        makers.append(&mut takers)?;
    }
    let reads = reads_of(follower, makers.as_slice())?;
    Ok(Reached { makers, reads })
}

/// Whether what is in all of these values is read for the call alone that follows them and has these ways. Then each of them is.
pub(crate) fn are_closed_by(
    follower: &Follower<'_>,
    followed: &[CallRef],
    ways: &[CallRef],
) -> Result<bool, AllocError>
    requires { IsProject (loaded_from follower.now.files.now follower.now.trees.now) }
    ensures { IfOk result (λ are. are ≡ are_closed_by (followed_project follower.now) followed.now ways.now) }
{
    let reads = reads_of(follower, followed)?;
    are_read(follower, false, ways, followed, reads.as_slice())
}

/// Whether what is in the value of a maker is read for the call alone that follows these values and has these ways; or used, if uses are allowed.
///
/// # Errors
/// Out of memory.
pub fn is_closed_by(
    follower: &Follower<'_>,
    with_uses: bool,
    followed: &[CallRef],
    ways: &[CallRef],
    maker: &CallRef,
) -> Result<bool, AllocError>
    requires { IsProject (loaded_from follower.now.files.now follower.now.trees.now) }
    ensures { IfOk result (λ is. is ≡ is_closed_by (followed_project follower.now) with_uses followed.now ways.now maker.now) }
{
    let Reached { makers, reads } = from_followed(follower, followed, maker)?;
    are_read(
        follower,
        with_uses,
        ways,
        makers.as_slice(),
        reads.as_slice(),
    )
}

/// Whether what is in the value of a maker is read for the target alone whose call at a place has these arguments; or used, if uses are allowed.
fn is_closed_of<'t>(
    follower: &Follower<'t>,
    with_uses: bool,
    call: &CallRef,
    source: &'t [u8],
    arguments: &List,
    maker: &CallRef,
) -> Result<bool, AllocError>
    requires project { IsProject (loaded_from follower.now.files.now follower.now.trees.now) }
    requires good { GoodListing (list_view source.now arguments.now) }
    ensures { (function : Source) → IfOk result (λ is. is
        ≡ is_closed_for (followed_project follower.now) with_uses maker.now (placed_call call.now function source.now arguments.now)) }
{
    let found = follower.meet_sources(call, source, arguments.items.get())?;
    let ways = ways_of_sources(follower.alloc, call, source, arguments)?;
    is_closed_by(
        follower,
        with_uses,
        found.followed.as_slice(),
        ways.as_slice(),
        maker,
    )
}

/// The same of the target that the call at a place makes; `None` where no call stands there.
fn is_closed(
    follower: &Follower<'_>,
    with_uses: bool,
    call: &CallRef,
    maker: &CallRef,
) -> Result<Option<bool>, AllocError>
    requires { IsProject (loaded_from follower.now.files.now follower.now.trees.now) }
    ensures { IfOk result (λ is. is
        ≡ option_map (is_closed_for (followed_project follower.now) with_uses maker.now) (call_at (followed_project follower.now) call.now)) }
{
    let Some(value) = follower.value_at(call) else {
        return Ok(None);
    };
    match value.expr {
        Expr::Call { arguments, .. } => {
            let is = is_closed_of(follower, with_uses, call, value.source, arguments, maker)?;
            Ok(Some(is))
        }
        _ => Ok(None),
    }
}

/// Whether what is in the value of a maker is read for the target alone that the call at a place makes; `None` where no call stands there.
///
/// # Errors
/// Out of memory.
pub fn is_own(
    follower: &Follower<'_>,
    call: &CallRef,
    maker: &CallRef,
) -> Result<Option<bool>, AllocError>
    requires { IsProject (loaded_from follower.now.files.now follower.now.trees.now) }
    ensures { IfOk result (λ own. own ≡ option_map (λ c. is_own (followed_project follower.now) c maker.now) (call_at (followed_project follower.now) call.now)) }
{
    is_closed(follower, false, call, maker)
}

/// Whether what is in the value of a maker is read for the target alone that the call at a place makes, or used: in arguments of calls that make no target and
/// pass nothing on; `None` where no call stands there.
///
/// # Errors
/// Out of memory.
pub fn is_unshared(
    follower: &Follower<'_>,
    call: &CallRef,
    maker: &CallRef,
) -> Result<Option<bool>, AllocError>
    requires { IsProject (loaded_from follower.now.files.now follower.now.trees.now) }
    ensures { IfOk result (λ is. is
        ≡ option_map (λ c. is_unshared (followed_project follower.now) c maker.now) (call_at (followed_project follower.now) call.now)) }
{
    is_closed(follower, true, call, maker)
}
