//! The assignments that may have made what a variable holds where it is read, and where else what they put there is seen.

ghost use Rattle.std.specs.Prelude.{◌≡◌, IfOk, map};
ghost use Rattle.std.specs.List.{list_all};
ghost use Rattle.meson_calls.specs.Loading.{IsProject, project};
ghost use Rattle.meson_following.specs.CodeMakers.{known_view, maker_view};
ghost use Rattle.meson_following.specs.Makers.{is_same_place};
ghost use Rattle.meson_followed_values.specs.CodeFollower.{loaded_in};
ghost use Rattle.meson_followed_values.specs.Makers.{is_read_here, made_by, makers_of};

use crate::variables::Variable;
use meson_calls::CallRef;
use meson_following::makers::is_same_place;
use meson_following::{Follower, Known, Made, Maker};
use std::alloc::{AllocError, Global};
use std::slice;

/// The makers of which something is made, as far as they are known.
fn made_by(alloc: Global, known: Known<'_>) -> Vec<Maker<'_>>
    ensures { map maker_view result.items ≡ made_by (known_view known.entry) }
{
    match known {
        Some(made) => {
            let Made { makers, unknown: _ } = made;
            makers
        }
        None => Vec::new(alloc),
    }
}

/// Those assignments of a variable whose value may have a part in what it holds where it is read, in the order of evaluation.
pub(crate) fn makers_of<'q>(
    follower: &'q Follower<'_>,
    variable: &'q Variable,
) -> Result<Vec<Maker<'q>>, AllocError>
    requires { IsProject (loaded_in follower.now) }
    ensures { IfOk result (λ makers. map maker_view makers.items ≡ makers_of (project (loaded_in follower.entry.now)) variable.entry.now) }
{
    let name = variable.name.get().as_bytes();
    let known = follower.known(name, variable.read_at.as_place())?;
    Ok(made_by(follower.alloc, known))
}

/// Whether all places are this one.
fn are_all(place: &CallRef, places: &[CallRef]) -> bool
    ensures { result ≡ list_all (is_same_place place.now) places.now }
{
    places.iter().all(|other| is_same_place(place, other))
}

/// Whether no other read of a variable may see the value at a place.
pub(crate) fn is_read_here(
    follower: &Follower<'_>,
    variable: &Variable,
    place: &CallRef,
) -> Result<bool, AllocError>
    requires { IsProject (loaded_in follower.now) }
    ensures { IfOk result (λ b. b ≡ is_read_here (project (loaded_in follower.now)) variable.now place.now) }
{
    let name = variable.name.get().as_bytes();
    let reads = follower.reads_of_variable(name, slice::from_ref(place))?;
    Ok(are_all(&variable.read_at, reads.as_slice()))
}
