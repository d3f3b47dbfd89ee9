//! Where a variable is read, by bytes of files, and in which calls that is.

ghost use Rattle.std.specs.Prelude.{◌≡◌, ◌++◌, OnOk, map};
ghost use Rattle.meson_warnings.specs.Reads.{is_in_one, is_inside, reads, spot_at};

use meson_calls::CallRef;
use meson_explaining::Spot;
use meson_explaining::targets::{reads_of, span_at};
use meson_inventory::holdings::HeldCall;
use meson_plan::Project;
use std::alloc::{AllocError, Global};

/// The bytes of the expression at a place.
fn spot_at(project: &Project, place: &CallRef) -> Spot
    ensures { result ≡ spot_at project.now place.now }
{
    let span = span_at(project, place);
    Spot {
        file: place.file,
        at: span.from,
        end: span.to,
    }
}

/// Adds the bytes of the expressions at places.
fn add_spots(spots: &mut Vec<Spot>, project: &Project, places: &[CallRef]) -> Result<(), AllocError>
    ensures { OnOk result (spots.new.items ≡ spots.old.items ++ map (spot_at project.now) places.now) }
{
    for place in places {
        spots.push(spot_at(project, place))?;
    }
    Ok(())
}

/// Adds the bytes of the identifiers that are a variable.
pub(crate) fn add_reads(
    alloc: Global,
    spots: &mut Vec<Spot>,
    project: &Project,
    name: &str,
) -> Result<(), AllocError>
    ensures { OnOk result (spots.new.items ≡ spots.old.items ++ reads project.now name.now) }
{
    let places = reads_of(alloc, project, name)?;
    add_spots(spots, project, places.as_slice())
}

/// Whether bytes are those of a call or within it.
pub(crate) fn is_inside(call: &HeldCall, spot: &Spot) -> bool
    ensures { result ≡ is_inside call.now spot.now }
{
    call.file == spot.file && call.head.at <= spot.at && spot.end <= call.end
}

/// Whether bytes are within one of some calls.
pub(crate) fn is_in_one(calls: &[HeldCall], spot: &Spot) -> bool
    ensures { result ≡ is_in_one calls.now spot.now }
{
    calls.iter().any(|call| is_inside(call, spot))
}
