//! Places in the files of a project.

ghost use Rattle.std.specs.Prelude.{◌≡◌, IfOk};
ghost use Rattle.meson_calls.specs.Project.{child, place, place_at};

use crate::call::{BorrowedPlace, CallRef};
use meson_syntax::{Many, Path};
use std::alloc::{AllocError, Global};

/// The place of this path in a file.
pub fn place_of(alloc: Global, file: usize, path: &[usize]) -> Result<CallRef, AllocError>
    ensures { IfOk result (λ p. p ≡ place file path.now) }
{
    let steps = Vec::from_slice(alloc, path)?;
    Ok(CallRef {
        file,
        path: Path {
            steps: Many::of(steps),
        },
    })
}

/// An equal place.
pub fn copy_place(alloc: Global, place: &CallRef) -> Result<CallRef, AllocError>
    ensures { IfOk result (λ p. p ≡ place.now) }
{
    place_of(alloc, place.file, place.path.steps.get())
}

/// The place of the n-th child of what is at a place.
pub fn child_place(
    alloc: Global,
    place: BorrowedPlace<'_>,
    number: usize,
) -> Result<CallRef, AllocError>
    ensures { IfOk result (λ p. p ≡ child (place_at place.entry) number) }
{
    let mut path = Vec::from_slice(alloc, place.path)?;
    path.push(number)?;
    place_of(alloc, place.file, path.as_slice())
}

/// The place of the value of the n-th argument of a call.
pub fn value_place(alloc: Global, place: &CallRef, number: usize) -> Result<CallRef, AllocError>
    ensures { IfOk result (λ p. p ≡ child place.now number) }
{
    child_place(alloc, place.as_place(), number)
}
