//! The listing of the one call that is named, and that of the value that a name names.

ghost use Rattle.std.specs.Prelude.{◌≡◌, IfOk, Ok};
ghost use Rattle.serde_json.specs.View.{view};
ghost use Rattle.meson_calls.specs.Refusals.{RefusedAs};
ghost use Rattle.meson_calls.specs.Searching.{name_at};
ghost use Rattle.meson_plan.specs.Listing.{kwargs_listing, target_listing, value_listing};

use crate::details::{TargetDetails, told_sources};
use crate::project::Project;
use crate::values::find_value;
use meson_calls::{BorrowedName, Reading, Refusal, Role};
use meson_listing::{call_object, followed_object, target_object, value_object};
use meson_steps::argument::ValueName;
use serde_json::Value;
use std::alloc::Global;

/// What is reported of a target: its head, its sources as they are read, and its extra files.
///
/// # Errors
/// The folder has no build file. Or there is no such target or more than one, or it has `sources:` or `extra_files:` twice, or out of memory.
pub fn info_target(
    alloc: Global,
    project: &Project,
    name: BorrowedName<'_>,
    reading: Reading,
) -> Result<Value, Refusal>
    ensures listed { IfOk result (λ v. target_listing project.now reading (name_at name.entry) ≡ Ok (view v)) }
    ensures refused { RefusedAs result (target_listing project.now reading (name_at name.entry)) }
{
    let TargetDetails {
        place,
        head,
        sources,
        extra_files,
    } = project.target_details(alloc, name)?;
    let files = project.files();
    let listing = match reading {
        Reading::Written => target_object(alloc, files, place.file, head, sources, extra_files)?,
        Reading::Followed => {
            let told = told_sources(alloc, project, &place)?;
            followed_object(alloc, files, place.file, head, told, extra_files)?
        }
    };
    Ok(listing)
}

/// What is reported of a call of a role: its head, and the values of its keyword arguments that commands change.
///
/// # Errors
/// The folder has no build file. Or there is no such call or more than one. Or one of these arguments is there twice, the first such in the call's order. Or out of memory.
pub fn info_kwargs(
    alloc: Global,
    project: &Project,
    role: Role,
    name: BorrowedName<'_>,
) -> Result<Value, Refusal>
    ensures listed { IfOk result (λ v. kwargs_listing project.now role (name_at name.entry) ≡ Ok (view v)) }
    ensures refused { RefusedAs result (kwargs_listing project.now role (name_at name.entry)) }
{
    let call = project.find_one(alloc, role, name)?;
    let head = project.head(alloc, &call)?;
    let keywords = project.keywords(alloc, role, &call)?;
    let listing = call_object(alloc, project.files(), call.file, head, keywords)?;
    Ok(listing)
}

/// What is reported of a value: where it is, of a call its function and name, what is in a call, an array or a dictionary, and any other value itself.
///
/// # Errors
/// The place or the value is not found, or out of memory.
pub fn info_argument(alloc: Global, project: &Project, name: &ValueName) -> Result<Value, Refusal>
    ensures listed { IfOk result (λ v. value_listing project.now name.now ≡ Ok (view v)) }
    ensures refused { RefusedAs result (value_listing project.now name.now) }
{
    let value = find_value(alloc, project, name)?;
    let files = project.files();
    Ok(value_object(alloc, files, value.file, value.span.from, value.details)?)
}
