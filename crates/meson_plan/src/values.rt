//! The value that a name names, and what is reported of it.

ghost use Rattle.std.specs.Prelude.{◌≡◌, IfOk, Ok};
ghost use Rattle.meson_calls.specs.Loading.{AreParsed};
ghost use Rattle.meson_calls.specs.Refusals.{RefusedAs};
ghost use Rattle.meson_places.specs.Names.{loaded_in};
ghost use Rattle.meson_plan.specs.Values.{found_at, the_value};

use crate::project::Project;
use meson_calls::{CallRef, Refusal};
use meson_details::ValueDetails;
use meson_details::values::value_details;
use meson_edit::span_of;
use meson_lex::Span;
use meson_places::Sources;
use meson_places::named_values::find_value_place;
use meson_steps::argument::ValueName;
use std::alloc::{AllocError, Global};

/// A value: the number of its file, where it is in it in bytes, and what is reported of it.
#[derive(Debug, Drop)]
pub struct FoundValue {
    pub file: usize,
    pub span: Span,
    pub details: ValueDetails,
}

/// The value at a place, if an expression is there.
fn found_at(
    alloc: Global,
    sources: Sources<'_>,
    place: &CallRef,
) -> Result<Option<FoundValue>, AllocError>
    requires { AreParsed sources.files.now sources.trees.now }
    ensures { IfOk result (λ found. found ≡ found_at (loaded_in sources.entry) place.now) }
{
    if place.file >= sources.trees.len() {
        return Ok(None);
    }
    match sources.trees[place.file].expr_at(&place.path) {
        Some(value) => {
            let source = sources.files.bytes(place.file);
            let details = value_details(alloc, source, value)?;
            Ok(Some(FoundValue {
                file: place.file,
                span: span_of(value),
                details,
            }))
        }
        None => Ok(None),
    }
}

/// The value that a name names.
///
/// # Errors
/// The place or the value is not found, or out of memory.
pub fn find_value(alloc: Global, project: &Project, name: &ValueName) -> Result<FoundValue, Refusal>
    ensures found { IfOk result (λ v. the_value project.now name.now ≡ Ok v) }
    ensures refused { RefusedAs result (the_value project.now name.now) }
{
    project.reads();
    let sources = Sources {
        files: project.files(),
        trees: project.trees(),
    };
    let place = find_value_place(alloc, sources, name)?;
    match found_at(alloc, sources, &place)? {
        Some(value) => Ok(value),
        None => Err(Refusal::NotFound),
    }
}
