//! Where the value of a slot is in its file.

ghost use Rattle.std.specs.Prelude.{◌≡◌, option_map};
ghost use Rattle.meson_edit.specs.Standing.{expression_span};
ghost use Rattle.meson_calls.specs.Loading.{AreParsed, project};
ghost use Rattle.meson_calls.specs.Project.{expression_at};
ghost use Rattle.meson_places.specs.Changes.{slot_value};
ghost use Rattle.meson_places.specs.Names.{loaded_in};

use crate::changes::element_child;
use crate::name::Sources;
use crate::slots::Slot;
use meson_calls::CallRef;
use meson_edit::span_of;
use meson_lex::Span;

/// The span of the expression at a place, in bytes of its file.
fn span_at(sources: Sources<'_>, place: &CallRef) -> Option<Span>
    requires { AreParsed sources.files.now sources.trees.now }
    ensures { result ≡ option_map expression_span (expression_at (project (loaded_in sources.entry)) place.now) }
{
    if place.file >= sources.trees.len() {
        return None;
    }
    match sources.trees[place.file].expr_at(&place.path) {
        Some(value) => Some(span_of(value)),
        None => None,
    }
}

/// The span of the value of a slot, in bytes of its file, if a value is there.
pub fn slot_span(sources: Sources<'_>, slot: &Slot) -> Option<Span>
    requires { AreParsed sources.files.now sources.trees.now }
    ensures { result ≡ option_map expression_span (slot_value (project (loaded_in sources.entry)) slot.now) }
{
    match slot {
        Slot::Element { list, number } => match element_child(sources, list, *number) {
            Some(child) => Some(span_of(child.value)),
            None => None,
        },
        Slot::Absent { .. } => None,
        Slot::Whole(place) => span_at(sources, place),
    }
}
