//! Whether a list has room for an expression: its file with it nests no deeper than a file may.

ghost use Rattle.std.specs.Prelude.{◌≡◌, ◌∷◌, ◌++◌, [], nat_le, IfOk, Some};
ghost use Rattle.meson_lex.specs.declared.kinds.Span.{Span};
ghost use Rattle.meson_syntax.specs.Grammar.{file_depth};
ghost use Rattle.meson_syntax.specs.Paths.{ListAt, list_at};
ghost use Rattle.meson_syntax.specs.Reads.{max_depth};
ghost use Rattle.meson_syntax.specs.View.{list_view, view};
ghost use Rattle.meson_calls.specs.ChosenNotes.{Source};
ghost use Rattle.meson_calls.specs.Loading.{AreParsed};
ghost use Rattle.meson_steps.specs.ResultLimits.{plain_trees};
ghost use Rattle.meson_steps.specs.Code.{IsValue};
ghost use Rattle.meson_places.specs.Names.{loaded_in};
ghost use Rattle.meson_places.specs.Room.{has_room, list_in_trees};
ghost use Rattle.meson_steps.specs.GivenWords.{MayBeGiven};
ghost use Rattle.meson_places.specs.Values.{given_node};

use crate::name::Sources;
use meson_calls::CallRef;
use meson_edit::nests_within;
use meson_steps::code::not_list;
use meson_steps::given::Given;
use meson_syntax::{Bracket, List, MAX_DEPTH, Parsed, Path, copy_tree, parse_list_within};
use std::alloc::{AllocError, Global};

/// Whether a tree with another list at a path nests no deeper than that of a file may.
fn nests_with(alloc: Global, tree: &Parsed, path: &Path, list: List) -> Result<bool, AllocError>
    ensures { (source : Source) (p : ListAt Span) → list_at (view source tree.now) path.now.steps ≡ Some p
        → IfOk result (λ b. b ≡ nat_le (file_depth (p.back (list_view source list))) max_depth) }
{
    let mut other = copy_tree(alloc, tree)?;
    let _was = other.put_list(path, list);
    Ok(nests_within(&other, MAX_DEPTH))
}

/// A text in square brackets.
pub(crate) fn in_brackets(alloc: Global, text: &[u8]) -> Result<Vec<u8>, AllocError>
    ensures { IfOk result (λ v. v.items ≡ 91 ∷ (text.now ++ 93 ∷ [])) }
{
    let mut all = Vec::from_slice(alloc, b"[")?;
    all.extend_from_slice(text)?;
    all.extend_from_slice(b"]")?;
    Ok(all)
}

/// Whether the list at a place has room for the value that a text is written for. It has where there is no list.
pub(crate) fn has_room_for(
    alloc: Global,
    sources: Sources<'_>,
    list: &CallRef,
    text: &[u8],
) -> Result<bool, AllocError>
    requires { AreParsed sources.files.now sources.trees.now }
    ensures { (x : IsValue text.now) → IfOk result (λ b. b ≡ has_room x.node (list_in_trees (plain_trees (loaded_in sources.entry)) list.now)) }
{
    if list.file >= sources.trees.len() {
        return Ok(true);
    }
    let tree = &sources.trees[list.file];
    if let None = tree.list_at(&list.path) {
        return Ok(true);
    }
    let whole = in_brackets(alloc, text)?;
    let bytes = whole.as_slice();
    match parse_list_within(alloc, bytes, Bracket::Square, MAX_DEPTH + 2) {
        Ok(alone) => nests_with(alloc, tree, &list.path, alone),
        Err(fault) => not_list(fault),
    }
}

/// Whether the list at a place has room for a value. For a text and a truth value each list has.
pub(crate) fn has_room(
    alloc: Global,
    sources: Sources<'_>,
    list: &CallRef,
    given: &Given,
) -> Result<bool, AllocError>
    requires { AreParsed sources.files.now sources.trees.now }
    ensures { (may : MayBeGiven given.now)
        → IfOk result (λ b. b ≡ has_room (given_node given.now may) (list_in_trees (plain_trees (loaded_in sources.entry)) list.now)) }
{
    match given {
        Given::Text(_) => Ok(true),
        Given::Switch(_) => Ok(true),
        Given::Code(code) => has_room_for(alloc, sources, list, code.get().as_bytes()),
    }
}
