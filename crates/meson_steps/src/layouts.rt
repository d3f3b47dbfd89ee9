//! Edits as they are laid out.

ghost use Rattle.std.specs.Prelude.{◌≡◌, IfErr, IfOk, List, false};
ghost use Rattle.meson_layout.specs.Layout.{layout_of};
ghost use Rattle.meson_lex.specs.Items.{IsItemList, Lexeme};
ghost use Rattle.meson_syntax.specs.View.{list_view, view};
ghost use Rattle.meson_calls.specs.ChosenNotes.{Source};
ghost use Rattle.meson_steps.specs.inside.ListSteps.{edits_list};
ghost use Rattle.meson_steps.specs.Steps.{effective};
ghost use Rattle.meson_steps.specs.inside.Working.{MayBeLaid, looked_at, placed_edit, placed_in, side_spot};

use crate::spans::{element_span, list_spot, value_span};
use crate::statements::{assigned_span, statement_span};
use crate::step::{LineSide, ListEdit};
use meson_calls::Refusal;
use meson_layout::{LineSpot, Primitive, layout, list_layout};
use meson_lex::Span;
use meson_splice::{Splice, SpliceFault};
use meson_syntax::{Parsed, Path};
use std::alloc::Global;

/// An edit of a list as it is laid out: by the spans of the parts that it names.
pub(crate) fn list_primitive(list: &meson_syntax::List, edit: ListEdit) -> Option<Primitive>
    ensures { (source : Source) → result ≡ placed_in (list_view source list.now) edit }
{
    match edit {
        ListEdit::First(new) => Some(Primitive::First {
            bracket: list.span.from,
            new,
        }),
        ListEdit::After(n, new) => match element_span(list, n) {
            Some(element) => Some(Primitive::After { element, new }),
            None => None,
        },
        ListEdit::Remove(n) => match element_span(list, n) {
            Some(element) => Some(Primitive::Remove { element }),
            None => None,
        },
        ListEdit::Replace(n, new) => match value_span(list, n) {
            Some(value) => Some(Primitive::Replace { value, new }),
            None => None,
        },
        ListEdit::Wrap(n) => match value_span(list, n) {
            Some(value) => Some(Primitive::Wrap { value }),
            None => None,
        },
        ListEdit::RemoveStatement(_, _) => None,
        ListEdit::Append(_) => None,
        ListEdit::Assign(_) => None,
        ListEdit::Lines(_, _) => None,
    }
}

/// Where lines are inserted into the block at a path.
fn side_spot(tree: &Parsed, path: &Path, side: LineSide) -> Option<LineSpot>
    ensures { (source : Source) → result ≡ side_spot (view source tree.now) path.now.steps side }
{
    match side {
        LineSide::Above(n) => match statement_span(tree, path, n) {
            Some(statement) => Some(LineSpot::Above(statement)),
            None => None,
        },
        LineSide::Below(n) => match statement_span(tree, path, n) {
            Some(statement) => Some(LineSpot::Below(statement)),
            None => None,
        },
        LineSide::End => Some(LineSpot::End),
    }
}

/// An edit of the block or the assignment at a path as it is laid out.
fn block_primitive(tree: &Parsed, path: &Path, edit: ListEdit) -> Option<Primitive>
    ensures { (source : Source) → edits_list edit ≡ false → result ≡ placed_edit (view source tree.now) path.now.steps edit }
{
    match edit {
        ListEdit::RemoveStatement(n, blank) => match statement_span(tree, path, n) {
            Some(statement) => Some(Primitive::RemoveStatement { statement, blank }),
            None => None,
        },
        ListEdit::Append(new) => Some(Primitive::Append { new }),
        ListEdit::Assign(new) => match assigned_span(tree, path) {
            Some(value) => Some(Primitive::Replace { value, new }),
            None => None,
        },
        ListEdit::Lines(side, new) => match side_spot(tree, path, side) {
            Some(spot) => Some(Primitive::Lines { spot, new }),
            None => None,
        },
        _ => None,
    }
}

/// An edit of the list, the block or the assignment at a path as it is laid out.
pub(crate) fn primitive_of(tree: &Parsed, path: &Path, edit: ListEdit) -> Option<Primitive>
    ensures { (source : Source) → result ≡ placed_edit (view source tree.now) path.now.steps edit }
{
    if !edit.is_of_list() {
        return block_primitive(tree, path, edit);
    }
    match tree.list_at(path) {
        Some(list) => list_primitive(list, edit),
        None => None,
    }
}

/// Keeps only the splices that change something.
fn leave_effective(splices: &mut Vec<Splice>)
    ensures { splices.new.items ≡ effective splices.old.items }
{
    splices.retain(|splice| splice.was != splice.now);
}

/// The list that alone is read, if an edit is one of a list.
pub(crate) fn looked_at(tree: &Parsed, path: &Path, of_list: bool) -> Option<Span>
    ensures { (source : Source) → result ≡ looked_at (view source tree.now) path.now.steps of_list }
{
    if !of_list {
        return None;
    }
    match list_spot(tree, path) {
        Some(spot) => Some(spot.span),
        None => None,
    }
}

/// The splices of an edit, of the list that is there or of the file, but for those that change nothing.
pub(crate) fn laid(
    alloc: Global,
    name: &str,
    bytes: &[u8],
    list: Option<Span>,
    primitive: &Primitive,
) -> Result<Vec<Splice>, Refusal>
    requires { MayBeLaid bytes.now list primitive.now }
    ensures done { (items : List Lexeme) → IsItemList bytes.now items → IfOk result (λ v. v.items ≡ effective (layout_of name.now items primitive.now)) }
    ensures refused { IfErr result (λ e. e ≡ Refusal.OutOfMemory) }
{
    let laid = match list {
        Some(list) => list_layout(alloc, name, bytes, list, primitive),
        None => layout(alloc, name, bytes, primitive),
    };
    match laid {
        Ok(splices) => {
            let mut left = splices;
            leave_effective(&mut left);
            Ok(left)
        }
        Err(fault) => Err(unmade(fault)),
    }
}

/// Splices are not made only when out of memory.
pub(crate) fn unmade(fault: SpliceFault) -> Refusal
    requires { fault ≡ SpliceFault.OutOfMemory }
    ensures { result ≡ Refusal.OutOfMemory }
{
    match fault {
        SpliceFault::OutOfMemory => Refusal::OutOfMemory,
        _ => unreachable!(),
    }
}
