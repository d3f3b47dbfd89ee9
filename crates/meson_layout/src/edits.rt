//! The splices of an edit.

ghost use Rattle.std.specs.Prelude.{◌≡◌, ◌+◌, ◌<◌, ◌≤◌, ◌^◌, ◌++◌, ◌∷◌, [], IfErr, IfOk, List, drop, length, take};
ghost use Rattle.meson_lex.specs.Items.{IsItemList, joined};
ghost use Rattle.meson_lex.specs.Items.{Lexeme};
ghost use Rattle.meson_layout.specs.Layout.{IsReady, before_len, layout_of, split_at_span, spot_len, replaced, wrapped};
ghost use Rattle.meson_layout.specs.inside.Layout.{FirstFits, end_of_look};
ghost use Rattle.meson_layout.specs.Insertion.{first};
ghost use Rattle.meson_layout.specs.Pieces.{as_one, splices};
ghost use Rattle.meson_layout.specs.inside.Places.{PlaceFits, at_place};
ghost use Rattle.meson_splice.specs.declared.fault.SpliceFault.TheVariants.{OutOfMemory};

use crate::lexemes::{Lexeme, lexemes};
use crate::line_spots::{above_len, lines_after, rest_of_line_len};
use crate::place::{Place, addition, push_texts, replacement, text_len};
use crate::primitive::{LineSpot, Primitive};
use crate::statements::appended;
use meson_lex::Span;
use meson_splice::{Splice, SpliceFault};
use std::alloc::Global;

/// The number of items before an offset.
fn before_len(items: &[Lexeme<'_>], offset: usize) -> usize
    ensures value { result ≡ before_len offset items.now }
    ensures within { result ≤ length items.now }
{
    let mut left = offset;
    let mut n = 0;
    for x in items {
        if left == 0 {
            return n;
        }
        left = left.saturating_sub(x.text.len());
        n += 1;
    }
    n
}

/// The place of a span.
#[tactic(auto, using(crate::proofs::Texts::joined_split), unfolding(crate::specs::Layout::split_at_span))]
fn place_of<'i, 'a>(
    alloc: Global,
    file: &'i str,
    items: &'i [Lexeme<'a>],
    span: Span,
) -> Place<'i, 'a>
    requires { length (joined items.now) + 1 < 2 ^ 64 }
    ensures fits { PlaceFits result }
    ensures file { result.file.now ≡ file.entry.now }
    ensures left { result.left.now ≡ (split_at_span span items.entry.now).left }
    ensures own { result.own.now ≡ (split_at_span span items.entry.now).own }
    ensures right { result.right.now ≡ (split_at_span span items.entry.now).right }
{
    let (left, rest) = items.split_at(before_len(items, span.from));
    let (own, right) = rest.split_at(before_len(rest, span.to.saturating_sub(span.from)));
    Place {
        alloc,
        file,
        left,
        own,
        right,
    }
}

impl<'i, 'a> Place<'i, 'a> {
    /// The value is replaced by other bytes.
    fn replaced(self, new: &[u8]) -> Result<Vec<Splice>, SpliceFault>
        requires { PlaceFits self }
        ensures done { IfOk result (λ v. v.items ≡ splices self.entry.file.now 0 (at_place replaced self.entry (as_one new.now))) }
        ensures refused { IfErr result (λ e. e ≡ OutOfMemory) }
    {
        let mut was = Vec::new(self.alloc);
        push_texts(&mut was, self.own)?;
        let mut now = Vec::new(self.alloc);
        now.extend_from_slice(new)?;
        replacement(self.alloc, self.file, text_len(self.left), was, now)
    }

    /// The array of this value, as it is written.
    fn array(self) -> Result<Vec<u8>, SpliceFault>
        ensures done { IfOk result (λ v. v.items ≡ 91 ∷ (joined self.entry.own.now ++ 93 ∷ [])) }
        ensures refused { IfErr result (λ e. e ≡ OutOfMemory) }
    {
        let mut now = Vec::new(self.alloc);
        now.extend_from_slice(b"[")?;
        push_texts(&mut now, self.own)?;
        now.extend_from_slice(b"]")?;
        Ok(now)
    }

    /// The value is replaced by the array of it.
    #[tactic(auto, using(crate::proofs::Texts::joined_closed))]
    fn wrapped(self) -> Result<Vec<Splice>, SpliceFault>
        requires { PlaceFits self }
        ensures done { IfOk result (λ v. v.items ≡ splices self.entry.file.now 0 (at_place wrapped self.entry)) }
        ensures refused { IfErr result (λ e. e ≡ OutOfMemory) }
    {
        let mut was = Vec::new(self.alloc);
        push_texts(&mut was, self.own)?;
        let now = self.array()?;
        replacement(self.alloc, self.file, text_len(self.left), was, now)
    }
}

/// The first element of a list, after these items.
fn first(
    alloc: Global,
    file: &str,
    left: &[Lexeme<'_>],
    right: &[Lexeme<'_>],
    new: &[u8],
) -> Result<Vec<Splice>, SpliceFault>
    requires { length (joined left.now) < 2 ^ 64 }
    ensures done { IfOk result (λ v. v.items ≡ splices file.now 0 (first left.now right.now (as_one new.now))) }
    ensures refused { IfErr result (λ e. e ≡ OutOfMemory) }
{
    let mut now = Vec::new(alloc);
    now.extend_from_slice(new)?;
    addition(alloc, file, text_len(left), now)
}

/// The number of items before the place where lines are inserted.
#[tactic(auto, using(crate::proofs::Parts::parts_size))]
fn spot_len(alloc: Global, file: &str, items: &[Lexeme<'_>], spot: LineSpot) -> usize
    requires { length (joined items.now) + 1 < 2 ^ 64 }
    ensures value { result ≡ spot_len spot items.now }
    ensures within { result ≤ length items.now }
{
    match spot {
        LineSpot::Above(statement) => above_len(place_of(alloc, file, items, statement).left),
        LineSpot::Below(statement) => {
            let right = place_of(alloc, file, items, statement).right;
            items.len() - right.len() + rest_of_line_len(right)
        }
        LineSpot::End => items.len(),
    }
}

/// The splices of an edit of a text of these items.
#[tactic(auto, using(crate::proofs::Texts::joined_take))]
pub(crate) fn layout_items(
    alloc: Global,
    file: &str,
    items: &[Lexeme<'_>],
    primitive: &Primitive,
) -> Result<Vec<Splice>, SpliceFault>
    requires fits { length (joined items.now) + 1 < 2 ^ 64 }
    requires bracket { FirstFits primitive.now }
    ensures done { IfOk result (λ v. v.items ≡ layout_of file.now items.now primitive.now) }
    ensures refused { IfErr result (λ e. e ≡ OutOfMemory) }
{
    match primitive {
        Primitive::First { bracket, new } => {
            let (left, right) = items.split_at(before_len(items, *bracket + 1));
            first(alloc, file, left, right, new.get())
        }
        Primitive::After { element, new } => {
            place_of(alloc, file, items, *element).inserted(new.get())
        }
        Primitive::Remove { element } => place_of(alloc, file, items, *element).removed(),
        Primitive::Replace { value, new } => {
            place_of(alloc, file, items, *value).replaced(new.get())
        }
        Primitive::Wrap { value } => place_of(alloc, file, items, *value).wrapped(),
        Primitive::RemoveStatement { statement, blank } => {
            place_of(alloc, file, items, *statement).statement_removed(*blank)
        }
        Primitive::Append { new } => appended(alloc, file, items, new.get()),
        Primitive::Lines { spot, new } => {
            let n = spot_len(alloc, file, items, *spot);
            lines_after(alloc, file, items, n, new.get())
        }
    }
}

/// The offset before which all items begin that the layout of an edit reads.
fn end_of(primitive: &Primitive) -> usize
    requires { FirstFits primitive.now }
    ensures { result ≡ end_of_look primitive.now }
{
    match primitive {
        Primitive::First { bracket, .. } => *bracket + 1,
        Primitive::Replace { value, .. } => value.to,
        Primitive::Wrap { value } => value.to,
        _ => usize::MAX,
    }
}

/// The splices of an edit, from left to right. The offset of each counts in the bytes that the ones before it left.
pub fn layout(
    alloc: Global,
    file: &str,
    src: &[u8],
    primitive: &Primitive,
) -> Result<Vec<Splice>, SpliceFault>
    requires { IsReady src.now primitive.now }
    ensures done { IfOk result (λ v. (items : List Lexeme) → IsItemList src.now items → v.items ≡ layout_of file.now items primitive.now) }
    ensures refused { IfErr result (λ e. e ≡ OutOfMemory) }
{
    let items = lexemes(alloc, src, end_of(primitive))?;
    layout_items(alloc, file, items.as_slice(), primitive)
}
