//! The splices of an edit of a list, by the list's own text.

ghost use Rattle.std.specs.Prelude.{◌≡◌, ◌+◌, ◌<◌, ◌≤◌, ◌^◌, ◌∷◌, IfErr, IfOk, List, length, slice_range, take};
ghost use Rattle.meson_lex.specs.declared.kinds.Kind.TheVariants.{Identifier};
ghost use Rattle.meson_lex.specs.Items.{IsItemList};
ghost use Rattle.meson_lex.specs.Items.{Lexeme};
ghost use Rattle.meson_layout.specs.Layout.{layout_of};
ghost use Rattle.meson_layout.specs.Local.{IsReadyIn};
ghost use Rattle.meson_splice.specs.declared.fault.SpliceFault.TheVariants.{OutOfMemory};

use crate::edits::layout_items;
use crate::lexemes::{Lexeme, lexemes};
use crate::primitive::Primitive;
use meson_lex::{Kind, Span};
use meson_splice::{Splice, SpliceFault};
use std::alloc::Global;

/// The items of the list at the span, after one item that replaces all before the list: no look goes back so far.
fn list_lexemes<'a>(
    alloc: Global,
    src: &'a [u8],
    list: Span,
) -> Result<Vec<Lexeme<'a>>, SpliceFault>
    requires ordered { list.from ≤ list.to }
    requires within { list.to ≤ length src.now }
    ensures done { IfOk result (λ v. (xs : List Lexeme) → IsItemList (slice_range src.now list.from list.to) xs
        → v.items ≡ record { kind = Identifier; text = take list.from src.now } ∷ xs) }
    ensures refused { IfErr result (λ e. e ≡ OutOfMemory) }
{
    let mut items = lexemes(alloc, &src[list.from..list.to], usize::MAX)?;
    let mut all = Vec::with_capacity(alloc, items.len() + 1)?;
    all.push_reserved(Lexeme {
        kind: Kind::Identifier,
        text: &src[..list.from],
    });
    all.append(&mut items)?;
    Ok(all)
}

/// The splices of an edit of the list at the span: those that `layout` gives. Of the source only the list is read.
pub fn list_layout(
    alloc: Global,
    file: &str,
    src: &[u8],
    list: Span,
    primitive: &Primitive,
) -> Result<Vec<Splice>, SpliceFault>
    requires { IsReadyIn src.now list primitive.now }
    ensures done { IfOk result (λ v. (items : List Lexeme) → IsItemList src.now items → v.items ≡ layout_of file.now items primitive.now) }
    ensures refused { IfErr result (λ e. e ≡ OutOfMemory) }
{
    let items = list_lexemes(alloc, src, list)?;
    layout_items(alloc, file, items.as_slice(), primitive)
}
