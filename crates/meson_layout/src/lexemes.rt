//! The items of a source with their texts.

ghost use Rattle.std.specs.Prelude.{◌≡◌, IfErr, IfOk, List, take};
ghost use Rattle.meson_lex.specs.Items.{IsItemList};
ghost use Rattle.meson_lex.specs.Items.{Lexeme};
ghost use Rattle.meson_layout.specs.Layout.{before_len};
ghost use Rattle.meson_splice.specs.declared.fault.SpliceFault.TheVariants.{OutOfMemory};

use meson_lex::{Kind, items, text};
use meson_splice::SpliceFault;
use std::alloc::Global;
use std::marker::Model;

/// An item with its text.
#[derive(Drop)]
pub(crate) struct Lexeme<'a> {
    pub kind: Kind,
    pub text: &'a [u8],
}

impl<'a> Model for Lexeme<'a> {
    ghost use Rattle.meson_lex.specs.Items.{Lexeme};

    ghost Value = { Lexeme };

    ghost view = { λ x. record { kind = x.kind; text = x.text.now } };
}

/// Most sources have at least this many bytes for each item.
const BYTES_PER_ITEM: usize = 3;

/// The items of a source that begin before `end`, or those of them before its fault.
pub(crate) fn lexemes<'a>(
    alloc: Global,
    src: &'a [u8],
    end: usize,
) -> Result<Vec<Lexeme<'a>>, SpliceFault>
    ensures done { IfOk result (λ v. (xs : List Lexeme) → IsItemList src.now xs → v.items ≡ take (before_len end xs) xs) }
    ensures refused { IfErr result (λ e. e ≡ OutOfMemory) }
{
    let mut all = Vec::with_capacity(alloc, src.len().min(end) / BYTES_PER_ITEM)?;
    for item in items(src) {
        if let Ok(item) = item {
            if item.span.from >= end {
                return Ok(all);
            }
            all.reserve(1)?;
            all.push_reserved(Lexeme {
                kind: item.kind,
                text: text(src, item.span),
            });
        }
    }
    Ok(all)
}
