//! The items of a text, one after another.
ghost use Rattle.std.specs.Prelude.{◌≡◌, length};
ghost use Rattle.meson_lex.specs.Lexed.{IsLexed, Tiles};

use crate::fault::LexFault;
use crate::front::front;
use crate::kinds::{Item, Span};
use std::marker::Model;

/// The items of a text that are left. Contracts see the list of the results that it will give.
#[derive(Drop)]
pub struct Items<'a> {
    rest: &'a [u8],
    at: usize,
}

impl<'a> Model for Items<'a> {
    ghost use Rattle.std.specs.Prelude.{List, Result, ◌+◌, ◌<◌, ◌^◌, length};
    ghost use Rattle.meson_lex.specs.declared.kinds.Item.{Item};
    ghost use Rattle.meson_lex.specs.declared.fault.LexFault.{LexFault};
    ghost use Rattle.meson_lex.specs.Scan.{scan};

    ghost Value = { List (Result Item LexFault) };

    ghost view = { λ left. scan left.at left.rest.now };

    ghost invariant = { λ left. left.at + length left.rest.now < 2 ^ 64 };
}

impl<'a> Items<'a> {
    /// The items of a text in their order, or those before its first fault and then that fault.
    pub fn new(source: &'a [u8]) -> Items<'a>
        ensures lexed { IsLexed 0 source.now result }
        ensures tiles { Tiles 0 (length source.now) result }
    {
        Items {
            rest: source,
            at: 0,
        }
    }
}

impl<'a> Iterator for Items<'a> {
    ghost use Rattle.std.specs.Iterator.{YieldsFirst, item_count};

    type Item = Result<Item, LexFault>;

    ghost next_gives = { YieldsFirst (λ left. left) };

    ghost remaining = { item_count (λ left. left) };

    #[inline(always)]
    fn next(&mut self) -> Option<Result<Item, LexFault>> {
        if self.rest.is_empty() {
            return None;
        }
        match front(self.rest, self.at) {
            Ok((kind, len)) => {
                let from = self.at;
                self.rest = &self.rest[len..];
                self.at = from + len;
                let span = Span {
                    from,
                    to: from + len,
                };
                Some(Ok(Item { kind, span }))
            }
            Err(fault) => {
                self.rest = &self.rest[..0];
                Some(Err(fault))
            }
        }
    }
}
