//! The significant tokens of a source.

ghost use Rattle.std.specs.Prelude.{◌≡◌, ◌+◌, ◌≢◌, ◌≤◌, ◌<◌, ◌^◌, IfErr, IfOk, OnOk, List, map, length};
ghost use Rattle.meson_lex.specs.declared.fault.LexFault.{LexFault};
ghost use Rattle.meson_syntax.specs.inside.Gathering.{AreTokens, IsFaulty, closed, line_ended, no_tokens, pushed, gathered_with};
ghost use Rattle.meson_syntax.specs.inside.Tokens.{tokens_of};

use crate::fault::ParseFault;
use crate::token::Token;
use meson_lex::{Item, Kind, Span, items};
use std::alloc::{AllocError, Global};
use std::marker::Model;

/// Most sources have at least this many bytes for each token.
const BYTES_PER_TOKEN: usize = 4;

/// The tokens of the items so far.
#[derive(Drop)]
struct Gathered<'a> {
    source: &'a [u8],
    tokens: Vec<Token>,
    /// The number of open brackets.
    depth: usize,
    /// Whether there was no token yet, or the last one was a line end.
    fresh: bool,
    /// The place where the last token ended.
    end: usize,
}

impl<'a> Model for Gathered<'a> {
    ghost use Rattle.std.specs.Prelude.{map};
    ghost use Rattle.meson_syntax.specs.inside.Gathering.{GatheredTokens};
    ghost use Rattle.meson_syntax.specs.inside.Tokens.{token_of};

    ghost Value = { GatheredTokens };

    ghost view = { λ g. record {
      source = g.source.now;
      tokens = map (token_of g.source.now) g.tokens.items;
      state = record { depth = g.depth; fresh = g.fresh };
      end = g.end;
    } };
}

impl<'a> Gathered<'a> {
    /// No tokens, with memory for as many as most sources of this length have.
    fn new(alloc: Global, source: &'a [u8]) -> Result<Self, AllocError>
        ensures { IfOk result (λ g. g ≡ no_tokens source.now) }
    {
        Ok(Gathered {
            source,
            tokens: Vec::with_capacity(alloc, source.len() / BYTES_PER_TOKEN)?,
            depth: 0,
            fresh: true,
            end: 0,
        })
    }

    /// Takes the item that comes next.
    #[tactic(auto, unfolding(crate::specs::inside::Gathering::gathered_with))]
    fn take(&mut self, item: Item) -> Result<(), AllocError>
        requires { self.old.state.depth + 1 < 2 ^ 64 }
        ensures { OnOk result (self.new ≡ gathered_with self.old item) }
    {
        match item.kind {
            Kind::Blank | Kind::Comment | Kind::Continuation => {}
            Kind::LineEnd => self.end_line(item.span.from)?,
            Kind::OpenRound | Kind::OpenSquare | Kind::OpenCurly => {
                self.push(item)?;
                self.depth += 1;
            }
            Kind::CloseRound | Kind::CloseSquare | Kind::CloseCurly => {
                self.push(item)?;
                self.depth = self.depth.saturating_sub(1);
            }
            _ => self.push(item)?,
        }
        Ok(())
    }

    /// An item that is a token by itself.
    fn push(&mut self, item: Item) -> Result<(), AllocError>
        ensures { OnOk result (self.new ≡ pushed self.old item) }
    {
        self.tokens.push(Token {
            kind: item.kind,
            span: item.span,
            place: item.span.from,
        })?;
        self.fresh = false;
        self.end = item.span.to;
        Ok(())
    }

    /// A line end, which is a token outside brackets and after another token.
    fn end_line(&mut self, place: usize) -> Result<(), AllocError>
        ensures { OnOk result (self.new ≡ line_ended self.old) }
    {
        if self.depth == 0 && !self.fresh {
            self.tokens.push(Token {
                kind: Kind::LineEnd,
                span: Span {
                    from: self.end,
                    to: self.end,
                },
                place,
            })?;
            self.fresh = true;
        }
        Ok(())
    }

    /// The tokens, with the line end that is not written after the last one.
    fn close(self) -> Result<Vec<Token>, AllocError>
        ensures { IfOk result (λ ts. tokens_of self.entry.source ts.items ≡ closed self.entry) }
    {
        let Gathered {
            source,
            mut tokens,
            depth: _,
            fresh,
            end,
        } = self;
        if !fresh {
            tokens.push(Token {
                kind: Kind::LineEnd,
                span: Span { from: end, to: end },
                place: source.len(),
            })?;
        }
        Ok(tokens)
    }
}

/// The significant tokens of a source, or its first lexical fault.
pub(crate) fn tokens(alloc: Global, source: &[u8]) -> Result<Vec<Token>, ParseFault>
    ensures whole { IfOk result (λ ts. AreTokens source.now (tokens_of source.now ts.items)) }
    ensures faulty { IfErr result (λ e. e ≢ ParseFault.OutOfMemory → (f : LexFault) × (e ≡ ParseFault.Lex f) × IsFaulty source.now f) }
{
    let mut gathered = Gathered::new(alloc, source)?;
    for item in items(source) {
        match item {
            Ok(item) => gathered.take(item)?,
            Err(fault) => return Err(ParseFault::Lex(fault)),
        }
    }
    Ok(gathered.close()?)
}
