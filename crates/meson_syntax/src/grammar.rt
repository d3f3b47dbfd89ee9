//! The base of the grammar's rules: the tokens that are left of a source, and the steps that each rule is made of.

ghost use Rattle.std.specs.Prelude.{◌≡◌, IfErr, IfOk, length};
ghost use Rattle.meson_syntax.specs.inside.Alone as alone;
ghost use Rattle.meson_syntax.specs.View.{Bytes, name_at, text_at};
ghost use Rattle.meson_syntax.specs.inside.Cursor.{input, place_of};
ghost use Rattle.meson_syntax.specs.inside.Input as spec;
ghost use Rattle.meson_syntax.specs.inside.Input.{Gives};
ghost use Rattle.meson_syntax.specs.inside.Nests.{IsGrammatical};
ghost use Rattle.meson_syntax.specs.inside.Tokens.{tokens_of};

use crate::fault::ParseFault;
use crate::token::Token;
use meson_lex::{Kind, Span};
use std::alloc::Global;
use std::marker::Model;

/// The tokens that are left, and the end of the last one.
#[derive(Drop)]
pub(crate) struct Cursor<'a> {
    rest: &'a [Token],
    last: usize,
}

impl<'a> Model for Cursor<'a> {
    ghost use Rattle.meson_syntax.specs.inside.Cursor.{Cursor};

    ghost Value = { Cursor };

    ghost view = { λ t. record { last = t.last; rest = t.rest.now } };
}

impl<'a> Cursor<'a> {
    /// All of the tokens.
    pub(crate) fn new(tokens: &'a [Token]) -> Cursor<'a>
        ensures { result ≡ record { last = 0; rest = tokens.now } }
    {
        Cursor {
            rest: tokens,
            last: 0,
        }
    }

    /// Whether no token is left.
    pub(crate) fn is_over(&self) -> bool
        ensures { (source : Bytes) → result ≡ spec.is_over (tokens_of source self.now.rest) }
    {
        self.rest.is_empty()
    }

    /// The offset that a refusal names: the next token's place, or the source's length.
    pub(crate) fn place(&self, source: &[u8]) -> usize
        ensures { result ≡ place_of (length source.now) self.now.rest }
    {
        match self.rest {
            [] => source.len(),
            [first, ..] => first.place,
        }
    }
}

/// The rules of the grammar over a source. What parses one level deeper is a field, so that each rule is proved by itself.
#[derive(Clone, Copy)]
pub(crate) struct Grammar<'a, F> {
    pub alloc: Global,
    /// The text of the tokens' spans.
    pub source: &'a [u8],
    /// The number of constructs that may still be inside one another.
    pub depth: usize,
    /// Reads what a construct holds, in which fewer constructs than the given number are inside one another. That is an expression for the rules of
    /// expressions, and a block for those of statements.
    pub deeper: F,
}

/// Whether the two are the same kind.
#[tactic(auto, unfolding(crate::specs::inside::Input::same_kind))]
fn same_kind(kind: Kind, other: Kind) -> bool
    ensures { result ≡ spec.same_kind kind other }
{
    kind == other
}

/// Whether the tokens begin with one of this kind.
fn begins_with(tokens: &[Token], kind: Kind) -> bool
    ensures { (source : Bytes) → result ≡ spec.begins_with kind (tokens_of source tokens.now) }
{
    match tokens {
        [] => false,
        [first, ..] => same_kind(first.kind, kind),
    }
}

/// Whether a token of this kind is an expression, if no bracket follows.
fn is_single(kind: Kind) -> bool
    ensures { result ≡ alone.is_single kind }
{
    matches!(
        kind,
        Kind::Identifier | Kind::WordTrue | Kind::WordFalse | Kind::Integer | Kind::PlainString
    )
}

/// Whether the tokens begin with one that cannot continue an expression.
fn begins_end(tokens: &[Token]) -> bool
    ensures { (source : Bytes) → result ≡ alone.begins_end (tokens_of source tokens.now) }
{
    match tokens {
        [] => false,
        [first, ..] => matches!(
            first.kind,
            Kind::LineEnd
                | Kind::CloseRound
                | Kind::CloseSquare
                | Kind::CloseCurly
                | Kind::Comma
                | Kind::Colon
        ),
    }
}

impl<'a, F> Grammar<'a, F> {
    /// The kind of the next token.
    #[tactic(auto, unfolding(crate::specs::inside::Input::kind, crate::specs::inside::Cursor::input))]
    pub(crate) fn peek(&self, tokens: &Cursor<'_>) -> Option<Kind>
        ensures { result ≡ spec.kind (input self.now.source.now tokens.now) }
    {
        match tokens.rest {
            [] => None,
            [first, ..] => Some(first.kind),
        }
    }

    /// The place where the next token begins.
    #[tactic(auto, unfolding(crate::specs::inside::Input::from, crate::specs::inside::Cursor::input))]
    pub(crate) fn from(&self, tokens: &Cursor<'_>) -> usize
        ensures { result ≡ spec.from (input self.now.source.now tokens.now) }
    {
        match tokens.rest {
            [] => tokens.last,
            [first, ..] => first.span.from,
        }
    }

    /// From a place to the end of the last token.
    #[tactic(auto, unfolding(crate::specs::inside::Input::span_from, crate::specs::inside::Cursor::input))]
    pub(crate) fn since(&self, tokens: &Cursor<'_>, from: usize) -> Span
        ensures { result ≡ spec.span_from from (input self.now.source.now tokens.now) }
    {
        Span {
            from,
            to: tokens.last,
        }
    }

    /// How many tokens are left.
    #[tactic(auto, unfolding(crate::specs::inside::Input::left, crate::specs::inside::Cursor::input))]
    pub(crate) fn left(&self, tokens: &Cursor<'_>) -> usize
        ensures { result ≡ spec.left (input self.now.source.now tokens.now) }
    {
        tokens.rest.len()
    }

    /// The place where the last token ended.
    #[tactic(auto, unfolding(crate::specs::inside::Cursor::input))]
    pub(crate) fn last(&self, tokens: &Cursor<'_>) -> usize
        ensures { result ≡ (input self.now.source.now tokens.now).last }
    {
        tokens.last
    }

    /// Whether a token of this kind comes next.
    #[tactic(auto, unfolding(crate::specs::inside::Input::sees, crate::specs::inside::Cursor::input))]
    pub(crate) fn sees(&self, tokens: &Cursor<'_>, kind: Kind) -> bool
        ensures { result ≡ spec.sees kind (input self.now.source.now tokens.now) }
    {
        begins_with(tokens.rest, kind)
    }

    /// Whether tokens of these two kinds come next.
    #[tactic(auto, unfolding(crate::specs::inside::Input::sees_two, crate::specs::inside::Cursor::input))]
    pub(crate) fn sees_two(&self, tokens: &Cursor<'_>, kind: Kind, second: Kind) -> bool
        ensures { result ≡ spec.sees_two kind second (input self.now.source.now tokens.now) }
    {
        match tokens.rest {
            [] => false,
            [first, rest @ ..] => { same_kind(first.kind, kind) && begins_with(rest, second) }
        }
    }

    /// Whether the next token is an expression by itself, and the token after it cannot continue an expression.
    #[tactic(auto, unfolding(crate::specs::inside::Alone::is_alone, crate::specs::inside::Cursor::input))]
    pub(crate) fn is_alone(&self, tokens: &Cursor<'_>) -> bool
        ensures { result ≡ alone.is_alone (input self.now.source.now tokens.now) }
    {
        match tokens.rest {
            [] => false,
            [first, rest @ ..] => { is_single(first.kind) && begins_end(rest) }
        }
    }

    /// Takes the next token, and returns its span.
    #[tactic(auto, unfolding(crate::specs::inside::Input::text_ahead, crate::specs::inside::Input::next, crate::specs::inside::Input::from, crate::specs::inside::Input::span_from, crate::specs::inside::Input::name_next, crate::specs::inside::Cursor::input))]
    pub(crate) fn take(&self, tokens: &mut Cursor<'_>) -> Span
        ensures text { text_at self.now.source.now result ≡ spec.text_ahead (input self.now.source.now tokens.old) }
        ensures name { name_at self.now.source.now result ≡ spec.name_next (input self.now.source.now tokens.old) }
        ensures next { input self.now.source.now tokens.new ≡ spec.next (input self.now.source.now tokens.old) }
        ensures span { result ≡ spec.span_from (spec.from (input self.now.source.now tokens.old)) (spec.next (input self.now.source.now tokens.old)) }
    {
        match tokens.rest {
            [] => Span {
                from: tokens.last,
                to: tokens.last,
            },
            [first, rest @ ..] => {
                tokens.rest = rest;
                tokens.last = first.span.to;
                first.span
            }
        }
    }

    /// Takes the next token if it is of this kind, and returns whether it was.
    #[tactic(auto, unfolding(crate::specs::inside::Input::after_kind))]
    pub(crate) fn eat(&self, tokens: &mut Cursor<'_>, kind: Kind) -> bool
        ensures found { result ≡ spec.sees kind (input self.now.source.now tokens.old) }
        ensures after { input self.now.source.now tokens.new ≡ spec.after_kind kind (input self.now.source.now tokens.old) }
    {
        let found = self.sees(tokens, kind);
        if found {
            self.take(tokens);
        }
        found
    }

    /// Takes the next token, which has to be of this kind.
    #[tactic(auto, unfolding(crate::specs::inside::Input::expect))]
    pub(crate) fn expect(&self, tokens: &mut Cursor<'_>, kind: Kind) -> Result<(), ParseFault>
        ensures gives { Gives (λ u. u) (spec.expect kind (input self.now.source.now tokens.old)) result (input self.now.source.now tokens.new) }
        ensures grammatical { IfErr result IsGrammatical }
    {
        if self.sees(tokens, kind) {
            self.take(tokens);
            Ok(())
        } else {
            Err(self.unexpected(tokens))
        }
    }

    /// What was read before a token of this kind, which has to come next. It takes the token.
    pub(crate) fn closed<T: Drop>(
        &self,
        tokens: &mut Cursor<'_>,
        kind: Kind,
        read: T,
    ) -> Result<T, ParseFault>
        ensures read { IfOk result (λ x. x ≡ read) }
        ensures gives { Gives (λ _. tt) (spec.expect kind (input self.now.source.now tokens.old)) result (input self.now.source.now tokens.new) }
        ensures grammatical { IfErr result IsGrammatical }
    {
        self.expect(tokens, kind)?;
        Ok(read)
    }

    /// The refusal that the next token can't be there.
    #[cold]
    #[inline(never)]
    pub(crate) fn unexpected(&self, tokens: &Cursor<'_>) -> ParseFault
        ensures { result ≡ ParseFault.Unexpected (place_of (length self.now.source.now) tokens.now.rest) }
    {
        ParseFault::Unexpected(tokens.place(self.source))
    }

    /// The refusal that the next token opens a construct inside as many as may be inside one another.
    #[cold]
    #[inline(never)]
    pub(crate) fn too_deep(&self, tokens: &Cursor<'_>) -> ParseFault
        ensures { result ≡ ParseFault.TooDeep (place_of (length self.now.source.now) tokens.now.rest) }
    {
        ParseFault::TooDeep(tokens.place(self.source))
    }
}
