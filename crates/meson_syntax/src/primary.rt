//! Expressions that are recognised by their first token: variables, calls, literals, and what is in brackets.
//!
//! The rules are those of the Syntax page of the Meson manual.

ghost use Rattle.meson_syntax.specs.inside.Nests.{Follows, Nests};
ghost use Rattle.meson_syntax.specs.inside.Reading as spec;
ghost use Rattle.meson_syntax.specs.View.{expr_view};

use crate::fault::ParseFault;
use crate::grammar::{Cursor, Grammar};
use crate::operator::{Bracket, StringKind};
use crate::tree::Expr;
use meson_lex::Kind;
use std::alloc::Global;

impl<'a, F: Fn(Global, &[u8], &mut Cursor<'_>, usize) -> Result<Expr, ParseFault>> Grammar<'a, F> {
    /// An expression whose kind is recognised by its first token.
    #[tactic(auto, unfolding(crate::specs::inside::Reading::primary))]
    pub(crate) fn primary(&self, tokens: &mut Cursor<'_>) -> Result<Expr, ParseFault>
        requires { Nests self.now.depth (F.pre self.now.deeper) (F.post self.now.deeper) }
        ensures { Follows spec.primary expr_view self.now.source.now self.now.depth tokens.old result tokens.new }
    {
        match self.peek(tokens) {
            Some(Kind::Identifier) => self.identified(tokens),
            Some(Kind::WordTrue) => self.truth(tokens, true),
            Some(Kind::WordFalse) => self.truth(tokens, false),
            Some(Kind::Integer) => self.number(tokens),
            Some(Kind::PlainString) => self.quoted(tokens, StringKind::Plain),
            Some(Kind::MultilineString) => self.quoted(tokens, StringKind::Multiline),
            Some(Kind::FormatString) => self.quoted(tokens, StringKind::Format),
            Some(Kind::FormatMultilineString) => self.quoted(tokens, StringKind::FormatMultiline),
            Some(Kind::OpenRound) => self.parenthesized(tokens),
            Some(Kind::OpenSquare) => Ok(Expr::Array(self.listed(tokens, Bracket::Square)?)),
            Some(Kind::OpenCurly) => Ok(Expr::Dictionary(self.listed(tokens, Bracket::Curly)?)),
            _ => Err(self.unexpected(tokens)),
        }
    }

    /// A variable or a call, from its identifier, which comes next.
    #[tactic(auto, unfolding(crate::specs::inside::Reading::identified))]
    fn identified(&self, tokens: &mut Cursor<'_>) -> Result<Expr, ParseFault>
        requires { Nests self.now.depth (F.pre self.now.deeper) (F.post self.now.deeper) }
        ensures { Follows spec.identified expr_view self.now.source.now self.now.depth tokens.old result tokens.new }
    {
        let start = self.from(tokens);
        let name = self.take(tokens);
        if !self.sees(tokens, Kind::OpenRound) {
            return Ok(Expr::Identifier(name));
        }
        let arguments = self.listed(tokens, Bracket::Round)?;
        Ok(Expr::Call {
            span: self.since(tokens, start),
            name,
            arguments,
        })
    }

    /// `true` or `false`, as `value` says, which comes next.
    #[tactic(auto, unfolding(crate::specs::inside::Reading::truth))]
    fn truth(&self, tokens: &mut Cursor<'_>, value: bool) -> Result<Expr, ParseFault>
        ensures { Follows (λ room inner. spec.truth room inner value) expr_view self.now.source.now self.now.depth tokens.old result tokens.new }
    {
        let span = self.take(tokens);
        Ok(Expr::Boolean { span, value })
    }

    /// A number, which comes next.
    #[tactic(auto, unfolding(crate::specs::inside::Reading::number))]
    fn number(&self, tokens: &mut Cursor<'_>) -> Result<Expr, ParseFault>
        ensures { Follows spec.number expr_view self.now.source.now self.now.depth tokens.old result tokens.new }
    {
        Ok(Expr::Integer(self.take(tokens)))
    }

    /// A string of this kind, which comes next.
    #[tactic(auto, unfolding(crate::specs::inside::Reading::quoted))]
    fn quoted(&self, tokens: &mut Cursor<'_>, kind: StringKind) -> Result<Expr, ParseFault>
        ensures { Follows (λ room inner. spec.quoted room inner kind) expr_view self.now.source.now self.now.depth tokens.old result tokens.new }
    {
        let span = self.take(tokens);
        Ok(Expr::String { span, kind })
    }

    /// An expression in round brackets, the first of which comes next.
    #[tactic(auto, unfolding(crate::specs::inside::Reading::parenthesized))]
    fn parenthesized(&self, tokens: &mut Cursor<'_>) -> Result<Expr, ParseFault>
        requires { Nests self.now.depth (F.pre self.now.deeper) (F.post self.now.deeper) }
        ensures { Follows spec.parenthesized expr_view self.now.source.now self.now.depth tokens.old result tokens.new }
    {
        if self.depth == 0 {
            return Err(self.too_deep(tokens));
        }
        let start = self.from(tokens);
        self.take(tokens);
        let inside = self.boxed(tokens)?;
        self.expect(tokens, Kind::CloseRound)?;
        let span = self.since(tokens, start);
        Ok(Expr::Paren { span, inside })
    }
}
