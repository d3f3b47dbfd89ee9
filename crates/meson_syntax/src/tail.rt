//! Method calls and indexes after an expression.
//!
//! The rules are those of the Syntax page of the Meson manual.

ghost use Rattle.std.specs.Prelude.{◌≡◌, IfOk};
ghost use Rattle.meson_syntax.specs.inside.Alone as alone;
ghost use Rattle.meson_syntax.specs.inside.Nests.{Follows, Nests};
ghost use Rattle.meson_syntax.specs.inside.Reading as spec;
ghost use Rattle.meson_syntax.specs.View.{expr_view, tail_view, tails_view};

use crate::boxed::Boxed;
use crate::fault::ParseFault;
use crate::grammar::{Cursor, Grammar};
use crate::operator::Bracket;
use crate::tree::{Expr, Tail};
use meson_lex::{Kind, Span};
use meson_values::Many;
use std::alloc::{AllocError, Global};

impl<'a, F> Grammar<'a, F> {
    /// The expression with these tails; the expression itself if there are no tails.
    #[tactic(auto, unfolding(crate::specs::inside::Reading::with_tails))]
    fn with_tails(&self, span: Span, base: Expr, tails: Many<Tail>) -> Result<Expr, AllocError>
        ensures { IfOk result (λ e. expr_view self.now.source.now e
            ≡ spec.with_tails span (expr_view self.now.source.now base) (tails_view self.now.source.now tails)) }
    {
        match tails.get() {
            [] => Ok(base),
            [_, ..] => {
                let base = Boxed::new(self.alloc, base)?;
                Ok(Expr::Postfix { span, base, tails })
            }
        }
    }
}

impl<'a, F: Fn(Global, &[u8], &mut Cursor<'_>, usize) -> Result<Expr, ParseFault>> Grammar<'a, F> {
    /// An expression with the method calls and indexes after it.
    #[tactic(auto, unfolding(crate::specs::inside::Reading::postfixed, crate::specs::inside::Alone::tailed))]
    pub(crate) fn postfixed(&self, tokens: &mut Cursor<'_>) -> Result<Expr, ParseFault>
        requires { Nests self.now.depth (F.pre self.now.deeper) (F.post self.now.deeper) }
        ensures { Follows spec.postfixed expr_view self.now.source.now self.now.depth tokens.old result tokens.new }
    {
        let start = self.from(tokens);
        let base = self.primary(tokens)?;
        if !self.sees(tokens, Kind::Dot) && !self.sees(tokens, Kind::OpenSquare) {
            return Ok(base);
        }
        self.tailed(tokens, start, base)
    }

    /// The expression that is parsed and began at `start`, with the method calls and indexes that come next.
    #[inline(never)]
    #[tactic(auto, unfolding(crate::specs::inside::Alone::tailed))]
    fn tailed(&self, tokens: &mut Cursor<'_>, start: usize, base: Expr) -> Result<Expr, ParseFault>
        requires { Nests self.now.depth (F.pre self.now.deeper) (F.post self.now.deeper) }
        ensures { Follows (λ room inner. alone.tailed room inner start (expr_view self.now.source.now base))
            expr_view self.now.source.now self.now.depth tokens.old result tokens.new }
    {
        let (base, tails) = self.before_tails(tokens, base)?;
        let span = self.since(tokens, start);
        Ok(self.with_tails(span, base, tails)?)
    }

    /// What was read before the method calls and indexes that come next, and those.
    fn before_tails<T: Drop>(
        &self,
        tokens: &mut Cursor<'_>,
        read: T,
    ) -> Result<(T, Many<Tail>), ParseFault>
        requires { Nests self.now.depth (F.pre self.now.deeper) (F.post self.now.deeper) }
        ensures read { IfOk result (λ p. p.0 ≡ read) }
        ensures tails { Follows spec.tails (λ source p. tails_view source p.1) self.now.source.now self.now.depth tokens.old result tokens.new }
    {
        let tails = self.tails(tokens)?;
        Ok((read, tails))
    }

    /// The method calls and indexes that come next.
    #[tactic(auto, unfolding(crate::specs::inside::Reading::tails))]
    fn tails(&self, tokens: &mut Cursor<'_>) -> Result<Many<Tail>, ParseFault>
        requires { Nests self.now.depth (F.pre self.now.deeper) (F.post self.now.deeper) }
        ensures { Follows spec.tails tails_view self.now.source.now self.now.depth tokens.old result tokens.new }
    {
        let mut found = Many::new(self.alloc);
        // Each turn takes at least one token.
        for _turn in 0..self.left(tokens) {
            if self.sees(tokens, Kind::Dot) {
                found.push_sparing(self.method(tokens)?)?;
            } else if self.sees(tokens, Kind::OpenSquare) {
                found.push_sparing(self.index(tokens)?)?;
            } else {
                return Ok(found);
            }
        }
        Ok(found)
    }

    /// A method call, from its dot, which comes next.
    #[tactic(auto, unfolding(crate::specs::inside::Reading::method_call))]
    fn method(&self, tokens: &mut Cursor<'_>) -> Result<Tail, ParseFault>
        requires { Nests self.now.depth (F.pre self.now.deeper) (F.post self.now.deeper) }
        ensures { Follows spec.method_call tail_view self.now.source.now self.now.depth tokens.old result tokens.new }
    {
        let start = self.from(tokens);
        self.take(tokens);
        if !self.sees_two(tokens, Kind::Identifier, Kind::OpenRound) {
            // A name may be here, and then the token after it is at fault.
            self.eat(tokens, Kind::Identifier);
            return Err(self.unexpected(tokens));
        }
        let name = self.take(tokens);
        let arguments = self.listed(tokens, Bracket::Round)?;
        let span = self.since(tokens, start);
        Ok(Tail::Method {
            span,
            name,
            arguments,
        })
    }

    /// An index, from its opening bracket, which comes next.
    #[tactic(auto, unfolding(crate::specs::inside::Reading::indexed))]
    fn index(&self, tokens: &mut Cursor<'_>) -> Result<Tail, ParseFault>
        requires { Nests self.now.depth (F.pre self.now.deeper) (F.post self.now.deeper) }
        ensures { Follows spec.indexed tail_view self.now.source.now self.now.depth tokens.old result tokens.new }
    {
        if self.depth == 0 {
            return Err(self.too_deep(tokens));
        }
        let start = self.from(tokens);
        self.take(tokens);
        let index = self.inner(tokens)?;
        let index = self.closed(tokens, Kind::CloseSquare, index)?;
        let span = self.since(tokens, start);
        Ok(Tail::Index { span, index })
    }
}
