//! Expressions, and the conditionals, which bind loosest.
//!
//! The rules are those of the Syntax page of the Meson manual.

ghost use Rattle.meson_syntax.specs.inside.Nests.{Follows, Nests, AnswersAs};
ghost use Rattle.meson_syntax.specs.inside.Reading as spec;
ghost use Rattle.meson_syntax.specs.View.{expr_view};

use crate::boxed::Boxed;
use crate::fault::ParseFault;
use crate::grammar::{Cursor, Grammar};
use crate::tree::Expr;
use meson_lex::Kind;
use std::alloc::Global;

/// The level of the loosest rows.
const LOOSEST: u8 = 6;

/// Reads an expression in which fewer than `depth` constructs are inside one another.
pub(crate) fn read_expression(
    alloc: Global,
    source: &[u8],
    tokens: &mut Cursor<'_>,
    depth: usize,
) -> Result<Expr, ParseFault>
    ensures { AnswersAs (spec.expression depth) expr_view source.now tokens.old result tokens.new }
{
    if depth == 0 {
        return Err(ParseFault::TooDeep(tokens.place(source)));
    }
    Grammar {
        alloc,
        source,
        depth: depth - 1,
        deeper: read_expression,
    }
    .chosen(tokens)
}

impl<'a, F: Fn(Global, &[u8], &mut Cursor<'_>, usize) -> Result<Expr, ParseFault>> Grammar<'a, F> {
    /// An expression inside a construct that begins here.
    pub(crate) fn inner(&self, tokens: &mut Cursor<'_>) -> Result<Expr, ParseFault>
        requires { Nests self.now.depth (F.pre self.now.deeper) (F.post self.now.deeper) }
        ensures { AnswersAs (spec.expression self.now.depth) expr_view self.now.source.now tokens.old result tokens.new }
    {
        (self.deeper)(self.alloc, self.source, tokens, self.depth)
    }

    /// An expression inside a construct that begins here, in memory of its own.
    pub(crate) fn boxed(&self, tokens: &mut Cursor<'_>) -> Result<Boxed<Expr>, ParseFault>
        requires { Nests self.now.depth (F.pre self.now.deeper) (F.post self.now.deeper) }
        ensures { AnswersAs (spec.expression self.now.depth) expr_view self.now.source.now tokens.old result tokens.new }
    {
        let inside = self.inner(tokens)?;
        Ok(Boxed::new(self.alloc, inside)?)
    }

    /// A conditional, or a tighter expression. Most are one token, and parsed at once.
    fn chosen(&self, tokens: &mut Cursor<'_>) -> Result<Expr, ParseFault>
        requires { Nests self.now.depth (F.pre self.now.deeper) (F.post self.now.deeper) }
        ensures { Follows spec.choice expr_view self.now.source.now self.now.depth tokens.old result tokens.new }
    {
        if self.is_alone(tokens) {
            return self.primary(tokens);
        }
        self.joined(tokens)
    }

    /// A conditional, or a tighter expression, of any length.
    #[inline(never)]
    #[tactic(auto, unfolding(crate::specs::inside::Reading::choice))]
    fn joined(&self, tokens: &mut Cursor<'_>) -> Result<Expr, ParseFault>
        requires { Nests self.now.depth (F.pre self.now.deeper) (F.post self.now.deeper) }
        ensures { Follows spec.choice expr_view self.now.source.now self.now.depth tokens.old result tokens.new }
    {
        let start = self.from(tokens);
        let condition = self.row(tokens, LOOSEST)?;
        if !self.sees(tokens, Kind::Question) {
            return Ok(condition);
        }
        self.answered(tokens, start, condition)
    }

    /// A conditional, from the question mark after its condition, which comes next; the condition began at `start`.
    #[tactic(auto, unfolding(crate::specs::inside::Reading::answered))]
    fn answered(
        &self,
        tokens: &mut Cursor<'_>,
        start: usize,
        condition: Expr,
    ) -> Result<Expr, ParseFault>
        requires { Nests self.now.depth (F.pre self.now.deeper) (F.post self.now.deeper) }
        ensures { Follows (λ room inner. spec.answered room inner start (expr_view self.now.source.now condition))
            expr_view self.now.source.now self.now.depth tokens.old result tokens.new }
    {
        let condition = Boxed::new(self.alloc, condition)?;
        if self.depth == 0 {
            return Err(self.too_deep(tokens));
        }
        self.take(tokens);
        let yes = self.boxed(tokens)?;
        self.expect(tokens, Kind::Colon)?;
        let no = self.boxed(tokens)?;
        let span = self.since(tokens, start);
        Ok(Expr::Conditional {
            span,
            condition,
            yes,
            no,
        })
    }
}
