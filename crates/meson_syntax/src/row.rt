//! Operators: those before one operand, and rows of operands with operators of one precedence between them.
//!
//! The rules are those of the Syntax page of the Meson manual.

ghost use Rattle.std.specs.Prelude.{◌≡◌, ◌≤◌, Some, IfOk};
ghost use Rattle.meson_syntax.specs.inside.Nests.{Follows, Nests, AnswersAs, operator_view};
ghost use Rattle.meson_syntax.specs.inside.Reading as spec;
ghost use Rattle.meson_syntax.specs.inside.Rows.{longer, operands, row_with};
ghost use Rattle.meson_syntax.specs.View.{expr_view, operand_view, operands_view};

use crate::boxed::Boxed;
use crate::fault::ParseFault;
use crate::grammar::{Cursor, Grammar};
use crate::operator::{Operator, UnaryOperator};
use crate::tree::{Expr, Operand};
use meson_lex::{Kind, Span};
use meson_values::Many;
use std::alloc::{AllocError, Global};

/// The level of the rows that continue with a token of this kind, the tightest first; 0 if no row does.
fn row_of(kind: Option<Kind>) -> u8
    ensures { result ≡ spec.row_of kind }
{
    match kind {
        Some(Kind::Star | Kind::Slash | Kind::Percent) => 1,
        Some(Kind::Plus | Kind::Minus) => 2,
        Some(Kind::Less | Kind::LessEqual | Kind::Greater | Kind::GreaterEqual) => 3,
        Some(Kind::WordIn | Kind::WordNot) => 3,
        Some(Kind::Equal | Kind::NotEqual) => 4,
        Some(Kind::WordAnd) => 5,
        Some(Kind::WordOr) => 6,
        _ => 0,
    }
}

/// The operator before an operand, for a token of this kind.
fn unary_of(kind: Option<Kind>) -> Option<UnaryOperator>
    ensures { result ≡ spec.unary_of kind }
{
    match kind {
        Some(Kind::WordNot) => Some(UnaryOperator::Not),
        Some(Kind::Minus) => Some(UnaryOperator::Minus),
        _ => None,
    }
}

impl<'a, F: Fn(Global, &[u8], &mut Cursor<'_>, usize) -> Result<Expr, ParseFault>> Grammar<'a, F> {
    /// A row of this level, or a tighter expression.
    #[cycle(row)]
    pub(crate) fn row(&self, tokens: &mut Cursor<'_>, level: u8) -> Result<Expr, ParseFault>
        requires nests { Nests self.now.depth (F.pre self.now.deeper) (F.post self.now.deeper) }
        requires at_most { level ≤ 6 }
        ensures { Follows (λ room inner. spec.row_at room inner level) expr_view self.now.source.now self.now.depth tokens.old result tokens.new }
    {
        let start = self.from(tokens);
        let first = self.unaried(tokens)?;
        // Most operands are alone, whatever the level.
        if row_of(self.peek(tokens)) == 0 {
            return Ok(first);
        }
        self.row_with(tokens, level, start, first)
    }

    /// The row of this level, or the tighter expression, that begins with this operand, which is parsed and began at `start`.
    #[cycle(row)]
    fn row_with(
        &self,
        tokens: &mut Cursor<'_>,
        level: u8,
        start: usize,
        first: Expr,
    ) -> Result<Expr, ParseFault>
        requires nests { Nests self.now.depth (F.pre self.now.deeper) (F.post self.now.deeper) }
        requires at_most { level ≤ 6 }
        ensures { Follows (λ room inner. row_with room inner level start (expr_view self.now.source.now first))
            expr_view self.now.source.now self.now.depth tokens.old result tokens.new }
    {
        let mut read = first;
        // From the tightest row on: what is parsed is the first operand of the next one.
        for tighter in 0..level {
            if row_of(self.peek(tokens)) == tighter + 1 {
                read = self.longer(tokens, tighter + 1, start, read)?;
            }
        }
        Ok(read)
    }

    /// The row of this level alone that begins with this operand, which is parsed and began at `start`.
    #[cycle(row)]
    #[inline(never)]
    fn longer(
        &self,
        tokens: &mut Cursor<'_>,
        level: u8,
        start: usize,
        first: Expr,
    ) -> Result<Expr, ParseFault>
        requires nests { Nests self.now.depth (F.pre self.now.deeper) (F.post self.now.deeper) }
        requires at_least { 1 ≤ level }
        requires at_most { level ≤ 6 }
        ensures { Follows (λ room inner. longer room inner level start (expr_view self.now.source.now first))
            expr_view self.now.source.now self.now.depth tokens.old result tokens.new }
    {
        let rest = self.operands(tokens, level)?;
        let span = self.since(tokens, start);
        Ok(self.with_operands(span, first, rest)?)
    }

    /// The operands of a row of this level after its first, each with the operator before it.
    #[cycle(row)]
    #[tactic(auto, unfolding(crate::specs::inside::Reading::operands_from))]
    fn operands(&self, tokens: &mut Cursor<'_>, level: u8) -> Result<Many<Operand>, ParseFault>
        requires nests { Nests self.now.depth (F.pre self.now.deeper) (F.post self.now.deeper) }
        requires at_least { 1 ≤ level }
        requires at_most { level ≤ 6 }
        ensures { Follows (λ room inner. operands room inner level) operands_view self.now.source.now self.now.depth tokens.old result tokens.new }
    {
        let mut found = Many::new(self.alloc);
        // Each turn takes at least one token.
        for _turn in 0..self.left(tokens) {
            if row_of(self.peek(tokens)) != level {
                return Ok(found);
            }
            let operator = self.operator(tokens)?;
            let value = self.row(tokens, level - 1)?;
            found.push_sparing(self.operand(operator, value))?;
        }
        Ok(found)
    }

    /// An expression with an operator before it, or without one.
    #[tactic(auto, unfolding(crate::specs::inside::Reading::unaried))]
    fn unaried(&self, tokens: &mut Cursor<'_>) -> Result<Expr, ParseFault>
        requires { Nests self.now.depth (F.pre self.now.deeper) (F.post self.now.deeper) }
        ensures { Follows spec.unaried expr_view self.now.source.now self.now.depth tokens.old result tokens.new }
    {
        match unary_of(self.peek(tokens)) {
            Some(operator) => self.prefixed(tokens, operator),
            None => self.postfixed(tokens),
        }
    }

    /// An expression with this operator before it, which comes next.
    #[inline(never)]
    fn prefixed(&self, tokens: &mut Cursor<'_>, operator: UnaryOperator) -> Result<Expr, ParseFault>
        requires { Nests self.now.depth (F.pre self.now.deeper) (F.post self.now.deeper) }
        ensures { Follows (λ room inner. spec.unary_by room inner (Some operator))
            expr_view self.now.source.now self.now.depth tokens.old result tokens.new }
    {
        let start = self.from(tokens);
        self.take(tokens);
        let operand = self.postfixed(tokens)?;
        let span = self.since(tokens, start);
        let operand = Boxed::new(self.alloc, operand)?;
        Ok(Expr::Unary {
            span,
            operator,
            operand,
        })
    }
}

impl<'a, F> Grammar<'a, F> {
    /// An operand and the operator before it.
    fn operand(&self, operator: Operator, value: Expr) -> Operand
        ensures { operand_view self.now.source.now result ≡ (operator, expr_view self.now.source.now value) }
    {
        Operand { operator, value }
    }

    /// The row of these operands; the first itself if it is the only one.
    #[tactic(auto, unfolding(crate::specs::inside::Reading::with_operands))]
    fn with_operands(
        &self,
        span: Span,
        first: Expr,
        rest: Many<Operand>,
    ) -> Result<Expr, AllocError>
        ensures { IfOk result (λ e. expr_view self.now.source.now e
            ≡ spec.with_operands span (expr_view self.now.source.now first) (operands_view self.now.source.now rest)) }
    {
        match rest.get() {
            [] => Ok(first),
            [_, ..] => {
                let first = Boxed::new(self.alloc, first)?;
                Ok(Expr::Row { span, first, rest })
            }
        }
    }

    /// The operator between two operands that comes next.
    #[tactic(auto, unfolding(crate::specs::inside::Reading::operator))]
    fn operator(&self, tokens: &mut Cursor<'_>) -> Result<Operator, ParseFault>
        ensures { AnswersAs spec.operator operator_view self.now.source.now tokens.old result tokens.new }
    {
        match self.peek(tokens) {
            Some(Kind::Star) => self.one_token(tokens, Operator::Times),
            Some(Kind::Slash) => self.one_token(tokens, Operator::Divide),
            Some(Kind::Percent) => self.one_token(tokens, Operator::Remainder),
            Some(Kind::Plus) => self.one_token(tokens, Operator::Plus),
            Some(Kind::Minus) => self.one_token(tokens, Operator::Minus),
            Some(Kind::Less) => self.one_token(tokens, Operator::Less),
            Some(Kind::LessEqual) => self.one_token(tokens, Operator::LessEqual),
            Some(Kind::Greater) => self.one_token(tokens, Operator::Greater),
            Some(Kind::GreaterEqual) => self.one_token(tokens, Operator::GreaterEqual),
            Some(Kind::WordIn) => self.one_token(tokens, Operator::In),
            Some(Kind::WordNot) => self.not_in(tokens),
            Some(Kind::Equal) => self.one_token(tokens, Operator::Equal),
            Some(Kind::NotEqual) => self.one_token(tokens, Operator::NotEqual),
            Some(Kind::WordAnd) => self.one_token(tokens, Operator::And),
            Some(Kind::WordOr) => self.one_token(tokens, Operator::Or),
            _ => Err(self.unexpected(tokens)),
        }
    }

    /// An operator of one token, which comes next.
    fn one_token(&self, tokens: &mut Cursor<'_>, operator: Operator) -> Result<Operator, ParseFault>
        ensures { AnswersAs (spec.one_token operator) operator_view self.now.source.now tokens.old result tokens.new }
    {
        self.take(tokens);
        Ok(operator)
    }

    /// `not in`, the first word of which comes next.
    fn not_in(&self, tokens: &mut Cursor<'_>) -> Result<Operator, ParseFault>
        ensures { AnswersAs (spec.operator_by (Some Kind.WordNot)) operator_view self.now.source.now tokens.old result tokens.new }
    {
        self.take(tokens);
        self.expect(tokens, Kind::WordIn)?;
        Ok(Operator::NotIn)
    }
}
