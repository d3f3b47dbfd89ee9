//! Statements.
//!
//! The rules are those of the Syntax page of the Meson manual.

ghost use Rattle.meson_syntax.specs.inside.Nests.{NestsBlocks, Proceeds, AnswersAs};
ghost use Rattle.meson_syntax.specs.inside.ReadingFiles as spec;
ghost use Rattle.meson_syntax.specs.View.{stmt_view, name_at, names_at};

use crate::fault::ParseFault;
use crate::grammar::{Cursor, Grammar};
use crate::operator::Assignment;
use crate::tree::{Block, Stmt};
use meson_lex::{Kind, Span};
use meson_values::Many;
use std::alloc::Global;

impl<'a, F: Fn(Global, &[u8], &mut Cursor<'_>, usize) -> Result<Block, ParseFault>> Grammar<'a, F> {
    /// A statement whose kind is recognised by its first token.
    #[tactic(auto, unfolding(crate::specs::inside::ReadingFiles::stmt))]
    pub(crate) fn statement(&self, tokens: &mut Cursor<'_>) -> Result<Stmt, ParseFault>
        requires { NestsBlocks self.now.depth (F.pre self.now.deeper) (F.post self.now.deeper) }
        ensures { Proceeds spec.stmt stmt_view self.now.source.now self.now.depth tokens.old result tokens.new }
    {
        match self.peek(tokens) {
            Some(Kind::WordIf) => self.selected(tokens),
            Some(Kind::WordForeach) => self.iterated(tokens),
            Some(Kind::WordBreak) => self.broken(tokens),
            Some(Kind::WordContinue) => self.continued(tokens),
            _ => self.simple(tokens),
        }
    }

    /// An assignment, or an expression by itself.
    #[tactic(auto, unfolding(crate::specs::inside::ReadingFiles::simple))]
    fn simple(&self, tokens: &mut Cursor<'_>) -> Result<Stmt, ParseFault>
        requires { NestsBlocks self.now.depth (F.pre self.now.deeper) (F.post self.now.deeper) }
        ensures { Proceeds spec.simple stmt_view self.now.source.now self.now.depth tokens.old result tokens.new }
    {
        if self.sees_two(tokens, Kind::Identifier, Kind::Assign) {
            return self.assigned(tokens, Assignment::Set);
        }
        if self.sees_two(tokens, Kind::Identifier, Kind::PlusAssign) {
            return self.assigned(tokens, Assignment::Add);
        }
        self.evaluated(tokens)
    }

    /// An assignment, from its variable, which comes next with its sign.
    #[tactic(auto, unfolding(crate::specs::inside::ReadingFiles::assigned))]
    fn assigned(&self, tokens: &mut Cursor<'_>, assignment: Assignment) -> Result<Stmt, ParseFault>
        requires { NestsBlocks self.now.depth (F.pre self.now.deeper) (F.post self.now.deeper) }
        ensures { Proceeds (λ room expr inner body. spec.assigned room expr inner body assignment)
            stmt_view self.now.source.now self.now.depth tokens.old result tokens.new }
    {
        let start = self.from(tokens);
        let name = self.take(tokens);
        self.take(tokens);
        let value = self.value(tokens)?;
        let span = self.since(tokens, start);
        Ok(Stmt::Assign {
            span,
            name,
            assignment,
            value,
        })
    }

    /// An expression by itself.
    #[tactic(auto, unfolding(crate::specs::inside::ReadingFiles::evaluated))]
    fn evaluated(&self, tokens: &mut Cursor<'_>) -> Result<Stmt, ParseFault>
        requires { NestsBlocks self.now.depth (F.pre self.now.deeper) (F.post self.now.deeper) }
        ensures { Proceeds spec.evaluated stmt_view self.now.source.now self.now.depth tokens.old result tokens.new }
    {
        Ok(Stmt::Expr(self.value(tokens)?))
    }

    /// A loop, from `foreach`, which comes next.
    #[tactic(auto, unfolding(crate::specs::inside::ReadingFiles::iterated))]
    fn iterated(&self, tokens: &mut Cursor<'_>) -> Result<Stmt, ParseFault>
        requires { NestsBlocks self.now.depth (F.pre self.now.deeper) (F.post self.now.deeper) }
        ensures { Proceeds spec.iterated stmt_view self.now.source.now self.now.depth tokens.old result tokens.new }
    {
        if self.depth == 0 {
            return Err(self.too_deep(tokens));
        }
        let start = self.from(tokens);
        self.take(tokens);
        let names = self.names(tokens)?;
        self.expect(tokens, Kind::Colon)?;
        let items = self.inner_value(tokens)?;
        let loops = self.with_body(tokens, items)?;
        let (items, body) = self.closed(tokens, Kind::WordEndforeach, loops)?;
        let span = self.since(tokens, start);
        Ok(Stmt::Foreach {
            span,
            names,
            items,
            body,
        })
    }

    /// `break`, which comes next.
    #[tactic(auto, unfolding(crate::specs::inside::ReadingFiles::broken))]
    fn broken(&self, tokens: &mut Cursor<'_>) -> Result<Stmt, ParseFault>
        ensures { Proceeds spec.broken stmt_view self.now.source.now self.now.depth tokens.old result tokens.new }
    {
        Ok(Stmt::Break(self.take(tokens)))
    }

    /// `continue`, which comes next.
    #[tactic(auto, unfolding(crate::specs::inside::ReadingFiles::continued))]
    fn continued(&self, tokens: &mut Cursor<'_>) -> Result<Stmt, ParseFault>
        ensures { Proceeds spec.continued stmt_view self.now.source.now self.now.depth tokens.old result tokens.new }
    {
        Ok(Stmt::Continue(self.take(tokens)))
    }
}

impl<'a, F> Grammar<'a, F> {
    /// Identifiers with commas between them.
    #[tactic(auto, unfolding(crate::specs::inside::ReadingFiles::names))]
    fn names(&self, tokens: &mut Cursor<'_>) -> Result<Many<Span>, ParseFault>
        ensures { AnswersAs spec.names names_at self.now.source.now tokens.old result tokens.new }
    {
        let first = self.name(tokens)?;
        let mut found = Many::new(self.alloc);
        found.push_sparing(first)?;
        // Each turn takes at least one token.
        for _turn in 0..self.left(tokens) {
            if !self.eat(tokens, Kind::Comma) {
                return Ok(found);
            }
            let name = self.name(tokens)?;
            found.push_sparing(name)?;
        }
        Ok(found)
    }

    /// An identifier.
    #[tactic(auto, unfolding(crate::specs::inside::ReadingFiles::name))]
    fn name(&self, tokens: &mut Cursor<'_>) -> Result<Span, ParseFault>
        ensures { AnswersAs spec.name name_at self.now.source.now tokens.old result tokens.new }
    {
        if !self.sees(tokens, Kind::Identifier) {
            return Err(self.unexpected(tokens));
        }
        Ok(self.take(tokens))
    }
}
