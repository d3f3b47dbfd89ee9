//! `if`, `elif` and `else`.
//!
//! The rules are those of the Syntax page of the Meson manual.

ghost use Rattle.std.specs.Prelude.{◌≡◌};
ghost use Rattle.meson_syntax.specs.inside.Nests.{NestsBlocks, Proceeds};
ghost use Rattle.meson_syntax.specs.inside.ReadingFiles as spec;
ghost use Rattle.meson_syntax.specs.View.{block_view, branch_view, branches_view, expr_view, otherwise_view, stmt_view};

use crate::fault::ParseFault;
use crate::grammar::{Cursor, Grammar};
use crate::tree::{Block, Branch, Expr, Stmt};
use meson_lex::Kind;
use meson_values::Many;
use std::alloc::Global;

impl<'a, F> Grammar<'a, F> {
    /// A condition and the block after it.
    fn branch(&self, condition: Expr, block: Block) -> Branch
        ensures { branch_view self.now.source.now result ≡ (expr_view self.now.source.now condition, block_view self.now.source.now block) }
    {
        Branch { condition, block }
    }
}

impl<'a, F: Fn(Global, &[u8], &mut Cursor<'_>, usize) -> Result<Block, ParseFault>> Grammar<'a, F> {
    /// From `if`, which comes next, to `endif`.
    #[tactic(auto, unfolding(crate::specs::inside::ReadingFiles::selected))]
    pub(crate) fn selected(&self, tokens: &mut Cursor<'_>) -> Result<Stmt, ParseFault>
        requires { NestsBlocks self.now.depth (F.pre self.now.deeper) (F.post self.now.deeper) }
        ensures { Proceeds spec.selected stmt_view self.now.source.now self.now.depth tokens.old result tokens.new }
    {
        if self.depth == 0 {
            return Err(self.too_deep(tokens));
        }
        let start = self.from(tokens);
        let branches = self.branches(tokens)?;
        let otherwise = self.otherwised(tokens)?;
        self.expect(tokens, Kind::WordEndif)?;
        let span = self.since(tokens, start);
        Ok(Stmt::If {
            span,
            branches,
            otherwise,
        })
    }

    /// The branches of `if`, which comes next, and of each `elif`.
    #[tactic(auto, unfolding(crate::specs::inside::ReadingFiles::branches))]
    fn branches(&self, tokens: &mut Cursor<'_>) -> Result<Many<Branch>, ParseFault>
        requires { NestsBlocks self.now.depth (F.pre self.now.deeper) (F.post self.now.deeper) }
        ensures { Proceeds spec.branches branches_view self.now.source.now self.now.depth tokens.old result tokens.new }
    {
        let first = self.branched(tokens)?;
        let mut found = Many::new(self.alloc);
        found.push_sparing(first)?;
        // Each turn takes at least one token.
        for _turn in 0..self.left(tokens) {
            if !self.sees(tokens, Kind::WordElif) {
                return Ok(found);
            }
            let branch = self.branched(tokens)?;
            found.push_sparing(branch)?;
        }
        Ok(found)
    }

    /// A condition and its block, from `if` or `elif`, which comes next.
    #[tactic(auto, unfolding(crate::specs::inside::ReadingFiles::branched))]
    fn branched(&self, tokens: &mut Cursor<'_>) -> Result<Branch, ParseFault>
        requires { NestsBlocks self.now.depth (F.pre self.now.deeper) (F.post self.now.deeper) }
        ensures { Proceeds spec.branched branch_view self.now.source.now self.now.depth tokens.old result tokens.new }
    {
        self.take(tokens);
        let condition = self.inner_value(tokens)?;
        let (condition, block) = self.with_body(tokens, condition)?;
        Ok(self.branch(condition, block))
    }

    /// `else` and its block, if they come next.
    #[tactic(auto, unfolding(crate::specs::inside::ReadingFiles::otherwised))]
    fn otherwised(&self, tokens: &mut Cursor<'_>) -> Result<Option<Block>, ParseFault>
        requires { NestsBlocks self.now.depth (F.pre self.now.deeper) (F.post self.now.deeper) }
        ensures { Proceeds spec.otherwised otherwise_view self.now.source.now self.now.depth tokens.old result tokens.new }
    {
        if !self.eat(tokens, Kind::WordElse) {
            return Ok(None);
        }
        let block = self.bodied(tokens)?;
        Ok(Some(block))
    }
}
