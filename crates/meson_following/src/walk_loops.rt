//! The walk through loops.

ghost use Rattle.std.specs.Prelude.{◌≡◌, IfOk, OnOk};
ghost use Rattle.meson_lex.specs.declared.kinds.Span.{Span};
ghost use Rattle.meson_syntax.specs.Grammar.{block_words, expression_words};
ghost use Rattle.meson_syntax.specs.Tree as tree;
ghost use Rattle.meson_syntax.specs.View.{block_view, expr_view, names_at};
ghost use Rattle.meson_following.specs.CodeMakers.{known_view};
ghost use Rattle.meson_following.specs.Walks.{AreRead, MayWalk, Walks, asking, found_view, here, loop_flow, met_unless, statement_flow, turn_flow};

use crate::flows::Flow;
use crate::makers::{Known, Made, copy_known};
use crate::walk::{Trail, Walk};
use meson_lex::Span;
use meson_syntax::{Block, Expr};
use meson_variables::setters::one_of;
use std::alloc::AllocError;

impl<'t> Walk<'t> {
    /// The flow through a loop.
    #[cycle(evaluation)]
    pub(crate) fn in_iteration(
        &self,
        names: &[Span],
        items: &'t Expr,
        body: &'t Block,
        now: Known<'t>,
        trail: &mut Trail<'t>,
    ) -> Result<Flow<'t>, AllocError>
        requires walks { MayWalk self.now }
        requires items { AreRead (expression_words (expr_view self.now.source.now items.now)) }
        requires body { AreRead (block_words (block_view self.now.source.now body.now)) }
        ensures { (s : Span) → let source = self.now.source.now in
            let loop = tree.iteration s (names_at source names.now) (expr_view source items.now) (block_view source body.now) in
            IfOk result (λ f. Walks self.now trail.old trail.new f (statement_flow self.now (here self.now trail.old) loop (known_view now.entry))) }
    {
        let mut flow = self.in_expr(0, items, now, trail)?;
        let now = flow.now.take();
        let sets = one_of(self.source, names, self.question.variable);
        let next = self.in_loop(sets, body, now, trail)?;
        Flow::then(self.question.alloc, flow, next)
    }

    /// The flow through the turns of a loop. A first one, in which nothing is asked, says what is known before each.
    #[cycle(evaluation)]
    fn in_loop(
        &self,
        sets: bool,
        body: &'t Block,
        now: Known<'t>,
        trail: &mut Trail<'t>,
    ) -> Result<Flow<'t>, AllocError>
        requires walks { MayWalk self.now }
        requires good { AreRead (block_words (block_view self.now.source.now body.now)) }
        ensures { IfOk result (λ f. Walks self.now trail.old trail.new f
            (loop_flow self.now (here self.now trail.old) sets (block_view self.now.source.now body.now) (known_view now.entry))) }
    {
        let alloc = self.question.alloc;
        let first = copy_known(alloc, &now)?;
        let once = self.in_turn(true, sets, body, first, trail)?;
        let before = once.around(alloc, now)?;
        self.ask_in_turn(sets, body, &before, trail)?;
        Flow::looped(alloc, before, once)
    }

    /// Asks in a turn of a loop before which this is known, unless nothing is asked.
    #[cycle(evaluation)]
    fn ask_in_turn(
        &self,
        sets: bool,
        body: &'t Block,
        before: &Known<'t>,
        trail: &mut Trail<'t>,
    ) -> Result<(), AllocError>
        requires walks { MayWalk self.now }
        requires good { AreRead (block_words (block_view self.now.source.now body.now)) }
        ensures back { OnOk result (trail.new.path.items ≡ trail.old.path.items) }
        ensures found { OnOk result (found_view trail.new.found ≡ met_unless self.now.quiet self.now.question (found_view trail.old.found)
            (turn_flow self.now (here self.now trail.old) sets (block_view self.now.source.now body.now) (known_view before.now)).arrivals) }
    {
        if self.quiet {
            return Ok(());
        }
        let now = copy_known(self.question.alloc, before)?;
        self.in_turn(false, sets, body, now, trail)?;
        Ok(())
    }

    /// The flow through a turn of a loop, of which a name may be the variable.
    #[cycle(evaluation)]
    fn in_turn(
        &self,
        quiet: bool,
        sets: bool,
        body: &'t Block,
        now: Known<'t>,
        trail: &mut Trail<'t>,
    ) -> Result<Flow<'t>, AllocError>
        requires walks { MayWalk self.now }
        requires good { AreRead (block_words (block_view self.now.source.now body.now)) }
        ensures { IfOk result (λ f. Walks (asking self.now quiet) trail.old trail.new f
            (turn_flow self.now (here self.now trail.old) sets (block_view self.now.source.now body.now) (known_view now.entry))) }
    {
        let now = if sets {
            Some(Made::unknown(self.question.alloc))
        } else {
            now
        };
        let walk = Walk {
            question: self.question,
            file: self.file,
            name: self.name,
            source: self.source,
            tree: self.tree,
            left: self.left,
            quiet,
        };
        walk.in_child(1, body, now, trail)
    }
}
