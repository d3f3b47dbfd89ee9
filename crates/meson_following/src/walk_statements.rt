//! The walk through the statements of the files of a project, in the order of evaluation.

ghost use Rattle.std.specs.Prelude.{◌≡◌, ◌*◌, ◌<◌, ◌^◌, IfOk};
ghost use Rattle.meson_lex.specs.declared.kinds.Kind.TheVariants.{WordIf};
ghost use Rattle.meson_syntax.specs.Grammar.{block_words, branches_words, expression_words, otherwise_words, statement_words};
ghost use Rattle.meson_syntax.specs.Tree.{branches_of};
ghost use Rattle.meson_syntax.specs.Tree as tree;
ghost use Rattle.meson_following.specs.declared.walk.Trail.{Trail};
ghost use Rattle.meson_lex.specs.declared.kinds.Span.{Span};
ghost use Rattle.meson_syntax.specs.View.{block_view, branch_view, branches_view, expr_view, stmt_view};
ghost use Rattle.meson_calls.specs.Loading.{IsProject, loaded_from};
ghost use Rattle.meson_calls.specs.Project.{child};
ghost use Rattle.meson_calls.specs.inside.Walks.{else_view};
ghost use Rattle.meson_following.specs.CodeMakers.{known_view};
ghost use Rattle.meson_following.specs.Flows.{Choice, going_on};
ghost use Rattle.meson_following.specs.Walks.{AreRead, Chooses, FlowsAs, MayWalk, Walks, answer, block_flow, branch_chosen, each_flow, effect_flow, entered_flow, evaluated_flow, file_flow, found_view, here, selection_flow, statement_flow};

use crate::effects::Effect;
use crate::flows::{Chosen, Flow};
use crate::makers::{Known, Made, copy_known, touch};
use crate::passing::WordSearches;
use crate::walk::{Found, Question, Trail, Walk};
use meson_lex::Span;
use meson_syntax::{Block, Branch, Expr, Stmt};
use std::alloc::AllocError;

impl<'t> Question<'t> {
    /// What is found in the project, in whichever of the ways its expressions are reached.
    ///
    /// # Errors
    /// Out of memory.
    pub(crate) fn answer(&self) -> Result<Found<'t>, AllocError>
        requires { IsProject (loaded_from self.now.files.now self.now.trees.now) }
        ensures { IfOk result (λ f. found_view f ≡ answer self.now) }
    {
        let mut found = Found::nothing(self.alloc);
        let Some(root) = self.files.find("meson.build") else {
            return Ok(found);
        };
        self.in_file(self.trees.len(), false, root, None, &mut found)?;
        Ok(found)
    }

    /// The flow through the file of this number, where this many files may be inside one another. `found` is what is found so far.
    #[cycle(evaluation)]
    fn in_file(
        &self,
        left: usize,
        quiet: bool,
        file: usize,
        now: Known<'t>,
        found: &mut Found<'t>,
    ) -> Result<Flow<'t>, AllocError>
        requires { IsProject (loaded_from self.now.files.now self.now.trees.now) }
        ensures { IfOk result (λ f. FlowsAs quiet self.now f (found_view found.old) (found_view found.new)
            (file_flow self.now left file (known_view now.entry))) }
    {
        if left == 0 || file >= self.trees.len() {
            return Ok(Flow::going_on(touch(self.alloc, now)?));
        }
        let tree = &self.trees[file];
        let walk = Walk {
            question: *self,
            file,
            name: self.files.name(file),
            source: self.files.bytes(file),
            tree,
            left: left - 1,
            quiet,
        };
        let mut trail = Trail {
            path: Vec::new(self.alloc),
            found: found.take(self.alloc),
        };
        let flow = walk.in_tree(now, &mut trail)?;
        *found = trail.found.take(self.alloc);
        Ok(flow)
    }
}

impl<'t> Walk<'t> {
    /// The flow through the file. Statements in which nothing matters to the variable are passed over.
    #[cycle(evaluation)]
    fn in_tree(&self, now: Known<'t>, trail: &mut Trail<'t>) -> Result<Flow<'t>, AllocError>
        requires walks { MayWalk self.now }
        requires good { AreRead (block_words (block_view self.now.source.now self.now.tree.now.block)) }
        ensures { IfOk result (λ f. Walks self.now trail.old trail.new f
            (block_flow self.now (here self.now trail.old) (block_view self.now.source.now self.now.tree.now.block) (known_view now.entry))) }
    {
        let stmts = self.tree.block.statements.get();
        let mut searches = WordSearches::new(self.question.variable);
        let mut flow = Flow::going_on(now);
        for i in 0..stmts.len() {
            let path = &mut trail.path;
            if self.may_pass(&mut searches, i, &stmts[i], &flow.now, path)? {
                continue;
            }
            let now = flow.now.take();
            let next = self.in_nth(i, &stmts[i], now, trail)?;
            flow = Flow::then(self.question.alloc, flow, next)?;
        }
        Ok(flow)
    }

    /// The flow through the block at the path.
    #[cycle(evaluation)]
    fn in_block(
        &self,
        block: &'t Block,
        now: Known<'t>,
        trail: &mut Trail<'t>,
    ) -> Result<Flow<'t>, AllocError>
        requires walks { MayWalk self.now }
        requires good { AreRead (block_words (block_view self.now.source.now block.now)) }
        ensures { IfOk result (λ f. Walks self.now trail.old trail.new f
            (block_flow self.now (here self.now trail.old) (block_view self.now.source.now block.now) (known_view now.entry))) }
    {
        let stmts = block.statements.get();
        let mut flow = Flow::going_on(now);
        for i in 0..stmts.len() {
            let now = flow.now.take();
            let next = self.in_nth(i, &stmts[i], now, trail)?;
            flow = Flow::then(self.question.alloc, flow, next)?;
        }
        Ok(flow)
    }

    /// The flow through the block that is the n-th child.
    #[cycle(evaluation)]
    pub(crate) fn in_child(
        &self,
        number: usize,
        block: &'t Block,
        now: Known<'t>,
        trail: &mut Trail<'t>,
    ) -> Result<Flow<'t>, AllocError>
        requires walks { MayWalk self.now }
        requires good { AreRead (block_words (block_view self.now.source.now block.now)) }
        ensures { IfOk result (λ f. Walks self.now trail.old trail.new f
            (block_flow self.now (child (here self.now trail.old) number) (block_view self.now.source.now block.now) (known_view now.entry))) }
    {
        trail.path.push(number)?;
        let flow = self.in_block(block, now, trail)?;
        trail.path.pop();
        Ok(flow)
    }

    /// The flow through the statement that is the n-th child.
    #[cycle(evaluation)]
    fn in_nth(
        &self,
        number: usize,
        stmt: &'t Stmt,
        now: Known<'t>,
        trail: &mut Trail<'t>,
    ) -> Result<Flow<'t>, AllocError>
        requires walks { MayWalk self.now }
        requires good { AreRead (statement_words (stmt_view self.now.source.now stmt.now)) }
        ensures { IfOk result (λ f. Walks self.now trail.old trail.new f
            (statement_flow self.now (child (here self.now trail.old) number) (stmt_view self.now.source.now stmt.now) (known_view now.entry))) }
    {
        trail.path.push(number)?;
        let flow = self.in_stmt(stmt, now, trail)?;
        trail.path.pop();
        Ok(flow)
    }

    /// The flow through the statement at the path.
    #[cycle(evaluation)]
    fn in_stmt(
        &self,
        stmt: &'t Stmt,
        now: Known<'t>,
        trail: &mut Trail<'t>,
    ) -> Result<Flow<'t>, AllocError>
        requires walks { MayWalk self.now }
        requires good { AreRead (statement_words (stmt_view self.now.source.now stmt.now)) }
        ensures { IfOk result (λ f. Walks self.now trail.old trail.new f
            (statement_flow self.now (here self.now trail.old) (stmt_view self.now.source.now stmt.now) (known_view now.entry))) }
    {
        match stmt {
            Stmt::Expr(value) => self.in_evaluated(value, now, trail),
            Stmt::Assign {
                name,
                assignment,
                value,
                ..
            } => self.in_assignment(*name, *assignment, value, now, trail),
            Stmt::If {
                branches,
                otherwise,
                ..
            } => self.in_selection(branches.get(), otherwise, now, trail),
            Stmt::Foreach {
                names,
                items,
                body,
                ..
            } => self.in_iteration(names.get(), items, body, now, trail),
            Stmt::Break(_) => Ok(Flow::left_turn(now)),
            Stmt::Continue(_) => Ok(Flow::left_turn(now)),
        }
    }

    /// The flow through an expression that is a statement.
    #[cycle(evaluation)]
    fn in_evaluated(
        &self,
        value: &'t Expr,
        now: Known<'t>,
        trail: &mut Trail<'t>,
    ) -> Result<Flow<'t>, AllocError>
        requires walks { MayWalk self.now }
        requires good { AreRead (expression_words (expr_view self.now.source.now value.now)) }
        ensures { IfOk result (λ f. Walks self.now trail.old trail.new f
            (evaluated_flow self.now (child (here self.now trail.old) 0) (expr_view self.now.source.now value.now) (known_view now.entry))) }
    {
        match value {
            Expr::Call {
                name,
                arguments,
                ..
            } => {
                let mut flow = self.in_arguments(value, arguments, now, trail)?;
                let effect = self.effect(trail.path.as_slice(), *name, arguments)?;
                let now = flow.now.take();
                let next = self.after_effect(effect, now, trail)?;
                Flow::then(self.question.alloc, flow, next)
            }
            _ => self.in_expr(0, value, now, trail),
        }
    }

    /// The flow through what a call does.
    #[cycle(evaluation)]
    fn after_effect(
        &self,
        effect: Effect,
        now: Known<'t>,
        trail: &mut Trail<'t>,
    ) -> Result<Flow<'t>, AllocError>
        requires { MayWalk self.now }
        ensures { IfOk result (λ f. Walks self.now trail.old trail.new f (effect_flow self.now effect (known_view now.entry))) }
    {
        let alloc = self.question.alloc;
        match effect {
            Effect::Nothing => Ok(Flow::going_on(now)),
            Effect::Sets => Ok(Flow::going_on(Some(Made::unknown(alloc)))),
            Effect::MaySet => Ok(Flow::going_on(touch(alloc, now)?)),
            Effect::Unsets => Ok(Flow::going_on(None)),
            Effect::Stops => Ok(Flow::going_on(None)),
            Effect::Leaves => Ok(Flow::left_file(now)),
            Effect::Enters { file, condition } => self.in_entered(file, condition, now, trail),
            Effect::MayEnter(files) => self.in_each(files.get(), touch(alloc, now)?, trail),
        }
    }

    /// The flow through files that may be entered, one after another.
    #[cycle(evaluation)]
    fn in_each(
        &self,
        files: &[usize],
        now: Known<'t>,
        trail: &mut Trail<'t>,
    ) -> Result<Flow<'t>, AllocError>
        requires { MayWalk self.now }
        ensures { IfOk result (λ f. Walks self.now trail.old trail.new f (each_flow self.now files.now (going_on (known_view now.entry)))) }
    {
        let mut flow = Flow::going_on(now);
        for i in 0..files.len() {
            let now = flow.now.take();
            let next = self.in_entered(files[i], true, now, trail)?;
            flow = Flow::then(self.question.alloc, flow, next)?;
        }
        Ok(flow)
    }

    /// The flow through a file, which may be skipped under a condition.
    #[cycle(evaluation)]
    fn in_entered(
        &self,
        file: usize,
        condition: bool,
        now: Known<'t>,
        trail: &mut Trail<'t>,
    ) -> Result<Flow<'t>, AllocError>
        requires { MayWalk self.now }
        ensures { IfOk result (λ f. Walks self.now trail.old trail.new f (entered_flow self.now file condition (known_view now.entry))) }
    {
        let alloc = self.question.alloc;
        let skipped = if condition {
            copy_known(alloc, &now)?
        } else {
            None
        };
        let flow = self
            .question
            .in_file(self.left, self.quiet, file, now, &mut trail.found)?;
        Flow::entered(alloc, skipped, flow)
    }

    /// The flow through conditions, the blocks that they lead to, and the block after `else`.
    #[cycle(evaluation)]
    fn in_selection(
        &self,
        branches: &'t [Branch],
        otherwise: &'t Option<Block>,
        now: Known<'t>,
        trail: &mut Trail<'t>,
    ) -> Result<Flow<'t>, AllocError>
        requires walks { MayWalk self.now }
        requires branches { AreRead (branches_words (branches_of (branches_view self.now.source.now branches.now)) WordIf) }
        requires otherwise { AreRead (otherwise_words (else_view self.now.source.now otherwise.now)) }
        ensures { IfOk result (λ f. Walks self.now trail.old trail.new f
            (selection_flow self.now (here self.now trail.old) (branches_of (branches_view self.now.source.now branches.now))
            (else_view self.now.source.now otherwise.now) (known_view now.entry))) }
    {
        let mut chosen = Chosen {
            taken: Flow::going_on(None),
            left: now,
        };
        for i in 0..branches.len() {
            chosen = self.in_branch(i, &branches[i], chosen, trail)?;
        }
        let Chosen { taken, left } = chosen;
        let last = match otherwise {
            Some(block) => self.in_child(2 * branches.len(), block, left, trail)?,
            None => Flow::going_on(left),
        };
        Flow::either(self.question.alloc, taken, last)
    }

    /// The flow through a further condition and the block that it leads to.
    #[cycle(evaluation)]
    fn in_branch(
        &self,
        number: usize,
        branch: &'t Branch,
        chosen: Chosen<'t>,
        trail: &mut Trail<'t>,
    ) -> Result<Chosen<'t>, AllocError>
        requires walks { MayWalk self.now }
        requires small { number < 2 ^ 63 }
        requires condition { AreRead (expression_words (branch_view self.now.source.now branch.now).0) }
        requires block { AreRead (block_words (branch_view self.now.source.now branch.now).1) }
        ensures { (start : Trail) (before : Choice Span) → Chooses self.now start trail.old chosen.entry before
            → IfOk result (λ c. Chooses self.now start trail.new c
            (branch_chosen self.now (here self.now trail.old) (2 * number) (branch_view self.now.source.now branch.now) before)) }
    {
        let alloc = self.question.alloc;
        let Chosen { taken, left } = chosen;
        let condition = self.in_expr(2 * number, &branch.condition, left, trail)?;
        let chosen = Chosen::with_condition(alloc, taken, condition)?;
        let now = copy_known(alloc, &chosen.left)?;
        let flow = self.in_child(2 * number + 1, &branch.block, now, trail)?;
        chosen.with_block(alloc, flow)
    }
}
