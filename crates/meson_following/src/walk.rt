//! The walk through a project in the order of evaluation, for a question about one variable.

ghost use Rattle.std.specs.Prelude.{◌≡◌, ◌∷◌, ◌++◌, [], IfOk, OnOk, bytes_eq, map};
ghost use Rattle.std.specs.List.{list_any};
ghost use Rattle.meson_lex.specs.declared.kinds.Span.{Span};
ghost use Rattle.meson_syntax.specs.Grammar.{expression_words, listing_words};
ghost use Rattle.meson_syntax.specs.Tree as tree;
ghost use Rattle.meson_syntax.specs.View.{expr_view, list_view, name_at, text_at};
ghost use Rattle.meson_syntax.specs.declared.operator.Bracket.TheVariants as bracket;
ghost use Rattle.meson_calls.specs.ChosenNotes.{call_with};
ghost use Rattle.meson_calls.specs.Project.{child, place, place_at, placed};
ghost use Rattle.meson_calls.specs.GoodLists.{GoodListing};
ghost use Rattle.meson_calls.specs.Strings.{AreGood};
ghost use Rattle.meson_following.specs.declared.walk.Trail.{Trail};
ghost use Rattle.meson_following.specs.Walks.{AreRead, MayWalk, Walks, arguments_flow, call_effect};
ghost use Rattle.meson_following.specs.Walks.{expression_flow, found_view, here, met_unless, nothing_found, reads_seen, statement_flow};
ghost use Rattle.meson_following.specs.CodeMakers.{known_view, maker_view};
ghost use Rattle.meson_following.specs.Effects.{by_fit};
ghost use Rattle.meson_following.specs.Flows.{assigned_if, is_in, joined_if, maker};
ghost use Rattle.meson_following.specs.Following.{one_of_places};
ghost use Rattle.meson_following.specs.Reads.{has_one_of};

use crate::effects::{Deed, Effect, Search};
use crate::flows::Flow;
use crate::makers::{Known, Maker, assign, copy_known, is_one_of, join};
use crate::names::{Fit, fit_of};
use crate::reads::Reader;
use meson_calls::CallRef;
use meson_calls::call::BorrowedPlace;
use meson_calls::place::place_of;
use meson_calls::roles::text_of;
use meson_lex::Span;
use meson_splice::FileSet;
use meson_syntax::{Assignment, Expr, List, Parsed};
use std::alloc::{AllocError, Global};
use std::mem;

/// What is asked of a variable.
#[derive(Clone, Copy)]
pub(crate) enum Aim<'t> {
    /// What is known of it at a place.
    Place(BorrowedPlace<'t>),
    /// Where it is read when it may hold the value of one of these makers.
    Makers(&'t [CallRef]),
}

/// What is known of a variable at a place, and the places at which it is read.
#[derive(Drop)]
pub(crate) struct Found<'t> {
    pub known: Known<'t>,
    pub reads: Vec<CallRef>,
}

/// A variable of a project, and what is asked of it.
#[derive(Clone, Copy)]
pub(crate) struct Question<'t> {
    pub alloc: Global,
    pub files: &'t FileSet,
    pub trees: &'t [Parsed],
    pub variable: &'t [u8],
    pub aim: Aim<'t>,
}

/// A walk through a file, in which this number of files may still be inside one another. A quiet one finds nothing.
#[derive(Clone, Copy)]
pub(crate) struct Walk<'t> {
    pub question: Question<'t>,
    pub file: usize,
    pub name: &'t str,
    pub source: &'t [u8],
    pub tree: &'t Parsed,
    pub left: usize,
    pub quiet: bool,
}

/// The path of what is walked through, and what is found so far.
#[derive(Drop)]
pub(crate) struct Trail<'t> {
    pub path: Vec<usize>,
    pub found: Found<'t>,
}

impl<'t> Found<'t> {
    /// Nothing.
    pub(crate) fn nothing(alloc: Global) -> Found<'t>
        ensures { found_view result ≡ nothing_found }
    {
        Found {
            known: None,
            reads: Vec::new(alloc),
        }
    }

    /// Takes what is found, and leaves nothing.
    pub(crate) fn take(&mut self, alloc: Global) -> Found<'t>
        ensures { found_view result ≡ found_view self.old }
    {
        Found {
            known: self.known.take(),
            reads: mem::replace(&mut self.reads, Vec::new(alloc)),
        }
    }
}

/// What an effect is if it is certain which variable is meant.
fn by_fit(surely: Effect, fit: Fit) -> Effect
    ensures { result ≡ by_fit surely fit }
{
    match fit {
        Fit::Not => Effect::Nothing,
        Fit::Perhaps => Effect::MaySet,
        Fit::Surely => surely,
    }
}

/// Whether the expression at a path of a file is the one at the place or around it.
pub(crate) fn is_in(wanted: BorrowedPlace<'_>, file: usize, path: &[usize]) -> bool
    ensures { result ≡ is_in (place_at wanted.entry) (place file path.now) }
{
    wanted.file == file && wanted.path.starts_with(path)
}

/// Whether one of some makers has its value at one of these places.
fn is_maker_at(places: &[CallRef], makers: &[Maker<'_>]) -> bool
    ensures { result ≡ list_any (λ m. one_of_places places.now m.value.place) (map maker_view makers.now) }
{
    for maker in makers {
        if is_one_of(places, &maker.place) {
            return true;
        }
    }
    false
}

/// Whether a variable of which this is known may hold the value at one of these places.
fn has_one_of(places: &[CallRef], known: &Known<'_>) -> bool
    ensures { result ≡ has_one_of places.now (known_view known.now) }
{
    match known {
        Some(made) => made.is_full() || is_maker_at(places, &made.makers),
        None => false,
    }
}

impl<'t> Walk<'t> {
    /// What a call does that is a statement, at the path of this statement.
    pub(crate) fn effect(
        &self,
        path: &[usize],
        function: Span,
        arguments: &List,
    ) -> Result<Effect, AllocError>
        requires walks { MayWalk self.now }
        requires good { AreGood (listing_words (list_view self.now.source.now arguments.now) bracket.Round) }
        ensures { IfOk result (λ e. e ≡ call_effect self.now (placed (child (place self.now.file path.now) 0)
            (call_with (text_at self.now.source.now function) (list_view self.now.source.now arguments.now)))) }
    {
        let question = self.question;
        let function = text_of(self.source, function);
        if function == b"set_variable".as_slice() {
            let found = fit_of(question.alloc, question.variable, self.source, arguments)?;
            return Ok(by_fit(Effect::Sets, found));
        }
        if function == b"unset_variable".as_slice() {
            let found = fit_of(question.alloc, question.variable, self.source, arguments)?;
            return Ok(by_fit(Effect::Unsets, found));
        }
        if function == b"error".as_slice() {
            return Ok(Effect::Stops);
        }
        if function == b"subdir_done".as_slice() {
            return Ok(Effect::Leaves);
        }
        if function == b"subdir".as_slice() {
            return self.entering(path, arguments);
        }
        Ok(Effect::Nothing)
    }

    /// A search of expressions of the file for calls.
    fn search(&self, deed: Deed) -> Search<'t>
        ensures deed { result.deed ≡ deed }
        ensures variable { result.variable.now ≡ self.now.question.variable.now }
        ensures source { result.source.now ≡ self.now.source.now }
    {
        Search {
            alloc: self.question.alloc,
            deed,
            variable: self.question.variable,
            source: self.source,
        }
    }

    /// Comes to the expression that is the n-th child: if the place is in it, what is known here is known there.
    fn look_in(
        &self,
        place: BorrowedPlace<'_>,
        number: usize,
        now: &Known<'t>,
        trail: &mut Trail<'t>,
    ) -> Result<(), AllocError>
        ensures back { OnOk result (trail.new.path.items ≡ trail.old.path.items) }
        ensures known { OnOk result (known_view trail.new.found.known
            ≡ joined_if (is_in (place_at place.entry) (child (here self.now trail.old) number)) (known_view trail.old.found.known) (known_view now.now)) }
        ensures reads { OnOk result (trail.new.found.reads.items ≡ trail.old.found.reads.items) }
    {
        trail.path.push(number)?;
        if is_in(place, self.file, trail.path.as_slice()) {
            let known = copy_known(self.question.alloc, now)?;
            trail.found.known = join(self.question.alloc, trail.found.known.take(), known)?;
        }
        trail.path.pop();
        Ok(())
    }

    /// Comes to the expression that is the n-th child: if the variable may hold the value of one of these makers here, its reads in it are found.
    fn read_in(
        &self,
        makers: &[CallRef],
        number: usize,
        expr: &Expr,
        now: &Known<'t>,
        trail: &mut Trail<'t>,
    ) -> Result<(), AllocError>
        requires { AreRead (expression_words (expr_view self.now.source.now expr.now)) }
        ensures back { OnOk result (trail.new.path.items ≡ trail.old.path.items) }
        ensures known { OnOk result (known_view trail.new.found.known ≡ known_view trail.old.found.known) }
        ensures reads { OnOk result (trail.new.found.reads.items ≡ trail.old.found.reads.items ++ reads_seen self.now.question.variable.now makers.now
            (record { at_expression = placed (child (here self.now trail.old) number) (expr_view self.now.source.now expr.now); known = known_view now.now })) }
    {
        if !has_one_of(makers, now) {
            return Ok(());
        }
        let reader = Reader {
            alloc: self.question.alloc,
            variable: self.question.variable,
            file: self.file,
            source: self.source,
        };
        reader.in_child(number, expr, &mut trail.path, &mut trail.found.reads)
    }

    /// Comes to the expression that is the n-th child.
    fn arrive(
        &self,
        number: usize,
        expr: &Expr,
        now: &Known<'t>,
        trail: &mut Trail<'t>,
    ) -> Result<(), AllocError>
        requires { AreRead (expression_words (expr_view self.now.source.now expr.now)) }
        ensures back { OnOk result (trail.new.path.items ≡ trail.old.path.items) }
        ensures found { OnOk result (found_view trail.new.found ≡ met_unless self.now.quiet self.now.question (found_view trail.old.found)
            (record { at_expression = placed (child (here self.now trail.old) number) (expr_view self.now.source.now expr.now); known = known_view now.now } ∷ [])) }
    {
        if self.quiet {
            return Ok(());
        }
        match self.question.aim {
            Aim::Place(place) => self.look_in(place, number, now, trail),
            Aim::Makers(makers) => self.read_in(makers, number, expr, now, trail),
        }
    }

    /// The flow through the expression that is the n-th child.
    pub(crate) fn in_expr(
        &self,
        number: usize,
        expr: &'t Expr,
        now: Known<'t>,
        trail: &mut Trail<'t>,
    ) -> Result<Flow<'t>, AllocError>
        requires good { AreRead (expression_words (expr_view self.now.source.now expr.now)) }
        ensures { IfOk result (λ f. Walks self.now trail.old trail.new f (expression_flow self.now (child (here self.now trail.old) number) (expr_view self.now.source.now expr.now) (known_view now.entry))) }
    {
        let sets = self.search(Deed::Set).in_expr(expr)?;
        let leaves = self.search(Deed::Leave).in_expr(expr)?;
        let flow = Flow::passed(self.question.alloc, sets, leaves, now)?;
        self.arrive(number, expr, &flow.now, trail)?;
        Ok(flow)
    }

    /// The flow through the arguments of a call that is a statement.
    pub(crate) fn in_arguments(
        &self,
        call: &'t Expr,
        arguments: &'t List,
        now: Known<'t>,
        trail: &mut Trail<'t>,
    ) -> Result<Flow<'t>, AllocError>
        requires read { AreRead (expression_words (expr_view self.now.source.now call.now)) }
        requires good { GoodListing (list_view self.now.source.now arguments.now) }
        ensures { IfOk result (λ f. Walks self.now trail.old trail.new f (arguments_flow self.now (child (here self.now trail.old) 0)
            (expr_view self.now.source.now call.now) (list_view self.now.source.now arguments.now) (known_view now.entry))) }
    {
        let sets = self.search(Deed::Set).in_list(arguments)?;
        let leaves = self.search(Deed::Leave).in_list(arguments)?;
        let flow = Flow::passed(self.question.alloc, sets, leaves, now)?;
        self.arrive(0, call, &flow.now, trail)?;
        Ok(flow)
    }

    /// What is known after an assignment with this value.
    fn assigned(
        &self,
        name: Span,
        assignment: Assignment,
        value: &'t Expr,
        now: Known<'t>,
        path: &[usize],
    ) -> Result<Known<'t>, AllocError>
        ensures { IfOk result (λ k. known_view k ≡ assigned_if (bytes_eq (text_at self.now.source.now name) self.now.question.variable.now)
            (maker (place self.now.file path.now) assignment (expr_view self.now.source.now value.now)) (known_view now.entry)) }
    {
        if text_of(self.source, name) != self.question.variable {
            return Ok(now);
        }
        let alloc = self.question.alloc;
        let mut steps = Vec::from_slice(alloc, path)?;
        steps.push(0)?;
        let maker = Maker {
            place: place_of(alloc, self.file, steps.as_slice())?,
            source: self.source,
            value,
            adds: matches!(assignment, Assignment::Add),
            sure: true,
        };
        assign(alloc, maker, now)
    }

    /// The flow through an assignment.
    pub(crate) fn in_assignment(
        &self,
        name: Span,
        assignment: Assignment,
        value: &'t Expr,
        now: Known<'t>,
        trail: &mut Trail<'t>,
    ) -> Result<Flow<'t>, AllocError>
        requires good { AreRead (expression_words (expr_view self.now.source.now value.now)) }
        ensures { (s : Span) → IfOk result (λ f. Walks self.now trail.old trail.new f (statement_flow self.now (here self.now trail.old)
            (tree.assign s (name_at self.now.source.now name) assignment (expr_view self.now.source.now value.now)) (known_view now.entry))) }
    {
        let mut flow = self.in_expr(0, value, now, trail)?;
        let now = flow.now.take();
        let now = self.assigned(name, assignment, value, now, trail.path.as_slice())?;
        Flow::then(self.question.alloc, flow, Flow::going_on(now))
    }
}
