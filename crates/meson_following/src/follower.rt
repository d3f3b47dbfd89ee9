//! A project whose variables are followed.

ghost use Rattle.std.specs.Prelude.{◌≡◌, ◌<◌, ◌^◌, IfOk, IfSome, length, option_map};
ghost use Rattle.meson_syntax.specs.Grammar.{expression_words};
ghost use Rattle.meson_calls.specs.Loading.{IsProject, loaded_from};
ghost use Rattle.meson_calls.specs.Project.{expression_at, place_at};
ghost use Rattle.meson_following.specs.CodeMakers.{known_view};
ghost use Rattle.meson_following.specs.CodeFollowing.{followed_project, value_view};
ghost use Rattle.meson_following.specs.Flows.{known_at};
ghost use Rattle.meson_following.specs.Reads.{reads_of_variable};
ghost use Rattle.meson_calls.specs.Strings.{AreGood};

use crate::makers::Known;
use crate::walk::{Aim, Found, Question};
use meson_calls::CallRef;
use meson_calls::call::BorrowedPlace;
use meson_splice::FileSet;
use meson_syntax::{Expr, Parsed};
use std::alloc::{AllocError, Global};

/// The files of a project and their trees.
#[derive(Clone, Copy)]
pub struct Follower<'t> {
    pub alloc: Global,
    pub files: &'t FileSet,
    pub trees: &'t [Parsed],
}

/// An expression, and the bytes of its file.
#[derive(Clone, Copy)]
pub struct Value<'t> {
    pub source: &'t [u8],
    pub expr: &'t Expr,
}

impl<'t> Follower<'t> {
    /// What is known of a variable where the expression at a place is evaluated, in whichever of the ways it is reached.
    ///
    /// # Errors
    /// Out of memory.
    pub fn known<'q>(
        &'q self,
        variable: &'q [u8],
        place: BorrowedPlace<'q>,
    ) -> Result<Known<'q>, AllocError>
        requires { IsProject (loaded_from self.now.files.now self.now.trees.now) }
        ensures { IfOk result (λ k. known_view k ≡ known_at (followed_project self.now) variable.now (place_at place.entry)) }
    {
        let question = Question {
            alloc: self.alloc,
            files: self.files,
            trees: self.trees,
            variable,
            aim: Aim::Place(place),
        };
        let Found { known, reads: _ } = question.answer()?;
        Ok(known)
    }

    /// The places at which a variable is read when it may hold the value of one of these makers, in the order of evaluation. Where as many makers are known as
    /// are kept apart, it may hold the value of any.
    ///
    /// # Errors
    /// Out of memory.
    pub fn reads_of_variable(
        &self,
        variable: &[u8],
        makers: &[CallRef],
    ) -> Result<Vec<CallRef>, AllocError>
        requires { IsProject (loaded_from self.now.files.now self.now.trees.now) }
        ensures { IfOk result (λ reads. reads.items ≡ reads_of_variable (followed_project self.now) makers.now variable.now) }
    {
        let question = Question {
            alloc: self.alloc,
            files: self.files,
            trees: self.trees,
            variable,
            aim: Aim::Makers(makers),
        };
        let Found { known: _, reads } = question.answer()?;
        Ok(reads)
    }

    /// The expression at a place; `None` if nothing is there.
    pub fn value_at(&self, place: &CallRef) -> Option<Value<'t>>
        requires { IsProject (loaded_from self.now.files.now self.now.trees.now) }
        ensures value { option_map value_view result ≡ expression_at (followed_project self.now) place.now }
        ensures good { IfSome result (λ v. AreGood (expression_words (value_view v))) }
        ensures fits { IfSome result (λ v. length (expression_words (value_view v)) < 2 ^ 64) }
    {
        if place.file >= self.trees.len() {
            return None;
        }
        match self.trees[place.file].expr_at(&place.path) {
            Some(expr) => Some(Value {
                source: self.files.bytes(place.file),
                expr,
            }),
            None => None,
        }
    }
}
