//! What the sources of a target hold, where variables are followed.

ghost use Rattle.std.specs.Prelude.{◌≡◌, IfOk, map, option_map};
ghost use Rattle.meson_syntax.specs.View.{list_view};
ghost use Rattle.meson_calls.specs.CallPlaces.{call_at};
ghost use Rattle.meson_calls.specs.ChosenNotes.{Source, placed_call};
ghost use Rattle.meson_calls.specs.GoodLists.{GoodArgs, GoodListing};
ghost use Rattle.meson_calls.specs.Loading.{IsProject, loaded_from};
ghost use Rattle.meson_following.specs.CodeArguments.{call_followed};
ghost use Rattle.meson_following.specs.CodeFollowing.{followed_project, following_view, mark_view};
ghost use Rattle.meson_following.specs.Following.{follow_call, follow_marks};

use crate::follower::Follower;
use crate::marks::{Following, Mark, Route};
use crate::site::Site;
use meson_calls::CallRef;
use meson_calls::arguments::{behind_first, count_named};
use meson_syntax::{Arg, Expr, List};
use meson_variables::call_sources::MAX_FOLLOWED;
use std::alloc::AllocError;

impl<'t> Follower<'t> {
    /// What is met in the arguments of the call at a place: in those without a name after the first, and in `sources:`.
    ///
    /// # Errors
    /// Out of memory.
    pub fn meet_sources(
        &self,
        call: &CallRef,
        source: &'t [u8],
        args: &[Arg],
    ) -> Result<Following, AllocError>
        requires project { IsProject (loaded_from self.now.files.now self.now.trees.now) }
        requires good { GoodArgs source.now args.now }
        ensures { IfOk result (λ f. following_view f ≡ call_followed (followed_project self.now) call.now source.now args.now) }
    {
        let through = Vec::new(self.alloc);
        let site = Site {
            follower: *self,
            left: MAX_FOLLOWED,
            file: call.file,
            source,
            route: Route {
                sure: true,
                files: None,
                through: through.as_slice(),
            },
        };
        let mut path = Vec::from_slice(self.alloc, call.path.steps.get())?;
        let mut found = Following::new(self.alloc);
        site.meet_arguments(None, behind_first(args), args, &mut path, &mut found)?;
        site.meet_arguments(Some(b"sources".as_slice()), 0, args, &mut path, &mut found)?;
        Ok(found)
    }

    /// What is met in the sources of a target whose call has these arguments, and what was followed.
    ///
    /// # Errors
    /// Out of memory.
    pub fn follow_call(
        &self,
        call: &CallRef,
        source: &'t [u8],
        arguments: &List,
    ) -> Result<Following, AllocError>
        requires project { IsProject (loaded_from self.now.files.now self.now.trees.now) }
        requires good { GoodListing (list_view source.now arguments.now) }
        ensures marks { (function : Source) → IfOk result (λ f.
            map mark_view f.marks.items ≡ follow_marks (followed_project self.now) (placed_call call.now function source.now arguments.now)) }
        ensures followed { (function : Source) → IfOk result (λ f.
            f.followed.items ≡ (follow_call (followed_project self.now) (placed_call call.now function source.now arguments.now)).followed) }
    {
        let args = arguments.items.get();
        let mut found = self.meet_sources(call, source, args)?;
        if count_named(source, args, b"kwargs".as_slice()) > 0 {
            found.miss()?;
        }
        Ok(found)
    }

    /// What is met in the sources of a target whose call has these arguments.
    ///
    /// # Errors
    /// Out of memory.
    pub fn marks_of(
        &self,
        call: &CallRef,
        source: &'t [u8],
        arguments: &List,
    ) -> Result<Vec<Mark>, AllocError>
        requires project { IsProject (loaded_from self.now.files.now self.now.trees.now) }
        requires good { GoodListing (list_view source.now arguments.now) }
        ensures { (function : Source) → IfOk result (λ ms.
            map mark_view ms.items ≡ follow_marks (followed_project self.now) (placed_call call.now function source.now arguments.now)) }
    {
        let Following { marks, followed: _ } = self.follow_call(call, source, arguments)?;
        Ok(marks)
    }

    /// What is met in the sources of the target that the call at a place makes; `None` where no call stands there.
    ///
    /// # Errors
    /// Out of memory.
    pub fn marks_at(&self, call: &CallRef) -> Result<Option<Vec<Mark>>, AllocError>
        requires { IsProject (loaded_from self.now.files.now self.now.trees.now) }
        ensures { IfOk result (λ found. option_map (λ ms. map mark_view ms.items) found
            ≡ option_map (follow_marks (followed_project self.now)) (call_at (followed_project self.now) call.now)) }
    {
        let Some(value) = self.value_at(call) else {
            return Ok(None);
        };
        match value.expr {
            Expr::Call { arguments, .. } => {
                let marks = self.marks_of(call, value.source, arguments)?;
                Ok(Some(marks))
            }
            _ => Ok(None),
        }
    }
}
