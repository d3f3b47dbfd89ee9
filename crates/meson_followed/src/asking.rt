//! Lists that are read for one target alone.

ghost use Rattle.std.specs.Prelude.{◌≡◌, IfOk, OnOk, map, true};
ghost use Rattle.meson_calls.specs.Loading.{IsProject, loaded_from};
ghost use Rattle.meson_followed.specs.CodeEdits.{IsAnswer, asked, home_view, homes_view};
ghost use Rattle.meson_followed.specs.Homes.{any_home, best_home, by_maker, first_home};

use crate::homes::{Home, Homes};
use meson_calls::CallRef;
use meson_calls::place::copy_place;
use meson_following::Follower;
use meson_following::makers::is_same_place;
use meson_sharing::is_closed_by;
use meson_steps::source_change::SharedLists;
use std::alloc::{AllocError, Global};

/// The question whether a list is read for the sources of one call alone, which follows these values and has these ways; or used, if uses are allowed.
#[derive(Clone, Copy)]
pub(crate) struct Asking<'t> {
    pub follower: Follower<'t>,
    pub with_uses: bool,
    pub followed: &'t [CallRef],
    pub ways: &'t [CallRef],
}

/// A maker, and whether what is in its value is read so.
#[derive(Drop)]
pub(crate) struct Answer {
    pub maker: CallRef,
    pub is: bool,
}

impl Asking<'_> {
    /// Whether what is in the value of a maker is read so. The last answer is kept.
    fn ask_of(&self, maker: &CallRef, last: &mut Option<Answer>) -> Result<bool, AllocError>
        requires project { IsProject (loaded_from self.now.follower.files.now self.now.follower.trees.now) }
        requires last { IsAnswer self.now last.now }
        ensures is { IfOk result (λ is. is ≡ asked self.now maker.now) }
        ensures last { OnOk result (IsAnswer self.now last.new) }
    {
        if let Some(answer) = last.take() {
            if is_same_place(&answer.maker, maker) {
                let is = answer.is;
                *last = Some(answer);
                return Ok(is);
            }
        }
        let is = is_closed_by(
            &self.follower,
            self.with_uses,
            self.followed,
            self.ways,
            maker,
        )?;
        let maker = copy_place(self.follower.alloc, maker)?;
        *last = Some(Answer { maker, is });
        Ok(is)
    }

    /// The same of what is in the call itself, where there is no maker: it is read for its target alone.
    pub(crate) fn ask(
        &self,
        maker: &Option<CallRef>,
        last: &mut Option<Answer>,
    ) -> Result<bool, AllocError>
        requires project { IsProject (loaded_from self.now.follower.files.now self.now.follower.trees.now) }
        requires last { IsAnswer self.now last.now }
        ensures is { IfOk result (λ is. is ≡ by_maker (asked self.now) maker.now) }
        ensures last { OnOk result (IsAnswer self.now last.new) }
    {
        match maker {
            Some(maker) => self.ask_of(maker, last),
            None => Ok(true),
        }
    }

    /// The first of some lists that is read so.
    fn first_home(&self, homes: &[Home]) -> Result<Option<CallRef>, AllocError>
        requires { IsProject (loaded_from self.now.follower.files.now self.now.follower.trees.now) }
        ensures { IfOk result (λ list. list ≡ first_home (λ h. by_maker (asked self.now) h.maker) (map home_view homes.now)) }
    {
        let mut last = None;
        for i in 0..homes.len() {
            let home = &homes[i];
            if self.ask(&home.maker, &mut last)? {
                let list = copy_place(self.follower.alloc, &home.list)?;
                return Ok(Some(list));
            }
        }
        Ok(None)
    }

    /// The same; one with a source comes before an empty one.
    pub(crate) fn best_home(&self, homes: &Homes) -> Result<Option<CallRef>, AllocError>
        requires { IsProject (loaded_from self.now.follower.files.now self.now.follower.trees.now) }
        ensures { IfOk result (λ list. list ≡ best_home (λ h. by_maker (asked self.now) h.maker) (homes_view homes.now)) }
    {
        if let Some(list) = self.first_home(homes.holding.as_slice())? {
            return Ok(Some(list));
        }
        self.first_home(homes.empties.as_slice())
    }
}

/// The first of some lists.
fn any_of(alloc: Global, homes: &[Home]) -> Result<Option<CallRef>, AllocError>
    ensures { IfOk result (λ list. list ≡ first_home (λ h. true) (map home_view homes.now)) }
{
    if homes.is_empty() {
        return Ok(None);
    }
    let list = copy_place(alloc, &homes[0].list)?;
    Ok(Some(list))
}

/// Any list, if shared lists are changed.
pub(crate) fn any_home(
    alloc: Global,
    shared: SharedLists,
    homes: &Homes,
) -> Result<Option<CallRef>, AllocError>
    ensures { IfOk result (λ list. list ≡ any_home shared (homes_view homes.now)) }
{
    match shared {
        SharedLists::Kept => Ok(None),
        SharedLists::Changed => {
            if let Some(list) = any_of(alloc, homes.holding.as_slice())? {
                return Ok(Some(list));
            }
            any_of(alloc, homes.empties.as_slice())
        }
    }
}
