//! What a command did, and what it reports.

ghost use Rattle.std.specs.Prelude.{◌≡◌, ◌∷◌, [], IfOk, IsTrue, Ok, OnErr, map};
ghost use Rattle.serde_json.specs.View.{view};
ghost use Rattle.meson_calls.specs.Loading.{IsProject};
ghost use Rattle.meson_layout.specs.Laws.{AreTexts};
ghost use Rattle.meson_calls.specs.Refusals.{IfRefused};
ghost use Rattle.meson_plan.specs.Listing.{asks, told};
ghost use Rattle.meson_plan.specs.ListingLaws.{DoesNothing};
ghost use Rattle.meson_plan.specs.Performing.{KeepsUntouched, MayRefuse, Performs};
ghost use Rattle.meson_splice.specs.Patch.{patched_all};

use crate::listing::{info_argument, info_kwargs, info_target};
use crate::project::Project;
use meson_calls::Refusal;
use meson_splice::{Change, Many};
use meson_steps::command::{Command, Done};
use serde_json::Value;
use std::alloc::{AllocError, Global};

/// What a command did, and what it reports.
#[derive(Debug, Drop)]
pub struct Answer {
    pub done: Done,
    /// The listing of an info command; empty for the others.
    pub listings: Vec<Value>,
}

/// Whether a command only reports, and changes nothing.
pub fn asks(command: &Command) -> bool
    ensures { result ≡ asks command.now }
{
    matches!(
        command,
        Command::TargetInfo { .. } | Command::KwargsInfo { .. } | Command::ArgumentInfo { .. }
    )
}

/// A listing, and nothing done.
fn listed(alloc: Global, listing: Value) -> Result<Answer, AllocError>
    ensures { IfOk result (λ a. DoesNothing a.done × (map view a.listings.items ≡ view listing ∷ [])) }
{
    let mut listings = Vec::new(alloc);
    listings.push(listing)?;
    Ok(Answer {
        done: Done {
            change: Change::untitled(alloc, Many::new(alloc)),
            relexed: 0,
        },
        listings,
    })
}

impl Project {
    /// Performs a command, or reports what an info command requests, which changes nothing.
    ///
    /// # Errors
    /// The first refusal that holds, or out of memory.
    pub fn answer(&mut self, alloc: Global, command: &Command) -> Result<Answer, Refusal>
        ensures done { IfOk result (λ a. Performs self.old command.now a.done self.new) }
        ensures told { IfOk result (λ a. told self.old command.now ≡ Ok (map view a.listings.items)) }
        ensures untouched { IfOk result (λ a. KeepsUntouched self.old command.now self.new) }
        ensures asking { IsTrue (asks command.now) → self.new ≡ self.old }
        ensures refused { IfRefused result (MayRefuse self.old command.now) }
        ensures kept { OnErr result (self.new ≡ self.old) }
        ensures project { IsProject self.new }
    {
        self.reads();
        match command {
            Command::TargetInfo { target, reading } => {
                self.keep(alloc)?;
                let listing = info_target(alloc, self, target.as_name(), *reading)?;
                let answer = listed(alloc, listing)?;
                Ok(answer)
            }
            Command::KwargsInfo { role, name } => {
                let listing = info_kwargs(alloc, self, *role, name.as_name())?;
                let answer = listed(alloc, listing)?;
                Ok(answer)
            }
            Command::ArgumentInfo { name } => {
                let listing = info_argument(alloc, self, name)?;
                let answer = listed(alloc, listing)?;
                Ok(answer)
            }
            _ => {
                let done = self.edit(alloc, command)?;
                Ok(Answer {
                    done,
                    listings: Vec::new(alloc),
                })
            }
        }
    }

    /// Performs a command, or nothing. The listing of an info command is dropped.
    ///
    /// # Errors
    /// The first refusal that holds, or out of memory.
    pub fn perform(&mut self, alloc: Global, command: &Command) -> Result<Done, Refusal>
        ensures done { IfOk result (λ done. Performs self.old command.now done self.new) }
        ensures untouched { IfOk result (λ done. KeepsUntouched self.old command.now self.new) }
        ensures patched { IfOk result (λ done. patched_all self.old.files done.change.splices ≡ Ok self.new.files) }
        ensures texts { IfOk result (λ done. AreTexts done.change.splices) }
        ensures refused { IfRefused result (MayRefuse self.old command.now) }
        ensures kept { OnErr result (self.new ≡ self.old) }
        // Each tree is that of its file, whatever the command's result.
        ensures project { IsProject self.new }
    {
        let Answer { done, listings: _ } = self.answer(alloc, command)?;
        Ok(done)
    }
}
