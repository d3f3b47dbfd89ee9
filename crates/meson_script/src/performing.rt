//! The commands of a script, one after another.

ghost use Rattle.std.specs.Prelude.{◌≡◌, ◌≢◌, ◌++◌, [], IfErr, IfOk, IsTrue, List, OnErr, OnOk};
ghost use Rattle.serde_json.specs.Data.{Data};
ghost use Rattle.meson_calls.specs.declared.refusal.Refusal.TheVariants.{OutOfMemory};
ghost use Rattle.meson_calls.specs.Loading.{IsProject};
ghost use Rattle.meson_calls.specs.Refusals.{IfRefused};
ghost use Rattle.meson_plan.specs.Listing.{asks};
ghost use Rattle.meson_plan.specs.Performing.{MayRefuse, Performs};
ghost use Rattle.meson_splice.specs.Files.{differing};
ghost use Rattle.meson_script.specs.Listings.{Added, listings_text};
ghost use Rattle.meson_script.specs.Running.{MayStop, Reaches, RunsTo, StopsDuring};

use crate::fault::RunFault;
use crate::listings::{ListingForm, Listings, listed};
use meson_plan::answer::asks;
use meson_plan::{Answer, Command, Done, Project, Refusal};
use meson_splice::{Bytes, Change, Splice};
use std::alloc::Global;

/// What commands did.
#[derive(Debug, Drop)]
pub struct Ran {
    pub splices: Vec<Splice>,
    /// The number of bytes that were lexed again. The count stops at the greatest number.
    pub relexed: u64,
    /// The listings of the info commands, in order: an array of compact JSON, or nothing if there are none.
    pub info: Bytes,
}

/// What one command did.
#[derive(Drop)]
pub(crate) struct RanOne {
    pub done: Done,
    /// The number of files whose bytes are different now.
    pub files: usize,
    /// Its listing, as `Ran` has those of all commands.
    pub info: Bytes,
}

/// Performs a command, and adds what it lists.
///
/// # Errors
/// The first refusal that holds, or out of memory.
fn performed(
    alloc: Global,
    project: &mut Project,
    command: &Command,
    form: ListingForm,
    info: &mut Listings,
) -> Result<Done, Refusal>
    ensures done { IfOk result (λ done. Performs project.old command.now done project.new) }
    ensures listed { OnOk result ((shown : List Data) → info.old.text.items ≡ listings_text shown
        → Added form project.old command.now shown info.new.text.items) }
    ensures asking { IsTrue (asks command.now) → project.new ≡ project.old }
    ensures refused { IfRefused result (MayRefuse project.old command.now) }
    ensures kept { OnErr result (project.new ≡ project.old) }
    ensures project { IsProject project.new }
{
    let answer = project.answer(alloc, command)?;
    let Answer { done, listings } = answer;
    if !asks(command) {
        return Ok(done);
    }
    let listings = listed(alloc, form, project, command, listings)?;
    info.extend(alloc, &listings)?;
    Ok(done)
}

/// Performs a command, and counts the files whose bytes are different then. For an info command no file is copied, since none changes.
///
/// # Errors
/// The first refusal that holds, or out of memory.
pub(crate) fn counted(
    alloc: Global,
    project: &mut Project,
    command: &Command,
    form: ListingForm,
) -> Result<RanOne, Refusal>
    ensures done { IfOk result (λ ran. Performs project.old command.now ran.done project.new) }
    ensures listed { IfOk result (λ ran. Added form project.old command.now [] ran.info) }
    ensures files { IfOk result (λ ran. ran.files ≡ differing project.old.files project.new.files) }
    ensures refused { IfRefused result (MayRefuse project.old command.now) }
    ensures kept { OnErr result (project.new ≡ project.old) }
    ensures reads { IsProject project.old }
    ensures project { IsProject project.new }
{
    project.reads();
    let mut info = Listings::new(alloc);
    if asks(command) {
        let done = performed(alloc, project, command, form, &mut info)?;
        return Ok(RanOne {
            done,
            files: 0,
            info: info.take(),
        });
    }
    let before = project.files().clone()?;
    let done = performed(alloc, project, command, form, &mut info)?;
    let files = before.count_differing(project.files());
    Ok(RanOne {
        done,
        files,
        info: info.take(),
    })
}

/// Adds the splices of what the command of this number changed.
///
/// # Errors
/// Out of memory, during that command.
fn add_splices(splices: &mut Vec<Splice>, change: Change, index: usize) -> Result<(), RunFault>
    ensures done { OnOk result (splices.new.items ≡ splices.old.items ++ change.splices) }
    ensures refused { IfErr result (λ fault. fault ≡ record { index = index; refusal = OutOfMemory }) }
{
    let Change {
        splices: its,
        title: _,
    } = change;
    let mut its = its.take();
    splices.append(&mut its).map_err(|refused| RunFault {
        index,
        refusal: Refusal::from(refused),
    })
}

/// Performs the commands in order, without a history, and lists in this form. If one is refused, those before it are done.
///
/// # Errors
/// The first refusal, with the number of its command, or out of memory.
pub fn perform_all(
    alloc: Global,
    project: &mut Project,
    commands: &[Command],
    form: ListingForm,
) -> Result<Ran, RunFault>
    ensures done { IfOk result (λ ran. RunsTo form project.old commands.now ran.splices.items ran.relexed ran.info project.new) }
    ensures refused { IfErr result (λ f. f.refusal ≢ OutOfMemory → MayStop project.old commands.now f.index f.refusal) }
    ensures index { IfErr result (λ f. Reaches project.old commands.now f.index) }
    // Also where memory is refused, that was while the command of this number was done.
    ensures during { IfErr result (λ f. StopsDuring project.old commands.now f.index project.new) }
{
    let mut splices = Vec::new(alloc);
    let mut relexed: u64 = 0;
    let mut info = Listings::new(alloc);
    for (index, command) in commands.iter().enumerate() {
        project.reads();
        let done = match performed(alloc, project, command, form, &mut info) {
            Ok(done) => done,
            Err(refusal) => return Err(RunFault { index, refusal }),
        };
        let Done {
            change,
            relexed: more,
        } = done;
        relexed = relexed.saturating_add(more);
        add_splices(&mut splices, change, index)?;
    }
    Ok(Ran {
        splices,
        relexed,
        info: info.take(),
    })
}
