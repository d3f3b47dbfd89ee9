//! A project with the history of what was done to it.

ghost use Rattle.std.specs.Prelude.{◌≡◌, ◌≢◌, ◌<◌, ◌∷◌, [], IfErr, IfOk, OnErr, OnOk, Some, length, true, vec_capacity, vec_len};
ghost use Rattle.meson_calls.specs.Loading.{IsProject, MayNotLoad};
ghost use Rattle.meson_calls.specs.declared.refusal.Refusal.TheVariants.{OutOfMemory};
ghost use Rattle.meson_json.specs.Log.{is_text_history};
ghost use Rattle.meson_json.specs.Titles.{is_title};
ghost use Rattle.meson_script.specs.Running.{KeepsChange, MayStop, Reaches};
ghost use Rattle.meson_script.specs.Stack.{RefusesRedo, RefusesUndo, RefusesUndos, Stack, Stands, ran, done_again, taken_back, undos};
ghost use Rattle.meson_script.specs.Untouched.{CommandsKeep};
ghost use Rattle.meson_script.specs.Undoing.{MayNotStep, Steps, StepsBack, StopsBack};
ghost use Rattle.meson_splice.specs.Past.{redone, undone};

use crate::fault::{RunFault, UndoFault, Unstarted};
use crate::listings::ListingForm;
use crate::performing::{RanOne, counted, perform_all};
use crate::stepping::{files_after, files_before, loaded};
use crate::titles::{titled, titles};
use meson_json::Script;
use meson_plan::{Command, Done, Project};
use meson_splice::{Bytes, Change, FileSet, History, Many, SpliceFault, Text};
use std::alloc::{AllocError, Global};
use std::mem;

/// A project, and the changes that were done to it and undone.
#[derive(Debug, Drop)]
pub struct Session {
    pub project: Project,
    pub history: History,
}

/// What was done.
#[derive(Debug, Drop)]
pub struct Report {
    /// The number of files whose bytes are different now.
    pub files: usize,
    /// The number of splices that were done.
    pub splices: usize,
    /// The number of bytes that were lexed again. The count stops at the greatest number.
    pub relexed: u64,
    /// The listings of the info commands, in order: an array of compact JSON, or nothing if there are none.
    pub info: Bytes,
    /// The title of the change that was made, taken back or done again.
    pub title: Text,
}

/// What is reported of steps of the history: they lex nothing again, and list nothing.
fn stepped(alloc: Global, files: usize, splices: usize, title: Text) -> Report
    ensures counts { (result.files ≡ files) × (result.splices ≡ splices) × (result.relexed ≡ 0) }
    ensures title { result.title ≡ title }
    ensures info { result.info ≡ [] }
{
    Report {
        files,
        splices,
        relexed: 0,
        info: Bytes::of(Vec::new(alloc)),
        title,
    }
}

/// Takes the past out of a history, with room for one more change.
///
/// # Errors
/// Out of memory. Then the history has its past.
fn past_with_room(alloc: Global, history: &mut History) -> Result<Vec<Change>, AllocError>
    ensures past { IfOk result (λ past. past.items ≡ history.old.past) }
    ensures room { IfOk result (λ past. vec_len past < vec_capacity past) }
    ensures taken { OnOk result (history.new ≡ record history.old { past = [] }) }
    ensures kept { OnErr result (history.new ≡ history.old) }
{
    let mut past = mem::replace(&mut history.past, Many::new(alloc)).take();
    if let Err(refused) = past.reserve(1) {
        history.past = Many::of(past);
        return Err(refused);
    }
    Ok(past)
}

/// The number of splices that were done, and the change's title.
fn splices_and_title(report: Report) -> (usize, Text)
    ensures { result ≡ (report.splices, report.title) }
{
    let Report { splices, title, .. } = report;
    (splices, title)
}

impl Session {
    /// A session on these files; or both handed back if the files are not a project.
    pub fn start(alloc: Global, files: FileSet, history: History) -> Result<Session, Unstarted>
        ensures started { IfOk result (λ s. (s.project.files ≡ files) × (s.history ≡ history)) }
        ensures refused { IfErr result (λ u. MayNotLoad files u.fault) }
        ensures handed_back { IfErr result (λ u. (u.files ≡ files) × (u.history ≡ history)) }
    {
        match Project::load(alloc, files) {
            Ok(project) => Ok(Session { project, history }),
            Err(unloaded) => Err(Unstarted {
                files: unloaded.files,
                history,
                fault: unloaded.fault,
            }),
        }
    }

    /// A session on a project that is loaded. Does not allocate.
    pub fn of(project: Project, history: History) -> Session
        ensures { result ≡ record { project = project; history = history } }
    {
        Session { project, history }
    }

    /// The files as they are now.
    pub fn files(&self) -> &FileSet
        ensures { result.now ≡ self.now.project.files }
    {
        self.project.files()
    }

    /// The project as it is now.
    pub fn project(&self) -> &Project
        ensures { result.now ≡ self.now.project }
    {
        &self.project
    }

    /// The number of changes that can be undone, and of those that can be redone.
    pub fn depths(&self) -> (usize, usize)
        ensures { result ≡ (length self.now.history.past, length self.now.history.future) }
    {
        self.history.depths()
    }

    /// Performs the commands of a script in order, or nothing. What they did is kept as one change without a title, even if it is empty.
    ///
    /// # Errors
    /// The first refusal with the number of its command, or out of memory.
    pub fn run(&mut self, alloc: Global, script: &Script) -> Result<Report, RunFault>
        ensures done { IfOk result (λ r. KeepsChange ListingForm.Plain self.old script.now.commands [] r self.new) }
        ensures refused { IfErr result (λ f. f.refusal ≢ OutOfMemory → MayStop self.old.project script.now.commands f.index f.refusal) }
        // Also when out of memory, it is the number of a command, and those before it were performed.
        ensures index { IfErr result (λ f. Reaches self.old.project script.now.commands f.index) }
        ensures kept { OnErr result (self.new ≡ self.old) }
        // Each command keeps every byte outside the lists and statements that its edits touch.
        ensures untouched { OnOk result (CommandsKeep self.old.project script.now.commands self.new.project) }
        // For a history that fits, this is a step of the stack.
        ensures step { OnOk result ((s : Stack) → Stands self.old.history self.old.project.files s
            → Stands self.new.history self.new.project.files (ran s [] self.new.project.files)) }
        // If the history had a log, it has one now.
        ensures text { OnOk result (is_text_history self.old.history ≡ true → is_text_history self.new.history ≡ true) }
        // The new files parse as the new trees.
        ensures project { OnOk result (IsProject self.new.project) }
    {
        self.run_listed(alloc, script, "", ListingForm::Plain)
    }

    /// The same, with a title for the change: `is_title` says which texts are titles.
    ///
    /// # Errors
    /// The first refusal with the number of its command, or out of memory.
    pub fn run_titled(
        &mut self,
        alloc: Global,
        script: &Script,
        title: &str,
    ) -> Result<Report, RunFault>
        requires { is_title title.now ≡ true }
        ensures done { IfOk result (λ r. KeepsChange ListingForm.Plain self.old script.now.commands title.now r self.new) }
        ensures refused { IfErr result (λ f. f.refusal ≢ OutOfMemory → MayStop self.old.project script.now.commands f.index f.refusal) }
        ensures index { IfErr result (λ f. Reaches self.old.project script.now.commands f.index) }
        ensures kept { OnErr result (self.new ≡ self.old) }
        ensures untouched { OnOk result (CommandsKeep self.old.project script.now.commands self.new.project) }
        ensures step { OnOk result ((s : Stack) → Stands self.old.history self.old.project.files s
            → Stands self.new.history self.new.project.files (ran s title.now self.new.project.files)) }
        ensures text { OnOk result (is_text_history self.old.history ≡ true → is_text_history self.new.history ≡ true) }
        ensures project { OnOk result (IsProject self.new.project) }
    {
        self.run_listed(alloc, script, title, ListingForm::Plain)
    }

    /// The same, with the listings of the info commands in this form: each is of the project as it is at its command.
    ///
    /// # Errors
    /// The first refusal with the number of its command, or out of memory.
    pub fn run_listed(
        &mut self,
        alloc: Global,
        script: &Script,
        title: &str,
        form: ListingForm,
    ) -> Result<Report, RunFault>
        requires { is_title title.now ≡ true }
        ensures done { IfOk result (λ r. KeepsChange form self.old script.now.commands title.now r self.new) }
        ensures refused { IfErr result (λ f. f.refusal ≢ OutOfMemory → MayStop self.old.project script.now.commands f.index f.refusal) }
        ensures index { IfErr result (λ f. Reaches self.old.project script.now.commands f.index) }
        ensures kept { OnErr result (self.new ≡ self.old) }
        ensures untouched { OnOk result (CommandsKeep self.old.project script.now.commands self.new.project) }
        ensures step { OnOk result ((s : Stack) → Stands self.old.history self.old.project.files s
            → Stands self.new.history self.new.project.files (ran s title.now self.new.project.files)) }
        ensures text { OnOk result (is_text_history self.old.history ≡ true → is_text_history self.new.history ≡ true) }
        ensures project { OnOk result (IsProject self.new.project) }
    {
        match script.commands.get() {
            [command] => self.run_one(alloc, command, title, form),
            commands => self.run_all(alloc, commands, title, form),
        }
    }

    /// Performs a command and keeps what it did. A refused command changes nothing, so it needs no copy of the project.
    fn run_one(
        &mut self,
        alloc: Global,
        command: &Command,
        title: &str,
        form: ListingForm,
    ) -> Result<Report, RunFault>
        ensures done { IfOk result (λ r. KeepsChange form self.old (command.now ∷ []) title.now r self.new) }
        ensures refused { IfErr result (λ f. f.refusal ≢ OutOfMemory → MayStop self.old.project (command.now ∷ []) f.index f.refusal) }
        ensures index { IfErr result (λ f. f.index ≡ 0) }
        ensures kept { OnErr result (self.new ≡ self.old) }
        ensures project { OnOk result (IsProject self.new.project) }
    {
        let (kept, told) = match titles(alloc, title) {
            Ok(both) => both,
            Err(refused) => return Err(RunFault::unmade(refused)),
        };
        let mut past = match past_with_room(alloc, &mut self.history) {
            Ok(past) => past,
            Err(refused) => return Err(RunFault::unmade(refused)),
        };
        match counted(alloc, &mut self.project, command, form) {
            Ok(ran) => {
                let RanOne { done, files, info } = ran;
                let Done { change, relexed } = done;
                let report = Report {
                    files,
                    splices: change.splices.get().len(),
                    relexed,
                    info,
                    title: told,
                };
                past.push_reserved(titled(change, kept));
                self.history.past = Many::of(past);
                self.history.future.clear();
                Ok(report)
            }
            Err(refusal) => {
                self.history.past = Many::of(past);
                Err(RunFault { index: 0, refusal })
            }
        }
    }

    /// Performs commands on a copy of the project. The copy takes its place when all are done and kept.
    fn run_all(
        &mut self,
        alloc: Global,
        commands: &[Command],
        title: &str,
        form: ListingForm,
    ) -> Result<Report, RunFault>
        ensures done { IfOk result (λ r. KeepsChange form self.old commands.now title.now r self.new) }
        ensures refused { IfErr result (λ f. f.refusal ≢ OutOfMemory → MayStop self.old.project commands.now f.index f.refusal) }
        ensures index { IfErr result (λ f. Reaches self.old.project commands.now f.index) }
        ensures kept { OnErr result (self.new ≡ self.old) }
        ensures project { OnOk result (IsProject self.new.project) }
    {
        let mut project = match self.project.copy(alloc) {
            Ok(project) => project,
            Err(refusal) => return Err(RunFault { index: 0, refusal }),
        };
        let (kept, told) = match titles(alloc, title) {
            Ok(both) => both,
            Err(refused) => return Err(RunFault::unmade(refused)),
        };
        let mut past = match past_with_room(alloc, &mut self.history) {
            Ok(past) => past,
            Err(refused) => return Err(RunFault::unmade(refused)),
        };
        let performed = match perform_all(alloc, &mut project, commands, form) {
            Ok(performed) => performed,
            Err(fault) => {
                self.history.past = Many::of(past);
                return Err(fault);
            }
        };
        let report = Report {
            files: self.project.files().count_differing(project.files()),
            splices: performed.splices.len(),
            relexed: performed.relexed,
            info: performed.info,
            title: told,
        };
        past.push_reserved(Change {
            splices: Many::of(performed.splices),
            title: kept,
        });
        self.history.past = Many::of(past);
        self.history.future.clear();
        self.project = project;
        Ok(report)
    }

    /// Takes the newest change back.
    ///
    /// # Errors
    /// There is no change to undo, the files are not as it left them, they would not be a project then, or out of memory.
    pub fn undo(&mut self, alloc: Global) -> Result<Report, UndoFault>
        ensures done { IfOk result (λ r. Steps self.old self.old.history.past (undone self.old.history self.old.project.files) r self.new) }
        ensures refused { IfErr result (λ f. MayNotStep (undone self.old.history self.old.project.files) f) }
        ensures kept { OnErr result (self.new ≡ self.old) }
        // For a history that fits, this is a step of the stack, and only an empty past is refused.
        ensures step { OnOk result ((s : Stack) → Stands self.old.history self.old.project.files s
            → (t : Stack) × (taken_back s ≡ Some t) × Stands self.new.history self.new.project.files t) }
        ensures fits { IfErr result (λ f. (s : Stack) → Stands self.old.history self.old.project.files s → RefusesUndo s f) }
        ensures text { OnOk result (is_text_history self.old.history ≡ true → is_text_history self.new.history ≡ true) }
        // The new files parse as the new trees.
        ensures project { OnOk result (IsProject self.new.project) }
    {
        let Some(change) = self.history.past.last() else {
            return Err(UndoFault::Splice(SpliceFault::NothingToUndo));
        };
        let splices = change.splices.get().len();
        let title = change.title.clone()?;
        let project = loaded(alloc, files_before(alloc, self.project.files(), change))?;
        self.history.past.move_last(&mut self.history.future)?;
        let files = self.project.files().count_differing(project.files());
        self.project = project;
        Ok(stepped(alloc, files, splices, title))
    }

    /// Takes back this number of the newest changes, one after another, as that many undos do. The report counts the splices of all of them, up to the greatest
    /// number. It has the title of the change that was taken back last. Without any change, it counts nothing and has no title.
    ///
    /// # Errors
    /// An undo among them is refused. Those before it are done then.
    pub fn undo_to(&mut self, alloc: Global, count: usize) -> Result<Report, UndoFault>
        ensures done { IfOk result (λ r. StepsBack count self.old r self.new) }
        ensures refused { IfErr result (λ f. StopsBack count self.old f self.new) }
        // For a history that fits, these are undos of the stack, and only an empty past is refused.
        ensures step { OnOk result ((s : Stack) → Stands self.old.history self.old.project.files s
            → (t : Stack) × (undos count s ≡ Some t) × Stands self.new.history self.new.project.files t) }
        ensures fits { IfErr result (λ f. (s : Stack) → Stands self.old.history self.old.project.files s → RefusesUndos count s f) }
        ensures text { OnOk result (is_text_history self.old.history ≡ true → is_text_history self.new.history ≡ true) }
        // The new files parse as the new trees.
        ensures project { OnOk result (IsProject self.new.project) }
    {
        let first = self.project.files().clone()?;
        let mut splices: usize = 0;
        let mut title = Text::of(String::new(alloc));
        for _ in 0..count {
            let (more, last) = splices_and_title(self.undo(alloc)?);
            splices = splices.saturating_add(more);
            title = last;
        }
        self.project.reads();
        let files = first.count_differing(self.project.files());
        Ok(stepped(alloc, files, splices, title))
    }

    /// Does again the change that was undone last.
    ///
    /// # Errors
    /// There is no change to redo, the files are not as they were before it, or they would not be a project then. Or out of memory.
    pub fn redo(&mut self, alloc: Global) -> Result<Report, UndoFault>
        ensures done { IfOk result (λ r. Steps self.old self.old.history.future (redone self.old.history self.old.project.files) r self.new) }
        ensures refused { IfErr result (λ f. MayNotStep (redone self.old.history self.old.project.files) f) }
        ensures kept { OnErr result (self.new ≡ self.old) }
        // For a history that fits, this is a step of the stack, and only an empty future is refused.
        ensures step { OnOk result ((s : Stack) → Stands self.old.history self.old.project.files s
            → (t : Stack) × (done_again s ≡ Some t) × Stands self.new.history self.new.project.files t) }
        ensures fits { IfErr result (λ f. (s : Stack) → Stands self.old.history self.old.project.files s → RefusesRedo s f) }
        ensures text { OnOk result (is_text_history self.old.history ≡ true → is_text_history self.new.history ≡ true) }
        // The new files parse as the new trees.
        ensures project { OnOk result (IsProject self.new.project) }
    {
        let Some(change) = self.history.future.last() else {
            return Err(UndoFault::Splice(SpliceFault::NothingToRedo));
        };
        let splices = change.splices.get().len();
        let title = change.title.clone()?;
        let project = loaded(alloc, files_after(alloc, self.project.files(), change))?;
        self.history.future.move_last(&mut self.history.past)?;
        let files = self.project.files().count_differing(project.files());
        self.project = project;
        Ok(stepped(alloc, files, splices, title))
    }
}
