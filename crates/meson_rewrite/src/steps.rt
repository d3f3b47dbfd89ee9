//! A step on a session, and the files that are to be written then.

ghost use Rattle.std.specs.Prelude.{◌≡◌, ◌<◌, ◌⊎◌, [], IfOk, IfErr, List, Ok, OnOk, map, true, ℕ};
ghost use Rattle.std.specs.List.{All};
ghost use Rattle.std.specs.Str.{IsUtf8};
ghost use Rattle.serde_json.specs.Data.{Data};
ghost use Rattle.meson_calls.specs.Loading.{HasFileName, IsProject};
ghost use Rattle.meson_json.specs.Log.{is_text_history, log_of};
ghost use Rattle.meson_rewrite.specs.declared.advice.Advice.TheVariants.{Nothing};
ghost use Rattle.meson_rewrite.specs.inside.Edited.{IsEdited, IsEditedWith, IsObject, IsShown, IsShownWith};
ghost use Rattle.meson_rewrite.specs.Logs.{log_use, with_log};
ghost use Rattle.meson_rewrite.specs.Steps.{Does, HasSums, IsTitled, MayRefuseStep, SaysStep, Stays, StopsChecked, StopsForgetting, StopsStepsBack, listing_form};
ghost use Rattle.meson_rewrite.specs.Stops.{WantsMemory, undo_stop};
ghost use Rattle.meson_script.specs.Listings.{listings_text};
ghost use Rattle.meson_script.specs.Undoing.{StepsBack};
ghost use Rattle.meson_splice.specs.Past.{Forgets};

use crate::advice::{Advice, refused};
use crate::logged_runs::{Side, newest_run, undo_stop};
use crate::opening::{LOG, LogUse, StoredSession, leave};
use crate::request::{NamedFile, Step};
use crate::said::Said;
use crate::stop::Stop;
use crate::warnings::{warned, warnings_for};
use meson_command::Flags;
use meson_diff::diff;
use meson_script::{ListingForm, Report, Session, log_text};
use meson_splice::{Bytes, FileSet, Text};
use meson_sums::are_kept;
use std::alloc::{AllocError, Global};

/// Takes back this number of the newest changes of a session.
fn back_to(alloc: Global, session: &mut Session, count: usize) -> Result<Report, Stop>
    ensures does { IfOk result (λ report. StepsBack count session.old report session.new) }
    ensures refused { IfErr result (λ why. WantsMemory why ⊎ StopsStepsBack count session.old why) }
    ensures text { OnOk result (is_text_history session.old.history ≡ true → is_text_history session.new.history ≡ true) }
    ensures project { OnOk result (IsProject session.new.project) }
{
    let runs = session.history.past.get().len();
    match session.undo_to(alloc, count) {
        Ok(report) => Ok(report),
        Err(fault) => {
            let left = session.history.past.get();
            let run = newest_run(Side::Undo, runs - left.len() + 1, left)?;
            Err(undo_stop(alloc, session.files(), run, fault))
        }
    }
}

/// Takes back this number of the newest changes of a session, if its files have the digests that were kept of them.
fn checked_back(
    alloc: Global,
    session: &mut Session,
    count: usize,
    kept: &NamedFile,
) -> Result<Report, Stop>
    ensures does { IfOk result (λ report. HasSums session.old kept.now × StepsBack count session.old report session.new) }
    ensures refused { IfErr result (λ why. WantsMemory why ⊎ StopsChecked count kept.now session.old why) }
    ensures text { OnOk result (is_text_history session.old.history ≡ true → is_text_history session.new.history ≡ true) }
    ensures project { OnOk result (IsProject session.new.project) }
{
    let same = are_kept(alloc, session.files(), kept.bytes.get())?;
    if !same {
        let name = kept.name.clone()?;
        return Err(Stop::OtherFiles {
            name,
            advice: Advice::Nothing,
        });
    }
    back_to(alloc, session, count)
}

/// What is reported if no file changes and nothing is listed.
fn nothing_done(alloc: Global) -> Report
    ensures { result.info ≡ [] }
{
    Report {
        files: 0,
        splices: 0,
        relexed: 0,
        info: Bytes::of(Vec::new(alloc)),
        title: Text::of(String::new(alloc)),
    }
}

/// Drops this number of the oldest changes of a session.
fn oldest_forgotten(alloc: Global, session: &mut Session, count: usize) -> Result<Report, Stop>
    ensures does { IfOk result (λ report. Forgets count session.old.history session.new.history × Stays session.old report session.new) }
    ensures refused { IfErr result (StopsForgetting count session.old) }
    ensures text { OnOk result (is_text_history session.old.history ≡ true → is_text_history session.new.history ≡ true) }
    ensures project { IsProject session.new.project }
{
    session.project.reads();
    match session.history.forget_oldest(alloc, count) {
        Ok(()) => Ok(nothing_done(alloc)),
        Err(fault) => Err(Stop::from(fault)),
    }
}

/// Drops all changes of a session.
fn all_forgotten(alloc: Global, session: &mut Session) -> Report
    ensures does { (session.new.history ≡ record { past = []; future = [] }) × Stays session.old result session.new }
    ensures text { is_text_history session.new.history ≡ true }
    ensures project { IsProject session.new.project }
{
    session.project.reads();
    session.history.forget_all();
    nothing_done(alloc)
}

/// How info commands list: with positions where the answer is in JSON.
fn listing_form(json: bool) -> ListingForm
    ensures { result ≡ listing_form json }
{
    if json {
        return ListingForm::Placed;
    }
    ListingForm::Plain
}

/// Does a step on a session, or nothing. A refused command is explained if the flags ask for it.
pub(crate) fn act(
    alloc: Global,
    session: &mut Session,
    step: &Step,
    flags: Flags,
) -> Result<Report, Stop>
    requires { IsTitled step.now }
    ensures does { IfOk result (λ report. Does flags.json step.now session.old report session.new) }
    ensures refused { IfErr result (λ why. WantsMemory why ⊎ MayRefuseStep flags step.now session.old why) }
    ensures text { OnOk result (is_text_history session.old.history ≡ true → is_text_history session.new.history ≡ true) }
    ensures project { OnOk result (IsProject session.new.project) }
{
    let form = listing_form(flags.json);
    match step {
        Step::Run { script, title } => match session.run_listed(alloc, script, title.get(), form) {
            Ok(report) => Ok(report),
            Err(fault) => Err(refused(alloc, session, script, fault, flags)),
        },
        Step::Tell(script) => match session.run_listed(alloc, script, "", form) {
            Ok(report) => Ok(report),
            Err(fault) => Err(refused(alloc, session, script, fault, flags)),
        },
        Step::Undo => match session.undo(alloc) {
            Ok(report) => Ok(report),
            Err(fault) => {
                let run = newest_run(Side::Undo, 1, session.history.past.get())?;
                Err(undo_stop(alloc, session.files(), run, fault))
            }
        },
        Step::UndoTo(count) => back_to(alloc, session, *count),
        Step::UndoChecked { count, kept } => checked_back(alloc, session, *count, kept),
        Step::Redo => match session.redo(alloc) {
            Ok(report) => Ok(report),
            Err(fault) => {
                let run = newest_run(Side::Redo, 1, session.history.future.get())?;
                Err(undo_stop(alloc, session.files(), run, fault))
            }
        },
        Step::ForgetOldest(count) => oldest_forgotten(alloc, session, *count),
        Step::ForgetAll => Ok(all_forgotten(alloc, session)),
    }
}

/// The log of a session whose history is text.
fn new_log(alloc: Global, session: &Session) -> Result<Vec<u8>, Stop>
    requires { is_text_history session.now.history ≡ true }
    ensures log { IfOk result (λ text. log_of session.now.history ≡ Ok text.items) }
    ensures none { IfErr result WantsMemory }
{
    match log_text(alloc, session) {
        Ok(text) => Ok(text),
        Err(fault) => Err(Stop::Script {
            fault,
            advice: Advice::Nothing,
        }),
    }
}

/// These files, none of which has the log's name, with the log after them.
fn with_kept_log(alloc: Global, files: FileSet, text: Vec<u8>) -> Result<FileSet, AllocError>
    requires { All HasFileName files }
    ensures { IfOk result (λ all. all ≡ with_log LogUse.Kept files text.items) }
{
    let mut all = files;
    let name = String::from_str(alloc, LOG)?;
    all.push_new(name, text)?;
    Ok(all)
}

/// These files, none of which has the log's name, with the log after them if it is kept.
fn with_log(
    alloc: Global,
    files: FileSet,
    text: Vec<u8>,
    log_use: LogUse,
) -> Result<FileSet, AllocError>
    requires { All HasFileName files }
    ensures { IfOk result (λ all. all ≡ with_log log_use files text.items) }
{
    match log_use {
        LogUse::Kept => with_kept_log(alloc, files, text),
        LogUse::Ignored => Ok(files),
    }
}

/// The files of a session whose history is text, with its log after them if it is kept.
fn logged(alloc: Global, session: &Session, log_use: LogUse) -> Result<FileSet, Stop>
    requires { is_text_history session.now.history ≡ true }
    ensures files { IfOk result (λ all. (text : List ℕ) × (log_of session.now.history ≡ Ok text)
        × (all ≡ with_log log_use session.now.project.files text)) }
    ensures none { IfErr result WantsMemory }
{
    let text = new_log(alloc, session)?;
    session.project.reads();
    let files = session.files().clone()?;
    let all = with_log(alloc, files, text, log_use)?;
    Ok(all)
}

/// What is to be written, and what is then to be said.
#[derive(Drop)]
pub(crate) struct Edit {
    /// The files as they were, and the log if it is kept.
    pub before: FileSet,
    pub after: FileSet,
    pub said: Said,
}

/// What is said of a step that made the files of a session of these, which are text.
fn said_of(
    alloc: Global,
    step: &Step,
    json: bool,
    old: &FileSet,
    session: &Session,
    report: Report,
) -> Result<Said, AllocError>
    requires same_files { map (λ f. f.name) old.now ≡ map (λ f. f.name) session.now.project.files }
    requires old_text { All (λ f. IsUtf8 f.bytes) old.now }
    requires listed { (listings : List Data) × (report.info ≡ listings_text listings) }
    ensures { IfOk result (SaysStep json step.now old.now session.now.project.files report) }
{
    if json {
        session.project.reads();
        return Said::object(alloc, step, old, session.files(), report);
    }
    Said::of(alloc, step, report)
}

/// Does a step on a session whose history is text, with this text as its log, and gives what is to be written.
fn edit_of(
    alloc: Global,
    session: &mut Session,
    log: Vec<u8>,
    step: &Step,
    flags: Flags,
) -> Result<Edit, Stop>
    requires text { is_text_history session.old.history ≡ true }
    requires title { IsTitled step.now }
    ensures edited { IfOk result (IsEdited (log_use flags.no_log) session.old log.items step.now flags.json) }
    ensures same_names { IfOk result (λ edit. map (λ f. f.name) edit.before ≡ map (λ f. f.name) edit.after) }
    ensures refused { IfErr result (λ why. WantsMemory why ⊎ MayRefuseStep flags step.now session.old why) }
{
    session.project.reads();
    let old = session.files().clone()?;
    let report = act(alloc, session, step, flags)?;
    let said = said_of(alloc, step, flags.json, &old, session, report)?;
    let log_use = LogUse::of(flags.no_log);
    let before = with_log(alloc, old, log, log_use)?;
    let after = logged(alloc, session, log_use)?;
    Ok(Edit {
        before,
        after,
        said,
    })
}

/// What a step makes of a session whose history is text, with warnings if the flags ask for them.
pub(crate) fn edited(
    alloc: Global,
    opened: StoredSession,
    step: &Step,
    flags: Flags,
) -> Result<Edit, Stop>
    requires text { is_text_history opened.session.history ≡ true }
    requires title { IsTitled step.now }
    ensures edited { IfOk result (IsEditedWith flags opened.session opened.log.items step.now) }
    ensures same_names { IfOk result (λ edit. map (λ f. f.name) edit.before ≡ map (λ f. f.name) edit.after) }
    ensures refused { IfErr result (λ why. WantsMemory why ⊎ MayRefuseStep flags step.now opened.session why) }
{
    let StoredSession { mut session, log } = opened;
    let warnings = warnings_for(alloc, session.project(), step, flags);
    let edit = edit_of(alloc, &mut session, log, step, flags);
    leave(session);
    let edit = edit?;
    let Edit {
        before,
        after,
        said,
    } = edit;
    Ok(Edit {
        before,
        after,
        said: warned(alloc, said, &warnings),
    })
}

/// What is to be said in JSON for a step on a borrowed session.
pub(crate) fn object_of(
    alloc: Global,
    session: &mut Session,
    step: &Step,
    flags: Flags,
) -> Result<Said, Stop>
    requires { IsTitled step.now }
    ensures object { IfOk result (IsObject session.old step.now flags.json) }
    ensures refused { IfErr result (λ why. WantsMemory why ⊎ MayRefuseStep flags step.now session.old why) }
{
    session.project.reads();
    let old = session.files().clone()?;
    let report = act(alloc, session, step, flags)?;
    session.project.reads();
    Ok(Said::object(alloc, step, &old, session.files(), report)?)
}

/// What is to be said for a step on a borrowed session, if it is shown and not done.
fn shown_of(alloc: Global, session: &mut Session, step: &Step, flags: Flags) -> Result<Said, Stop>
    requires { IsTitled step.now }
    ensures shown { IfOk result (IsShown session.old step.now flags.json) }
    ensures refused { IfErr result (λ why. WantsMemory why ⊎ MayRefuseStep flags step.now session.old why) }
{
    if flags.json {
        return object_of(alloc, session, step, flags);
    }
    let before = session.files().clone()?;
    let report = act(alloc, session, step, flags)?;
    let changes = diff(alloc, &before, session.files())?;
    Ok(Said::shown(step, changes, report)?)
}

/// What is to be said for a step on a session that is shown, and not done, with warnings if the flags ask for them.
pub(crate) fn shown(
    alloc: Global,
    opened: StoredSession,
    step: &Step,
    flags: Flags,
) -> Result<Said, Stop>
    requires { IsTitled step.now }
    ensures shown { IfOk result (IsShownWith flags opened.session step.now) }
    ensures refused { IfErr result (λ why. WantsMemory why ⊎ MayRefuseStep flags step.now opened.session why) }
{
    let StoredSession {
        mut session,
        log: _,
    } = opened;
    let warnings = warnings_for(alloc, session.project(), step, flags);
    let said = shown_of(alloc, &mut session, step, flags);
    leave(session);
    let said = said?;
    Ok(warned(alloc, said, &warnings))
}
