//! Requests to a project, by the words and the script file that they name.

ghost use Rattle.std.specs.Prelude.{◌≡◌, ◌≤◌, ◌⊎◌, ◌∷◌, [], IfOk, IfErr, IsTrue, None, Ok, false, true, OnOk};
ghost use Rattle.serde_json.specs.Read.{read};
ghost use Rattle.meson_json.specs.Scripts.{script_of};
ghost use Rattle.meson_json.specs.Titles.{is_title};
ghost use Rattle.meson_rewrite.specs.Requests.{AsksFor, AsksForNone, IsBad, IsFileOf, IsNoFile, IsNoScript, IsScriptOf, script, script_in};
ghost use Rattle.meson_command.specs.Asking.{only_shows};
ghost use Rattle.meson_rewrite.specs.inside.Requests.{StepsTitled, names_file};
ghost use Rattle.meson_rewrite.specs.Lines.{version_line};
ghost use Rattle.meson_rewrite.specs.StoreReads.{AsksNamed, file_read};
ghost use Rattle.meson_rewrite.specs.Stops.{WantsMemory, unread_by};
ghost use Rattle.meson_store.specs.StoreCalls.{one_more};
ghost use Rattle.meson_gathering.specs.ReadCounts.{AsksNone, MayAsk};

use crate::advice::Advice;
use crate::lines::version_text;
use crate::remarks::script_advice;
use crate::stop::Stop;
use meson_command::{Action, Flags};
use meson_gathering::read_file;
use meson_json::{Script, ScriptFault, UnknownMembers};
use meson_splice::{Bytes, Text};
use meson_steps::command::Command;
use meson_store::{Store, StoreFault};
use std::alloc::Global;
use std::str::from_utf8;

/// A request.
#[derive(Drop)]
pub(crate) enum ProgramRequest {
    /// To show this text.
    Show(Text),
    /// To list something of a project, and change nothing.
    List(Listing),
    /// To do a step on the session of a project.
    Step(Step),
}

/// What is listed of a project.
#[derive(Drop)]
pub(crate) enum Listing {
    /// The changes of its history.
    History,
    /// What it holds, as JSON or as lines.
    Holdings { json: bool },
    /// Its calls of this function, as JSON or as lines.
    Calls { function: Text, json: bool },
    /// Its assignments, as JSON or as lines.
    Assignments { json: bool },
    /// The digests of its files.
    Sums,
}

/// A file that the words name, as it was read.
#[derive(Drop)]
pub(crate) struct NamedFile {
    pub name: Text,
    pub bytes: Bytes,
}

/// A step on a session.
#[derive(Drop)]
pub(crate) enum Step {
    /// Run the commands, and keep what they did as a change of this title.
    Run { script: Script, title: Text },
    /// Print what the commands list, and write nothing.
    Tell(Script),
    /// Take back the newest change.
    Undo,
    /// Take back this number of the newest changes.
    UndoTo(usize),
    /// The same, if the files of the project have the digests that this file holds.
    UndoChecked { count: usize, kept: NamedFile },
    /// Do again the change that was taken back last.
    Redo,
    /// Drop this number of the oldest changes that can be taken back.
    ForgetOldest(usize),
    /// Drop all changes, also those that can be done again.
    ForgetAll,
}

/// The script of a text of JSON.
fn script_from(
    alloc: Global,
    text: &str,
    unknown: UnknownMembers,
    flags: Flags,
) -> Result<Script, Stop>
    ensures ok { IfOk result (λ s. script_of unknown (read text.now) ≡ Ok s.commands) }
    ensures none { IfErr result (λ why. WantsMemory why ⊎ IsBad flags (script_of unknown (read text.now)) why) }
{
    match Script::from_json_with(alloc, text, unknown) {
        Ok(script) => Ok(script),
        Err(fault) => {
            let advice = script_advice(alloc, text.as_bytes(), &fault, flags);
            Err(Stop::Script { fault, advice })
        }
    }
}

/// The script of a file's bytes.
fn script_in(
    alloc: Global,
    bytes: &[u8],
    unknown: UnknownMembers,
    flags: Flags,
) -> Result<Script, Stop>
    ensures ok { IfOk result (λ s. script_in unknown bytes.now ≡ Ok s.commands) }
    ensures none { IfErr result (λ why. WantsMemory why ⊎ IsBad flags (script_in unknown bytes.now) why) }
{
    match from_utf8(bytes) {
        Ok(text) => script_from(alloc, text, unknown, flags),
        Err(_) => {
            let fault = ScriptFault::NotJson;
            let advice = script_advice(alloc, bytes, &fault, flags);
            Err(Stop::Script { fault, advice })
        }
    }
}

/// The file of this name.
pub(crate) fn read_named<S: Store>(
    alloc: Global,
    store: &mut S,
    name: Text,
) -> Result<NamedFile, Stop>
    ensures read { IfOk result (IsFileOf (S.content store.old) name) }
    ensures none { IfErr result (λ why. WantsMemory why ⊎ IsNoFile (S.content store.old) (S.failures store.old) (S.failures store.new) name why) }
    ensures kept { S.content store.new ≡ S.content store.old }
    ensures counts { S.failures store.old ≤ S.failures store.new }
    ensures no_replace { S.replaces store.new ≡ S.replaces store.old }
    ensures once { OnOk result (S.reads store.new ≡ one_more (S.reads store.old)) }
    ensures asks_at_most { IfErr result (λ why. MayAsk name (S.reads store.old) (S.reads store.new) (unread_by why)) }
{
    match read_file(alloc, store, None, name.get()) {
        Ok(Some(bytes)) => Ok(NamedFile {
            name,
            bytes: Bytes::of(bytes),
        }),
        Ok(None) => Err(Stop::Store {
            fault: StoreFault::NoFile(name),
            advice: Advice::Nothing,
        }),
        Err(fault) => Err(Stop::Store {
            fault,
            advice: Advice::Nothing,
        }),
    }
}

/// The script in the file of this name.
fn read_script<S: Store>(
    alloc: Global,
    store: &mut S,
    name: Text,
    unknown: UnknownMembers,
    flags: Flags,
) -> Result<Script, Stop>
    ensures read { IfOk result (λ s. IsScriptOf (S.content store.old) name unknown s.commands) }
    ensures none { IfErr result (λ why. WantsMemory why ⊎ IsNoScript flags (S.content store.old) (S.failures store.old) (S.failures store.new) name unknown why) }
    ensures kept { S.content store.new ≡ S.content store.old }
    ensures counts { S.failures store.old ≤ S.failures store.new }
    ensures no_replace { S.replaces store.new ≡ S.replaces store.old }
    ensures once { OnOk result (S.reads store.new ≡ one_more (S.reads store.old)) }
    ensures asks_at_most { IfErr result (λ why. MayAsk name (S.reads store.old) (S.reads store.new) (unread_by why)) }
{
    let file = read_named(alloc, store, name)?;
    script_in(alloc, file.bytes.get(), unknown, flags)
}

/// The script of one command.
fn script_of_one(alloc: Global, command: Command) -> Result<Script, Stop>
    ensures ok { IfOk result (λ s. s ≡ script (command ∷ [])) }
    ensures none { IfErr result WantsMemory }
{
    match Script::of(alloc, command) {
        Ok(script) => Ok(script),
        Err(fault) => Err(Stop::Script {
            fault,
            advice: Advice::Nothing,
        }),
    }
}

/// The request of an info command of the command line.
fn told_of(alloc: Global, command: Command) -> Result<ProgramRequest, Stop>
    ensures asks { IfOk result (λ r. r ≡ ProgramRequest.Step (Step.Tell (script (command ∷ [])))) }
    ensures none { IfErr result WantsMemory }
{
    let script = script_of_one(alloc, command)?;
    Ok(ProgramRequest::Step(Step::Tell(script)))
}

/// The request for the version.
fn version_asked(alloc: Global) -> Result<ProgramRequest, Stop>
    ensures asks { IfOk result (λ r. r ≡ ProgramRequest.Show version_line) }
    ensures none { IfErr result WantsMemory }
{
    Ok(ProgramRequest::Show(version_text(alloc)?))
}

/// The request of an action that names no file; a run keeps its change under the title.
fn asked_for(
    alloc: Global,
    action: Action,
    title: Text,
    flags: Flags,
) -> Result<ProgramRequest, Stop>
    requires title { is_title title ≡ true }
    requires no_file { names_file action ≡ false }
    ensures asks { IfOk result (λ r. AsksFor title action None r) }
    ensures titled { IfOk result StepsTitled }
    ensures none { IfErr result (λ why. WantsMemory why ⊎ AsksForNone flags action None 0 0 why) }
{
    match action {
        Action::Help(text) => Ok(ProgramRequest::Show(text)),
        Action::Version => version_asked(alloc),
        Action::Run(script) => Ok(ProgramRequest::Step(Step::Run { script, title })),
        Action::Info(command) => told_of(alloc, command),
        Action::ScriptText { text, unknown } => {
            let script = script_from(alloc, text.get(), unknown, flags)?;
            Ok(ProgramRequest::Step(Step::Run { script, title }))
        }
        Action::Undo => Ok(ProgramRequest::Step(Step::Undo)),
        Action::UndoTo(count) => Ok(ProgramRequest::Step(Step::UndoTo(count))),
        Action::ForgetOldest(count) => Ok(ProgramRequest::Step(Step::ForgetOldest(count))),
        Action::ForgetAll => Ok(ProgramRequest::Step(Step::ForgetAll)),
        Action::Redo => Ok(ProgramRequest::Step(Step::Redo)),
        Action::History => Ok(ProgramRequest::List(Listing::History)),
        Action::List { json } => Ok(ProgramRequest::List(Listing::Holdings { json })),
        Action::ListCalls { function, json } => {
            Ok(ProgramRequest::List(Listing::Calls { function, json }))
        }
        Action::ListAssignments { json } => {
            Ok(ProgramRequest::List(Listing::Assignments { json }))
        }
        Action::Sums => Ok(ProgramRequest::List(Listing::Sums)),
        Action::ScriptFile { .. } => unreachable!(),
        Action::UndoChecked { .. } => unreachable!(),
    }
}

/// The request of an action; a run keeps its change under the title.
pub(crate) fn request_of<S: Store>(
    alloc: Global,
    store: &mut S,
    action: Action,
    title: Text,
    flags: Flags,
) -> Result<ProgramRequest, Stop>
    requires { is_title title ≡ true }
    ensures asks { IfOk result (λ r. AsksFor title action (S.content store.old) r) }
    ensures titled { IfOk result StepsTitled }
    ensures none { IfErr result (λ why. WantsMemory why ⊎ AsksForNone flags action (S.content store.old) (S.failures store.old) (S.failures store.new) why) }
    ensures kept { S.content store.new ≡ S.content store.old }
    ensures counts { S.failures store.old ≤ S.failures store.new }
    ensures no_replace { S.replaces store.new ≡ S.replaces store.old }
    ensures reads { OnOk result (S.reads store.new ≡ file_read action (S.reads store.old)) }
    ensures reads_at_most { IfErr result (λ why. AsksNone (S.reads store.old) (S.reads store.new) (unread_by why)
        ⊎ AsksNamed action (S.reads store.old) (S.reads store.new) (unread_by why)) }
    ensures untouched { IsTrue (only_shows action) → store.new ≡ store.old }
{
    match action {
        Action::ScriptFile { name, unknown } => {
            let script = read_script(alloc, store, name, unknown, flags)?;
            Ok(ProgramRequest::Step(Step::Run { script, title }))
        }
        Action::UndoChecked { count, sums } => {
            let kept = read_named(alloc, store, sums)?;
            Ok(ProgramRequest::Step(Step::UndoChecked { count, kept }))
        }
        action => asked_for(alloc, action, title, flags),
    }
}
