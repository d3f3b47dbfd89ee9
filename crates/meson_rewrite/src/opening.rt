//! The session of a project in a store.

ghost use Rattle.std.specs.Prelude.{◌≡◌, ◌≤◌, ◌⊎◌, IfOk, IfErr, None, OnOk, Some, true};
ghost use Rattle.meson_json.specs.Log.{is_text_history, logged};
ghost use Rattle.meson_json.specs.declared.fault.ScriptFault.TheVariants.{BadLog};
ghost use Rattle.meson_rewrite.specs.declared.advice.Advice.TheVariants.{Nothing};
ghost use Rattle.meson_rewrite.specs.declared.stop.Stop.TheVariants.{Script};
ghost use Rattle.meson_gathering.specs.Gathering.{Told, held_bytes, named_folder};
ghost use Rattle.meson_rewrite.specs.Logs.{IsLog, IsLogFor, log_name, log_use};
ghost use Rattle.meson_rewrite.specs.Opening.{IsNoLog, Opens, OpensNone};
ghost use Rattle.meson_rewrite.specs.StoreReads.{MayAskLog, ReadsAtMost, ReadsWithLog, log_read};
ghost use Rattle.meson_rewrite.specs.Stops.{WantsMemory, unread_by};
ghost use Rattle.meson_store.specs.StoreCalls.{one_more};
ghost use Rattle.meson_gathering.specs.ReadCounts.{MayAsk};

use crate::advice::Advice;
use crate::stop::Stop;
use meson_calls::Reading;
use meson_command::Flags;
use meson_gathering::{gather, read_file};
use meson_json::{empty_log, read_log};
use meson_script::Session;
use meson_splice::History;
use meson_store::Store;
use std::alloc::Global;
use std::mem;

/// The undo log of a project, beside its root file.
pub(crate) const LOG: &str = "meson.rewrite-log";

/// What a run does with the undo log.
#[derive(Clone, Copy)]
pub(crate) enum LogUse {
    /// It is read, and gets the change.
    Kept,
    /// It is neither read nor written, and the history is the empty one.
    Ignored,
}

impl LogUse {
    /// By whether the words leave the log alone.
    pub(crate) fn of(no_log: bool) -> LogUse
        ensures { result ≡ log_use no_log }
    {
        match no_log {
            true => LogUse::Ignored,
            false => LogUse::Kept,
        }
    }
}

/// A log, and its history.
#[derive(Drop)]
struct Log {
    text: Vec<u8>,
    history: History,
}

/// The log of a text.
fn log_in(alloc: Global, text: Vec<u8>) -> Result<Log, Stop>
    ensures log { IfOk result (λ log. (log.text ≡ text) × (logged text.items ≡ Some log.history)) }
    ensures text { IfOk result (λ log. is_text_history log.history ≡ true) }
    ensures none { IfErr result (λ why. WantsMemory why ⊎ ((why ≡ Script BadLog Nothing) × (logged text.items ≡ None))) }
{
    match read_log(alloc, text.as_slice()) {
        Ok(history) => Ok(Log { text, history }),
        Err(fault) => Err(Stop::Script {
            fault,
            advice: Advice::Nothing,
        }),
    }
}

/// The log of the project in this folder; the log of no changes if the project has no log.
fn read_history<S: Store>(alloc: Global, store: &mut S, dir: Option<&str>) -> Result<Log, Stop>
    ensures read { IfOk result (λ log. Told (S.content store.old)
        (λ content. IsLog (held_bytes content (named_folder dir.entry) log_name) log.text.items log.history)) }
    ensures text { IfOk result (λ log. is_text_history log.history ≡ true) }
    ensures none { IfErr result (λ why. WantsMemory why
        ⊎ IsNoLog LogUse.Kept (S.content store.old) (named_folder dir.entry) (S.failures store.old) (S.failures store.new) why) }
    ensures kept { S.content store.new ≡ S.content store.old }
    ensures counts { S.failures store.old ≤ S.failures store.new }
    ensures no_replace { S.replaces store.new ≡ S.replaces store.old }
    ensures once { OnOk result (S.reads store.new ≡ one_more (S.reads store.old)) }
    ensures asks_at_most { IfErr result (λ why. MayAsk log_name (S.reads store.old) (S.reads store.new) (unread_by why)) }
{
    match read_file(alloc, store, dir, LOG) {
        Ok(Some(text)) => log_in(alloc, text),
        Ok(None) => no_changes(alloc),
        Err(fault) => Err(Stop::Store {
            fault,
            advice: Advice::Nothing,
        }),
    }
}

/// The log of no changes.
fn no_changes(alloc: Global) -> Result<Log, Stop>
    ensures log { IfOk result (λ log. IsLog None log.text.items log.history) }
    ensures text { IfOk result (λ log. is_text_history log.history ≡ true) }
    ensures none { IfErr result WantsMemory }
{
    match empty_log(alloc) {
        Ok(text) => Ok(Log {
            text,
            history: History::new(alloc),
        }),
        Err(fault) => Err(Stop::Script {
            fault,
            advice: Advice::Nothing,
        }),
    }
}

/// The log that a run uses of the project in this folder.
fn used_log<S: Store>(
    alloc: Global,
    store: &mut S,
    dir: Option<&str>,
    log_use: LogUse,
) -> Result<Log, Stop>
    ensures log { IfOk result (λ log. IsLogFor log_use (S.content store.old) (named_folder dir.entry) log.text.items log.history) }
    ensures text { IfOk result (λ log. is_text_history log.history ≡ true) }
    ensures none { IfErr result (λ why. WantsMemory why
        ⊎ IsNoLog log_use (S.content store.old) (named_folder dir.entry) (S.failures store.old) (S.failures store.new) why) }
    ensures kept { S.content store.new ≡ S.content store.old }
    ensures counts { S.failures store.old ≤ S.failures store.new }
    ensures no_replace { S.replaces store.new ≡ S.replaces store.old }
    ensures reads { OnOk result (S.reads store.new ≡ log_read log_use (S.reads store.old)) }
    ensures asks_at_most { IfErr result (λ why. MayAskLog log_use (S.reads store.old) (S.reads store.new) (unread_by why)) }
{
    match log_use {
        LogUse::Kept => read_history(alloc, store, dir),
        LogUse::Ignored => no_changes(alloc),
    }
}

/// A session as a store has it.
#[derive(Drop)]
pub(crate) struct StoredSession {
    pub session: Session,
    /// The text of its log; that of no changes if the log is ignored.
    pub log: Vec<u8>,
}

/// Drops nothing of it: the program ends next, which frees all memory at once.
pub(crate) fn leave<T: Drop>(it: T) {
    mem::forget(it);
}

/// The session of the project in this folder: its files, read so and each parsed once, and then the history that its log holds, if the log is kept.
fn open_with<S: Store>(
    alloc: Global,
    store: &mut S,
    dir: Option<&str>,
    log_use: LogUse,
    reading: Reading,
) -> Result<StoredSession, Stop>
    ensures opens { IfOk result (λ o. Opens log_use reading (S.content store.old) (named_folder dir.entry) o.session o.log.items) }
    ensures none { IfErr result (λ why. WantsMemory why
        ⊎ OpensNone log_use reading (S.content store.old) (named_folder dir.entry) (S.failures store.old) (S.failures store.new) why) }
    ensures kept { S.content store.new ≡ S.content store.old }
    ensures counts { S.failures store.old ≤ S.failures store.new }
    ensures no_replace { S.replaces store.new ≡ S.replaces store.old }
    ensures reads { IfOk result (λ o. ReadsWithLog log_use reading (S.content store.old) (named_folder dir.entry) (S.reads store.old)
        o.session.project.files (S.reads store.new)) }
    ensures reads_at_most { IfErr result (λ why. ReadsAtMost log_use reading (S.content store.old) (named_folder dir.entry) (S.reads store.old)
        (S.reads store.new) (unread_by why)) }
{
    let project = match gather(alloc, store, dir, reading) {
        Ok(project) => project,
        Err(fault) => return Err(Stop::from(fault)),
    };
    let log = used_log(alloc, store, dir, log_use)?;
    Ok(StoredSession {
        session: Session::of(project, log.history),
        log: log.text,
    })
}

/// The session of the project in this folder, by the words before the subcommand: its files, each parsed once, and then the history that its log holds. If they
/// leave the log alone, it is the empty history.
pub(crate) fn open<S: Store>(
    alloc: Global,
    store: &mut S,
    dir: Option<&str>,
    flags: Flags,
) -> Result<StoredSession, Stop>
    ensures opens { IfOk result (λ o. Opens (log_use flags.no_log) flags.reading (S.content store.old) (named_folder dir.entry) o.session o.log.items) }
    ensures none { IfErr result (λ why. WantsMemory why
        ⊎ OpensNone (log_use flags.no_log) flags.reading (S.content store.old) (named_folder dir.entry) (S.failures store.old)
        (S.failures store.new) why) }
    ensures kept { S.content store.new ≡ S.content store.old }
    ensures counts { S.failures store.old ≤ S.failures store.new }
    ensures no_replace { S.replaces store.new ≡ S.replaces store.old }
    ensures reads { IfOk result (λ o. ReadsWithLog (log_use flags.no_log) flags.reading (S.content store.old) (named_folder dir.entry) (S.reads store.old)
        o.session.project.files (S.reads store.new)) }
    ensures reads_at_most { IfErr result (λ why. ReadsAtMost (log_use flags.no_log) flags.reading (S.content store.old) (named_folder dir.entry)
        (S.reads store.old) (S.reads store.new) (unread_by why)) }
{
    open_with(alloc, store, dir, LogUse::of(flags.no_log), flags.reading)
}
