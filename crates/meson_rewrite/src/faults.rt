//! What explains faults of files, of texts, of the log and of the store.

ghost use Rattle.std.specs.Prelude.{◌≡◌, IfOk, option_map, string_bytes};
ghost use Rattle.meson_explaining.specs.Notes.{plain_note};
ghost use Rattle.meson_rewrite.specs.Faults.{IsExplained, IsReported, fault_advice, file_advice, log_advice, plain_advice, plain_explanation, read_help, run_text, side_word};
ghost use Rattle.meson_rewrite.specs.Faults.{splice_words, store_words, words_advice, write_words};

use crate::advice::{Advice, advice_of};
use crate::logged_runs::{LoggedRun, Side};
use crate::opening::LOG;
use crate::said::Said;
use crate::stop::{FileText, Stop};
use meson_command::Flags;
use meson_explaining::{Explanation, Note, explain_fault, fault_lines};
use meson_json::ScriptFault;
use meson_splice::{FileSet, Many, SpliceFault, Text};
use meson_store::StoreFault;
use meson_syntax::ParseFault;
use std::alloc::{AllocError, Global};

/// What may be done about a change of the log that does not fit the files.
const TAKE_BACK: &str =
    "git diff shows what was changed since the run: take that back, or remove meson.rewrite-log and use git";

/// What may be done where there is no run to take back or to do again.
const KEPT_RUNS: &str =
    "history lists the runs that can be undone and redone; a run with --no-log, or with another --sourcedir, is not among them";

/// What may be done about a project of too many files.
const FOLDER_BELOW: &str = "--sourcedir names a folder below, whose project has fewer";

/// What may be done about files that are not as they were.
const WHICH_FILE: &str =
    "sha256sum --check prints which file it is: take that change back, or remove meson.rewrite-log and use git";

/// Why a file of texts cannot be read.
const TEXTS: &str =
    "the file of --texts is no object with the member texts, an array of objects with the members file and text, or has a file twice";

/// Which names files of texts have.
const FILE_NAMES: &str = "each file has the name of a build file, as list prints it";

/// Why the log cannot be read.
const NO_LOG: &str = "meson.rewrite-log is no valid log: it was edited, merged or cut";

/// What may be done about a log that cannot be read.
const MOVE_AWAY: &str = "move it away: its runs cannot be undone then; or run with --no-log";

/// What explains that the file of this name, with these bytes, is not a valid build file: its line, with a mark below the place.
fn file_advice(
    alloc: Global,
    json: bool,
    name: &str,
    bytes: &[u8],
    fault: ParseFault,
) -> Result<Advice, AllocError>
    ensures { IfOk result (λ advice. advice ≡ file_advice json name.now bytes.now fault) }
{
    if !json {
        let lines = fault_lines(alloc, name, bytes, fault)?;
        return Ok(Advice::Lines(Text::of(lines)));
    }
    let mut files = FileSet::new(alloc);
    let name = String::from_str(alloc, name)?;
    let bytes = Vec::from_slice(alloc, bytes)?;
    files.push_new(name, bytes)?;
    advice_of(alloc, true, &files, explain_fault(alloc, fault)?)
}

/// The word with which `history` lists the runs of a side.
fn side_word(side: Side) -> &'static str
    ensures { result.now ≡ side_word side }
{
    match side {
        Side::Undo => "undo",
        Side::Redo => "redo",
    }
}

/// Which line of `history` lists a run of the log.
fn run_text(alloc: Global, run: &LoggedRun) -> Result<String, AllocError>
    ensures { IfOk result (λ text. string_bytes text ≡ run_text run.now) }
{
    let word = side_word(run.side);
    let number = run.number;
    if run.title.get().is_empty() {
        return format!(in alloc; "history lists the run as {word} {number}");
    }
    let title = run.title.get();
    format!(in alloc; "history lists the run as {word} {number}, title: {title}")
}

/// A note that is about no place.
fn plain_note(note: String) -> Note
    ensures { result ≡ plain_note (string_bytes note) }
{
    Note {
        spot: None,
        text: Text::of(note),
    }
}

/// An explanation that is about no place, and about this run of the log, if there is one.
fn plain_explanation(
    alloc: Global,
    note: String,
    run: &Option<LoggedRun>,
    help: &str,
) -> Result<Explanation, AllocError>
    ensures { IfOk result (λ e. e ≡ plain_explanation (string_bytes note) run.now help.now) }
{
    let mut notes = Vec::new(alloc);
    notes.push(plain_note(note))?;
    if let Some(run) = run {
        notes.push(plain_note(run_text(alloc, run)?))?;
    }
    let mut texts = Vec::new(alloc);
    texts.push(Text::of(String::from_str(alloc, help)?))?;
    Ok(Explanation {
        notes: Many::of(notes),
        help: Many::of(texts),
    })
}

/// What was seen, of which run of the log, and what may be done.
fn plain_advice(
    alloc: Global,
    json: bool,
    note: String,
    run: &Option<LoggedRun>,
    help: &str,
) -> Result<Advice, AllocError>
    ensures { IfOk result (λ advice. advice ≡ plain_advice json (string_bytes note) run.now help.now) }
{
    let explanation = plain_explanation(alloc, note, run, help)?;
    advice_of(alloc, json, &FileSet::new(alloc), explanation)
}

/// What may be done about the file of this name, which could not be read.
fn read_help(name: &str) -> &'static str
    ensures { result.now ≡ read_help name.now }
{
    if name == LOG {
        return "--no-log leaves the log alone; a log that is too long may be moved away, and its runs cannot be undone then";
    }
    "it has to be a regular file of at most 64 MiB that you may read"
}

/// What was seen of a file that could not be written, where these files may have their new bytes, and what may be done.
fn write_words(
    alloc: Global,
    name: &str,
    left: &[Text],
) -> Result<(String, &'static str), AllocError>
    ensures { IfOk result (λ w. (string_bytes w.0, w.1.now) ≡ write_words name.now left.now) }
{
    if left.is_empty() {
        return Ok((
            format!(in alloc; "{name} could not be written; each build file is as it was")?,
            "look for room on the disk, for the right to write its folder, and for files .rewrite-new that killed runs left",
        ));
    }
    Ok((
        format!(in alloc;
            "{name} could not be written, and a file left new may have bytes that are not in the log"
        )?,
        "look at each file left new, or get it back from version control; then run again",
    ))
}

/// What was seen of a fault of the store, and what may be done.
fn store_words(
    alloc: Global,
    fault: &StoreFault,
) -> Result<Option<(String, &'static str)>, AllocError>
    ensures { IfOk result (λ words. option_map (λ w. (string_bytes w.0, w.1.now)) words ≡ store_words fault.now) }
{
    match fault {
        StoreFault::ReadFailed(name) => Ok(Some((
            format!(in alloc; "{name} could not be read; no file was changed")?,
            read_help(name.get()),
        ))),
        StoreFault::WriteFailed { name, still_new } => {
            Ok(Some(write_words(alloc, name.get(), still_new.get())?))
        }
        StoreFault::NoFile(name) => Ok(Some((
            format!(in alloc; "{name} is not there; no file was changed")?,
            "--sourcedir names the folder of the root file; the file of a script or of digests is named from the current folder",
        ))),
        StoreFault::OutputFailed | StoreFault::OutOfMemory => Ok(None),
    }
}

/// What was seen of a change of the log that is not taken back or done again, and what may be done.
fn splice_words(
    alloc: Global,
    fault: &SpliceFault,
) -> Result<Option<(String, &'static str)>, AllocError>
    ensures { IfOk result (λ words. option_map (λ w. (string_bytes w.0, w.1.now)) words ≡ splice_words fault.now) }
{
    match fault {
        SpliceFault::NoFile(name) => Ok(Some((
            format!(in alloc; "the run changed {name}, which is not in the project now")?,
            "give --follow if the run was made with it, bring the file and its subdir call back, or remove meson.rewrite-log and use git",
        ))),
        SpliceFault::OutOfRange(name, at) => Ok(Some((
            format!(in alloc; "the log has bytes at {at} of {name}, which ends before them")?,
            TAKE_BACK,
        ))),
        SpliceFault::Stale(name, at) => Ok(Some((
            format!(in alloc; "at byte {at} of {name} are other bytes than the log has")?,
            TAKE_BACK,
        ))),
        SpliceFault::NothingToUndo => Ok(Some((
            String::from_str(
                alloc,
                "the log has no run to take back, or fewer than the words say",
            )?,
            KEPT_RUNS,
        ))),
        SpliceFault::NothingToRedo => Ok(Some((
            String::from_str(alloc, "no run was taken back since the newest one")?,
            KEPT_RUNS,
        ))),
        SpliceFault::OutOfMemory => Ok(None),
    }
}

/// The advice of these words, if there are some.
fn words_advice(
    alloc: Global,
    json: bool,
    run: &Option<LoggedRun>,
    words: Option<(String, &'static str)>,
) -> Result<Option<Advice>, AllocError>
    ensures { IfOk result (λ advice. advice ≡ words_advice json run.now (option_map (λ w. (string_bytes w.0, w.1.now)) words.entry)) }
{
    match words {
        Some((note, help)) => Ok(Some(plain_advice(alloc, json, note, run, help)?)),
        None => Ok(None),
    }
}

/// What explains that a log cannot be read; nothing of a script.
fn log_advice(alloc: Global, json: bool, fault: &ScriptFault) -> Result<Option<Advice>, AllocError>
    ensures { IfOk result (λ advice. advice ≡ log_advice json fault.now) }
{
    match fault {
        ScriptFault::BadLog => {
            let note = String::from_str(alloc, NO_LOG)?;
            let advice = plain_advice(alloc, json, note, &None, MOVE_AWAY)?;
            Ok(Some(advice))
        }
        _ => Ok(None),
    }
}

/// What explains a stop, if it is a fault of a file, of texts, of the log, of the store or of the number of files.
fn fault_advice(alloc: Global, json: bool, stop: &Stop) -> Result<Option<Advice>, AllocError>
    ensures { IfOk result (λ advice. advice ≡ fault_advice json stop.now) }
{
    match stop {
        Stop::Parse {
            name,
            text: FileText::Read(text),
            fault,
            ..
        } => {
            let advice = file_advice(alloc, json, name.get(), text.get(), *fault)?;
            Ok(Some(advice))
        }
        Stop::Parse {
            name,
            text: FileText::After(run),
            ..
        } => {
            let note = format!(in alloc; "{name} would be so after the step; no file was changed")?;
            let advice = plain_advice(alloc, json, note, run, TAKE_BACK)?;
            Ok(Some(advice))
        }
        Stop::TooManyFiles(_) => {
            let note = String::from_str(alloc, "a project has at most 1024 build files")?;
            let advice = plain_advice(alloc, json, note, &None, FOLDER_BELOW)?;
            Ok(Some(advice))
        }
        Stop::OtherFiles { name, .. } => {
            let note = format!(in alloc;
                "a build file was changed, added or removed since {name} was written, or it has other text"
            )?;
            let advice = plain_advice(alloc, json, note, &None, WHICH_FILE)?;
            Ok(Some(advice))
        }
        Stop::BadTexts(_) => {
            let note = String::from_str(alloc, TEXTS)?;
            let advice = plain_advice(alloc, json, note, &None, FILE_NAMES)?;
            Ok(Some(advice))
        }
        Stop::Script { fault, .. } => log_advice(alloc, json, fault),
        Stop::Splice(fault, run, _) => {
            words_advice(alloc, json, run, splice_words(alloc, fault)?)
        }
        Stop::Store { fault, .. } => words_advice(alloc, json, &None, store_words(alloc, fault)?),
        _ => Ok(None),
    }
}

/// A stop as it is reported: with what explains it, if the flags ask for that. If it is out of memory, no more is said than without it.
fn explained(alloc: Global, stop: Stop, flags: Flags) -> Stop
    ensures { IsExplained flags stop result }
{
    if !flags.explain {
        return stop;
    }
    match fault_advice(alloc, flags.json, &stop) {
        Ok(Some(advice)) => stop.advised(advice),
        Ok(None) => stop,
        Err(AllocError) => stop.advised(Advice::OutOfMemory),
    }
}

/// The ending of a request as it is reported.
pub(crate) fn reported(alloc: Global, end: Result<Said, Stop>, flags: Flags) -> Result<Said, Stop>
    ensures { IsReported flags end result }
{
    match end {
        Ok(said) => Ok(said),
        Err(stop) => Err(explained(alloc, stop, flags)),
    }
}
