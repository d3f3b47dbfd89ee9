//! The program, over any store and any two writers.

ghost use Rattle.std.specs.Prelude.{◌≡◌, ◌≤◌, ◌+◌, ◌⊎◌, ◌||◌, ℕ, Err, IfSome, IsTrue, None, Ok, OnOk};
ghost use Rattle.std.specs.Prelude.{map, option_map, string_bytes, true};
ghost use Rattle.meson_command.specs.Asking.{asked_by, only_asks, only_shows, wants_json, without_text};
ghost use Rattle.meson_command.specs.declared.fault.UsageFault.TheVariants.{OutOfMemory};
ghost use Rattle.meson_gathering.specs.Gathering.{named_folder};
ghost use Rattle.meson_json.specs.Titles.{is_title};
ghost use Rattle.meson_rewrite.specs.Remarks.{Advises, IsMisused, asks_to_explain};
ghost use Rattle.meson_rewrite.specs.declared.advice.Advice.TheVariants.{Nothing};
ghost use Rattle.meson_rewrite.specs.Logs.{log_use};
ghost use Rattle.meson_rewrite.specs.StoreReads.{MayRead, ReadsAll, ReadsAtMost, ReadsProject, unread_in};
ghost use Rattle.meson_rewrite.specs.StoreReads.{RunMayRead, RunReadsAll, TextsMayRead, TextsReadAll};
ghost use Rattle.meson_rewrite.specs.Steps.{IsTitled, only_tells};
ghost use Rattle.meson_rewrite.specs.Runs.{Ends, IsUnchanged, KeepsFiles, ListingEnds, NeedsNoStore, OnlyAsks, Run, RunReports, StepEnds};
ghost use Rattle.meson_rewrite.specs.Runs.{LeavesFiles, LeavesLog, RunEnds, TextsEnd, dir_of, wants_exit_code};
ghost use Rattle.meson_rewrite.specs.Texts.{laid};
ghost use Rattle.meson_rewrite.specs.declared.stop.Stop.TheVariants.{Usage};
ghost use Rattle.meson_store.specs.Seen.{seen, seen_by};
ghost use Rattle.meson_store.specs.Texts.{texts_over};

use crate::advice::Advice;
use crate::endings::{Ending, ended};
use crate::faults::reported;
use crate::listed::listed;
use crate::opening::open;
use crate::remarks::misuse_advice;
use crate::reports::told;
use crate::request::{Listing, ProgramRequest, Step, read_named, request_of};
use crate::said::Said;
use crate::steps::{edited, shown};
use crate::stop::Stop;
use crate::texts::texts_in;
use meson_command::{Asked, Flags, UsageFault, command_of, wants_json};
use meson_splice::{FileSet, Text};
use meson_store::{Below, Output, Overlaid, Store, commit};
use std::alloc::{AllocError, Global};
use std::marker::{Brand, PhantomData};

/// It writes nothing.
fn only_tells(step: &Step) -> bool
    ensures { result ≡ only_tells step.now }
{
    matches!(step, Step::Tell(_))
}

/// Does a step on the project of a folder, or in a dry run shows what it would change. The texts for it are made before anything is written.
fn do_step<S: Store>(
    alloc: Global,
    store: &mut S,
    dir: Option<&str>,
    step: &Step,
    flags: Flags,
) -> Result<Said, Stop>
    requires { IsTitled step.now }
    ensures ends { StepEnds (named_folder dir.entry) step.now flags (seen_by S.content S.failures S.replaces store.old)
        (seen_by S.content S.failures S.replaces store.new) result }
    ensures counts { S.failures store.old ≤ S.failures store.new }
    ensures reads { ReadsAtMost (log_use flags.no_log) flags.reading (S.content store.old) (named_folder dir.entry) (S.reads store.old)
        (S.reads store.new) (unread_in result) }
    ensures reads_all { OnOk result (ReadsProject (log_use flags.no_log) flags.reading (S.content store.old) (named_folder dir.entry) (S.reads store.old)
        (S.reads store.new)) }
{
    let opened = open(alloc, store, dir, flags)?;
    if only_tells(step) {
        return told(alloc, opened, step, flags);
    }
    if flags.dry_run {
        return shown(alloc, opened, step, flags);
    }
    let edit = edited(alloc, opened, step, flags)?;
    match commit(alloc, store, dir, &edit.before, &edit.after) {
        Ok(()) => Ok(edit.said),
        Err(fault) => Err(Stop::Store {
            fault,
            advice: Advice::Nothing,
        }),
    }
}

/// Lists something of the project of a folder.
fn list<S: Store>(
    alloc: Global,
    store: &mut S,
    dir: Option<&str>,
    listing: Listing,
    flags: Flags,
) -> Result<Said, Stop>
    ensures ends { ListingEnds (named_folder dir.entry) listing flags (seen_by S.content S.failures S.replaces store.old)
        (seen_by S.content S.failures S.replaces store.new) result }
    ensures counts { S.failures store.old ≤ S.failures store.new }
    ensures reads { ReadsAtMost (log_use flags.no_log) flags.reading (S.content store.old) (named_folder dir.entry) (S.reads store.old)
        (S.reads store.new) (unread_in result) }
    ensures reads_all { OnOk result (ReadsProject (log_use flags.no_log) flags.reading (S.content store.old) (named_folder dir.entry) (S.reads store.old)
        (S.reads store.new)) }
{
    let opened = open(alloc, store, dir, flags)?;
    listed(alloc, opened, listing, flags)
}

/// The name of the folder.
fn folder(dir: &Option<Text>) -> Option<&str>
    ensures { option_map (λ d. d.now) result ≡ dir.now }
{
    match dir {
        Some(dir) => Some(dir.get()),
        None => None,
    }
}

/// Answers the request by what the store holds. If it names texts, nothing is done about them.
fn answer<S: Store>(alloc: Global, store: &mut S, asked: Asked) -> Result<Said, Stop>
    requires { is_title asked.title ≡ true }
    ensures ends { Ends (Ok (without_text asked)) (seen_by S.content S.failures S.replaces store.old)
        (seen_by S.content S.failures S.replaces store.new) result }
    ensures untouched { IsTrue (only_shows asked.action) → store.new ≡ store.old }
    ensures reads { MayRead (Ok (without_text asked)) (S.content store.old) (S.reads store.old) (S.reads store.new) (unread_in result) }
    ensures reads_all { OnOk result (ReadsAll (Ok (without_text asked)) (S.content store.old) (S.reads store.old) (S.reads store.new)) }
{
    let Asked {
        dir,
        title,
        flags,
        texts: _,
        action,
    } = asked;
    match request_of(alloc, store, action, title, flags) {
        Ok(ProgramRequest::Show(text)) => Ok(Said::show(alloc, text)),
        Ok(ProgramRequest::Step(step)) => { do_step(alloc, store, folder(&dir), &step, flags) }
        Ok(ProgramRequest::List(listing)) => list(alloc, store, folder(&dir), listing, flags),
        Err(stop) => Err(stop),
    }
}

/// Answers the request over the texts, and hands the store back, of which this was known. `end` becomes the answer.
///
/// The two are apart, since a caller learns nothing of a reference that is returned together with memory.
fn answer_over<'a, S: Store, B: Below>(
    alloc: Global,
    store: &'a mut S,
    texts: &'a FileSet,
    asked: Asked,
    end: &mut Result<Said, Stop>,
) -> &'a mut S
    requires title { is_title asked.title ≡ true }
    requires asks { IsTrue (only_asks asked.action || asked.flags.dry_run) }
    requires same { store.ghost_name ≡ B.name }
    requires content { S.content store.old ≡ B.content }
    requires failures { S.failures store.old ≡ B.failures }
    requires reads { S.reads store.old ≡ B.reads }
    requires replaces { S.replaces store.old ≡ B.replaces }
    ensures same { result.ghost_name ≡ B.name }
    ensures ends { Ends (Ok (without_text asked)) (laid texts.now (seen B.content B.failures B.replaces))
        (laid texts.now (seen (S.content result.now) (S.failures result.now) (S.replaces result.now))) end.new }
    ensures kept { S.content result.now ≡ B.content }
    ensures counts { B.failures ≤ S.failures result.now }
    ensures no_replace { S.replaces result.now ≡ B.replaces }
    ensures reads { (n : ℕ) × (S.reads result.now ≤ B.reads + n)
        × MayRead (Ok (without_text asked)) (texts_over texts.now B.content) 0 n (unread_in end.new) }
    ensures reads_all { OnOk end.new ((n : ℕ) × (S.reads result.now ≤ B.reads + n)
        × ReadsAll (Ok (without_text asked)) (texts_over texts.now B.content) 0 n) }
{
    let failures = store.failures();
    let mut over: Overlaid<'a, S, B> = Overlaid {
        store,
        texts,
        failures,
        reads: 0,
        refused: 0,
        below: PhantomData,
    };
    *end = answer(alloc, &mut over, asked);
    let Overlaid { store, .. } = over;
    store
}

/// Answers the request with the texts of the file of this name, as if each were the file of its name. Nothing is written.
fn answer_with_texts<S: Store>(
    alloc: Global,
    store: &mut S,
    name: Text,
    asked: Asked,
) -> Result<Said, Stop>
    requires title { is_title asked.title ≡ true }
    requires asks { IsTrue (only_asks asked.action || asked.flags.dry_run) }
    ensures ends { TextsEnd (without_text asked) name (seen_by S.content S.failures S.replaces store.old)
        (seen_by S.content S.failures S.replaces store.new) result }
    ensures reads { TextsMayRead (without_text asked) name (S.content store.old) (S.reads store.old) (S.reads store.new) (unread_in result) }
    ensures reads_all { OnOk result (TextsReadAll (without_text asked) name (S.content store.old) (S.reads store.old) (S.reads store.new)) }
{
    let file = read_named(alloc, store, name)?;
    let texts = texts_in(alloc, folder(&asked.dir), file.bytes.get())?;
    // Until it is answered.
    let mut end = Err(Stop::BadTexts(Advice::Nothing));
    answer_over::<S, Brand>(alloc, store, &texts, asked, &mut end);
    end
}

/// Answers the request, with texts if it names a file of them.
fn respond<S: Store>(alloc: Global, store: &mut S, asked: Asked) -> Result<Said, Stop>
    requires title { is_title asked.title ≡ true }
    requires fits { IfSome asked.texts (λ _. IsTrue (only_asks asked.action || asked.flags.dry_run)) }
    requires none_shown { IsTrue (only_shows asked.action) → asked.texts ≡ None }
    ensures ends { RunEnds (Ok (without_text asked)) (seen_by S.content S.failures S.replaces store.old)
        (seen_by S.content S.failures S.replaces store.new) result }
    ensures untouched { IsTrue (only_shows asked.action) → store.new ≡ store.old }
    ensures reads { RunMayRead (Ok (without_text asked)) (S.content store.old) (S.reads store.old) (S.reads store.new) (unread_in result) }
    ensures reads_all { OnOk result (RunReadsAll (Ok (without_text asked)) (S.content store.old) (S.reads store.old) (S.reads store.new)) }
{
    let Asked {
        dir,
        title,
        flags,
        texts,
        action,
    } = asked;
    let plain = Asked {
        dir,
        title,
        flags,
        texts: None,
        action,
    };
    match texts {
        Some(name) => answer_with_texts(alloc, store, name, plain),
        None => answer(alloc, store, plain),
    }
}

/// The ending for words that are not a request.
fn misused(alloc: Global, words: &[String], fault: UsageFault) -> Ending
    ensures end { IsMisused (asks_to_explain (map string_bytes words.now)) (wants_json (map string_bytes words.now)) fault result.end }
    ensures json { (result.json ≡ wants_json (map string_bytes words.now)) ⊎ (result.end ≡ Err (Usage OutOfMemory Nothing)) }
{
    match wants_json(alloc, words) {
        Ok(json) => {
            let advice = misuse_advice(alloc, words, &fault, json);
            Ending {
                end: Err(Stop::Usage { fault, advice }),
                json,
                exit_code: false,
            }
        }
        Err(AllocError) => Ending {
            end: Err(Stop::Usage {
                fault: UsageFault::OutOfMemory,
                advice: Advice::Nothing,
            }),
            json: false,
            exit_code: false,
        },
    }
}

/// Answers the request of the words.
fn run<S: Store>(alloc: Global, store: &mut S, words: &[String]) -> Ending
    ensures ends { RunReports (asked_by (map string_bytes words.now)) (seen_by S.content S.failures S.replaces store.old)
        (seen_by S.content S.failures S.replaces store.new) result.end }
    ensures json { (result.json ≡ wants_json (map string_bytes words.now)) ⊎ (result.end ≡ Err (Usage OutOfMemory Nothing)) }
    ensures advised { Advises (asks_to_explain (map string_bytes words.now)) (wants_json (map string_bytes words.now))
        (asked_by (map string_bytes words.now)) result.end }
    ensures exit_code { OnOk result.end (result.exit_code ≡ wants_exit_code (asked_by (map string_bytes words.now))) }
    ensures untouched { NeedsNoStore (asked_by (map string_bytes words.now)) → store.new ≡ store.old }
    ensures reads { RunMayRead (asked_by (map string_bytes words.now)) (S.content store.old) (S.reads store.old) (S.reads store.new)
        (unread_in result.end) }
    ensures reads_all { OnOk result.end (RunReadsAll (asked_by (map string_bytes words.now)) (S.content store.old) (S.reads store.old) (S.reads store.new)) }
{
    match command_of(alloc, words) {
        Ok(asked) => {
            let flags = asked.flags;
            Ending {
                end: reported(alloc, respond(alloc, store, asked), flags),
                json: flags.json,
                exit_code: flags.exit_code,
            }
        }
        Err(fault) => misused(alloc, words, fault),
    }
}

/// Runs the program on these words, of which the first is its name. It reads the build files of a project in the store and does what the words request. It
/// replaces the files that changed and then the undo log. It writes what it did to `out`, and listings and faults to `err`. Where the words want JSON, it
/// writes one line of JSON in place of all this: to `out` if it was done, to `err` if it was stopped. Words with `--explain` that are not a request are
/// explained below the line of their fault, or in two members of its object. With it a run has its warnings too. Returns the exit status.
///
/// If it is done, the store is read once for the file that the words name, if they name one (a script, or digests). It is read once for the root file and once
/// for the log. It is read once for each name that a `subdir` call enters and for which no file was read before. Help and the version read nothing. If it ends
/// early, the store is read up to that point, and no more. The file that it reports as unreadable is the last that the store was queried for. With `--no-log`
/// the log is neither read nor replaced, and the history is the empty one.
///
/// If the words name a file of texts, that is read first, once. Then all is as if each text were the file of its name: what the store holds by that name is not
/// read, and nothing is written.
///
/// The status is 0 if it was done. It is 1 if a file, a script, the log or texts are not valid, a command is refused, or memory ran out. It is also 1 if files
/// do not have the digests that they should have. It is 2 if the words are not a request, and 3 if the store or a writer failed. With `--exit-code` it is 4 in
/// place of 0 if a build file has other bytes after it, or would have them after a run that is only shown. Help, the version, the listings, a dry run, and an
/// info command of the command line leave the store as it is, whatever the status.
pub fn rewrite<S: Store, O: Output, E: Output>(
    alloc: Global,
    store: &mut S,
    words: &[String],
    out: &mut O,
    err: &mut E,
) -> u8
    ensures runs { let known = seen_by S.content S.failures S.replaces in Run (asked_by (map string_bytes words.now)) (wants_json (map string_bytes words.now))
        (asks_to_explain (map string_bytes words.now)) (known store.old) (known store.new) (S.reads store.old) (S.reads store.new) result
        (O.heard out.old) (O.heard out.new) (E.heard err.old) (E.heard err.new) }
    ensures untouched { NeedsNoStore (asked_by (map string_bytes words.now)) → store.new ≡ store.old }
    ensures asking { OnlyAsks (asked_by (map string_bytes words.now)) → IsUnchanged (seen_by S.content S.failures S.replaces store.old)
        (seen_by S.content S.failures S.replaces store.new) }
    ensures kept { (result ≡ 1) ⊎ (result ≡ 2) → KeepsFiles (asked_by (map string_bytes words.now)) (seen_by S.content S.failures S.replaces store.old)
        (seen_by S.content S.failures S.replaces store.new) result }
    ensures no_log { LeavesLog (asked_by (map string_bytes words.now)) (seen_by S.content S.failures S.replaces store.old)
        (seen_by S.content S.failures S.replaces store.new) }
    ensures unchanged { (result ≡ 0) × (wants_exit_code (asked_by (map string_bytes words.now)) ≡ true)
        → LeavesFiles (dir_of (asked_by (map string_bytes words.now))) (seen_by S.content S.failures S.replaces store.old)
        (seen_by S.content S.failures S.replaces store.new) }
    ensures changed { (result ≡ 4) → wants_exit_code (asked_by (map string_bytes words.now)) ≡ true }
    ensures reads_all { (result ≡ 0) ⊎ (result ≡ 4) → RunReadsAll (asked_by (map string_bytes words.now)) (S.content store.old) (S.reads store.old)
        (S.reads store.new) }
{
    let ending = run(alloc, store, words);
    let status = ended(alloc, out, err, &ending);
    drop(ending);
    status
}
