//! The request of a command line.

ghost use Rattle.std.specs.Prelude.{◌≡◌, ◌≢◌, [], Err, IfErr, IfOk, None, Ok, false, true, map, option_map, string_bytes};
ghost use Rattle.clap.specs.Words.{Row, Text as Word, found_of, rows_of, subcommand_rows_of, takes};
ghost use Rattle.meson_json.specs.Titles.{is_title};
ghost use Rattle.meson_command.specs.Actions.{action_of, other_action};
ghost use Rattle.meson_command.specs.Arguments.{action_within, takes_folder};
ghost use Rattle.meson_command.specs.Asking.{asked_as, asked_by, asked_from, asked_of, flags_in, names_no_folder, no_flags, only_asks, reads_input, takes_texts, texts_fit, without_text};
ghost use Rattle.meson_command.specs.Program.{program};
ghost use Rattle.meson_command.specs.Spelling.{clap_words};
ghost use Rattle.meson_command.specs.declared.fault.UsageFault.TheVariants.{BadTitle, OutOfMemory, Usage};

use crate::argument::argument_action;
use crate::code::code_action;
use crate::fault::UsageFault;
use crate::follow::{follow_in, misplaces_follow};
use crate::history::{history_action, list_action, undo_action};
use crate::kwargs::kwargs_action;
use crate::operations::find_target_operation;
use crate::options::options_action;
use crate::program::named_program;
use crate::script::script_action;
use crate::spelling::clap_words;
use crate::target::target_action;
use crate::words::{is_set, word_or};
use clap::ArgMatches;
use clap::error::ErrorKind;
use meson_calls::Reading;
use meson_json::names::{CodeOperation, find_code_operation};
use meson_json::target::{TargetOperation, reading_of};
use meson_json::{Script, UnknownMembers, is_title, owned};
use meson_splice::Text;
use meson_steps::command::Command;
use meson_steps::source_change::SharedLists;
use std::alloc::Global;

/// What is to be done.
#[derive(Drop)]
pub enum Action {
    /// Run these commands.
    Run(Script),
    /// List what this command reports, and change nothing.
    Info(Command),
    /// Run the commands of this JSON text.
    ScriptText { text: Text, unknown: UnknownMembers },
    /// Run the commands in the file of this name; a folder reads `-` from standard input.
    ScriptFile { name: Text, unknown: UnknownMembers },
    /// Take back the newest change.
    Undo,
    /// Take back this number of the newest changes: all of them or none.
    UndoTo(usize),
    /// Take back this number of the newest changes, all of them or none, if the files have the digests in the file of this name. A folder reads `-` from
    /// standard input.
    UndoChecked { count: usize, sums: Text },
    /// Do again the change that was taken back last.
    Redo,
    /// List what can be taken back and done again, and change nothing.
    History,
    /// Drop from the log this number of the oldest changes that can be taken back.
    ForgetOldest(usize),
    /// Drop all changes from the log, those that can be done again too.
    ForgetAll,
    /// List the targets and files of the project, and the `subdir` calls that were not entered, as JSON or as lines; change nothing.
    List { json: bool },
    /// List the calls of this function, as JSON or as lines; change nothing.
    ListCalls { function: Text, json: bool },
    /// List the assignments of the project, as JSON or as lines; change nothing.
    ListAssignments { json: bool },
    /// List the digests of the files, and change nothing.
    Sums,
    /// Print this text.
    Help(Text),
    /// Print the program's name and version.
    Version,
}

/// The options before the subcommand that have no value.
#[derive(Clone, Copy)]
pub struct Flags {
    /// Whether the change is shown, and not done.
    pub dry_run: bool,
    /// Whether it is answered in JSON.
    pub json: bool,
    /// Whether a refusal is explained.
    pub explain: bool,
    /// Whether the status says that a build file was changed.
    pub exit_code: bool,
    /// Whether the undo log is left alone.
    pub no_log: bool,
    /// How the build files are read.
    pub reading: Reading,
}

/// The request of a command line.
#[derive(Drop)]
pub struct Asked {
    /// The folder of the root file, if one is named.
    pub dir: Option<Text>,
    /// What the run is for; empty if no title is given.
    pub title: Text,
    pub flags: Flags,
    /// The name of a file of texts that stand in place of those of the project's files, if one is named. A folder reads `-` from standard input.
    pub texts: Option<Text>,
    pub action: Action,
}

/// The request of the words of a subcommand that makes no command.
#[tactic(auto, unfolding(crate::specs::Actions::other_action))]
fn other_action(
    alloc: Global,
    subcommand: &str,
    matches: &ArgMatches<'_>,
) -> Result<Action, UsageFault>
    ensures ok { IfOk result (λ a. other_action subcommand.now (rows_of (found_of matches.now)) ≡ Ok a) }
    ensures refused { IfErr result (λ e. e ≢ OutOfMemory → other_action subcommand.now (rows_of (found_of matches.now)) ≡ Err e) }
{
    if subcommand == "undo" {
        undo_action(alloc, matches)
    } else if subcommand == "redo" {
        Ok(Action::Redo)
    } else if subcommand == "history" {
        history_action(matches)
    } else if subcommand == "list" {
        list_action(alloc, matches)
    } else {
        Err(UsageFault::Usage)
    }
}

/// The request of the words of a subcommand.
#[tactic(auto, unfolding(crate::specs::Actions::action_of))]
fn action_of(
    alloc: Global,
    folder: Option<&str>,
    follow: Option<SharedLists>,
    subcommand: &str,
    matches: &ArgMatches<'_>,
) -> Result<Action, UsageFault>
    ensures ok { IfOk result (λ a. action_of (option_map (λ w. w.now) folder.entry) follow subcommand.now (rows_of (found_of matches.now)) ≡ Ok a) }
    ensures refused { IfErr result (λ e. e ≢ OutOfMemory
        → action_of (option_map (λ w. w.now) folder.entry) follow subcommand.now (rows_of (found_of matches.now)) ≡ Err e) }
{
    if subcommand == "target" {
        target_action(alloc, folder, follow, matches)
    } else if subcommand == "kwargs" {
        kwargs_action(alloc, folder, matches)
    } else if subcommand == "default-options" {
        options_action(alloc, matches)
    } else if subcommand == "command" {
        Ok(script_action(alloc, matches)?)
    } else {
        other_action(alloc, subcommand, matches)
    }
}

/// Whether a folder may be named before another subcommand than `arg`: `kwargs` takes one, and so do the operations on a target that is there and the
/// insertions beside a statement.
fn takes_folder(subcommand: &str, matches: &ArgMatches<'_>) -> bool
    ensures { result ≡ takes_folder subcommand.now (rows_of (found_of matches.now)) }
{
    if subcommand == "kwargs" {
        return true;
    }
    let word = word_or(matches, "OPERATION", "");
    if subcommand == "target" {
        let operation = find_target_operation(word);
        return !matches!(operation, Some(TargetOperation::TargetAdd));
    }
    let operation = find_code_operation(word);
    subcommand == "code" && !matches!(operation, Some(CodeOperation::Append))
}

/// The request of a subcommand's words, in the folder that is named before it, and with variables followed so, if it takes that.
#[tactic(auto, unfolding(crate::specs::Arguments::action_within))]
fn action_within(
    alloc: Global,
    folder: Option<&str>,
    follow: Option<SharedLists>,
    subcommand: &str,
    matches: &ArgMatches<'_>,
) -> Result<Action, UsageFault>
    ensures ok { IfOk result (λ a. action_within (option_map (λ w. w.now) folder.entry) follow subcommand.now (rows_of (found_of matches.now)) ≡ Ok a) }
    ensures refused { IfErr result (λ e. e ≢ OutOfMemory
        → action_within (option_map (λ w. w.now) folder.entry) follow subcommand.now (rows_of (found_of matches.now)) ≡ Err e) }
{
    if misplaces_follow(follow, subcommand, matches) {
        Err(UsageFault::Usage)
    } else if subcommand == "arg" {
        argument_action(alloc, folder, matches)
    } else if folder.is_some() && !takes_folder(subcommand, matches) {
        Err(UsageFault::Usage)
    } else if subcommand == "code" {
        code_action(alloc, folder, matches)
    } else {
        action_of(alloc, folder, follow, subcommand, matches)
    }
}

/// The folder that is named, if any.
fn folder(alloc: Global, dir: Option<&str>) -> Result<Option<Text>, UsageFault>
    ensures ok { IfOk result (λ d. (names_no_folder (option_map (λ w. w.now) dir.entry) ≡ false) × (d ≡ option_map (λ w. w.now) dir.entry)) }
    ensures refused { IfErr result (λ e. e ≢ OutOfMemory → (e ≡ Usage) × (names_no_folder (option_map (λ w. w.now) dir.entry) ≡ true)) }
{
    match dir {
        Some("") => Err(UsageFault::Usage),
        Some(word) => Ok(Some(owned(alloc, word)?)),
        None => Ok(None),
    }
}

/// Whether it changes nothing: help, the version, a listing, or what an info command reports.
fn only_asks(action: &Action) -> bool
    ensures { result ≡ only_asks action.now }
{
    match action {
        Action::Info(_) | Action::History | Action::Sums => true,
        Action::List { .. } | Action::ListCalls { .. } | Action::ListAssignments { .. } => true,
        Action::Help(_) | Action::Version => true,
        _ => false,
    }
}

/// Whether it reads standard input, where that is what a store has by the name `-`.
fn reads_input(action: &Action) -> bool
    ensures { result ≡ reads_input action.now }
{
    match action {
        Action::ScriptFile { name, .. } => name.get() == "-",
        Action::UndoChecked { sums, .. } => sums.get() == "-",
        _ => false,
    }
}

/// Whether a file of texts may be named for the action: it writes nothing, and standard input is not to be read twice.
fn takes_texts(action: &Action, word: &str, dry_run: bool) -> bool
    ensures { result ≡ takes_texts action.now word.now dry_run }
{
    (dry_run || only_asks(action)) && !(word == "-" && reads_input(action))
}

/// The name of the file of texts, if one is named.
fn texts_for(
    alloc: Global,
    action: &Action,
    word: Option<&str>,
    dry_run: bool,
) -> Result<Option<Text>, UsageFault>
    ensures ok { IfOk result (λ t. (texts_fit action.now (option_map (λ w. w.now) word.entry) dry_run ≡ true) × (t ≡ option_map (λ w. w.now) word.entry)) }
    ensures refused { IfErr result (λ e. e ≢ OutOfMemory → (e ≡ Usage) × (texts_fit action.now (option_map (λ w. w.now) word.entry) dry_run ≡ false)) }
{
    let Some(word) = word else {
        return Ok(None);
    };
    if !takes_texts(action, word, dry_run) {
        return Err(UsageFault::Usage);
    }
    Ok(Some(owned(alloc, word)?))
}

/// The flags that are there.
fn flags_in(matches: &ArgMatches<'_>) -> Flags
    ensures { result ≡ flags_in (rows_of (found_of matches.now)) }
{
    Flags {
        dry_run: is_set(matches, "dry-run"),
        json: is_set(matches, "json"),
        explain: is_set(matches, "explain"),
        exit_code: is_set(matches, "exit-code"),
        no_log: is_set(matches, "no-log"),
        reading: reading_of(follow_in(matches)),
    }
}

/// What was read before the title, and the given title.
fn with_title<T: Drop>(alloc: Global, read: T, word: &str) -> Result<(T, Text), UsageFault>
    ensures read { IfOk result (λ p. p.0 ≡ read) }
    ensures ok { IfOk result (λ p. (is_title p.1 ≡ true) × (p.1 ≡ word.now)) }
    ensures refused { IfErr result (λ e. e ≢ OutOfMemory → (e ≡ BadTitle) × (is_title word.now ≡ false)) }
{
    if !is_title(word) {
        return Err(UsageFault::BadTitle);
    }
    let title = owned(alloc, word)?;
    Ok((read, title))
}

/// The request of words that clap took.
#[tactic(auto, unfolding(crate::specs::Asking::asked_from))]
pub(crate) fn asked_from(alloc: Global, matches: &ArgMatches<'_>) -> Result<Asked, UsageFault>
    ensures ok { IfOk result (λ a. asked_from (rows_of (found_of matches.now)) (subcommand_rows_of matches.now) ≡ Ok a) }
    ensures refused { IfErr result (λ e. e ≢ OutOfMemory → asked_from (rows_of (found_of matches.now)) (subcommand_rows_of matches.now) ≡ Err e) }
    ensures title { IfOk result (λ a. is_title a.title ≡ true) }
{
    let Some((subcommand, words)) = matches.subcommand() else {
        return Err(UsageFault::Usage);
    };
    let dir = folder(alloc, matches.get_str("DIR"))?;
    let follow = follow_in(matches);
    let action = action_within(alloc, matches.get_str("FOLDER"), follow, subcommand, words)?;
    let flags = flags_in(matches);
    let texts = texts_for(alloc, &action, matches.get_str("FILE"), flags.dry_run)?;
    let word = word_or(matches, "TEXT", "");
    let titled = with_title(alloc, (dir, texts, action), word)?;
    let ((dir, texts, action), title) = titled;
    Ok(Asked {
        dir,
        title,
        flags,
        texts,
        action,
    })
}

/// The request of words that clap answers itself: without a folder, and without a title.
fn shown(alloc: Global, action: Action) -> Asked
    ensures { result ≡ record { dir = None; title = []; flags = no_flags; texts = None; action = action } }
{
    Asked {
        dir: None,
        title: Text::of(String::new(alloc)),
        flags: Flags {
            dry_run: false,
            json: false,
            explain: false,
            exit_code: false,
            no_log: false,
            reading: Reading::Written,
        },
        texts: None,
        action,
    }
}

/// The request of words as clap gets them.
fn asked_as(alloc: Global, words: &[&str]) -> Result<Asked, UsageFault>
    ensures ok { IfOk result (λ a. asked_as (map (λ w. w.now) words.now) ≡ Ok (without_text a)) }
    ensures refused { IfErr result (λ e. e ≢ OutOfMemory → asked_as (map (λ w. w.now) words.now) ≡ Err e) }
    ensures taken { takes program (map (λ w. w.now) words.now) ≡ true → IfOk result (λ a. asked_of (map (λ w. w.now) words.now) ≡ Ok a) }
    ensures taken_refused { takes program (map (λ w. w.now) words.now) ≡ true
        → IfErr result (λ e. e ≢ OutOfMemory → asked_of (map (λ w. w.now) words.now) ≡ Err e) }
    ensures title { IfOk result (λ a. is_title a.title ≡ true) }
{
    let command = named_program(alloc)?;
    match command.try_get_matches_from(words) {
        Ok(matches) => asked_from(alloc, &matches),
        Err(error) => match error.kind() {
            ErrorKind::OutOfMemory => Err(UsageFault::OutOfMemory),
            ErrorKind::DisplayHelp => {
                let text = Text::of(error.to_string(alloc)?);
                Ok(shown(alloc, Action::Help(text)))
            }
            ErrorKind::DisplayVersion => Ok(shown(alloc, Action::Version)),
            _ => Err(UsageFault::Usage),
        },
    }
}

/// The request of the words of a command line, of which the first is the program's name. They are those of the Rewriter page of the Meson manual; `undo`,
/// `redo`, `history`, `list`, `unset`, `--title`, `--dry-run`, `--json`, `--explain`, `--exit-code`, `--no-log`, `--texts`, `--strict`, `--subdir`,
/// `--type`, `--sorted`, `arg`, `code`, `--in` and `--follow` are this program's own. Values, ids and names are passed on as given.
///
/// # Errors
/// The first of these faults, in this order. A word is missing, unknown or one too many, a number or a place is not valid, two listings are requested or one
/// of a function without a name, the folder is empty, `--follow` goes with other words than `target ID add`, `rm` and `rename` without `--sorted`,
/// `target ID info`, `list`, `history`, `undo`, `redo` and `command`, `--follow=shared` with others than the first three, or `--in` with words that take no
/// folder. In words that are names with values, the last name has no value. A name is repeated. The operation is not done here. A value of `arg` is not code.
/// Its values are more or fewer than its operation takes, or it does not take `--after` or `--sorted`. The code of `code` is not statements. Texts are named
/// for what writes, or standard input would be read twice. The title is not valid. And out of memory, at any time.
pub fn command_of(alloc: Global, words: &[String]) -> Result<Asked, UsageFault>
    ensures ok { IfOk result (λ a. asked_by (map string_bytes words.now) ≡ Ok (without_text a)) }
    ensures refused { IfErr result (λ e. e ≢ OutOfMemory → asked_by (map string_bytes words.now) ≡ Err e) }
    ensures taken { takes program (clap_words (map string_bytes words.now)) ≡ true
        → IfOk result (λ a. asked_of (clap_words (map string_bytes words.now)) ≡ Ok a) }
    ensures taken_refused { takes program (clap_words (map string_bytes words.now)) ≡ true
        → IfErr result (λ e. e ≢ OutOfMemory → asked_of (clap_words (map string_bytes words.now)) ≡ Err e) }
    ensures title { IfOk result (λ a. is_title a.title ≡ true) }
{
    let given = clap_words(alloc, words)?;
    asked_as(alloc, given.as_slice())
}
