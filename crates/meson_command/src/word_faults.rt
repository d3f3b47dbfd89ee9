//! What explains words that clap takes, and that are no request.

use crate::argument_faults::{explain_argument, explain_code, explain_sorted};
use crate::choices::{FUNCTIONS, KWARGS_OPERATIONS, OPTIONS_OPERATIONS, TARGET_OPERATIONS};
use crate::clap_faults::add_usage;
use crate::code_faults::{explain_code_words, explain_statements};
use crate::fault::UsageFault;
use crate::follow::follow_in;
use crate::keys::{explain_odd, explain_repeated};
use crate::shell::quoted;
use crate::subcommands::Subcommand;
use crate::words::{is_set, word_or};
use clap::ArgMatches;
use meson_json::Remarks;
use meson_json::count::count_of;
use meson_steps::source_change::SharedLists;
use std::alloc::{AllocError, Global};

/// The operation on a target that a word of another program, or of a script, means. Without sources the target itself is removed.
fn meant_for_target(word: &str, has_sources: bool) -> Option<&'static str> {
    match word {
        "remove" | "delete" | "del" if has_sources => Some("rm"),
        "remove" | "delete" | "del" => Some("rm_target"),
        "src_add" | "add_source" | "add_sources" => Some("add"),
        "src_rm" | "rm_source" | "rm_sources" => Some("rm"),
        "target_add" | "new" | "create" => Some("add_target"),
        "target_rm" => Some("rm_target"),
        "extra_files_add" => Some("add_extra_files"),
        "extra_files_rm" => Some("rm_extra_files"),
        "list" | "show" => Some("info"),
        _ => None,
    }
}

/// The operation on keyword arguments that a word of another kind means.
fn meant_for_kwargs(word: &str) -> Option<&'static str> {
    match word {
        "rm" => Some("remove"),
        "unset" | "del" => Some("delete"),
        "list" | "show" | "get" => Some("info"),
        _ => None,
    }
}

/// The function of `kwargs` that the name of a function of Meson means.
fn meant_function(word: &str) -> Option<&'static str> {
    match word {
        "executable" | "library" | "static_library" | "shared_library" => Some("target"),
        "both_libraries" | "shared_module" | "jar" => Some("target"),
        _ => None,
    }
}

/// Explains that the operation on a target is not known, that it does not take `--sorted`, or that `rename` has not two names.
fn explain_target(
    alloc: Global,
    remarks: &mut Remarks,
    words: &ArgMatches<'_>,
) -> Result<(), AllocError> {
    let operation = word_or(words, "OPERATION", "");
    let many = words.get_strs("SOURCE").map_or(0, |names| names.len());
    if TARGET_OPERATIONS.has(operation) {
        if is_set(words, "sorted") && operation != "add" {
            return explain_sorted(alloc, remarks, operation);
        }
        if operation == "rename" && many != 2 {
            return remarks.note_words(alloc, "rename takes two names, the old one and the new one");
        }
        return Ok(());
    }
    let id = word_or(words, "ID", "");
    if TARGET_OPERATIONS.has(id) {
        let operation = quoted(alloc, operation)?;
        remarks.help(format!(in alloc;
            "the id goes before the operation: meson_rewrite target {operation} {id} .."
        )?)?;
    }
    let has_sources = words.get_strs("SOURCE").is_some();
    let meant = meant_for_target(operation, has_sources);
    TARGET_OPERATIONS.refuse(alloc, remarks, operation, meant)
}

/// Explains that the operation or the function of `kwargs` is not known.
fn explain_kwargs(
    alloc: Global,
    remarks: &mut Remarks,
    words: &ArgMatches<'_>,
) -> Result<(), AllocError> {
    let operation = word_or(words, "OPERATION", "");
    let function = word_or(words, "FUNCTION", "");
    if !KWARGS_OPERATIONS.has(operation) && operation != "remove_regex" {
        if KWARGS_OPERATIONS.has(function) {
            let operation = quoted(alloc, operation)?;
            remarks.help(format!(in alloc;
                "the operation goes before the function: meson_rewrite kwargs {function} {operation} .."
            )?)?;
        }
        let meant = meant_for_kwargs(operation);
        return KWARGS_OPERATIONS.refuse(alloc, remarks, operation, meant);
    }
    if !FUNCTIONS.has(function) {
        return FUNCTIONS.refuse(alloc, remarks, function, meant_function(function));
    }
    Ok(())
}

/// Explains that the operation of `default-options` is not known.
fn explain_options(
    alloc: Global,
    remarks: &mut Remarks,
    words: &ArgMatches<'_>,
) -> Result<(), AllocError> {
    let operation = word_or(words, "OPERATION", "");
    if OPTIONS_OPERATIONS.has(operation) {
        return Ok(());
    }
    let meant = match operation {
        "add" => Some("set"),
        "remove" | "rm" => Some("unset"),
        _ => None,
    };
    OPTIONS_OPERATIONS.refuse(alloc, remarks, operation, meant)
}

/// Explains that the word of `--to` is not a number of runs.
fn explain_undo(
    alloc: Global,
    remarks: &mut Remarks,
    words: &ArgMatches<'_>,
) -> Result<(), AllocError> {
    let Some(word) = words.get_str("N") else {
        return Ok(());
    };
    if count_of(word).is_none() {
        remarks.note(format!(in alloc; "{word} is not a number of runs")?)?;
        remarks.help_words(alloc, "--to takes a number from 1, as history lists them")?;
    }
    Ok(())
}

/// Explains that the word of `--forget` is not a number of runs.
fn explain_history(
    alloc: Global,
    remarks: &mut Remarks,
    words: &ArgMatches<'_>,
) -> Result<(), AllocError> {
    let Some(word) = words.get_str("N") else {
        return Ok(());
    };
    if count_of(word).is_none() && word != "all" {
        remarks.note(format!(in alloc; "{word} is not a number of runs")?)?;
        remarks.help_words(alloc, "--forget takes a number from 1, or all")?;
    }
    Ok(())
}

/// Explains that two listings are requested, or one of a function without a name.
fn explain_list(
    alloc: Global,
    remarks: &mut Remarks,
    words: &ArgMatches<'_>,
) -> Result<(), AllocError> {
    let function = words.get_str("FUNCTION");
    let sums = is_set(words, "sums");
    if sums && function.is_some() {
        remarks.note_words(alloc, "--sums and --of list different things")?;
        return remarks.help_words(alloc, "list them by two calls");
    }
    if sums && is_set(words, "json") {
        remarks.note_words(alloc, "--sums has no form in JSON")?;
        return remarks.help_words(alloc, "leave out --json or --sums");
    }
    if let Some("") = function {
        remarks.note_words(alloc, "--of has no function")?;
        return remarks.help_words(
            alloc,
            "write the name of a function, as dependency, or variable",
        );
    }
    Ok(())
}

/// Explains that texts are named for what writes, or that standard input would be read twice.
fn explain_texts(
    alloc: Global,
    remarks: &mut Remarks,
    matches: &ArgMatches<'_>,
) -> Result<(), AllocError> {
    if is_set(matches, "dry-run") {
        remarks.note_words(alloc, "standard input would be read twice")?;
        return remarks.help_words(alloc, "name a file in place of one -");
    }
    remarks.note_words(alloc, "--texts is given with words that write")?;
    remarks.help_words(alloc, "--texts goes with --dry-run, list, history and info")
}

/// Whether a folder may be named for the words of a subcommand.
fn takes_folder(subcommand: Option<Subcommand>, words: &ArgMatches<'_>) -> bool {
    match subcommand {
        Some(Subcommand::Argument | Subcommand::Kwargs) => true,
        Some(Subcommand::Code) => word_or(words, "OPERATION", "") != "append",
        Some(Subcommand::Target) => word_or(words, "OPERATION", "") != "add_target",
        _ => false,
    }
}

/// Whether `--follow` may be given for the words of a subcommand that changes no sources.
fn takes_follow(subcommand: Option<Subcommand>, words: &ArgMatches<'_>) -> bool {
    match subcommand {
        Some(Subcommand::Target) => word_or(words, "OPERATION", "") == "info",
        Some(Subcommand::Command | Subcommand::Undo | Subcommand::Redo) => true,
        Some(Subcommand::History | Subcommand::List) => true,
        _ => false,
    }
}

/// Whether the words of a subcommand add sources to a target, remove some or rename one.
fn changes_sources(subcommand: Option<Subcommand>, words: &ArgMatches<'_>) -> bool {
    match subcommand {
        Some(Subcommand::Target) => matches!(
            word_or(words, "OPERATION", ""),
            "add" | "rm" | "rename"
        ),
        _ => false,
    }
}

/// Explains that `--follow` is given with words that do not take it. Returns whether it is.
fn explain_follow(
    alloc: Global,
    remarks: &mut Remarks,
    lists: SharedLists,
    subcommand: Option<Subcommand>,
    words: &ArgMatches<'_>,
) -> Result<bool, AllocError> {
    if changes_sources(subcommand, words) {
        if !is_set(words, "sorted") {
            return Ok(false);
        }
        remarks.note_words(alloc, "--sorted is given with --follow")?;
        remarks.help_words(
            alloc,
            "leave out --sorted: where variables are followed, order is not looked at",
        )?;
        return Ok(true);
    }
    match lists {
        SharedLists::Kept if takes_follow(subcommand, words) => return Ok(false),
        SharedLists::Kept => {
            remarks.note_words(alloc, "--follow is given with words that do not take it")?;
            remarks.help_words(
                alloc,
                "--follow goes with target ID add, rm, rename and info, list, history, undo, redo and command",
            )?;
        }
        SharedLists::Changed => {
            remarks.note_words(
                alloc,
                "--follow=shared is given with words that do not take it",
            )?;
            remarks.help_words(
                alloc,
                "--follow=shared goes with target ID add, rm and rename",
            )?;
        }
    }
    Ok(true)
}

/// Explains words that are wrong usage.
fn explain_usage(
    alloc: Global,
    remarks: &mut Remarks,
    matches: &ArgMatches<'_>,
    subcommand: Option<Subcommand>,
    words: &ArgMatches<'_>,
) -> Result<(), AllocError> {
    if let Some("") = matches.get_str("DIR") {
        remarks.note_words(alloc, "--sourcedir is empty")?;
        return remarks.help_words(alloc, "leave it out for the working folder");
    }
    if let Some(lists) = follow_in(matches) {
        if explain_follow(alloc, remarks, lists, subcommand, words)? {
            return Ok(());
        }
    }
    if matches.get_str("FOLDER").is_some() && !takes_folder(subcommand, words) {
        remarks.note_words(alloc, "--in is given with words that take no folder")?;
        return remarks.help_words(
            alloc,
            "--in FOLDER goes with arg, kwargs, code but append, and target but add_target, which takes --subdir",
        );
    }
    match subcommand {
        Some(Subcommand::Target) => explain_target(alloc, remarks, words)?,
        Some(Subcommand::Kwargs) => explain_kwargs(alloc, remarks, words)?,
        Some(Subcommand::Argument) => explain_argument(alloc, remarks, words)?,
        Some(Subcommand::Code) => explain_code_words(alloc, remarks, words)?,
        Some(Subcommand::DefaultOptions) => explain_options(alloc, remarks, words)?,
        Some(Subcommand::Undo) => explain_undo(alloc, remarks, words)?,
        Some(Subcommand::History) => explain_history(alloc, remarks, words)?,
        Some(Subcommand::List) => explain_list(alloc, remarks, words)?,
        _ => {}
    }
    if remarks.notes.is_empty() {
        explain_texts(alloc, remarks, matches)?;
    }
    Ok(())
}

/// Explains that the title is not valid.
fn explain_title(alloc: Global, remarks: &mut Remarks, title: &str) -> Result<(), AllocError> {
    let bytes = title.as_bytes();
    let control = bytes.iter().position(|byte| *byte < 32 || *byte == 127);
    match control {
        Some(at) => remarks.note(format!(in alloc;
            "the title has a control character at byte {at}"
        )?)?,
        None => {
            let len = bytes.len();
            remarks.note(format!(in alloc; "the title has {len} bytes")?)?
        }
    }
    remarks.help_words(
        alloc,
        "a title has at most 200 bytes, and no line end or other control character",
    )
}

/// Explains that an operation is known, but not done here.
fn explain_unsupported(alloc: Global, remarks: &mut Remarks) -> Result<(), AllocError> {
    remarks.note_words(alloc, "remove_regex is an operation of other rewriters")?;
    remarks.help_words(
        alloc,
        "kwargs info lists the values, and kwargs remove removes each of them",
    )
}

/// Explains words that clap takes, by what was found of them and by their fault.
pub(crate) fn explain_taken(
    alloc: Global,
    remarks: &mut Remarks,
    matches: &ArgMatches<'_>,
    fault: &UsageFault,
) -> Result<(), AllocError> {
    let Some((name, words)) = matches.subcommand() else {
        return add_usage(alloc, remarks, None);
    };
    let subcommand = Subcommand::from_word(name);
    match fault {
        UsageFault::Usage => explain_usage(alloc, remarks, matches, subcommand, words)?,
        UsageFault::OddWords => explain_odd(alloc, remarks, subcommand, words)?,
        UsageFault::RepeatedKey => explain_repeated(alloc, remarks, subcommand, words)?,
        UsageFault::Unsupported => explain_unsupported(alloc, remarks)?,
        UsageFault::BadTitle => explain_title(alloc, remarks, word_or(matches, "TEXT", ""))?,
        UsageFault::NotCode => match subcommand {
            Some(Subcommand::Code) => explain_statements(alloc, remarks, words)?,
            _ => explain_code(alloc, remarks, words)?,
        },
        UsageFault::OutOfMemory => {}
    }
    add_usage(alloc, remarks, subcommand)
}
