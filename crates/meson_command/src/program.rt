//! The words that the program takes, as they are declared to clap.

ghost use Rattle.std.specs.Prelude.{◌≡◌, IfOk, false};
ghost use Rattle.clap.specs.Words.{App, app_of, new_app, rule_of, with_rule, with_subcommand};
ghost use Rattle.meson_command.specs.Program.{IsToldToClap, argument, code, command, default_options, ending_word, flag, help, history, kwargs, list, many, required_word, option, own_words, program, redo, short_flag, short_option, target, undo, version, with_alias, word};

use crate::{code_help, help};
use clap::{Arg, ArgAction, Command};
use std::alloc::{AllocError, Global};

/// A command, with its description and the text below its words.
fn described<'h>(alloc: Global, name: &'h str, about: &'h str, below: &'h str) -> Command<'h>
    ensures { IsToldToClap (new_app name.entry.now) result }
{
    Command::new(alloc, name).about(about).after_help(below)
}

/// The command with another name, which help does not list.
fn with_alias<'h>(command: Command<'h>, alias: &'h str) -> Result<Command<'h>, AllocError>
    ensures { (a : App) → IsToldToClap a command.entry → IfOk result (IsToldToClap (with_alias alias.entry.now a)) }
{
    command.alias(alias)
}

/// With an argument, if there is a command: only here it is checked whether an allocation failed before.
fn with_arg<'h>(
    command: Result<Command<'h>, AllocError>,
    arg: Arg<'h>,
) -> Result<Command<'h>, AllocError>
    requires { arg.global ≡ false }
    ensures { (a : App) → IfOk command.entry (IsToldToClap a) → IfOk result (IsToldToClap (with_rule a (rule_of arg.entry))) }
{
    command?.arg(arg)
}

/// With a required word.
fn with_one<'h>(
    alloc: Global,
    command: Result<Command<'h>, AllocError>,
    name: &'h str,
    about: &'h str,
) -> Result<Command<'h>, AllocError>
    ensures { (a : App) → IfOk command.entry (IsToldToClap a) → IfOk result (IsToldToClap (with_rule a (required_word name.entry.now))) }
{
    let arg = Arg::new(alloc, name).required(true).action(ArgAction::Set);
    with_arg(command, arg.help(about))
}

/// With a word that may be left out.
fn with_optional<'h>(
    alloc: Global,
    command: Result<Command<'h>, AllocError>,
    name: &'h str,
    about: &'h str,
) -> Result<Command<'h>, AllocError>
    ensures { (a : App) → IfOk command.entry (IsToldToClap a) → IfOk result (IsToldToClap (with_rule a (word name.entry.now))) }
{
    let arg = Arg::new(alloc, name).action(ArgAction::Set);
    with_arg(command, arg.help(about))
}

/// With a required word after which no word is an option.
fn with_ending<'h>(
    alloc: Global,
    command: Result<Command<'h>, AllocError>,
    name: &'h str,
    about: &'h str,
) -> Result<Command<'h>, AllocError>
    ensures { (a : App) → IfOk command.entry (IsToldToClap a) → IfOk result (IsToldToClap (with_rule a (ending_word name.entry.now))) }
{
    let arg = Arg::new(alloc, name).required(true).action(ArgAction::Set);
    with_arg(command, arg.trailing_var_arg(true).help(about))
}

/// With any number of words.
fn with_many<'h>(
    alloc: Global,
    command: Result<Command<'h>, AllocError>,
    name: &'h str,
    about: &'h str,
) -> Result<Command<'h>, AllocError>
    ensures { (a : App) → IfOk command.entry (IsToldToClap a) → IfOk result (IsToldToClap (with_rule a (many name.entry.now))) }
{
    let arg = Arg::new(alloc, name).action(ArgAction::Append).help(about);
    with_arg(command, arg)
}

/// With an option that has one value.
fn with_option<'h>(
    alloc: Global,
    command: Result<Command<'h>, AllocError>,
    name: &'h str,
    long: &'h str,
    about: &'h str,
) -> Result<Command<'h>, AllocError>
    ensures { (a : App) → IfOk command.entry (IsToldToClap a) → IfOk result (IsToldToClap (with_rule a (option name.entry.now long.entry.now))) }
{
    let arg = Arg::new(alloc, name).long(long).action(ArgAction::Set);
    with_arg(command, arg.help(about))
}

/// With an option that has one value, and a short name.
fn with_short_option<'h>(
    alloc: Global,
    command: Result<Command<'h>, AllocError>,
    name: &'h str,
    long: &'h str,
    short: char,
    about: &'h str,
) -> Result<Command<'h>, AllocError>
    ensures { (a : App) → IfOk command.entry (IsToldToClap a)
        → IfOk result (IsToldToClap (with_rule a (short_option name.entry.now long.entry.now short))) }
{
    let arg = Arg::new(alloc, name).long(long).short(short);
    with_arg(command, arg.action(ArgAction::Set).help(about))
}

/// With an option that has no value.
fn with_flag<'h>(
    alloc: Global,
    command: Result<Command<'h>, AllocError>,
    name: &'h str,
    long: &'h str,
    about: &'h str,
) -> Result<Command<'h>, AllocError>
    ensures { (a : App) → IfOk command.entry (IsToldToClap a) → IfOk result (IsToldToClap (with_rule a (flag name.entry.now long.entry.now))) }
{
    let arg = Arg::new(alloc, name).long(long).action(ArgAction::SetTrue);
    with_arg(command, arg.help(about))
}

/// With an option that has no value, and that help does not list.
fn with_hidden_flag<'h>(
    alloc: Global,
    command: Result<Command<'h>, AllocError>,
    name: &'h str,
    long: &'h str,
) -> Result<Command<'h>, AllocError>
    ensures { (a : App) → IfOk command.entry (IsToldToClap a) → IfOk result (IsToldToClap (with_rule a (flag name.entry.now long.entry.now))) }
{
    let arg = Arg::new(alloc, name).long(long).action(ArgAction::SetTrue);
    with_arg(command, arg.hide(true))
}

/// With an option that has no value, and a short name.
fn with_short_flag<'h>(
    alloc: Global,
    command: Result<Command<'h>, AllocError>,
    name: &'h str,
    long: &'h str,
    short: char,
    about: &'h str,
) -> Result<Command<'h>, AllocError>
    ensures { (a : App) → IfOk command.entry (IsToldToClap a)
        → IfOk result (IsToldToClap (with_rule a (short_flag name.entry.now long.entry.now short))) }
{
    let arg = Arg::new(alloc, name).long(long).short(short);
    with_arg(command, arg.action(ArgAction::SetTrue).help(about))
}

/// With `--help`.
fn with_help<'h>(
    alloc: Global,
    command: Result<Command<'h>, AllocError>,
) -> Result<Command<'h>, AllocError>
    ensures { (a : App) → IfOk command.entry (IsToldToClap a) → IfOk result (IsToldToClap (with_rule a help)) }
{
    let arg = Arg::new(alloc, "help").long("help").action(ArgAction::Help);
    with_arg(command, arg.help("Print this help"))
}

/// With `--version`.
fn with_version<'h>(
    alloc: Global,
    command: Result<Command<'h>, AllocError>,
) -> Result<Command<'h>, AllocError>
    ensures { (a : App) → IfOk command.entry (IsToldToClap a) → IfOk result (IsToldToClap (with_rule a version)) }
{
    let arg = Arg::new(alloc, "version").long("version");
    with_arg(
        command,
        arg.action(ArgAction::Version).help("Print the version"),
    )
}

fn target<'h>(alloc: Global) -> Result<Command<'h>, AllocError>
    ensures { IfOk result (IsToldToClap target) }
{
    let named = described(alloc, "target", help::TARGET, help::BELOW_TARGET);
    let command = with_alias(named, "tgt");
    let command = with_one(alloc, command, "ID", "Name of the target, or its variable");
    let command = with_one(alloc, command, "OPERATION", "What to do, see Operations");
    let command = with_many(alloc, command, "SOURCE", "Names of sources or extra files");
    let command = with_short_option(alloc, command, "SUBDIR", "subdir", 's', help::SUBDIR);
    let command = with_option(alloc, command, "KIND", "type", help::KIND);
    let command = with_flag(alloc, command, "sorted", "sorted", help::SORTED);
    with_help(alloc, command)
}

fn kwargs<'h>(alloc: Global) -> Result<Command<'h>, AllocError>
    ensures { IfOk result (IsToldToClap kwargs) }
{
    let command = Ok(described(alloc, "kwargs", help::KWARGS, help::BELOW_KWARGS));
    let command = with_one(alloc, command, "OPERATION", "What to do, see Operations");
    let command = with_one(
        alloc,
        command,
        "FUNCTION",
        "One of project, target, dependency",
    );
    let command = with_one(
        alloc,
        command,
        "ID",
        "Name of the target or dependency, or / for the project",
    );
    let command = with_many(alloc, command, "KEY VALUE", "Keys, each with its value");
    with_help(alloc, command)
}

#[tactic(auto, unfolding(crate::specs::Program::argument))]
fn argument<'h>(alloc: Global) -> Result<Command<'h>, AllocError>
    ensures { IfOk result (IsToldToClap argument) }
{
    let command = Ok(described(alloc, "arg", help::ARGUMENT, help::BELOW_ARGUMENT));
    let command = with_one(alloc, command, "OPERATION", "What to do, see Operations");
    let command = with_ending(alloc, command, "FUNCTION", help::PLACE_FUNCTION);
    let command = with_one(alloc, command, "ID", "Which call or variable, see Places");
    let command = with_optional(alloc, command, "KEY", "Which value of it, see Keys");
    let command = with_many(alloc, command, "VALUE", "What it becomes, see Values");
    let command = with_option(alloc, command, "ELEMENT", "after", help::AFTER);
    let command = with_flag(alloc, command, "sorted", "sorted", help::SORTED);
    with_help(alloc, command)
}

#[tactic(auto, unfolding(crate::specs::Program::code))]
fn code<'h>(alloc: Global) -> Result<Command<'h>, AllocError>
    ensures { IfOk result (IsToldToClap code) }
{
    let command = Ok(described(alloc, "code", code_help::ABOUT, code_help::BELOW));
    let command = with_one(alloc, command, "OPERATION", "What to do, see Operations");
    let command = with_ending(alloc, command, "FUNCTION|FILE", code_help::PLACE);
    let command = with_one(alloc, command, "ID|CODE", code_help::ID);
    let command = with_optional(alloc, command, "CODE", code_help::CODE);
    let command = with_option(alloc, command, "N", "blank", code_help::BLANK);
    let command = with_flag(alloc, command, "unused", "unused", code_help::UNUSED);
    with_help(alloc, command)
}

#[tactic(auto, unfolding(crate::specs::Program::default_options))]
fn default_options<'h>(alloc: Global) -> Result<Command<'h>, AllocError>
    ensures { IfOk result (IsToldToClap default_options) }
{
    let named = described(
        alloc,
        "default-options",
        help::DEFAULT_OPTIONS,
        help::BELOW_DEFAULT_OPTIONS,
    );
    let command = with_alias(named, "def");
    let command = with_one(alloc, command, "OPERATION", "What to do, see Operations");
    let command = with_many(
        alloc,
        command,
        "OPTION VALUE",
        "Options, each with its value; of unset options alone",
    );
    with_help(alloc, command)
}

#[tactic(auto, unfolding(crate::specs::Program::command))]
fn command<'h>(alloc: Global) -> Result<Command<'h>, AllocError>
    ensures { IfOk result (IsToldToClap command) }
{
    let named = described(alloc, "command", help::COMMAND, help::BELOW_COMMAND);
    let command = with_alias(named, "cmd");
    let command = with_one(
        alloc,
        command,
        "JSON",
        "Script, or name of its file, or - for standard input",
    );
    let command = with_flag(alloc, command, "strict", "strict", help::STRICT);
    with_help(alloc, command)
}

#[tactic(auto, unfolding(crate::specs::Program::undo))]
fn undo<'h>(alloc: Global) -> Result<Command<'h>, AllocError>
    ensures { IfOk result (IsToldToClap undo) }
{
    let command = Ok(described(alloc, "undo", help::UNDO, help::BELOW_UNDO));
    let command = with_option(alloc, command, "N", "to", help::TO);
    let command = with_option(alloc, command, "FILE", "check", help::CHECK);
    with_help(alloc, command)
}

#[tactic(auto, unfolding(crate::specs::Program::redo))]
fn redo<'h>(alloc: Global) -> Result<Command<'h>, AllocError>
    ensures { IfOk result (IsToldToClap redo) }
{
    let command = Ok(described(alloc, "redo", help::REDO, help::BELOW_REDO));
    with_help(alloc, command)
}

#[tactic(auto, unfolding(crate::specs::Program::history))]
fn history<'h>(alloc: Global) -> Result<Command<'h>, AllocError>
    ensures { IfOk result (IsToldToClap history) }
{
    let command = Ok(described(alloc, "history", help::HISTORY, help::BELOW_HISTORY));
    let command = with_option(alloc, command, "N", "forget", help::FORGET);
    with_help(alloc, command)
}

#[tactic(auto, unfolding(crate::specs::Program::list))]
fn list<'h>(alloc: Global) -> Result<Command<'h>, AllocError>
    ensures { IfOk result (IsToldToClap list) }
{
    let command = Ok(described(alloc, "list", help::LIST, help::BELOW_LIST));
    let command = with_option(alloc, command, "FUNCTION", "of", help::OF);
    let command = with_flag(alloc, command, "json", "json", help::JSON);
    let command = with_flag(alloc, command, "sums", "sums", help::SUMS);
    with_help(alloc, command)
}

/// The program without its subcommands.
fn own_words<'h>(alloc: Global) -> Result<Command<'h>, AllocError>
    ensures { IfOk result (λ c. app_of c ≡ own_words) }
{
    let bare = described(alloc, "meson_rewrite", help::PROGRAM, help::BELOW_PROGRAM)
        .subcommand_required(true)
        .disable_help_flag(true)
        .disable_help_subcommand(true);
    let program = with_short_option(alloc, Ok(bare), "DIR", "sourcedir", 's', help::DIR);
    let program = with_option(alloc, program, "FOLDER", "in", help::IN);
    let program = with_flag(alloc, program, "follow", "follow", help::FOLLOW);
    let program = with_hidden_flag(alloc, program, "follow-shared", "follow-shared");
    let program = with_option(alloc, program, "TEXT", "title", help::TITLE);
    let program = with_flag(alloc, program, "dry-run", "dry-run", help::DRY_RUN);
    let program = with_flag(alloc, program, "json", "json", help::ANSWER_JSON);
    let program = with_flag(alloc, program, "explain", "explain", help::EXPLAIN);
    let program = with_flag(alloc, program, "exit-code", "exit-code", help::EXIT_CODE);
    let program = with_flag(alloc, program, "no-log", "no-log", help::NO_LOG);
    let program = with_option(alloc, program, "FILE", "texts", help::TEXTS);
    let program = with_short_flag(alloc, program, "verbose", "verbose", 'V', help::VERBOSE);
    let program = with_help(alloc, program);
    with_version(alloc, program)
}

/// With a subcommand, if that was made.
fn with_subcommand<'h>(
    command: Result<Command<'h>, AllocError>,
    subcommand: Result<Command<'h>, AllocError>,
) -> Result<Command<'h>, AllocError>
    ensures { (p a : App) → IfOk command.entry (λ c. app_of c ≡ p) → IfOk subcommand.entry (IsToldToClap a)
        → IfOk result (λ c. app_of c ≡ with_subcommand p a.top) }
{
    command?.subcommand(subcommand?)
}

/// The program's command line.
#[tactic(auto, unfolding(crate::specs::Program::program))]
fn program<'h>(alloc: Global) -> Result<Command<'h>, AllocError>
    ensures { IfOk result (λ c. app_of c ≡ program) }
{
    let program = with_subcommand(own_words(alloc), target(alloc));
    let program = with_subcommand(program, kwargs(alloc));
    let program = with_subcommand(program, argument(alloc));
    let program = with_subcommand(program, code(alloc));
    let program = with_subcommand(program, default_options(alloc));
    let program = with_subcommand(program, command(alloc));
    let program = with_subcommand(program, undo(alloc));
    let program = with_subcommand(program, redo(alloc));
    let program = with_subcommand(program, history(alloc));
    with_subcommand(program, list(alloc))
}

/// The same, with its own name in help, whatever name it was called by.
pub(crate) fn named_program<'h>(alloc: Global) -> Result<Command<'h>, AllocError>
    ensures { IfOk result (λ c. app_of c ≡ program) }
{
    program(alloc)?.bin_name("meson_rewrite")
}
