//! `kwargs OPERATION FUNCTION ID [KEY VALUE]...`.

ghost use Rattle.std.specs.Prelude.{◌≡◌, ◌≢◌, Err, IfErr, IfOk, Ok, codes, option_map};
ghost use Rattle.clap.specs.Words.{found_of, rows_of};
ghost use Rattle.meson_command.specs.Actions.{kwargs_action, kwargs_by, settings, words_at};
ghost use Rattle.meson_command.specs.declared.fault.UsageFault.TheVariants.{OutOfMemory};

use crate::argument::folder_named;
use crate::asked::Action;
use crate::fault::UsageFault;
use crate::pairs::{names, pairs_at};
use crate::words::{run, word_or};
use clap::ArgMatches;
use meson_calls::{CallName, Role};
use meson_json::names::{KwargsOperation, find_kwargs_operation, find_role};
use meson_json::owned;
use meson_splice::{Many, Text};
use meson_steps::command::{Command, Setting};
use std::alloc::{AllocError, Global};

/// Each name with its value as that of a keyword argument.
fn settings(alloc: Global, pairs: Vec<(Text, Text)>) -> Result<Many<(Text, Setting)>, AllocError>
    ensures { IfOk result (λ ss. ss ≡ settings pairs.items) }
{
    let mut all = Vec::new(alloc);
    for (name, value) in pairs {
        all.push((name, Setting::Text(value)))?;
    }
    Ok(Many::of(all))
}

/// What the operation makes of the words; `info` reads no pairs.
#[tactic(auto, unfolding(crate::specs::Actions::kwargs_by))]
fn kwargs_by(
    alloc: Global,
    operation: KwargsOperation,
    role: Role,
    name: CallName,
    matches: &ArgMatches<'_>,
) -> Result<Action, UsageFault>
    ensures ok { IfOk result (λ a. kwargs_by operation role name (words_at (codes "KEY VALUE") (rows_of (found_of matches.now))) ≡ Ok a) }
    ensures refused { IfErr result (λ e. e ≢ OutOfMemory
        → kwargs_by operation role name (words_at (codes "KEY VALUE") (rows_of (found_of matches.now))) ≡ Err e) }
{
    if let KwargsOperation::Info = operation {
        return Ok(Action::Info(Command::KwargsInfo { role, name }));
    }
    let pairs = pairs_at(alloc, matches, "KEY VALUE")?;
    let command = match operation {
        KwargsOperation::Set => Command::KwargsSet {
            role,
            name,
            pairs: settings(alloc, pairs)?,
        },
        KwargsOperation::Delete => Command::KwargsDelete {
            role,
            name,
            keys: names(alloc, pairs)?,
        },
        KwargsOperation::Add => Command::KwargsAdd {
            role,
            name,
            pairs: settings(alloc, pairs)?,
        },
        KwargsOperation::Remove => Command::KwargsRemove {
            role,
            name,
            pairs: settings(alloc, pairs)?,
        },
        KwargsOperation::RemoveRegex => return Err(UsageFault::Unsupported),
        KwargsOperation::Info => Command::KwargsInfo { role, name },
    };
    run(alloc, command)
}

/// The request of the words of `kwargs`, in the folder alone if one is named.
///
/// # Errors
/// The operation or the function is unknown; the last key has no value; a key is repeated; the operation is not done here.
#[tactic(auto, unfolding(crate::specs::Actions::kwargs_action))]
pub(crate) fn kwargs_action(
    alloc: Global,
    folder: Option<&str>,
    matches: &ArgMatches<'_>,
) -> Result<Action, UsageFault>
    ensures ok { IfOk result (λ a. kwargs_action (option_map (λ f. f.now) folder.entry) (rows_of (found_of matches.now)) ≡ Ok a) }
    ensures refused { IfErr result (λ e. e ≢ OutOfMemory
        → kwargs_action (option_map (λ f. f.now) folder.entry) (rows_of (found_of matches.now)) ≡ Err e) }
{
    let Some(operation) = find_kwargs_operation(word_or(matches, "OPERATION", "")) else {
        return Err(UsageFault::Usage);
    };
    let Some(role) = find_role(word_or(matches, "FUNCTION", "")) else {
        return Err(UsageFault::Usage);
    };
    let id = owned(alloc, word_or(matches, "ID", ""))?;
    let folder = folder_named(alloc, folder)?;
    kwargs_by(alloc, operation, role, CallName { id, folder }, matches)
}
