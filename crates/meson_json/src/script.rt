//! Scripts: commands that are performed one after another, all or none.

ghost use Rattle.std.specs.Prelude.{◌≡◌, ◌≢◌, ◌∷◌, [], Err, IfErr, IfOk, Ok, Some};
ghost use Rattle.serde_json.specs.Read.{read};
ghost use Rattle.serde_json.specs.View.{items_view, view};
ghost use Rattle.meson_json.specs.Scripts.{entries_of, script_of};
ghost use Rattle.meson_json.specs.declared.fault.ScriptFault.TheVariants.{OutOfMemory};
ghost use Rattle.meson_json.specs.declared.member_check.UnknownMembers.TheVariants.{Ignored};

use crate::fault::ScriptFault;
use crate::member_check::{UnknownMembers, read_entry};
use meson_splice::Many;
use meson_steps::command::Command;
use serde_json::Value;
use std::alloc::Global;

/// The largest number of entries in a script.
pub const MAX_COMMANDS: usize = 4096;

/// Commands in order.
#[derive(Debug, Drop)]
pub struct Script {
    pub commands: Many<Command>,
}

impl Script {
    /// The script of a JSON text: an array with an object for each command. Members that are not known are ignored.
    ///
    /// # Errors
    /// The first fault of the text, of the array, and then entry by entry; or out of memory.
    pub fn from_json(alloc: Global, text: &str) -> Result<Script, ScriptFault>
        ensures ok { IfOk result (λ s. script_of Ignored (read text.now) ≡ Ok s.commands) }
        ensures refused { IfErr result (λ e. e ≢ OutOfMemory → script_of Ignored (read text.now) ≡ Err e) }
    {
        Script::from_json_with(alloc, text, UnknownMembers::Ignored)
    }

    /// The same, where members that are not known may be refused.
    ///
    /// # Errors
    /// As those of `from_json`. Where unknown members are refused, the first one is the last fault of its entry.
    pub fn from_json_with(
        alloc: Global,
        text: &str,
        unknown: UnknownMembers,
    ) -> Result<Script, ScriptFault>
        ensures ok { IfOk result (λ s. script_of unknown (read text.now) ≡ Ok s.commands) }
        ensures refused { IfErr result (λ e. e ≢ OutOfMemory → script_of unknown (read text.now) ≡ Err e) }
    {
        let value = Value::from_str(alloc, text)?;
        script_from(alloc, &value, unknown)
    }

    /// The script of one command. If it is out of memory, it drops the command.
    pub fn of(alloc: Global, command: Command) -> Result<Script, ScriptFault>
        ensures ok { IfOk result (λ s. s.commands ≡ command ∷ []) }
        ensures refused { IfErr result (λ e. e ≡ OutOfMemory) }
    {
        let mut commands = Vec::new(alloc);
        commands.push(command)?;
        Ok(Script {
            commands: Many::of(commands),
        })
    }
}

#[tactic(auto, unfolding(crate::specs::Scripts::script_of))]
fn script_from(alloc: Global, value: &Value, unknown: UnknownMembers) -> Result<Script, ScriptFault>
    ensures ok { IfOk result (λ s. script_of unknown (Some (view value.now)) ≡ Ok s.commands) }
    ensures refused { IfErr result (λ e. e ≢ OutOfMemory → script_of unknown (Some (view value.now)) ≡ Err e) }
{
    let Some(list) = value.as_array() else {
        return Err(ScriptFault::NotArray);
    };
    let entries = list.as_slice();
    if entries.len() > MAX_COMMANDS {
        return Err(ScriptFault::TooMany);
    }
    let commands = entry_commands(alloc, entries, unknown)?;
    Ok(Script { commands })
}

fn entry_commands(
    alloc: Global,
    list: &[Value],
    unknown: UnknownMembers,
) -> Result<Many<Command>, ScriptFault>
    ensures ok { IfOk result (λ cs. entries_of unknown 0 (items_view list.now) ≡ Ok cs) }
    ensures refused { IfErr result (λ e. e ≢ OutOfMemory → entries_of unknown 0 (items_view list.now) ≡ Err e) }
{
    let mut commands = Vec::new(alloc);
    for (index, entry) in list.iter().enumerate() {
        let command = read_entry(alloc, index, entry, unknown)?;
        commands.push(command)?;
    }
    Ok(Many::of(commands))
}
