//! Notes of names that are not valid.

ghost use Rattle.std.specs.Prelude.{◌≡◌, ◌∷◌, [], IfOk, option_map, string_bytes};
ghost use Rattle.meson_explaining.specs.BadNames.{bad_help, bad_notes, empty_notes, option_notes, pair_notes, variable_notes};
ghost use Rattle.meson_explaining.specs.Notes.{plain_note};

use crate::calls::plain_note;
use crate::explanation::Note;
use crate::names::{bad_name, bad_value, first_bad_entry, first_bad_option, first_bad_pair};
use meson_splice::Text;
use meson_steps::command::{Command, Setting};
use std::alloc::{AllocError, Global};

/// One note of the project as a whole.
pub(crate) fn one_note(alloc: Global, text: String) -> Result<Vec<Note>, AllocError>
    ensures { IfOk result (λ notes. notes.items ≡ plain_note (string_bytes text) ∷ []) }
{
    let mut notes = Vec::new(alloc);
    notes.push(plain_note(text))?;
    Ok(notes)
}

/// The note of a value that is not the name of a variable.
fn variable_notes(alloc: Global, key: &str, value: Option<&str>) -> Result<Vec<Note>, AllocError>
    ensures { IfOk result (λ notes. notes.items ≡ variable_notes key.now (option_map (λ text. text.now) value.entry)) }
{
    match value {
        Some(text) => {
            let text = format!(in alloc;
                "{key} takes names of variables, and this is not one: {text}"
            )?;
            one_note(alloc, text)
        }
        None => Ok(Vec::new(alloc)),
    }
}

/// The note of a key that takes names of variables, and has another value.
fn pair_notes(alloc: Global, pair: Option<&(Text, Setting)>) -> Result<Vec<Note>, AllocError>
    ensures { IfOk result (λ notes. notes.items ≡ pair_notes (option_map (λ pair. pair.now) pair.entry)) }
{
    match pair {
        Some((key, setting)) => variable_notes(alloc, key.get(), bad_value(setting)),
        None => Ok(Vec::new(alloc)),
    }
}

/// The note of what is not the name of an option.
fn option_notes(alloc: Global, name: Option<&str>) -> Result<Vec<Note>, AllocError>
    ensures { IfOk result (λ notes. notes.items ≡ option_notes (option_map (λ name. name.now) name.entry)) }
{
    match name {
        Some(name) => {
            let text = format!(in alloc; "this is not the name of an option: {name}")?;
            one_note(alloc, text)
        }
        None => Ok(Vec::new(alloc)),
    }
}

/// The note of an empty name.
fn empty_notes(alloc: Global, name: Option<&str>) -> Result<Vec<Note>, AllocError>
    ensures { IfOk result (λ notes. notes.items ≡ empty_notes (option_map (λ name. name.now) name.entry)) }
{
    match name {
        Some(_) => one_note(alloc, String::from_str(alloc, "a name is empty")?),
        None => Ok(Vec::new(alloc)),
    }
}

/// The notes of the first name of a command that is not valid.
pub(crate) fn bad_notes(alloc: Global, command: &Command) -> Result<Vec<Note>, AllocError>
    ensures { IfOk result (λ notes. notes.items ≡ bad_notes command.now) }
{
    match command {
        Command::KwargsSet { role, pairs, .. }
        | Command::KwargsAdd { role, pairs, .. }
        | Command::KwargsRemove { role, pairs, .. } => {
            pair_notes(alloc, first_bad_pair(*role, pairs.get()))
        }
        Command::OptionsSet { pairs } => option_notes(alloc, first_bad_entry(pairs.get())),
        Command::OptionsDelete { names } => option_notes(alloc, first_bad_option(names.get())),
        _ => empty_notes(alloc, bad_name(command)),
    }
}

/// What may be done.
pub(crate) fn bad_help(alloc: Global, command: &Command) -> Result<Vec<Text>, AllocError>
    ensures { IfOk result (λ help. help.items ≡ bad_help command.now) }
{
    match command {
        Command::KwargsSet { .. } | Command::KwargsAdd { .. } | Command::KwargsRemove { .. } => {
            one_line(
                alloc,
                "the name of a variable has letters, digits and _, does not begin with a digit and is not a reserved word",
            )
        }
        Command::OptionsSet { .. } | Command::OptionsDelete { .. } => one_line(
            alloc,
            "the name of an option is not empty and has no =; its value is a word of its own",
        ),
        _ => Ok(Vec::new(alloc)),
    }
}

/// One line of help.
pub(crate) fn one_line(alloc: Global, help: &str) -> Result<Vec<Text>, AllocError>
    ensures { IfOk result (λ lines. lines.items ≡ help.now ∷ []) }
{
    let mut lines = Vec::new(alloc);
    lines.push(Text::of(String::from_str(alloc, help)?))?;
    Ok(lines)
}
