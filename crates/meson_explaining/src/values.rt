//! Notes of the values of keyword arguments.

ghost use Rattle.std.specs.Prelude.{◌≡◌, IfOk, string_bytes};
ghost use Rattle.std.specs.List.{filter_map};
ghost use Rattle.std.specs.Str.{IsUtf8};
ghost use Rattle.meson_syntax.specs.View.{arg_view, args_view, expr_view};
ghost use Rattle.meson_details.specs.Details.{source_text};
ghost use Rattle.meson_details.specs.ValueTexts.{ArgsHaveTexts, HasText};
ghost use Rattle.meson_explaining.specs.Values.{argument_note, start_of, value_note, value_notes};
ghost use Rattle.meson_calls.specs.Searching.{name_at};

use crate::explanation::{Note, Spot};
use crate::subject::Subject;
use meson_calls::Refusal;
use meson_calls::roles::{text_of, text_of_name};
use meson_details::called::call_at;
use meson_edit::span_of;
use meson_plan::Project;
use meson_splice::Text;
use meson_syntax::{Arg, Expr};
use std::alloc::{AllocError, Global};

/// The most characters of a value that a note has.
const MOST_CHARACTERS: usize = 60;

/// The first line of a text, cut.
pub(crate) fn start_of(alloc: Global, text: &str) -> Result<String, AllocError>
    ensures { IfOk result (λ start. string_bytes start ≡ start_of text.now) }
{
    text.chars()
        .take_while(|c| *c != '\n' && *c != '\r')
        .take(MOST_CHARACTERS)
        .collect(alloc)
}

/// The note of a value.
fn value_note(
    alloc: Global,
    file: usize,
    source: &[u8],
    key: &str,
    value: &Expr,
) -> Result<Note, AllocError>
    requires { IsUtf8 (source_text source.now (expr_view source.now value.now)) }
    ensures { IfOk result (λ note. note ≡ value_note file source.now key.now (expr_view source.now value.now)) }
{
    let span = span_of(value);
    let text = text_of_name(alloc, text_of(source, span))?;
    let start = start_of(alloc, text.get())?;
    let text = format!(in alloc; "{key}: {start}")?;
    Ok(Note {
        spot: Some(Spot {
            file,
            at: span.from,
            end: span.to,
        }),
        text: Text::of(text),
    })
}

/// The note of an argument of this name.
fn argument_note(
    alloc: Global,
    file: usize,
    source: &[u8],
    key: &str,
    arg: &Arg,
) -> Result<Option<Note>, AllocError>
    requires { HasText source.now (arg_view source.now arg.now) }
    ensures { IfOk result (λ note. note ≡ argument_note file source.now key.now (arg_view source.now arg.now)) }
{
    match arg {
        Arg::Named {
            span: _,
            name,
            value,
        } => {
            if text_of(source, *name) != key.as_bytes() {
                return Ok(None);
            }
            Ok(Some(value_note(alloc, file, source, key, value)?))
        }
        Arg::Plain(_) => Ok(None),
        Arg::Pair { .. } => Ok(None),
    }
}

/// The notes of the arguments of this name.
fn argument_notes(
    alloc: Global,
    file: usize,
    source: &[u8],
    key: &str,
    args: &[Arg],
) -> Result<Vec<Note>, AllocError>
    requires { ArgsHaveTexts source.now args.now }
    ensures { IfOk result (λ notes. notes.items ≡ filter_map (argument_note file source.now key.now) (args_view source.now args.now)) }
{
    let mut notes = Vec::new(alloc);
    for i in 0..args.len() {
        if let Some(note) = argument_note(alloc, file, source, key, &args[i])? {
            notes.push(note)?;
        }
    }
    Ok(notes)
}

/// The notes of the values of a key in the call that an id names; none if it names no one call.
///
/// # Errors
/// Out of memory.
pub fn value_notes(
    alloc: Global,
    project: &Project,
    subject: Subject<'_>,
    key: &str,
) -> Result<Vec<Note>, AllocError>
    ensures { IfOk result (λ notes. notes.items ≡ value_notes project.now subject.entry.role (name_at subject.entry.name) key.now) }
{
    match project.find_one(alloc, subject.role, subject.name) {
        Ok(place) => {
            project.reads();
            let called = call_at(project.files(), project.trees(), &place);
            argument_notes(
                alloc,
                place.file,
                called.source,
                key,
                called.arguments.items.get(),
            )
        }
        Err(Refusal::OutOfMemory) => Err(AllocError),
        Err(_) => Ok(Vec::new(alloc)),
    }
}
