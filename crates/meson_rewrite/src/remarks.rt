//! What explains words that are not a request, and a script that is not valid.

ghost use Rattle.std.specs.Prelude.{◌≡◌, IfOk, map, string_bytes};
ghost use Rattle.meson_explaining.specs.Notes.{plain_note};
ghost use Rattle.meson_rewrite.specs.Remarks.{IsMisuseAdvice, IsScriptAdvice, TellsOfNoFile, asks_to_explain};

use crate::advice::{Advice, advice_of};
use meson_command::{Flags, UsageFault, explain_words};
use meson_explaining::{Explanation, Note};
use meson_json::{Remarks, ScriptFault, explain_script};
use meson_splice::{FileSet, Many, Text};
use std::alloc::{AllocError, Global};

/// Whether one of the words is `--explain`.
fn asks_to_explain(words: &[String]) -> bool
    ensures { result ≡ asks_to_explain (map string_bytes words.now) }
{
    for i in 0..words.len() {
        if words[i].as_str() == "--explain" {
            return true;
        }
    }
    false
}

/// Texts as notes of no file.
fn plain_notes(alloc: Global, texts: &[Text]) -> Result<Many<Note>, AllocError>
    ensures { IfOk result (λ notes. notes ≡ map plain_note texts.now) }
{
    let mut notes = Vec::new(alloc);
    for text in texts {
        notes.push(Note {
            spot: None,
            text: text.clone()?,
        })?;
    }
    Ok(Many::of(notes))
}

/// What is said by remarks, which are about no file.
fn remarked(alloc: Global, remarks: Remarks, json: bool) -> Result<Advice, AllocError>
    ensures { IfOk result (TellsOfNoFile json) }
{
    let notes = plain_notes(alloc, remarks.notes.as_slice())?;
    let help = Many::of(remarks.help);
    advice_of(
        alloc,
        json,
        &FileSet::new(alloc),
        Explanation { notes, help },
    )
}

/// What explains words that are not a request.
fn words_explained(
    alloc: Global,
    words: &[String],
    fault: &UsageFault,
    json: bool,
) -> Result<Advice, AllocError>
    ensures { IfOk result (TellsOfNoFile json) }
{
    remarked(alloc, explain_words(alloc, words, fault)?, json)
}

/// What explains words that are not a request, if one of them asks for it. If it is out of memory, no more is said than without it.
pub(crate) fn misuse_advice(
    alloc: Global,
    words: &[String],
    fault: &UsageFault,
    json: bool,
) -> Advice
    ensures { IsMisuseAdvice (asks_to_explain (map string_bytes words.now)) json fault.now result }
{
    match fault {
        UsageFault::OutOfMemory => Advice::Nothing,
        _ if asks_to_explain(words) => match words_explained(alloc, words, fault, json) {
            Ok(advice) => advice,
            Err(AllocError) => Advice::OutOfMemory,
        },
        _ => Advice::Nothing,
    }
}

/// What explains a script of these bytes that is not valid.
fn script_explained(
    alloc: Global,
    bytes: &[u8],
    fault: &ScriptFault,
    json: bool,
) -> Result<Advice, AllocError>
    ensures { IfOk result (TellsOfNoFile json) }
{
    remarked(alloc, explain_script(alloc, bytes, fault)?, json)
}

/// What explains a script of these bytes that is not valid, if the flags ask for it. If it is out of memory, no more is said than without it.
pub(crate) fn script_advice(
    alloc: Global,
    bytes: &[u8],
    fault: &ScriptFault,
    flags: Flags,
) -> Advice
    ensures { IsScriptAdvice flags fault.now result }
{
    match fault {
        ScriptFault::OutOfMemory => Advice::Nothing,
        _ if flags.explain => match script_explained(alloc, bytes, fault, flags.json) {
            Ok(advice) => advice,
            Err(AllocError) => Advice::OutOfMemory,
        },
        _ => Advice::Nothing,
    }
}
