//! Answers to the questions of cases.

ghost use Rattle.meson_calls.specs.Loading.{AreParsed, IsProject};
ghost use Rattle.meson_places.specs.Names.{loaded_in};

use meson_calls::{CallRef, Refusal};
use meson_case_files::Transcript;
use meson_places::arguments::argument_steps;
use meson_places::lookup::find_place;
use meson_places::slots::find_slot;
use meson_places::{Slot, Sources};
use meson_splice::{Many, Text};
use meson_steps::argument::{Callee, PlaceName, Search, ValueChange, ValueName};
use meson_steps::given::{Given, given_of};
use meson_steps::step::{ListEdit, ListStep};
use meson_steps::value_fault::ValueFault;
use std::alloc::{AllocError, Global};

/// A question: its word, and the words after it.
#[derive(Clone, Copy)]
pub struct Question<'c> {
    pub word: &'c str,
    pub words: &'c str,
}

fn text_of(alloc: Global, word: &str) -> Result<Text, AllocError> {
    Ok(Text::of(String::from_str(alloc, word)?))
}

/// The name that a function and an id are.
fn name_of(alloc: Global, function: &str, id: &str) -> Result<PlaceName, AllocError> {
    let id_text = text_of(alloc, id)?;
    Ok(match function {
        "project" => PlaceName::Project(id_text),
        "target" => PlaceName::Call {
            callee: Callee::Target,
            id: id_text,
        },
        "variable" => PlaceName::Variable(id_text),
        "at" => {
            let (file, line) = id.split_once(':').unwrap_or((id, "0"));
            PlaceName::Line {
                file: text_of(alloc, file)?,
                line: line.parse::<usize>().unwrap_or(0),
            }
        }
        _ => PlaceName::Call {
            callee: Callee::Function(text_of(alloc, function)?),
            id: id_text,
        },
    })
}

/// The steps of a key: the parts between dots, or none where it is a dot.
fn keys_of(alloc: Global, word: &str) -> Result<Vec<Text>, AllocError> {
    let mut keys = Vec::new(alloc);
    if word == "." {
        return Ok(keys);
    }
    for part in word.split('.') {
        keys.push(text_of(alloc, part)?)?;
    }
    Ok(keys)
}

/// The search of a question, and the words after the name: `[in FOLDER] FUNCTION ID REST`.
fn search_of<'c>(alloc: Global, words: &'c str) -> Result<(Search, &'c str), AllocError> {
    let (folder, words) = match words.strip_prefix("in ") {
        Some(rest) => {
            let (folder, rest) = rest.split_once(' ').unwrap_or((rest, ""));
            (Some(text_of(alloc, folder)?), rest)
        }
        None => (None, words),
    };
    let (function, words) = words.split_once(' ').unwrap_or((words, ""));
    let (id, rest) = words.split_once(' ').unwrap_or((words, ""));
    let name = name_of(alloc, function, id)?;
    Ok((Search { name, folder }, rest))
}

fn put_path(place: &CallRef, to: &mut Transcript) {
    to.show(&place.file);
    to.put(":");
    for step in place.path.steps.get() {
        to.put(" ");
        to.show(step);
    }
}

fn put_place(word: &str, place: &CallRef, to: &mut Transcript) {
    to.put("  ");
    to.put(word);
    to.put(" ");
    put_path(place, to);
}

fn put_slot(slot: &Slot, to: &mut Transcript) {
    match slot {
        Slot::Element { list, number } => {
            put_place("element", list, to);
            to.put(" number ");
            to.show(number);
        }
        Slot::Absent { list, key } => {
            put_place("absent", list, to);
            to.put(" key ");
            to.put(key.get());
        }
        Slot::Whole(place) => put_place("whole", place, to),
    }
    to.put("\n");
}

fn put_step(step: &ListStep, to: &mut Transcript) {
    let list = &step.list;
    let bytes = match &step.edit {
        ListEdit::First(new) => {
            put_place("first", list, to);
            new.get()
        }
        ListEdit::After(number, new) => {
            put_place("after", list, to);
            to.put(" number ");
            to.show(number);
            new.get()
        }
        ListEdit::Remove(number) => {
            put_place("remove", list, to);
            to.put(" number ");
            to.show(number);
            b"".as_slice()
        }
        ListEdit::Replace(number, new) => {
            put_place("replace", list, to);
            to.put(" number ");
            to.show(number);
            new.get()
        }
        ListEdit::Assign(new) => {
            put_place("assign", list, to);
            new.get()
        }
        _ => b"".as_slice(),
    };
    if !bytes.is_empty() {
        to.put(" by ");
        to.put(str::from_utf8(bytes).unwrap_or("not UTF-8"));
    }
    to.put("\n");
}

fn put_steps(steps: Result<Vec<ListStep>, Refusal>, to: &mut Transcript) {
    match steps {
        Ok(steps) => {
            for step in &steps {
                put_step(step, to);
            }
        }
        Err(refusal) => to.show_line(&refusal),
    }
}

/// The values that words mean.
fn values_of(alloc: Global, words: &str) -> Result<Vec<Given>, ValueFault> {
    let mut values = Vec::new(alloc);
    for word in words.split(' ') {
        let value = given_of(alloc, &text_of(alloc, word)?)?;
        match values.push(value) {
            Ok(()) => {}
            Err(e) => return Err(AllocError::from(e).into()),
        }
    }
    Ok(values)
}

/// The change of a value into another one, by two words.
fn replacement(alloc: Global, values: &str) -> Result<ValueChange, ValueFault> {
    let (old, new) = values.split_once(' ').unwrap_or((values, ""));
    let old = given_of(alloc, &text_of(alloc, old)?)?;
    let new = given_of(alloc, &text_of(alloc, new)?)?;
    Ok(ValueChange::Replace { old, new })
}

/// The change that a word and the words of its values mean. Of `set` they are one value, of `replace` two.
fn change_of(alloc: Global, word: &str, values: &str) -> Result<ValueChange, ValueFault> {
    Ok(match word {
        "set" => ValueChange::Set(given_of(alloc, &text_of(alloc, values)?)?),
        "add" => ValueChange::Add(Many::of(values_of(alloc, values)?)),
        "add-sorted" => ValueChange::AddSorted(Many::of(values_of(alloc, values)?)),
        "remove" => ValueChange::Remove(Many::of(values_of(alloc, values)?)),
        "replace" => replacement(alloc, values)?,
        "set-all" => ValueChange::SetAll(Many::of(values_of(alloc, values)?)),
        _ => ValueChange::Delete,
    })
}

/// Puts the steps of a change: `FUNCTION ID KEY VALUES`.
fn put_change(
    alloc: Global,
    sources: Sources<'_>,
    question: Question<'_>,
    to: &mut Transcript,
) -> Result<(), AllocError>
    requires { IsProject (loaded_in sources) }
{
    let (place, rest) = search_of(alloc, question.words)?;
    let (key, values) = rest.split_once(' ').unwrap_or((rest, ""));
    let keys = Many::of(keys_of(alloc, key)?);
    match change_of(alloc, question.word, values) {
        Ok(change) => put_steps(
            argument_steps(alloc, sources, &ValueName { place, keys }, &change),
            to,
        ),
        Err(fault) => to.show_line(&fault),
    }
    Ok(())
}

/// The slot that a question names.
fn slot_of(alloc: Global, sources: Sources<'_>, question: Question<'_>) -> Result<Slot, Refusal>
    requires { AreParsed sources.files.now sources.trees.now }
{
    let (search, key) = search_of(alloc, question.words)?;
    let place = find_place(alloc, sources, &search)?;
    let keys = keys_of(alloc, key)?;
    find_slot(alloc, sources, &place, keys.as_slice())
}

/// Answers a question about the files of a project.
pub fn answer(
    alloc: Global,
    sources: Sources<'_>,
    question: Question<'_>,
    to: &mut Transcript,
) -> Result<(), AllocError>
    requires { IsProject (loaded_in sources) }
{
    match question.word {
        "place" => {
            let (search, _rest) = search_of(alloc, question.words)?;
            match find_place(alloc, sources, &search) {
                Ok(place) => {
                    put_place("place", &place, to);
                    to.put("\n");
                }
                Err(refusal) => to.show_line(&refusal),
            }
        }
        "slot" => match slot_of(alloc, sources, question) {
            Ok(slot) => put_slot(&slot, to),
            Err(refusal) => to.show_line(&refusal),
        },
        "set" | "set-all" | "add" | "add-sorted" | "remove" | "replace" | "delete" => put_change(
            alloc, sources, question, to,
        )?,
        _ => to.line("not understood"),
    }
    Ok(())
}
