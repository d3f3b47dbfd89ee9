//! Why a run was stopped, as a JSON object.

ghost use Rattle.std.specs.Prelude.{◌≡◌, MatchResult, Some, map, option_map};
ghost use Rattle.serde_json.specs.Data.{array, string};
ghost use Rattle.serde_json.specs.View.{items_of};
ghost use Rattle.serde_json.specs.Written.{compact_text};
ghost use Rattle.meson_rewrite.specs.Lines.{line};
ghost use Rattle.meson_rewrite.specs.Refused.{lex_offset, file_fault_offset, refusal_subject, stop_command, stop_entry, stop_file, stop_help, stop_left, stop_name, stop_notes, stop_object, stop_offset};
ghost use Rattle.meson_store.specs.Output.{Fails, Gets};

use crate::advice::Advice;
use crate::codes::code_of;
use crate::notes::{Notes, PlacedNote};
use crate::quoted::Quoted;
use crate::stop::Stop;
use meson_json::ScriptFault;
use meson_lex::LexFault;
use meson_plan::Refusal;
use meson_splice::{SpliceFault, Text};
use meson_store::{Output, StoreFault};
use meson_syntax::ParseFault;
use std::alloc::Global;
use std::fmt::{Display, Formatter, Write};
use std::{fmt, io};

/// The offset of the byte.
fn lex_offset(fault: LexFault) -> usize
    ensures { result ≡ lex_offset fault }
{
    match fault {
        LexFault::StrayByte(at)
        | LexFault::OpenString(at)
        | LexFault::BadNumber(at)
        | LexFault::BareCarriageReturn(at) => at,
    }
}

/// The offset of the place, if the fault has one.
fn file_fault_offset(fault: ParseFault) -> Option<usize>
    ensures { result ≡ file_fault_offset fault }
{
    match fault {
        ParseFault::Lex(fault) => Some(lex_offset(fault)),
        ParseFault::Unexpected(at) | ParseFault::TooDeep(at) => Some(at),
        _ => None,
    }
}

/// The name of the key or of the variable that is meant; else that of the subject, if the refused command alone names it.
fn refusal_subject<'s>(refusal: &'s Refusal, subject: &'s Option<Text>) -> Option<&'s str>
    ensures { option_map (λ name. name.now) result ≡ refusal_subject refusal.entry.now subject.entry.now }
{
    match refusal {
        Refusal::UnknownKey(name)
        | Refusal::WrongKind(name)
        | Refusal::DuplicateKeyword(name)
        | Refusal::NotLiteral(name)
        | Refusal::Shared(name)
        | Refusal::OtherKind(name)
        | Refusal::NoSuchValue(name)
        | Refusal::InUse(name) => Some(name.get()),
        _ => match subject {
            Some(name) => Some(name.get()),
            None => None,
        },
    }
}

impl Stop {
    /// The offset in a file.
    fn offset(&self) -> Option<usize>
        ensures { result ≡ stop_offset self.now }
    {
        match self {
            Stop::Parse { fault, .. } => file_fault_offset(*fault),
            Stop::Splice(SpliceFault::OutOfRange(_, at) | SpliceFault::Stale(_, at), ..) => {
                Some(*at)
            }
            _ => None,
        }
    }

    /// The number of the command that is refused.
    fn command(&self) -> Option<usize>
        ensures { result ≡ stop_command self.now }
    {
        match self {
            Stop::Refused { fault, .. } => match fault.refusal {
                Refusal::OutOfMemory => None,
                _ => Some(fault.index),
            },
            _ => None,
        }
    }

    /// The number of the entry of the script that is not valid.
    fn entry(&self) -> Option<usize>
        ensures { result ≡ stop_entry self.now }
    {
        match self {
            Stop::Script {
                fault: ScriptFault::NotObject(index)
                | ScriptFault::UnknownType(index)
                | ScriptFault::BadField(index, _)
                | ScriptFault::UnknownOperation(index)
                | ScriptFault::Unsupported(index)
                | ScriptFault::UnknownMember(index, _),
                ..
            } => Some(*index),
            _ => None,
        }
    }

    /// The name of the file.
    fn file(&self) -> Option<&str>
        ensures { option_map (λ name. name.now) result ≡ stop_file self.now }
    {
        match self {
            Stop::Parse { name, fault, .. } => match fault {
                ParseFault::OutOfMemory => None,
                _ => Some(name.get()),
            },
            Stop::Splice(
                SpliceFault::NoFile(name)
                | SpliceFault::OutOfRange(name, _)
                | SpliceFault::Stale(name, _),
                ..
            )
            | Stop::OtherFiles { name, .. }
            | Stop::Store {
                fault: StoreFault::ReadFailed(name)
                | StoreFault::WriteFailed { name, .. }
                | StoreFault::NoFile(name),
                ..
            } => Some(name.get()),
            _ => None,
        }
    }

    /// The files that may have their new bytes, last first, if a file could not be written.
    fn left(&self) -> Option<&[Text]>
        ensures { option_map (λ names. names.now) result ≡ stop_left self.now }
    {
        match self {
            Stop::Store {
                fault: StoreFault::WriteFailed { still_new, .. },
                ..
            } => Some(still_new.get()),
            _ => None,
        }
    }

    /// What may be done.
    fn help(&self) -> Option<&[Text]>
        ensures { option_map (λ help. help.now) result ≡ stop_help self.now }
    {
        match self.advice() {
            Some(Advice::Members { help, .. }) => Some(help.get()),
            _ => None,
        }
    }

    /// What was seen.
    fn notes(&self) -> Option<&[PlacedNote]>
        ensures { option_map (λ notes. notes.now) result ≡ stop_notes self.now }
    {
        match self.advice() {
            Some(Advice::Members { notes, .. }) => Some(notes.get()),
            _ => None,
        }
    }

    /// The name of the key, of the member, of the variable, of the call, of the source or of the folder that is meant.
    fn name(&self) -> Option<&str>
        ensures { option_map (λ name. name.now) result ≡ stop_name self.now }
    {
        match self {
            Stop::Refused { fault, subject, .. } => refusal_subject(&fault.refusal, subject),
            Stop::Script {
                fault: ScriptFault::BadField(_, member) | ScriptFault::UnknownMember(_, member),
                ..
            } => Some(member.get()),
            _ => None,
        }
    }
}

/// The member `at` and a comma, if there is an offset.
#[derive(Drop)]
struct Offset(Option<usize>);

impl Display for Offset {
    ghost use Rattle.meson_rewrite.specs.Refused.{offset_part};

    ghost output = { λ offset. Some (offset_part offset.0) };

    fn fmt<W: Write>(&self, f: &mut Formatter<W>) -> fmt::Result {
        match self.0 {
            Some(at) => write!(f, "\"at\":{at},"),
            None => Ok(()),
        }
    }
}

/// A comma and a member that is a number, if there is one.
#[derive(Drop)]
struct Number {
    key: &'static str,
    value: Option<usize>,
}

impl Display for Number {
    ghost use Rattle.meson_rewrite.specs.Refused.{number_part};

    ghost output = { λ member. Some (number_part member.key.now member.value) };

    fn fmt<W: Write>(&self, f: &mut Formatter<W>) -> fmt::Result {
        match self.value {
            Some(value) => write!(f, ",{}:{value}", Quoted(self.key)),
            None => Ok(()),
        }
    }
}

/// A comma and a member that is a text, if there is one.
#[derive(Drop)]
struct Name<'a> {
    key: &'static str,
    value: Option<&'a str>,
}

impl Display for Name<'_> {
    ghost use Rattle.meson_rewrite.specs.Refused.{text_part};

    ghost output = { λ member. Some (text_part member.key.now (option_map (λ text. text.now) member.value)) };

    fn fmt<W: Write>(&self, f: &mut Formatter<W>) -> fmt::Result {
        match self.value {
            Some(value) => write!(f, ",{}:{}", Quoted(self.key), Quoted(value)),
            None => Ok(()),
        }
    }
}

/// Texts as a JSON array.
#[derive(Drop)]
struct Texts<'a>(&'a [Text]);

impl Display for Texts<'_> {
    ghost output = { λ texts. Some (compact_text (array (items_of (map string texts.0.now)))) };

    fn fmt<W: Write>(&self, f: &mut Formatter<W>) -> fmt::Result {
        let [first, rest @ ..] = self.0 else {
            return f.write_str("[]");
        };
        write!(f, "[{}", Quoted(first))?;
        for text in rest {
            write!(f, ",{}", Quoted(text))?;
        }
        f.write_str("]")
    }
}

/// A comma and a member that is an array of texts, if there is one.
#[derive(Drop)]
struct Names<'a> {
    key: &'static str,
    value: Option<&'a [Text]>,
}

impl Display for Names<'_> {
    ghost use Rattle.meson_rewrite.specs.Refused.{texts_part};

    ghost output = { λ member. Some (texts_part member.key.now (option_map (λ texts. texts.now) member.value)) };

    fn fmt<W: Write>(&self, f: &mut Formatter<W>) -> fmt::Result {
        match self.value {
            Some(texts) => write!(f, ",{}:{}", Quoted(self.key), Texts(texts)),
            None => Ok(()),
        }
    }
}

/// A comma and the member `notes`, if there is one.
#[derive(Drop)]
struct NotesMember<'a>(Option<&'a [PlacedNote]>);

impl Display for NotesMember<'_> {
    ghost use Rattle.meson_rewrite.specs.Refused.{notes_part};

    ghost output = { λ member. Some (notes_part (option_map (λ notes. notes.now) member.0)) };

    fn fmt<W: Write>(&self, f: &mut Formatter<W>) -> fmt::Result {
        match self.0 {
            Some(notes) => write!(f, ",\"notes\":{}", Notes(notes)),
            None => Ok(()),
        }
    }
}

/// Why a run was stopped, displayed as a JSON object with one member, `error`: an object with the members that apply, in the order of their names.
#[derive(Drop)]
pub(crate) struct Refused<'a>(pub &'a Stop);

impl Display for Refused<'_> {
    ghost output = { λ refused. Some (stop_object refused.0.now) };

    fn fmt<W: Write>(&self, f: &mut Formatter<W>) -> fmt::Result {
        let stop = self.0;
        write!(
            f,
            "{{\"error\":{{{}\"code\":{}{}{}{}{}{},\"message\":{}{}{}}}}}",
            Offset(stop.offset()),
            Quoted(code_of(stop)),
            Number {
                key: "command",
                value: stop.command()
            },
            Number {
                key: "entry",
                value: stop.entry()
            },
            Name {
                key: "file",
                value: stop.file()
            },
            Names {
                key: "help",
                value: stop.help()
            },
            Names {
                key: "left",
                value: stop.left()
            },
            Quoted(stop),
            Name {
                key: "name",
                value: stop.name()
            },
            NotesMember(stop.notes()),
        )
    }
}

/// Writes why a run was stopped as a line of JSON, by one write if there is memory.
pub(crate) fn tell_refused<O: Output>(alloc: Global, to: &mut O, stop: &Stop) -> io::Result<()>
    ensures { MatchResult result (λ _. Gets (O.heard to.old) (O.heard to.new) (line (stop_object stop.now)))
        (λ _. Fails (O.heard to.old) (O.heard to.new)) }
{
    to.tell_line(alloc, &Refused(stop))
}
