//! What explains a script that is refused.

use crate::choices::Choice;
use crate::fault::ScriptFault;
use crate::members::text_at;
use crate::remarks::Remarks;
use crate::script::MAX_COMMANDS;
use serde_json::{Error, Value};
use std::alloc::{AllocError, Global};
use std::str::from_utf8;

/// The most characters of an entry or a value that are shown.
const MOST_SHOWN: usize = 60;

const TYPES: Choice = Choice {
    of: "a script",
    what: "types",
    words: &["target", "kwargs", "default_options", "arg", "code"],
};

const TARGET_OPERATIONS: Choice = Choice {
    of: "target",
    what: "operations",
    words: &[
        "src_add",
        "src_rm",
        "rename",
        "extra_files_add",
        "extra_files_rm",
        "target_add",
        "target_rm",
        "info",
    ],
};

const KWARGS_OPERATIONS: Choice = Choice {
    of: "kwargs",
    what: "operations",
    words: &["set", "add", "remove", "delete", "info"],
};

const OPTIONS_OPERATIONS: Choice = Choice {
    of: "default_options",
    what: "operations",
    words: &["set", "delete"],
};

const VALUE_OPERATIONS: Choice = Choice {
    of: "arg",
    what: "operations",
    words: &["set", "add", "remove", "replace", "delete"],
};

const CODE_OPERATIONS: Choice = Choice {
    of: "code",
    what: "operations",
    words: &["after", "before", "append", "remove"],
};

/// The members that an operation on a target uses.
fn target_members_of(operation: &str) -> &'static [&'static str] {
    match operation {
        "target_add" => {
            &[
                "type",
                "operation",
                "target",
                "sources",
                "subdir",
                "target_type",
            ]
        }
        "target_rm" => &["type", "operation", "target", "in"],
        "info" => &["type", "operation", "target", "in", "follow"],
        "src_add" => {
            &[
                "type",
                "operation",
                "target",
                "sources",
                "in",
                "sorted",
                "follow",
            ]
        }
        "src_rm" | "rename" => &["type", "operation", "target", "sources", "in", "follow"],
        _ => &["type", "operation", "target", "sources", "in"],
    }
}

/// The members that an operation uses, by the names of its type and of itself.
fn members_of(entry_type: &str, operation: &str) -> Choice {
    let words: &'static [&'static str] = match (entry_type, operation) {
        ("target", _) => target_members_of(operation),
        ("kwargs", "info") => &["type", "operation", "function", "id", "in"],
        ("kwargs", _) => { &["type", "operation", "function", "id", "kwargs", "in"] }
        ("arg", "delete") => &["type", "operation", "function", "id", "key", "in"],
        ("arg", "add") => {
            &[
                "type",
                "operation",
                "function",
                "id",
                "key",
                "values",
                "in",
                "after",
                "sorted",
            ]
        }
        ("arg", _) => { &["type", "operation", "function", "id", "key", "values", "in"] }
        ("code", "append") => &["type", "operation", "file", "code", "blank"],
        ("code", "remove") => &["type", "operation", "function", "id", "in", "unused"],
        ("code", _) => { &["type", "operation", "function", "id", "code", "blank", "in"] }
        _ => &["type", "operation", "options"],
    };
    Choice {
        of: "this operation",
        what: "members",
        words,
    }
}

/// The operation of a script on a target that a word of the command line means.
fn meant_for_target(word: &str) -> Option<&'static str> {
    match word {
        "add" => Some("src_add"),
        "rm" | "remove" | "delete" => Some("src_rm"),
        "add_extra_files" => Some("extra_files_add"),
        "rm_extra_files" => Some("extra_files_rm"),
        "add_target" | "tgt_add" => Some("target_add"),
        "rm_target" | "tgt_rm" => Some("target_rm"),
        _ => None,
    }
}

/// What a member of a change of a value takes.
fn argument_of(operation: &str, member: &str) -> &'static str {
    match member {
        "values" if operation == "replace" => "an array of two values, the old one and the new one",
        "id" => "a text; of at it is the name of a file, a colon and a line",
        "key" => "texts joined by dots, or an array of texts",
        "values" => "an array of texts, true, false and objects whose code is one expression",
        "after" => "a text, true, false or an object whose code is one expression",
        "sorted" => "true or false, and not true beside after",
        _ => "a text",
    }
}

/// What a member of an entry of type `code` takes.
fn code_of(member: &str) -> &'static str {
    match member {
        "id" => "a text; of at it is the name of a file, a colon and a line",
        "code" => "a text of one statement or more",
        "blank" => "a whole number from 0 to 100",
        "unused" => "true or false",
        _ => "a text",
    }
}

/// What a member takes.
fn value_of(entry: &Value, member: &str) -> &'static str {
    if text_at(entry, "type").unwrap_or("") == "arg" {
        return argument_of(text_at(entry, "operation").unwrap_or(""), member);
    }
    if text_at(entry, "type").unwrap_or("") == "code" {
        return code_of(member);
    }
    match member {
        "sources" if text_at(entry, "operation") == Some("rename") => {
            "an array of two texts, the old name and the new one"
        }
        "sources" => "an array of texts",
        "function" => "one of project, target, dependency",
        "kwargs" => "an object, whose values are texts, true, false or arrays of texts",
        "options" => "an object, whose values are texts, true, false or whole numbers",
        "sorted" if entry.get("follow").is_some() => {
            "true or false, and not true where variables are followed"
        }
        "follow" if text_at(entry, "operation") != Some("info") => "true, false or \"shared\"",
        "sorted" | "follow" => "true or false",
        _ => "a text",
    }
}

/// What a value is.
fn kind_of(value: &Value) -> &'static str {
    match value {
        Value::Null => "null",
        Value::Bool(_) => "true or false",
        Value::Number(_) => "a number",
        Value::String(_) => "a text",
        Value::Array(_) => "an array",
        Value::Object(_) => "an object",
    }
}

/// The text of a value in one line, cut after a number of characters.
fn shown(alloc: Global, value: &Value) -> Result<String, AllocError> {
    let text = value.to_string(alloc)?;
    let mut shown = String::new(alloc);
    for (i, c) in text.as_str().chars().enumerate() {
        if i == MOST_SHOWN {
            shown.push_str(" ..")?;
            return Ok(shown);
        }
        shown.push(c)?;
    }
    Ok(shown)
}

/// Explains that the operation of an entry is not known.
fn explain_operation(
    alloc: Global,
    remarks: &mut Remarks,
    entry: &Value,
) -> Result<(), AllocError> {
    let operation = text_at(entry, "operation").unwrap_or("");
    match text_at(entry, "type").unwrap_or("") {
        "target" => {
            let meant = meant_for_target(operation);
            TARGET_OPERATIONS.refuse(alloc, remarks, operation, meant)
        }
        "kwargs" => KWARGS_OPERATIONS.refuse(alloc, remarks, operation, None),
        "arg" => VALUE_OPERATIONS.refuse(alloc, remarks, operation, None),
        "code" => CODE_OPERATIONS.refuse(alloc, remarks, operation, None),
        _ => {
            let meant = if operation == "unset" {
                Some("delete")
            } else {
                None
            };
            OPTIONS_OPERATIONS.refuse(alloc, remarks, operation, meant)
        }
    }
}

/// Explains that a member is missing or of another kind.
fn explain_member(
    alloc: Global,
    remarks: &mut Remarks,
    entry: &Value,
    member: &str,
) -> Result<(), AllocError> {
    match entry.get(member) {
        Some(value) => {
            let value = shown(alloc, value)?;
            remarks.note(format!(in alloc; "{member} is {value}")?)?;
        }
        None => remarks.note(format!(in alloc; "{member} is missing")?)?,
    }
    let value = value_of(entry, member);
    remarks.help(format!(in alloc; "{member} takes {value}")?)
}

/// Explains that an operation is known, but not done here.
fn explain_unsupported(alloc: Global, remarks: &mut Remarks) -> Result<(), AllocError> {
    remarks.note_words(alloc, "remove_regex is an operation of other rewriters")?;
    remarks.help_words(
        alloc,
        "info lists the values, and remove removes each of them",
    )
}

/// Explains a fault of an entry.
fn explain_entry(
    alloc: Global,
    remarks: &mut Remarks,
    entry: &Value,
    fault: &ScriptFault,
) -> Result<(), AllocError> {
    let text = shown(alloc, entry)?;
    remarks.note(format!(in alloc; "the entry is {text}")?)?;
    match fault {
        ScriptFault::NotObject(_) => {
            remarks.help_words(alloc, "an entry is an object, as {\"type\":\"target\", ..}")
        }
        ScriptFault::UnknownType(_) => match text_at(entry, "type") {
            Some(word) => TYPES.refuse(alloc, remarks, word, None),
            None => {
                remarks.note_words(alloc, "type is missing, or not a text")?;
                TYPES.list(alloc, remarks)
            }
        },
        ScriptFault::BadField(_, member) => explain_member(alloc, remarks, entry, member.get()),
        ScriptFault::UnknownOperation(_) => explain_operation(alloc, remarks, entry),
        ScriptFault::Unsupported(_) => explain_unsupported(alloc, remarks),
        ScriptFault::UnknownMember(_, member) => {
            let entry_type = text_at(entry, "type").unwrap_or("");
            let operation = text_at(entry, "operation").unwrap_or("");
            members_of(entry_type, operation).refuse(alloc, remarks, member.get(), None)
        }
        _ => Ok(()),
    }
}

/// The number of the entry that a fault is about, if it is about one.
fn entry_of(fault: &ScriptFault) -> Option<usize> {
    match fault {
        ScriptFault::NotObject(index)
        | ScriptFault::UnknownType(index)
        | ScriptFault::BadField(index, _)
        | ScriptFault::UnknownOperation(index)
        | ScriptFault::Unsupported(index)
        | ScriptFault::UnknownMember(index, _) => Some(*index),
        _ => None,
    }
}

/// Explains a fault of a script that is JSON.
fn explain_value(
    alloc: Global,
    remarks: &mut Remarks,
    value: &Value,
    fault: &ScriptFault,
) -> Result<(), AllocError> {
    let Some(entries) = value.as_array() else {
        let kind = kind_of(value);
        remarks.note(format!(in alloc; "the script is {kind}")?)?;
        return remarks.help_words(
            alloc,
            "a script is an array of objects: write [ ] around it",
        );
    };
    if let ScriptFault::TooMany = fault {
        let count = entries.len();
        remarks.note(format!(in alloc; "the script has {count} entries")?)?;
        return remarks.help(format!(in alloc;
            "write several scripts of at most {MAX_COMMANDS} entries"
        )?);
    }
    match entry_of(fault).and_then(|index| entries.get(index)) {
        Some(entry) => explain_entry(alloc, remarks, entry, fault),
        None => Ok(()),
    }
}

/// Says where a text is not JSON. Columns are counted in bytes.
fn explain_fault(alloc: Global, remarks: &mut Remarks, error: &Error) -> Result<(), AllocError> {
    if error.is_eof() {
        return remarks.note_words(alloc, "the script ends too early");
    }
    let (line, column) = (error.line(), error.column());
    remarks.note(format!(in alloc; "the script is not JSON near line {line}, column {column}")?)
}

/// Explains a fault of a script that is a text: where it is no JSON, or what of its value is wrong.
fn explain_text(
    alloc: Global,
    remarks: &mut Remarks,
    text: &str,
    fault: &ScriptFault,
) -> Result<(), AllocError> {
    match Value::from_str(alloc, text) {
        Ok(value) => explain_value(alloc, remarks, &value, fault),
        Err(error) if error.is_memory() => Err(AllocError),
        Err(error) => {
            explain_fault(alloc, remarks, &error)?;
            remarks.help_words(alloc, "check the script with a JSON tool")
        }
    }
}

/// What explains that a script, which has these bytes, is refused for this fault.
///
/// # Errors
/// Out of memory.
pub fn explain_script(
    alloc: Global,
    bytes: &[u8],
    fault: &ScriptFault,
) -> Result<Remarks, AllocError> {
    let mut remarks = Remarks::new(alloc);
    match from_utf8(bytes) {
        Ok(text) => explain_text(alloc, &mut remarks, text, fault)?,
        Err(error) => {
            let at = error.valid_up_to();
            remarks.note(format!(in alloc; "the script is not UTF-8 at byte {at}")?)?;
        }
    }
    remarks.help_words(
        alloc,
        "meson_rewrite command --help shows the form of a script",
    )?;
    Ok(remarks)
}
