//! Why a change of a value is refused, in words for people.

ghost use Rattle.std.specs.Prelude.{◌≡◌, IfOk};
ghost use Rattle.meson_explaining.specs.Arguments.{after_notes, key_explanation, uncomputed_help, value_explanation};

use crate::argument_places::places_meant;
use crate::argument_values::{hiding_notes, keyword_notes, other_keywords, reached_notes};
use crate::explaining::{unexplained, with_help};
use crate::explanation::{Explanation, Note};
use crate::missing_places::{place_missing, place_without_file};
use crate::reasons::{
    no_project, no_such_value, other_kind, shared, stated, there_already, too_deep, too_large,
};
use crate::targets::all_reads;
use meson_calls::{Reading, Refusal};
use meson_plan::Project;
use meson_splice::Many;
use meson_steps::argument::ValueName;
use std::alloc::{AllocError, Global};

/// An explanation with more notes, which come first.
fn after_notes(notes: Vec<Note>, explanation: Explanation) -> Result<Explanation, AllocError>
    ensures { IfOk result (λ e. e ≡ after_notes notes.items explanation) }
{
    let Explanation { notes: more, help } = explanation;
    let mut all = notes;
    let mut more = more.take();
    all.append(&mut more)?;
    Ok(Explanation {
        notes: Many::of(all),
        help,
    })
}

/// What may be done where a value is computed; `.` stands for the whole.
fn uncomputed_help(key: &str) -> &'static str
    ensures { result.now ≡ uncomputed_help key.now }
{
    if key == "." {
        "arg set gives a variable another value, which as code is on one line, as :[a, b]; arg add adds to a list"
    } else {
        "arg set replaces a value that is computed by code, as :[a, b]; one that is a variable is changed with variable as the FUNCTION"
    }
}

/// Why a change of a value is refused, where no one value has the key that is named.
fn explain_key(
    alloc: Global,
    project: &Project,
    name: &ValueName,
    refusal: &Refusal,
) -> Result<Explanation, AllocError>
    ensures { IfOk result (λ e. e ≡ key_explanation project.now name.now refusal.now) }
{
    match refusal {
        Refusal::BadName => stated(
            alloc,
            "the key is not the name of a keyword argument",
            "the name of a variable has letters, digits and _, does not begin with a digit and is not a reserved word",
        ),
        Refusal::HiddenKeywords => with_help(
            alloc,
            hiding_notes(alloc, project, name)?,
            "kwargs: may hold any keyword; change its dictionary, or its variable by FUNCTION variable",
        ),
        Refusal::DuplicateKeyword(key) => with_help(
            alloc,
            keyword_notes(alloc, project, Some(key.get()), name)?,
            "remove one of them by hand",
        ),
        Refusal::NoSuchValue(key) => {
            let mut notes = reached_notes(alloc, project, name)?;
            let mut others = other_keywords(alloc, project, key.get(), name)?;
            notes.append(&mut others)?;
            after_notes(notes, no_such_value(alloc)?)
        }
        _ => Ok(unexplained(alloc)),
    }
}

/// Why a change of a value is refused, where build files are read so.
pub(crate) fn explain_value(
    alloc: Global,
    reading: Reading,
    project: &Project,
    name: &ValueName,
    refusal: &Refusal,
) -> Result<Explanation, AllocError>
    ensures { IfOk result (λ e. e ≡ value_explanation reading project.now name.now refusal.now) }
{
    match refusal {
        Refusal::NoProject => no_project(alloc, project),
        Refusal::NotFound => place_missing(alloc, reading, project, &name.place),
        Refusal::Ambiguous => places_meant(alloc, project, &name.place),
        Refusal::NoFile => place_without_file(alloc, project, &name.place),
        Refusal::NotLiteral(key) => with_help(
            alloc,
            reached_notes(alloc, project, name)?,
            uncomputed_help(key.get()),
        ),
        Refusal::Shared(variable) => {
            after_notes(all_reads(alloc, project, variable.get())?, shared(alloc)?)
        }
        Refusal::OtherKind(_) => {
            after_notes(reached_notes(alloc, project, name)?, other_kind(alloc)?)
        }
        Refusal::ThereAlready => {
            after_notes(reached_notes(alloc, project, name)?, there_already(alloc)?)
        }
        Refusal::NotRemovable => with_help(
            alloc,
            reached_notes(alloc, project, name)?,
            "target ID rm_target removes a target; other calls and assignments are removed by hand",
        ),
        Refusal::TooDeep => too_deep(alloc),
        Refusal::TooLarge => too_large(alloc),
        _ => explain_key(alloc, project, name, refusal),
    }
}
