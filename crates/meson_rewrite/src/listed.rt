//! What is listed of a project.

ghost use Rattle.std.specs.Prelude.{◌≡◌, IfErr, IfOk};
ghost use Rattle.serde_json.specs.View.{view};
ghost use Rattle.meson_rewrite.specs.Listed.{assignments_text, calls_text, holdings_text, listed_data, listed_text, listing_text};
ghost use Rattle.meson_rewrite.specs.Lines.{shown_text};
ghost use Rattle.meson_rewrite.specs.Stops.{WantsMemory};

use crate::changes::history_text;
use crate::objects::{history_object, sums_object};
use crate::opening::{StoredSession, leave};
use crate::request::Listing;
use crate::said::{Said, json_line};
use crate::stop::Stop;
use meson_calls::Reading;
use meson_command::Flags;
use meson_inventory::{
    assignments_lines, assignments_object, calls_lines, calls_object, placed_assignments_object,
    placed_calls_object, placed_project_object, project_lines, project_object,
};
use meson_plan::Project;
use meson_script::Session;
use meson_splice::Bytes;
use meson_sums::sums;
use serde_json::Value;
use std::alloc::{AllocError, Global};

/// What a project holds, as JSON or as lines.
fn holdings_text(
    alloc: Global,
    reading: Reading,
    project: &Project,
    json: bool,
) -> Result<Vec<u8>, AllocError>
    ensures { IfOk result (λ text. text.items ≡ holdings_text reading json project.now) }
{
    if json {
        let listing = project_object(alloc, reading, project)?;
        return json_line(alloc, &listing);
    }
    let lines = project_lines(alloc, reading, project)?;
    Ok(lines.into_bytes())
}

/// The calls of a function, as JSON or as lines.
fn calls_text(
    alloc: Global,
    project: &Project,
    function: &str,
    json: bool,
) -> Result<Vec<u8>, AllocError>
    ensures { IfOk result (λ text. text.items ≡ calls_text json function.now project.now) }
{
    if json {
        let listing = calls_object(alloc, project, function)?;
        return json_line(alloc, &listing);
    }
    let lines = calls_lines(alloc, project, function)?;
    Ok(lines.into_bytes())
}

/// The assignments of a project, as JSON or as lines.
fn assignments_text(alloc: Global, project: &Project, json: bool) -> Result<Vec<u8>, AllocError>
    ensures { IfOk result (λ text. text.items ≡ assignments_text json project.now) }
{
    if json {
        let listing = assignments_object(alloc, project)?;
        return json_line(alloc, &listing);
    }
    let lines = assignments_lines(alloc, project)?;
    Ok(lines.into_bytes())
}

/// The content of a listing of a session, as JSON.
fn listed_object(
    alloc: Global,
    reading: Reading,
    session: &Session,
    listing: &Listing,
) -> Result<Value, AllocError>
    ensures { IfOk result (λ v. view v ≡ listed_data reading listing.now session.now) }
{
    match listing {
        Listing::History => history_object(alloc, &session.history),
        Listing::Holdings { .. } => placed_project_object(alloc, reading, session.project()),
        Listing::Calls { function, .. } => {
            placed_calls_object(alloc, session.project(), function.get())
        }
        Listing::Assignments { .. } => placed_assignments_object(alloc, session.project()),
        Listing::Sums => sums_object(alloc, session.files()),
    }
}

/// The content of a listing of a session, as lines.
fn listed_text(
    alloc: Global,
    reading: Reading,
    session: &Session,
    listing: &Listing,
) -> Result<Vec<u8>, AllocError>
    ensures { IfOk result (λ text. text.items ≡ listed_text reading listing.now session.now) }
{
    match listing {
        Listing::History => history_text(alloc, &session.history),
        Listing::Holdings { json } => holdings_text(alloc, reading, session.project(), *json),
        Listing::Calls { function, json } => {
            calls_text(alloc, session.project(), function.get(), *json)
        }
        Listing::Assignments { json } => assignments_text(alloc, session.project(), *json),
        Listing::Sums => sums(alloc, session.files()),
    }
}

/// The content of a listing of a session, as one line of JSON or as lines.
fn listing_text(
    alloc: Global,
    reading: Reading,
    session: &Session,
    listing: &Listing,
    json: bool,
) -> Result<Vec<u8>, AllocError>
    ensures { IfOk result (λ text. text.items ≡ listing_text reading json listing.now session.now) }
{
    if json {
        let listed = listed_object(alloc, reading, session, listing)?;
        return json_line(alloc, &listed);
    }
    listed_text(alloc, reading, session, listing)
}

/// What is printed when this is listed of a session.
pub(crate) fn listed(
    alloc: Global,
    opened: StoredSession,
    listing: Listing,
    flags: Flags,
) -> Result<Said, Stop>
    ensures told { IfOk result (λ said. said ≡ shown_text (listing_text flags.reading flags.json listing opened.session)) }
    ensures none { IfErr result WantsMemory }
{
    let StoredSession { session, log: _ } = opened;
    let text = listing_text(alloc, flags.reading, &session, &listing, flags.json);
    leave(session);
    Ok(Said {
        out: Bytes::of(text?),
        err: Bytes::of(Vec::new(alloc)),
        changed: false,
    })
}
