//! What an info command reports of a target whose variables are followed, as JSON with positions.

ghost use Rattle.std.specs.Prelude.{◌≡◌, IfOk, map};
ghost use Rattle.serde_json.specs.View.{view};
ghost use Rattle.meson_sharing.specs.CodeTold.{told_item_view, told_view};
ghost use Rattle.meson_inventory.specs.Info.{placed_by, placed_followed_data, placed_told_data, placed_tolds_data};

use crate::info::{items_value, members_of, put_position, target_value};
use crate::position_counter::PositionCounter;
use meson_lex::Span;
use meson_listing::entries::{file_name, spot_members};
use meson_listing::{put_told, target_with};
use meson_plan::{Project, Reading, TargetDetails, told_sources};
use meson_sharing::{Told, ToldItem};
use meson_splice::FileSet;
use serde_json::{Value, put};
use std::alloc::{AllocError, Global};

/// A source that is followed, with its place.
fn told_value(
    alloc: Global,
    files: &FileSet,
    positions: &mut PositionCounter<'_>,
    told: ToldItem,
) -> Result<Value, AllocError>
    requires { positions.old.files.now ≡ files.now }
    ensures value { IfOk result (λ v. view v ≡ placed_told_data files.now (told_item_view told)) }
    ensures files { positions.new.files.now ≡ positions.old.files.now }
{
    let file = told.item.place.file;
    let span = told.item.span;
    let mut members = spot_members(alloc, span.from, file_name(files, file))?;
    put_position(alloc, positions, file, span, &mut members)?;
    put_told(alloc, files, told, &mut members)?;
    Ok(Value::Object(members))
}

/// Sources that are followed, with their places.
fn tolds_value(alloc: Global, files: &FileSet, items: Vec<ToldItem>) -> Result<Value, AllocError>
    ensures { IfOk result (λ v. view v ≡ placed_tolds_data files.now (map told_item_view items.items)) }
{
    let mut positions = PositionCounter::new(files);
    let mut list = Vec::new(alloc);
    for item in items {
        list.push(told_value(alloc, files, &mut positions, item)?)?;
    }
    Ok(Value::Array(list))
}

/// What an info command reports of a target whose call spans that, with positions, and with the sources that are followed.
fn followed_value(
    alloc: Global,
    files: &FileSet,
    span: Span,
    details: TargetDetails,
    told: Told,
) -> Result<Value, AllocError>
    ensures { IfOk result (λ v. view v ≡ placed_followed_data files.now span details (told_view told)) }
{
    let TargetDetails {
        place,
        head,
        sources: _,
        extra_files,
    } = details;
    let Told { items, unknown } = told;
    let placed_extra = items_value(alloc, files, extra_files.items.get())?;
    let sources = tolds_value(alloc, files, items)?;
    let listing = target_with(
        alloc,
        files,
        place.file,
        head,
        sources,
        unknown,
        extra_files,
    )?;
    let mut members = match members_of(listing) {
        Ok(members) => members,
        Err(other) => return Ok(other),
    };
    put(&mut members, alloc, "extra_files", placed_extra)?;
    let mut positions = PositionCounter::new(files);
    put_position(alloc, &mut positions, place.file, span, &mut members)?;
    Ok(Value::Object(members))
}

/// What an info command reports of a target whose call spans that, with positions, as its sources are read.
pub(crate) fn value_by(
    alloc: Global,
    project: &Project,
    reading: Reading,
    span: Span,
    details: TargetDetails,
) -> Result<Value, AllocError>
    ensures { IfOk result (λ v. view v ≡ placed_by project.now reading span details) }
{
    let files = project.files();
    match reading {
        Reading::Written => target_value(alloc, files, span, details),
        Reading::Followed => {
            let told = told_sources(alloc, project, &details.place)?;
            followed_value(alloc, files, span, details, told)
        }
    }
}
