//! What an info command reports of a call or a value, as JSON with positions.

ghost use Rattle.std.specs.Prelude.{◌≡◌, IfErr, IfOk, None, OnOk, Some, codes, option_map};
ghost use Rattle.std.specs.List.{filter_map};
ghost use Rattle.serde_json.specs.Data.{put as with_member};
ghost use Rattle.serde_json.specs.Find.{as_object};
ghost use Rattle.serde_json.specs.View.{members_view, view};
ghost use Rattle.meson_syntax.specs.Grammar.{argument_words};
ghost use Rattle.meson_syntax.specs.View.{arg_view, args_view};
ghost use Rattle.meson_calls.specs.GoodLists.{GoodArgs};
ghost use Rattle.meson_calls.specs.Refusals.{IfRefused};
ghost use Rattle.meson_calls.specs.Strings.{AreGood};
ghost use Rattle.meson_inventory.specs.Info.{HasNoCallInfo, HasNoInfo, HasNoTargetInfo, HasNoValueInfo, IsCallInfo, IsInfo, IsTargetInfo, IsValueInfo, keyword_place, keyword_place_data, placed_item_data, placed_items_data, placed_target_data, places_data, range_data, with_members, with_position};
ghost use Rattle.meson_calls.specs.Searching.{name_at};

use crate::followed::value_by;
use crate::placed::offset_members;
use crate::position_counter::PositionCounter;
use meson_calls::BorrowedName;
use meson_calls::keys::is_key;
use meson_calls::roles::{identifier_text, text_of};
use meson_details::called::call_at;
use meson_edit::span_of;
use meson_lex::Span;
use meson_listing::entries::{file_name, spot_members, text_or_null};
use meson_listing::{call_object, target_object, value_object};
use meson_plan::{
    Command, Project, Reading, Refusal, Role, SourceItem, TargetDetails, ValueName, find_value,
};
use meson_splice::{FileSet, Text};
use meson_syntax::Arg;
use serde_json::{Map, Value, put};
use std::alloc::{AllocError, Global};

/// The places of the name and the value of a keyword argument.
#[derive(Drop)]
pub(crate) struct KeywordPlace {
    pub key: Text,
    pub name: Span,
    pub value: Span,
}

/// Puts where a part of a file begins and ends into the members of an object.
pub(crate) fn put_position(
    alloc: Global,
    positions: &mut PositionCounter<'_>,
    file: usize,
    span: Span,
    members: &mut Map<String, Value>,
) -> Result<(), AllocError>
    ensures put { OnOk result (members_view members.new.entries ≡ with_position positions.old.files.now file span (members_view members.old.entries)) }
    ensures files { positions.new.files.now ≡ positions.old.files.now }
{
    let start = positions.go_to(file, span.from);
    let end = positions.position_of(file, span.to);
    let end = offset_members(alloc, span.to, end)?;
    put(members, alloc, "character", Value::from(start.character))?;
    put(members, alloc, "end", Value::Object(end))?;
    put(members, alloc, "line", Value::from(start.line))
}

/// A source or an extra file, with its place.
fn item_value(
    alloc: Global,
    files: &FileSet,
    positions: &mut PositionCounter<'_>,
    item: &SourceItem,
) -> Result<Value, AllocError>
    requires { positions.old.files.now ≡ files.now }
    ensures value { IfOk result (λ v. view v ≡ placed_item_data files.now item.now) }
    ensures files { positions.new.files.now ≡ positions.old.files.now }
{
    let mut members = spot_members(alloc, item.span.from, file_name(files, item.file))?;
    put_position(alloc, positions, item.file, item.span, &mut members)?;
    let value = Value::try_from_str(alloc, item.value.get())?;
    put(&mut members, alloc, "value", value)?;
    let variable = item.variable.clone()?;
    put(&mut members, alloc, "variable", text_or_null(variable))?;
    Ok(Value::Object(members))
}

/// Sources or extra files, with their places.
pub(crate) fn items_value(
    alloc: Global,
    files: &FileSet,
    items: &[SourceItem],
) -> Result<Value, AllocError>
    ensures { IfOk result (λ v. view v ≡ placed_items_data files.now items.now) }
{
    let mut positions = PositionCounter::new(files);
    let mut list = Vec::new(alloc);
    for item in items {
        list.push(item_value(alloc, files, &mut positions, item)?)?;
    }
    Ok(Value::Array(list))
}

/// The members of an object; the value back if it is not one.
pub(crate) fn members_of(value: Value) -> Result<Map<String, Value>, Value>
    ensures members { IfOk result (λ m. as_object (view value) ≡ Some (members_view m.entries)) }
    ensures other { IfErr result (λ other. (view other ≡ view value) × (as_object (view value) ≡ None)) }
{
    match value {
        Value::Object(members) => Ok(members),
        other => Err(other),
    }
}

/// What an info command reports of a target whose call spans that, with positions.
pub(crate) fn target_value(
    alloc: Global,
    files: &FileSet,
    span: Span,
    details: TargetDetails,
) -> Result<Value, AllocError>
    ensures { IfOk result (λ v. view v ≡ placed_target_data files.now span details) }
{
    let TargetDetails {
        place,
        head,
        sources,
        extra_files,
    } = details;
    let placed_sources = items_value(alloc, files, sources.items.get())?;
    let placed_extra = items_value(alloc, files, extra_files.items.get())?;
    let listing = target_object(alloc, files, place.file, head, sources, extra_files)?;
    let mut members = match members_of(listing) {
        Ok(members) => members,
        Err(other) => return Ok(other),
    };
    put(&mut members, alloc, "extra_files", placed_extra)?;
    put(&mut members, alloc, "sources", placed_sources)?;
    let mut positions = PositionCounter::new(files);
    put_position(alloc, &mut positions, place.file, span, &mut members)?;
    Ok(Value::Object(members))
}

/// What `info` reports of a target, with the position of its call, of each source, as they are read, and of each extra file. Lines are counted from 0,
/// characters in UTF-16 code units.
///
/// # Errors
/// There is no such target or more than one, or it has `sources:` or `extra_files:` twice, or out of memory.
pub fn placed_info_target(
    alloc: Global,
    project: &Project,
    name: BorrowedName<'_>,
    reading: Reading,
) -> Result<Value, Refusal>
    ensures listed { IfOk result (λ v. IsTargetInfo project.now reading (name_at name.entry) (view v)) }
    ensures refused { IfRefused result (HasNoTargetInfo project.now (name_at name.entry)) }
{
    project.reads();
    let details = project.target_details(alloc, name)?;
    let called = call_at(project.files(), project.trees(), &details.place);
    let info = value_by(alloc, project, reading, called.span, details)?;
    Ok(info)
}

/// Where the name and the value of an argument are, if commands change it in such a call.
fn keyword_place(
    alloc: Global,
    source: &[u8],
    role: Role,
    arg: &Arg,
) -> Result<Option<KeywordPlace>, AllocError>
    requires { AreGood (argument_words (arg_view source.now arg.now)) }
    ensures { IfOk result (λ place. place ≡ keyword_place role (arg_view source.now arg.now)) }
{
    match arg {
        Arg::Named {
            span: _,
            name,
            value,
        } => {
            let key = text_of(source, *name);
            if !is_key(role, key) {
                return Ok(None);
            }
            let key = String::from_str(alloc, identifier_text(key))?;
            Ok(Some(KeywordPlace {
                key: Text::of(key),
                name: *name,
                value: span_of(value),
            }))
        }
        Arg::Plain(_) => Ok(None),
        Arg::Pair { .. } => Ok(None),
    }
}

/// Where the names and the values of the arguments are that commands change in such a call.
fn keyword_places(
    alloc: Global,
    source: &[u8],
    role: Role,
    args: &[Arg],
) -> Result<Vec<KeywordPlace>, AllocError>
    requires { GoodArgs source.now args.now }
    ensures { IfOk result (λ places. places.items ≡ filter_map (keyword_place role) (args_view source.now args.now)) }
{
    let mut places = Vec::new(alloc);
    for i in 0..args.len() {
        if let Some(place) = keyword_place(alloc, source, role, &args[i])? {
            places.push(place)?;
        }
    }
    Ok(places)
}

/// Where a part of a file begins and ends.
fn range_value(
    alloc: Global,
    positions: &mut PositionCounter<'_>,
    file: usize,
    span: Span,
) -> Result<Value, AllocError>
    ensures value { IfOk result (λ v. view v ≡ range_data positions.old.files.now file span) }
    ensures files { positions.new.files.now ≡ positions.old.files.now }
{
    let mut members = Map::new(alloc);
    put(&mut members, alloc, "at", Value::from(span.from))?;
    put_position(alloc, positions, file, span, &mut members)?;
    Ok(Value::Object(members))
}

/// The places of the name and the value of a keyword argument.
fn place_value(
    alloc: Global,
    positions: &mut PositionCounter<'_>,
    file: usize,
    place: &KeywordPlace,
) -> Result<Value, AllocError>
    ensures value { IfOk result (λ v. view v ≡ keyword_place_data positions.old.files.now file place.now) }
    ensures files { positions.new.files.now ≡ positions.old.files.now }
{
    let mut both = Map::new(alloc);
    let name = range_value(alloc, positions, file, place.name)?;
    put(&mut both, alloc, "name", name)?;
    let value = range_value(alloc, positions, file, place.value)?;
    put(&mut both, alloc, "value", value)?;
    Ok(Value::Object(both))
}

/// Puts the places of a keyword argument at its key.
fn put_keyword_place(
    alloc: Global,
    positions: &mut PositionCounter<'_>,
    file: usize,
    place: KeywordPlace,
    members: &mut Map<String, Value>,
) -> Result<(), AllocError>
    ensures put { OnOk result (members_view members.new.entries
        ≡ with_member place.key (keyword_place_data positions.old.files.now file place) (members_view members.old.entries)) }
    ensures files { positions.new.files.now ≡ positions.old.files.now }
{
    let value = place_value(alloc, positions, file, &place)?;
    let _none = members.insert(place.key.take(), value)?;
    Ok(())
}

/// The places of keyword arguments, by their keys.
fn places_value(
    alloc: Global,
    files: &FileSet,
    file: usize,
    places: Vec<KeywordPlace>,
) -> Result<Value, AllocError>
    ensures { IfOk result (λ v. view v ≡ places_data files.now file places.items) }
{
    let mut positions = PositionCounter::new(files);
    let mut members = Map::new(alloc);
    for place in places {
        put_keyword_place(alloc, &mut positions, file, place, &mut members)?;
    }
    Ok(Value::Object(members))
}

/// What an info command reports of the keyword arguments of a call in the file of this number, with positions.
fn kwargs_value(
    alloc: Global,
    files: &FileSet,
    file: usize,
    span: Span,
    listing: Value,
    places: Vec<KeywordPlace>,
) -> Result<Value, AllocError>
    ensures { IfOk result (λ v. view v ≡ with_members (λ ms. with_position files.now file span
        (with_member (codes "places") (places_data files.now file places.items) ms)) (view listing)) }
{
    let placed = places_value(alloc, files, file, places)?;
    let mut members = match members_of(listing) {
        Ok(members) => members,
        Err(other) => return Ok(other),
    };
    put(&mut members, alloc, "places", placed)?;
    let mut positions = PositionCounter::new(files);
    put_position(alloc, &mut positions, file, span, &mut members)?;
    Ok(Value::Object(members))
}

/// What `info` reports of the keyword arguments of a call, with the position of the call and, as the member `places`, those of the name and the value of each
/// of them. Lines are counted from 0, characters in UTF-16 code units.
///
/// # Errors
/// There is no such call or more than one. Or one of these arguments is there twice, the first such in the call's order. Or out of memory.
pub fn placed_info_kwargs(
    alloc: Global,
    project: &Project,
    role: Role,
    name: BorrowedName<'_>,
) -> Result<Value, Refusal>
    ensures listed { IfOk result (λ v. IsCallInfo project.now role (name_at name.entry) (view v)) }
    ensures refused { IfRefused result (HasNoCallInfo project.now role (name_at name.entry)) }
{
    project.reads();
    let place = project.find_one(alloc, role, name)?;
    let head = project.head(alloc, &place)?;
    let keywords = project.keywords(alloc, role, &place)?;
    let called = call_at(project.files(), project.trees(), &place);
    let places = keyword_places(alloc, called.source, role, called.arguments.items.get())?;
    let files = project.files();
    let listing = call_object(alloc, files, place.file, head, keywords)?;
    Ok(kwargs_value(alloc, files, place.file, called.span, listing, places)?)
}

/// A listing with the position of what it is about.
fn positioned(
    alloc: Global,
    files: &FileSet,
    file: usize,
    span: Span,
    listing: Value,
) -> Result<Value, AllocError>
    ensures { IfOk result (λ v. view v ≡ with_members (with_position files.now file span) (view listing)) }
{
    let mut members = match members_of(listing) {
        Ok(members) => members,
        Err(other) => return Ok(other),
    };
    let mut positions = PositionCounter::new(files);
    put_position(alloc, &mut positions, file, span, &mut members)?;
    Ok(Value::Object(members))
}

/// What `info` reports of a value, with its position. Lines are counted from 0, characters in UTF-16 code units.
///
/// # Errors
/// The place or the value is not found, or out of memory.
pub fn placed_info_argument(
    alloc: Global,
    project: &Project,
    name: &ValueName,
) -> Result<Value, Refusal>
    ensures listed { IfOk result (λ v. IsValueInfo project.now name.now (view v)) }
    ensures refused { IfRefused result (HasNoValueInfo project.now name.now) }
{
    let value = find_value(alloc, project, name)?;
    let files = project.files();
    let listing = value_object(alloc, files, value.file, value.span.from, value.details)?;
    Ok(positioned(alloc, files, value.file, value.span, listing)?)
}

/// What a command reports, with positions: nothing, if it is not an info command.
///
/// # Errors
/// Those of `placed_info_target`, `placed_info_kwargs` and `placed_info_argument`.
pub fn placed_info(
    alloc: Global,
    project: &Project,
    command: &Command,
) -> Result<Option<Value>, Refusal>
    ensures told { IfOk result (λ info. IsInfo project.now command.now (option_map view info)) }
    ensures refused { IfRefused result (HasNoInfo project.now command.now) }
{
    match command {
        Command::TargetInfo { target, reading } => {
            let info = placed_info_target(alloc, project, target.as_name(), *reading)?;
            Ok(Some(info))
        }
        Command::KwargsInfo { role, name } => {
            Ok(Some(placed_info_kwargs(alloc, project, *role, name.as_name())?))
        }
        Command::ArgumentInfo { name } => Ok(Some(placed_info_argument(alloc, project, name)?)),
        _ => Ok(None),
    }
}
