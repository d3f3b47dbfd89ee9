//! The steps of commands on the extra files of a target.

ghost use Rattle.std.specs.Prelude.{◌≡◌, ◌<◌, ◌++◌, ◌∷◌, [], All, IfErr, IfOk, Ok, OnOk, Some, codes, length, map};
ghost use Rattle.std.specs.Str.{IsUtf8};
ghost use Rattle.meson_lex.specs.Literals as lex;
ghost use Rattle.meson_syntax.specs.Grammar.{expression_words};
ghost use Rattle.meson_syntax.specs.View.{expr_view, list_view};
ghost use Rattle.meson_calls.specs.Calls.{literal_of, value_with_name};
ghost use Rattle.meson_variables.specs.Expansion.{max_followed};
ghost use Rattle.meson_calls.specs.GoodLists.{GoodArgs, GoodListing};
ghost use Rattle.meson_steps.specs.ListSteps.{bare};
ghost use Rattle.meson_calls.specs.Loading.{AreParsed};
ghost use Rattle.meson_variables.specs.CodeVariables.{AreVariables, project_of};
ghost use Rattle.meson_calls.specs.ChosenNotes.{Source, placed_call};
ghost use Rattle.meson_calls.specs.Refusals.{RefusedAs};
ghost use Rattle.meson_sources.specs.SourceEdits.{behind_value, checked_extra, elements_there, extra_added, extra_key, extra_marks, extra_removed};
ghost use Rattle.meson_calls.specs.NamedArguments.{kept_args};
ghost use Rattle.meson_variables.specs.TargetSources.{or_option};
ghost use Rattle.meson_calls.specs.Strings.{AreGood};
ghost use Rattle.meson_variables.specs.Tallies.{gathered};
ghost use Rattle.meson_sources.specs.inside.Targeted.{extra_gathered, lone_or_new, new_list_steps};
ghost use Rattle.meson_steps.specs.Meanings.{AreBehind, AreMeant};

use crate::editing::insertions;
use crate::inserting::{insert, new_names, places_of};
use crate::removing::names_removed;
use meson_calls::arguments::{at_most_once, count_named, first_named};
use meson_calls::literals::literal;
use meson_calls::place::{copy_place, value_place};
use meson_calls::{CallRef, Refusal};
use meson_splice::{Bytes, Text};
use meson_steps::literals::push_literal;
use meson_steps::names::checked_names;
use meson_steps::step::{ListEdit, ListStep, push_step};
use meson_syntax::{Arg, Expr, List};
use meson_variables::call_sources::MAX_FOLLOWED;
use meson_variables::marks::{Marks, Site};
use meson_variables::variables::Variables;
use std::alloc::{AllocError, Global};

/// What `extra_files:` holds.
pub(crate) fn extra_met<'t>(
    variables: &Variables<'t>,
    left: usize,
    call: &CallRef,
    source: &'t [u8],
    args: &'t [Arg],
) -> Result<Marks<'t>, AllocError>
    requires holds { AreVariables variables.now }
    requires good { GoodArgs source.now args.now }
    ensures { IfOk result (λ marks. gathered marks ≡ extra_gathered (project_of variables.now) left call.now source.entry.now args.entry.now) }
{
    let site = Site {
        file: call.file,
        source,
        variable: None,
    };
    let mut path = Vec::from_slice(variables.alloc, call.path.steps.get())?;
    let mut marks = Marks::new(variables.alloc);
    variables.expand_nameds(
        left,
        site,
        args,
        b"extra_files".as_slice(),
        &mut path,
        &mut marks,
    )?;
    Ok(marks)
}

/// What `extra_files:` holds, if it may be changed.
///
/// # Errors
/// A name is empty, the call may have hidden arguments or has `extra_files:` twice, or out of memory.
fn checked_extra<'t>(
    variables: &Variables<'t>,
    call: &CallRef,
    source: &'t [u8],
    arguments: &'t List,
    names: &[Text],
) -> Result<Marks<'t>, Refusal>
    requires holds { AreVariables variables.now }
    requires good { GoodListing (list_view source.now arguments.now) }
    ensures met { IfOk result (λ marks.
        gathered marks ≡ extra_gathered (project_of variables.now) max_followed call.now source.entry.now arguments.entry.now.items) }
    ensures checked { (function : Source) → let c = placed_call call.now function source.entry.now arguments.entry.now in
        IfOk result (λ marks. checked_extra (project_of variables.now) c names.now ≡ Ok (extra_marks (project_of variables.now) c)) }
    ensures refused { (function : Source) →
        RefusedAs result (checked_extra (project_of variables.now) (placed_call call.now function source.entry.now arguments.entry.now) names.now) }
    ensures utf8 { IfOk result (λ marks. All IsUtf8 names.now) }
{
    checked_names(names)?;
    let args = arguments.items.get();
    if count_named(source, args, b"kwargs".as_slice()) > 0 {
        return Err(Refusal::HiddenKeywords);
    }
    at_most_once(
        variables.alloc,
        source,
        arguments,
        b"extra_files".as_slice(),
    )?;
    let marks = extra_met(variables, MAX_FOLLOWED, call, source, args)?;
    Ok(marks)
}

/// `extra_files: ['NAME']`.
fn written_keyword(alloc: Global, name: &Text) -> Result<Bytes, Refusal>
    ensures done { IfOk result (λ b. b ≡ extra_key ++ (codes ": [" ++ (lex.literal name.now ++ 93 ∷ []))) }
    ensures refused { IfErr result (λ e. e ≡ Refusal.OutOfMemory) }
{
    let mut out = Vec::new(alloc);
    out.extend_from_slice(b"extra_files")?;
    out.extend_from_slice(b": [")?;
    push_literal(alloc, &mut out, name.get())?;
    out.extend_from_slice(b"]")?;
    Ok(Bytes::of(out))
}

/// Puts the first name into a new list, after the last of `arguments` arguments, and the others after it.
fn into_new_list(
    alloc: Global,
    call: &CallRef,
    arguments: usize,
    names: &[&Text],
    steps: &mut Vec<ListStep>,
) -> Result<(), Refusal>
    requires { 0 < length names.now }
    ensures done { OnOk result (map Some steps.new.items
        ≡ map Some steps.old.items ++ map bare (new_list_steps call.now arguments (map (λ x. x.now) names.now))) }
    ensures refused { IfErr result (λ e. e ≡ Refusal.OutOfMemory) }
{
    let new = written_keyword(alloc, names[0])?;
    let edit = ListEdit::After(arguments.saturating_sub(1), new);
    let list = copy_place(alloc, call)?;
    push_step(steps, list, edit)?;
    let list = value_place(alloc, call, arguments)?;
    insert(alloc, &list, 1, &names[1..], steps)
}

/// Wraps the value of an argument, which has to be a literal, and adds the names after it.
///
/// # Errors
/// It is not a literal, or out of memory.
fn behind_value(
    alloc: Global,
    source: &[u8],
    call: &CallRef,
    number: usize,
    value: &Expr,
    names: &[&Text],
    steps: &mut Vec<ListStep>,
) -> Result<(), Refusal>
    requires { AreGood (expression_words (expr_view source.now value.now)) }
    ensures done { OnOk result (AreBehind
        (behind_value call.now number (literal_of (expr_view source.now value.now)) (map (λ x. x.now) names.now)) steps.old.items steps.new.items) }
    ensures refused { RefusedAs result (behind_value call.now number (literal_of (expr_view source.now value.now)) (map (λ x. x.now) names.now)) }
{
    match literal(alloc, source, value)? {
        Some(_) => {}
        None => {
            let key = String::from_str(alloc, "extra_files")?;
            return Err(Refusal::NotLiteral(Text::of(key)));
        }
    }
    let list = copy_place(alloc, call)?;
    push_step(steps, list, ListEdit::Wrap(number))?;
    let list = value_place(alloc, call, number)?;
    insert(alloc, &list, 1, names, steps)
}

/// Adds names to the call if no list is met.
///
/// # Errors
/// `extra_files:` is not a literal, or out of memory.
fn without_home(
    alloc: Global,
    source: &[u8],
    call: &CallRef,
    args: &[Arg],
    names: &[&Text],
    steps: &mut Vec<ListStep>,
) -> Result<(), Refusal>
    requires { GoodArgs source.now args.now }
    ensures done { OnOk result (AreBehind (lone_or_new call.now (length args.now) (kept_args source.now (value_with_name extra_key) 0 args.now)
        (map (λ x. x.now) names.now)) steps.old.items steps.new.items) }
    ensures refused { RefusedAs result (lone_or_new call.now (length args.now)
        (kept_args source.now (value_with_name extra_key) 0 args.now) (map (λ x. x.now) names.now)) }
{
    if names.len() == 0 {
        return Ok(());
    }
    match first_named(source, args, b"extra_files".as_slice()) {
        Some(number) => {
            if number >= args.len() {
                unreachable!();
            }
            match &args[number] {
                Arg::Named { value, .. } => {
                    behind_value(alloc, source, call, number, value, names, steps)
                }
                Arg::Plain(_) => unreachable!(),
                Arg::Pair { .. } => unreachable!(),
            }
        }
        None => into_new_list(alloc, call, args.len(), names, steps),
    }
}

/// The first place, if there is one.
fn first_of(list: Option<CallRef>, vacant: Option<CallRef>) -> Option<CallRef>
    ensures { result ≡ or_option list vacant }
{
    match list {
        Some(place) => Some(place),
        None => vacant,
    }
}

/// The steps that add extra files.
///
/// # Errors
/// A name is empty, the call may have hidden arguments, its extra files are there twice or can't be changed, or out of memory.
pub(crate) fn extra_added<'t>(
    variables: &Variables<'t>,
    call: &CallRef,
    source: &'t [u8],
    arguments: &'t List,
    names: &[Text],
) -> Result<Vec<ListStep>, Refusal>
    requires holds { AreVariables variables.now }
    requires parsed { AreParsed variables.now.files.now variables.now.trees.now }
    requires good { GoodListing (list_view source.now arguments.now) }
    requires there { length arguments.now.items ≡ length (elements_there (project_of variables.now) call.now) }
    ensures meant { (function : Source) → IfOk result (λ steps.
        AreMeant (extra_added (project_of variables.now) (placed_call call.now function source.entry.now arguments.entry.now) names.now) steps.items) }
    ensures refused { (function : Source) →
        RefusedAs result (extra_added (project_of variables.now) (placed_call call.now function source.entry.now arguments.entry.now) names.now) }
    ensures utf8 { IfOk result (λ steps. All IsUtf8 names.now) }
{
    let alloc = variables.alloc;
    let marks = checked_extra(variables, call, source, arguments, names)?;
    let new = new_names(alloc, marks.items.as_slice(), names)?;
    let (list, vacant) = places_of(marks);
    match first_of(list, vacant) {
        Some(home) => {
            let steps = insertions(variables, &home, new.as_slice())?;
            Ok(steps)
        }
        None => {
            let mut steps = Vec::new(alloc);
            let args = arguments.items.get();
            without_home(alloc, source, call, args, new.as_slice(), &mut steps)?;
            Ok(steps)
        }
    }
}

/// The steps that remove extra files, in whatever list they are.
///
/// # Errors
/// A name is empty, the call may have hidden arguments or has `extra_files:` twice, or out of memory. Or a name is not one of the extra files, or is one that
/// is in no list.
pub(crate) fn extra_removed<'t>(
    variables: &Variables<'t>,
    call: &CallRef,
    source: &'t [u8],
    arguments: &'t List,
    names: &[Text],
) -> Result<Vec<ListStep>, Refusal>
    requires holds { AreVariables variables.now }
    requires good { GoodListing (list_view source.now arguments.now) }
    ensures meant { (function : Source) → IfOk result (λ steps.
        AreMeant (extra_removed (project_of variables.now) (placed_call call.now function source.entry.now arguments.entry.now) names.now) steps.items) }
    ensures refused { (function : Source) →
        RefusedAs result (extra_removed (project_of variables.now) (placed_call call.now function source.entry.now arguments.entry.now) names.now) }
    ensures utf8 { IfOk result (λ steps. All IsUtf8 names.now) }
{
    let marks = checked_extra(variables, call, source, arguments, names)?;
    let steps = names_removed(variables.alloc, &marks, names)?;
    Ok(steps)
}
