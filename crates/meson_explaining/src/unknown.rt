//! Notes of arguments of a target of which it is not known what they hold.

ghost use Rattle.std.specs.Prelude.{◌≡◌, IfOk, drop, is_none, option_map};
ghost use Rattle.std.specs.List.{filter_map};
ghost use Rattle.meson_syntax.specs.View.{arg_view, args_view, expr_view};
ghost use Rattle.meson_variables.specs.CodeVariables.{AreVariables, project_of};
ghost use Rattle.meson_variables.specs.Variables.{single};
ghost use Rattle.meson_explaining.specs.Unknown.{argument_unknown, unknown_arguments, unknown_note, unknown_words};
ghost use Rattle.meson_calls.specs.Searching.{name_at};

use crate::explanation::{Note, Spot};
use meson_calls::roles::text_of;
use meson_calls::{BorrowedName, Refusal};
use meson_details::called::call_at;
use meson_edit::span_of;
use meson_plan::{Project, Role};
use meson_splice::Text;
use meson_syntax::{Arg, Expr};
use meson_variables::meeting::is_files;
use meson_variables::variables::Variables;
use std::alloc::{AllocError, Global};

/// The most arguments that are reported.
const MOST_TOLD: usize = 3;

/// The arguments that are searched for: those of a file, of a key.
#[derive(Clone, Copy)]
struct Sought<'s> {
    file: usize,
    source: &'s [u8],
    key: &'s str,
}

/// Whether a variable has no one known value.
fn is_unknown(variables: &Variables<'_>, name: &[u8]) -> Result<bool, AllocError>
    requires { AreVariables variables.now }
    ensures { IfOk result (λ unknown. unknown ≡ is_none (single (project_of variables.now) name.now)) }
{
    match variables.single(name)? {
        Some(_) => Ok(false),
        None => Ok(true),
    }
}

/// Why it is not known what an expression holds.
fn unknown_words(
    variables: &Variables<'_>,
    source: &[u8],
    expr: &Expr,
) -> Result<Option<&'static str>, AllocError>
    requires { AreVariables variables.now }
    ensures { IfOk result (λ words. option_map (λ w. w.now) words ≡ unknown_words (project_of variables.now) (expr_view source.now expr.now)) }
{
    match expr {
        Expr::Identifier(name) => {
            if is_unknown(variables, text_of(source, *name))? {
                return Ok(Some("this variable has no one known value"));
            }
            Ok(None)
        }
        Expr::Call {
            name,
            arguments,
            ..
        } => {
            if is_files(source, *name, arguments) {
                return Ok(None);
            }
            Ok(Some("it is not known what this call gives"))
        }
        Expr::String { .. } => Ok(None),
        Expr::Array(_) => Ok(None),
        Expr::Row { .. } => Ok(None),
        _ => Ok(Some("it is not known what this computes")),
    }
}

/// The note of an expression of which it is not known what it holds.
fn unknown_note(
    variables: &Variables<'_>,
    sought: Sought<'_>,
    expr: &Expr,
) -> Result<Option<Note>, AllocError>
    requires { AreVariables variables.now }
    ensures { IfOk result (λ note. note ≡ unknown_note (project_of variables.now) sought.entry.file (expr_view sought.entry.source.now expr.now)) }
{
    let Some(words) = unknown_words(variables, sought.source, expr)? else {
        return Ok(None);
    };
    let span = span_of(expr);
    Ok(Some(Note {
        spot: Some(Spot {
            file: sought.file,
            at: span.from,
            end: span.to,
        }),
        text: Text::of(String::from_str(variables.alloc, words)?),
    }))
}

/// The note of such an argument.
fn argument_unknown(
    variables: &Variables<'_>,
    sought: Sought<'_>,
    arg: &Arg,
) -> Result<Option<Note>, AllocError>
    requires { AreVariables variables.now }
    ensures { IfOk result (λ note. note
        ≡ argument_unknown (project_of variables.now) sought.entry.file sought.entry.key.now (arg_view sought.entry.source.now arg.now)) }
{
    match arg {
        Arg::Plain(value) => {
            if sought.key != "sources" {
                return Ok(None);
            }
            unknown_note(variables, sought, value)
        }
        Arg::Named {
            span: _,
            name,
            value,
        } => {
            if text_of(sought.source, *name) != sought.key.as_bytes() {
                return Ok(None);
            }
            unknown_note(variables, sought, value)
        }
        Arg::Pair { .. } => Ok(None),
    }
}

/// The arguments after the first.
fn after_first(args: &[Arg]) -> &[Arg]
    ensures { result.now ≡ drop 1 args.now }
{
    match args {
        [_, rest @ ..] => rest,
        [] => args,
    }
}

/// The notes of such arguments.
fn all_unknown(
    variables: &Variables<'_>,
    sought: Sought<'_>,
    args: &[Arg],
) -> Result<Vec<Note>, AllocError>
    requires { AreVariables variables.now }
    ensures { IfOk result (λ notes. notes.items
        ≡ filter_map (argument_unknown (project_of variables.now) sought.entry.file sought.entry.key.now) (args_view sought.entry.source.now args.now)) }
{
    let mut notes = Vec::new(variables.alloc);
    for i in 0..args.len() {
        if let Some(note) = argument_unknown(variables, sought, &args[i])? {
            notes.push(note)?;
        }
    }
    Ok(notes)
}

/// The notes of the first such arguments of the target that an id names.
pub(crate) fn unknown_arguments(
    alloc: Global,
    project: &Project,
    target: BorrowedName<'_>,
    key: &str,
) -> Result<Vec<Note>, AllocError>
    ensures { IfOk result (λ notes. notes.items ≡ unknown_arguments project.now (name_at target.entry) key.now) }
{
    match project.find_one(alloc, Role::Target, target) {
        Ok(place) => {
            project.reads();
            let variables = Variables::near(alloc, project.files(), project.trees(), &[], &place)?;
            let called = call_at(project.files(), project.trees(), &place);
            let sought = Sought {
                file: place.file,
                source: called.source,
                key,
            };
            let args = after_first(called.arguments.items.get());
            let mut notes = all_unknown(&variables, sought, args)?;
            notes.truncate(MOST_TOLD);
            Ok(notes)
        }
        Err(Refusal::OutOfMemory) => Err(AllocError),
        Err(_) => Ok(Vec::new(alloc)),
    }
}
