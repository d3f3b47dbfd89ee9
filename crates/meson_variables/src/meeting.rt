//! What is in a list of sources: literals, and whether elements have names.

ghost use Rattle.std.specs.Prelude.{◌≡◌, Option, IfOk, OnOk, option_map};
ghost use Rattle.meson_syntax.specs.Grammar.{expression_words};
ghost use Rattle.meson_syntax.specs.View.{text_at, arg_view, expr_view, list_view};
ghost use Rattle.meson_calls.specs.Calls.{literal_of};
ghost use Rattle.meson_syntax.specs.Tree.{is_named};
ghost use Rattle.meson_variables.specs.Expansion.{are_named, is_files, literal_item};
ghost use Rattle.meson_calls.specs.ChosenNotes.{Source};
ghost use Rattle.meson_variables.specs.TargetSources.{list_of_slot};
ghost use Rattle.meson_calls.specs.Strings.{AreGood};
ghost use Rattle.meson_variables.specs.Tallies.{Meets, stand, stand_at};

use crate::marks::{Marks, Site};
use crate::source::SourceItem;
use meson_calls::call::CallRef;
use meson_calls::literals::literal;
use meson_calls::place::place_of;
use meson_calls::roles::text_of;
use meson_lex::Span;
use meson_splice::Text;
use meson_syntax::{Arg, Expr, List};
use std::alloc::{AllocError, Global};

/// Whether an argument has a name.
pub fn is_named(arg: &Arg) -> bool
    ensures { (source : Source) → result ≡ is_named (arg_view source arg.now) }
{
    match arg {
        Arg::Plain(_) => false,
        Arg::Named { .. } => true,
        Arg::Pair { .. } => false,
    }
}

/// Whether one of a list's elements has a name.
fn are_named(list: &List) -> bool
    ensures { (source : Source) → result ≡ are_named (list_view source list.now) }
{
    let args = list.items.get();
    for i in 0..args.len() {
        if is_named(&args[i]) {
            return true;
        }
    }
    false
}

/// Whether a call is a list: one of `files` without names.
pub fn is_files(source: &[u8], function: Span, arguments: &List) -> bool
    ensures { result ≡ is_files (text_at source.now function) (list_view source.now arguments.now) }
{
    text_of(source, function) == b"files".as_slice() && !are_named(arguments)
}

/// The list of an item, if it is in one.
pub fn list_of(
    alloc: Global,
    file: usize,
    path: &[usize],
    slot: Option<usize>,
) -> Result<Option<CallRef>, AllocError>
    ensures { (variable : Option Source) → IfOk result (λ list. list ≡ list_of_slot (stand file path.now variable slot).slot) }
{
    match slot {
        Some(_) => {
            let place = place_of(alloc, file, path)?;
            Ok(Some(place))
        }
        None => Ok(None),
    }
}

/// A copy of a variable's name, if there is one.
fn copy_name(alloc: Global, name: Option<&str>) -> Result<Option<Text>, AllocError>
    ensures { IfOk result (λ copy. copy ≡ option_map (λ x. x.now) name.entry) }
{
    match name {
        Some(name) => {
            let text = String::from_str(alloc, name)?;
            Ok(Some(Text::of(text)))
        }
        None => Ok(None),
    }
}

/// Meets a string.
pub fn meet_string<'t>(
    alloc: Global,
    site: Site<'t>,
    slot: Option<usize>,
    span: Span,
    expr: &Expr,
    path: &[usize],
    marks: &mut Marks<'t>,
) -> Result<(), AllocError>
    requires { AreGood (expression_words (expr_view site.source.now expr.now)) }
    ensures { OnOk result (Meets marks.old
        (λ followed. literal_item span (stand_at site.entry path.now slot) followed (literal_of (expr_view site.entry.source.now expr.now))) marks.new) }
{
    match literal(alloc, site.source, expr)? {
        Some(text) => {
            let list = list_of(alloc, site.file, path, slot)?;
            let variable = copy_name(alloc, site.variable)?;
            let item = SourceItem {
                value: Text::of(text),
                file: site.file,
                span,
                list,
                variable,
            };
            marks.meet(alloc, item, slot)?;
            Ok(())
        }
        None => marks.miss(site.file),
    }
}
