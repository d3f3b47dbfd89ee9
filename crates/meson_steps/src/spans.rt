//! The spans of elements, of their values and of whole lists.

ghost use Rattle.std.specs.Prelude.{◌≡◌, option_and_then, option_map};
ghost use Rattle.meson_syntax.specs.Paths.{list_at, list_in, nth, value_of};
ghost use Rattle.meson_edit.specs.Standing.{argument_span, expression_span};
ghost use Rattle.meson_syntax.specs.View.{arg_view, expr_view, list_view, view};
ghost use Rattle.meson_edit.specs.Edits.{elements};
ghost use Rattle.meson_calls.specs.ChosenNotes.{Source};
ghost use Rattle.meson_steps.specs.Working.{spot_at};
ghost use Rattle.meson_steps.specs.inside.Working.{spot_in};

use meson_edit::span_of;
use meson_lex::Span;
use meson_syntax::{Arg, Bracket, Expr, List, Parsed, Path};

/// The span of the value of an element, if it has one.
fn span_in(arg: &Arg) -> Option<Span>
    ensures { (source : Source) → result ≡ option_map expression_span (value_of (arg_view source arg.now)) }
{
    match arg {
        Arg::Plain(value) => Some(span_of(value)),
        Arg::Named { value, .. } => Some(span_of(value)),
        Arg::Pair { value, .. } => Some(span_of(value.get())),
    }
}

/// The span of the value of the n-th element of a list, if it is there.
pub(crate) fn value_span(list: &List, n: usize) -> Option<Span>
    ensures { (source : Source) → result ≡ option_map expression_span (option_and_then value_of (nth (elements (list_view source list.now)) n)) }
{
    let args = list.items.get();
    if n < args.len() {
        span_in(&args[n])
    } else {
        None
    }
}

/// The span of an element.
fn span_of_element(arg: &Arg) -> Span
    ensures { (source : Source) → result ≡ argument_span (arg_view source arg.now) }
{
    match arg {
        Arg::Plain(value) => span_of(value),
        Arg::Named { span, .. } => *span,
        Arg::Pair { span, .. } => *span,
    }
}

/// The span of the n-th element of a list, if it is there.
pub(crate) fn element_span(list: &List, n: usize) -> Option<Span>
    ensures { (source : Source) → result ≡ option_map argument_span (nth (elements (list_view source list.now)) n) }
{
    let args = list.items.get();
    if n < args.len() {
        Some(span_of_element(&args[n]))
    } else {
        None
    }
}

/// The brackets of a list, and its span from the opening one to the closing one.
#[derive(Clone, Copy)]
pub struct ListSpot {
    pub bracket: Bracket,
    pub span: Span,
}

/// Those of the list of an array, a dictionary or a call.
fn spot_in(expr: &Expr) -> Option<ListSpot>
    ensures { (source : Source) → result ≡ option_map spot_in (list_in (expr_view source expr.now)) }
{
    let (bracket, span) = match expr {
        Expr::Array(list) => (Bracket::Square, list.span),
        Expr::Dictionary(list) => (Bracket::Curly, list.span),
        Expr::Call {
            span: _,
            name: _,
            arguments,
        } => (Bracket::Round, arguments.span),
        _ => return None,
    };
    Some(ListSpot { bracket, span })
}

/// Those of the list that a path names, if it is there.
pub fn list_spot(tree: &Parsed, path: &Path) -> Option<ListSpot>
    ensures { (source : Source) → result ≡ option_map spot_at (list_at (view source tree.now) path.now.steps) }
{
    match tree.expr_at(path) {
        Some(expr) => spot_in(expr),
        None => None,
    }
}
