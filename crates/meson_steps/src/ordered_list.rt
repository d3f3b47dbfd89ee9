//! A list of a file that gets elements, each in its place where the list is in order.

ghost use Rattle.std.specs.Prelude.{◌≡◌, ◌+◌, ◌<◌, ◌^◌, ◌++◌, ◌∷◌, [], IfOk, OnOk, Some, drop, length, map, option_map};
ghost use Rattle.meson_edit.specs.Edits.{Replace, Written};
ghost use Rattle.meson_syntax.specs.Grammar.{expression_words};
ghost use Rattle.meson_syntax.specs.Tree.{Expression, Nowhere, plain};
ghost use Rattle.meson_syntax.specs.View.{args_view, expr_view};
ghost use Rattle.meson_calls.specs.GoodLists.{GoodArgs};
ghost use Rattle.meson_calls.specs.Strings.{AreGood};
ghost use Rattle.meson_steps.specs.ListSteps.{bare};
ghost use Rattle.meson_steps.specs.Order.{IsInside};
ghost use Rattle.meson_steps.specs.Steps.{step_in};
ghost use Rattle.meson_steps.specs.OrderedLists.{IsOrderedList, Ordered, comes_first, comment_after, ends_line, first_of, has_comment, is_comment, lone_token, ordered, point_in, put_after, put_in_front, put_one, put_steps, sort_key, sort_keys};

use crate::order::{InsertionPoint, SortKey, insertion_point, put_key};
use crate::step::{ListEdit, ListStep, push_step};
use meson_calls::CallRef;
use meson_calls::literals::literal;
use meson_calls::place::copy_place;
use meson_calls::roles::text_of;
use meson_edit::span_of;
use meson_lex::{Kind, Span, items};
use meson_splice::{Bytes, Text};
use meson_syntax::{Arg, Expr};
use std::alloc::{AllocError, Global};

/// By what a value is ordered.
fn sort_key(alloc: Global, source: &[u8], value: &Expr) -> Result<SortKey, AllocError>
    requires { AreGood (expression_words (expr_view source.now value.now)) }
    ensures { IfOk result (λ k. k ≡ sort_key (expr_view source.now value.now)) }
{
    match value {
        Expr::Identifier(span) => {
            let name = Vec::from_slice(alloc, text_of(source, *span))?;
            Ok(SortKey::Name(Bytes::of(name)))
        }
        Expr::String { .. } => match literal(alloc, source, value)? {
            Some(text) => Ok(SortKey::Text(Text::of(text))),
            None => Ok(SortKey::Other),
        },
        _ => Ok(SortKey::Other),
    }
}

/// Those of elements from a number on, up to the first with a name or a key.
fn sort_keys(
    alloc: Global,
    source: &[u8],
    args: &[Arg],
    from: usize,
) -> Result<Vec<SortKey>, AllocError>
    requires { GoodArgs source.now args.now }
    ensures { IfOk result (λ keys. keys.items ≡ sort_keys (args_view source.now (drop from args.now))) }
{
    let mut keys = Vec::new(alloc);
    for i in from..args.len() {
        match &args[i] {
            Arg::Plain(value) => keys.push(sort_key(alloc, source, value)?)?,
            Arg::Named { .. } => return Ok(keys),
            Arg::Pair { .. } => return Ok(keys),
        }
    }
    Ok(keys)
}

/// The text of a literal or an identifier.
pub fn lone_token<'s>(
    alloc: Global,
    source: &'s [u8],
    value: &Expr,
) -> Result<Option<&'s [u8]>, AllocError>
    requires { AreGood (expression_words (expr_view source.now value.now)) }
    ensures { IfOk result (λ token. option_map (λ x. x.now) token ≡ lone_token (expr_view source.entry.now value.now)) }
{
    match value {
        Expr::Identifier(span) => Ok(Some(text_of(source, *span))),
        Expr::String { span, .. } => {
            if literal(alloc, source, value)?.is_some() {
                Ok(Some(text_of(source, *span)))
            } else {
                Ok(None)
            }
        }
        _ => Ok(None),
    }
}

/// Whether it ends a line, or is a comment, after which the line ends.
fn ends_line(kind: Kind) -> bool
    ensures { result ≡ ends_line kind }
{
    matches!(kind, Kind::LineEnd | Kind::Continuation | Kind::Comment)
}

/// Whether it is a comment.
fn is_comment(kind: Kind) -> bool
    ensures { result ≡ is_comment kind }
{
    matches!(kind, Kind::Comment)
}

/// Whether the first line of a text has a comment.
fn has_comment(text: &[u8]) -> bool
    ensures { result ≡ has_comment text.now }
{
    for item in items(text) {
        if let Ok(item) = item {
            if ends_line(item.kind) {
                return is_comment(item.kind);
            }
        }
    }
    false
}

/// Whether a comment is between an offset and the end of its line.
fn comment_after(source: &[u8], offset: usize) -> bool
    ensures { result ≡ comment_after source.now offset }
{
    let rest = Span {
        from: offset,
        to: source.len(),
    };
    has_comment(text_of(source, rest))
}

/// The text of a value, if it is a literal or an identifier, and no comment comes after it on its line.
fn first_text(alloc: Global, source: &[u8], value: &Expr) -> Result<Option<Bytes>, AllocError>
    requires { AreGood (expression_words (expr_view source.now value.now)) }
    ensures { IfOk result (λ text. text ≡ option_map (λ w. w.bytes) (first_of source.now (plain (expr_view source.now value.now) ∷ []))) }
{
    if comment_after(source, span_of(value).to) {
        return Ok(None);
    }
    match lone_token(alloc, source, value)? {
        Some(token) => Ok(Some(Bytes::of(Vec::from_slice(alloc, token)?))),
        None => Ok(None),
    }
}

/// That of the element of this number, if it has no name and no key.
fn first_of(
    alloc: Global,
    source: &[u8],
    args: &[Arg],
    from: usize,
) -> Result<Option<Bytes>, AllocError>
    requires { GoodArgs source.now args.now }
    ensures { IfOk result (λ text. text ≡ option_map (λ w. w.bytes) (first_of source.now (args_view source.now (drop from args.now)))) }
{
    if from >= args.len() {
        return Ok(None);
    }
    match &args[from] {
        Arg::Plain(value) => first_text(alloc, source, value),
        Arg::Named { .. } => Ok(None),
        Arg::Pair { .. } => Ok(None),
    }
}

/// A list that gets elements: the number of the first one that counts, after how many elements it ends, and by what those that count are ordered. And the text
/// of the first of these, where another one may be put in front of it.
#[derive(Drop)]
pub struct OrderedList {
    pub from: usize,
    pub end: usize,
    pub keys: Vec<SortKey>,
    pub first: Option<Bytes>,
}

/// The edit that puts a value after this many elements.
fn put_after(many: usize, new: Bytes) -> ListEdit
    ensures { (list : CallRef) (w : Written (Expression Nowhere)) → w.bytes ≡ new
        → bare (put_after list many w) ≡ Some (record { list = list; edit = result }) }
{
    if many == 0 {
        ListEdit::First(new)
    } else {
        ListEdit::After(many - 1, new)
    }
}

/// Adds the step that puts a value after this many elements.
fn push_after(
    alloc: Global,
    list: &CallRef,
    many: usize,
    new: &[u8],
    steps: &mut Vec<ListStep>,
) -> Result<(), AllocError>
    ensures { (w : Written (Expression Nowhere)) → w.bytes ≡ new.now
        → OnOk result (map Some steps.new.items ≡ map Some steps.old.items ++ map bare (put_after list.now many w ∷ [])) }
{
    let new = Bytes::of(Vec::from_slice(alloc, new)?);
    let list = copy_place(alloc, list)?;
    push_step(steps, list, put_after(many, new))
}

/// Adds the step that replaces the value of an element.
fn push_replacement(
    alloc: Global,
    list: &CallRef,
    number: usize,
    new: &[u8],
    steps: &mut Vec<ListStep>,
) -> Result<(), AllocError>
    ensures { (w : Written (Expression Nowhere)) → w.bytes ≡ new.now
        → OnOk result (map Some steps.new.items ≡ map Some steps.old.items ++ map bare (step_in list.now (Replace list.now.path.steps number w) ∷ [])) }
{
    let new = Bytes::of(Vec::from_slice(alloc, new)?);
    let list = copy_place(alloc, list)?;
    push_step(steps, list, ListEdit::Replace(number, new))
}

/// Whether one that is put there is the first that counts, in a list whose elements that count begin and end there.
fn comes_first(from: usize, end: usize, at: InsertionPoint) -> bool
    ensures { result ≡ comes_first from end at }
{
    match at {
        InsertionPoint::End => from == end,
        InsertionPoint::After(_) => false,
        InsertionPoint::Front => true,
    }
}

impl OrderedList {
    /// The list of these elements, of which those from a number on count. It ends after `end` of them.
    pub fn of(
        alloc: Global,
        source: &[u8],
        args: &[Arg],
        from: usize,
        end: usize,
    ) -> Result<OrderedList, AllocError>
        requires { GoodArgs source.now args.now }
        ensures { IfOk result (λ l. IsOrderedList l (ordered source.now from end (args_view source.now args.now))) }
    {
        let keys = sort_keys(alloc, source, args, from)?;
        let first = first_of(alloc, source, args, from)?;
        Ok(OrderedList {
            from,
            end,
            keys,
            first,
        })
    }

    /// Where a value with this key comes.
    fn point_of(&self, key: &SortKey) -> InsertionPoint
        ensures is { (o : Ordered) → IsOrderedList self.now o → result ≡ point_in o key.now }
        ensures inside { IsInside result (length self.now.keys.items) }
    {
        insertion_point(self.first.is_some(), key, self.keys.as_slice())
    }

    /// Adds the steps that put a value in front of the first one.
    fn push_in_front(
        &self,
        alloc: Global,
        list: &CallRef,
        new: &[u8],
        steps: &mut Vec<ListStep>,
    ) -> Result<(), AllocError>
        requires { self.now.from < 2 ^ 63 }
        ensures { (o : Ordered) → IsOrderedList self.now o → (w : Written (Expression Nowhere)) → w.bytes ≡ new.now
            → OnOk result (map Some steps.new.items ≡ map Some steps.old.items ++ map bare (put_in_front list.now o o.first w)) }
    {
        match &self.first {
            Some(first) => {
                push_replacement(alloc, list, self.from, new, steps)?;
                push_after(alloc, list, self.from + 1, first.get(), steps)
            }
            None => push_after(alloc, list, self.end, new, steps),
        }
    }

    /// Adds the steps that put a value there.
    fn push_steps(
        &self,
        alloc: Global,
        list: &CallRef,
        at: InsertionPoint,
        new: &[u8],
        steps: &mut Vec<ListStep>,
    ) -> Result<(), AllocError>
        requires small { self.now.from < 2 ^ 63 }
        requires inside { IsInside at (length self.now.keys.items) }
        ensures { (o : Ordered) → IsOrderedList self.now o → (w : Written (Expression Nowhere)) → w.bytes ≡ new.now
            → OnOk result (map Some steps.new.items ≡ map Some steps.old.items ++ map bare (put_steps list.now o at w)) }
    {
        match at {
            InsertionPoint::End => push_after(alloc, list, self.end, new, steps),
            InsertionPoint::After(n) => push_after(alloc, list, self.from + n + 1, new, steps),
            InsertionPoint::Front => self.push_in_front(alloc, list, new, steps),
        }
    }

    /// Takes note of a value that is put there.
    fn note(
        &mut self,
        alloc: Global,
        at: InsertionPoint,
        key: SortKey,
        new: &[u8],
    ) -> Result<(), AllocError>
        requires small { self.old.end + 1 < 2 ^ 64 }
        requires inside { IsInside at (length self.old.keys.items) }
        ensures from { self.new.from ≡ self.old.from }
        ensures end { OnOk result (self.new.end ≡ self.old.end + 1) }
        ensures list { (o : Ordered) → IsOrderedList self.old o → (w : Written (Expression Nowhere)) → w.bytes ≡ new.now
            → OnOk result (IsOrderedList self.new (put_one o at key w)) }
    {
        if comes_first(self.from, self.end, at) {
            self.first = Some(Bytes::of(Vec::from_slice(alloc, new)?));
        }
        put_key(&mut self.keys, at, key)?;
        self.end += 1;
        Ok(())
    }

    /// Adds the steps that put a value in its place, and takes note of it.
    ///
    /// # Errors
    /// Out of memory.
    pub fn put(
        &mut self,
        alloc: Global,
        list: &CallRef,
        key: SortKey,
        new: &[u8],
        steps: &mut Vec<ListStep>,
    ) -> Result<(), AllocError>
        requires small { self.old.from < 2 ^ 63 }
        requires ends { self.old.end + 1 < 2 ^ 64 }
        ensures from { self.new.from ≡ self.old.from }
        ensures end { OnOk result (self.new.end ≡ self.old.end + 1) }
        ensures list { (o : Ordered) → IsOrderedList self.old o → (w : Written (Expression Nowhere)) → w.bytes ≡ new.now
            → OnOk result (IsOrderedList self.new (put_one o (point_in o key) key w)) }
        ensures steps { (o : Ordered) → IsOrderedList self.old o → (w : Written (Expression Nowhere)) → w.bytes ≡ new.now
            → OnOk result (map Some steps.new.items ≡ map Some steps.old.items ++ map bare (put_steps list.now o (point_in o key) w)) }
    {
        let at = self.point_of(&key);
        self.push_steps(alloc, list, at, new, steps)?;
        self.note(alloc, at, key, new)
    }
}
