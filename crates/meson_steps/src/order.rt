//! Where a new text or identifier comes in a list that is in order.

ghost use Rattle.std.specs.Prelude.{◌≡◌, ◌≤◌, ℕ, OnOk, count_by, length};
ghost use Rattle.meson_steps.specs.Order.{IsInside, ascend, begins_dash, bytes_less, is_alike, is_less, is_order, may_be_ordered, insertion_point, point_after, put_key};

use meson_splice::{Bytes, Text};
use std::alloc::AllocError;

/// By what an element is ordered.
#[derive(Debug)]
pub enum SortKey {
    /// A literal, by its text.
    Text(Text),
    /// An identifier.
    Name(Bytes),
    /// By nothing, as any other expression.
    Other,
}

/// Written by hand, so that it is proved here alone, and not in each crate that drops one.
impl Drop for SortKey {
    fn drop(self) {
        match self {
            SortKey::Text(_) => {}
            SortKey::Name(_) => {}
            SortKey::Other => {}
        }
    }
}

/// Where a new element comes in a list.
#[derive(Clone, Copy, Debug, PartialEq, Eq)]
pub enum InsertionPoint {
    /// At the end.
    End,
    /// After the one of this number.
    After(usize),
    /// In front of all.
    Front,
}

/// Whether a text is less than another one, byte by byte.
fn bytes_less(one: &[u8], other: &[u8]) -> bool
    ensures { result ≡ bytes_less one.now other.now }
{
    one.cmp(other).is_lt()
}

/// Whether one comes before another one.
fn is_less(one: &SortKey, other: &SortKey) -> bool
    ensures { result ≡ is_less one.now other.now }
{
    match one {
        SortKey::Text(text) => match other {
            SortKey::Text(other) => bytes_less(text.get().as_bytes(), other.get().as_bytes()),
            SortKey::Name(_) => false,
            SortKey::Other => false,
        },
        SortKey::Name(name) => match other {
            SortKey::Text(_) => false,
            SortKey::Name(other) => bytes_less(name.get(), other.get()),
            SortKey::Other => false,
        },
        SortKey::Other => false,
    }
}

/// Whether both are texts, or both identifiers.
fn is_alike(one: &SortKey, other: &SortKey) -> bool
    ensures { result ≡ is_alike one.now other.now }
{
    match one {
        SortKey::Text(_) => matches!(other, SortKey::Text(_)),
        SortKey::Name(_) => matches!(other, SortKey::Name(_)),
        SortKey::Other => false,
    }
}

/// Whether each is less than the next.
fn ascend(keys: &[SortKey]) -> bool
    ensures { result ≡ ascend keys.now }
{
    for i in 1..keys.len() {
        if !is_less(&keys[i - 1], &keys[i]) {
            return false;
        }
    }
    true
}

/// Whether a list is in order for a new one: it has at least four elements, each less than the next, of the kind of the new one.
fn is_order(new: &SortKey, keys: &[SortKey]) -> bool
    ensures { result ≡ is_order new.now keys.now }
{
    keys.len() > 3 && is_alike(new, &keys[0]) && ascend(keys)
}

/// Whether a text begins with `-`.
fn begins_dash(text: &str) -> bool
    ensures { result ≡ begins_dash text.now }
{
    match text.as_bytes() {
        [first, ..] => *first == b'-',
        [] => false,
    }
}

/// Whether a new one may be put in its place: a text that does not begin with `-`, or an identifier.
fn may_be_ordered(new: &SortKey) -> bool
    ensures { result ≡ may_be_ordered new.now }
{
    match new {
        SortKey::Text(text) => !begins_dash(text.get()),
        SortKey::Name(_) => true,
        SortKey::Other => false,
    }
}

/// How many are less than a new one.
fn count_less(new: &SortKey, keys: &[SortKey]) -> usize
    ensures is { result ≡ count_by (λ k. is_less k new.now) keys.now }
    ensures inside { result ≤ length keys.now }
{
    keys.iter().filter(|key| is_less(key, new)).count()
}

/// The place after this many elements. It is the end where no element may be put in front.
fn point_after(front_free: bool, many: usize) -> InsertionPoint
    ensures is { result ≡ point_after front_free many }
    ensures inside { (n : ℕ) → many ≤ n → IsInside result n }
{
    if many > 0 {
        InsertionPoint::After(many - 1)
    } else if front_free {
        InsertionPoint::Front
    } else {
        InsertionPoint::End
    }
}

/// Where a new one comes among others. In a list that is in order it comes after the last one that is less, and in any other at the end.
pub fn insertion_point(front_free: bool, new: &SortKey, keys: &[SortKey]) -> InsertionPoint
    ensures is { result ≡ insertion_point front_free new.now keys.now }
    ensures inside { IsInside result (length keys.now) }
{
    if may_be_ordered(new) && is_order(new, keys) {
        point_after(front_free, count_less(new, keys))
    } else {
        InsertionPoint::End
    }
}

/// Puts one there.
pub fn put_key(keys: &mut Vec<SortKey>, at: InsertionPoint, new: SortKey) -> Result<(), AllocError>
    requires { IsInside at (length keys.old.items) }
    ensures { OnOk result (keys.new.items ≡ put_key at new keys.old.items) }
{
    match at {
        InsertionPoint::End => keys.push(new)?,
        InsertionPoint::After(n) => keys.insert(n + 1, new)?,
        InsertionPoint::Front => keys.insert(0, new)?,
    }
    Ok(())
}
