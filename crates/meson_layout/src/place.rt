//! A stretch of a file's items, and splices there.

ghost use Rattle.std.specs.Prelude.{◌≡◌, ◌+◌, ◌<◌, ◌^◌, ◌++◌, ◌∷◌, [], IfErr, IfOk, OnErr, OnOk, length};
ghost use Rattle.meson_lex.specs.Items.{joined};
ghost use Rattle.meson_layout.specs.inside.Places.{PlaceFits};
ghost use Rattle.meson_splice.specs.declared.fault.SpliceFault.TheVariants.{OutOfMemory};

use crate::lexemes::Lexeme;
use meson_splice::{Splice, SpliceFault};
use meson_values::{Bytes, Text};
use std::alloc::Global;

/// The number of bytes of the items.
pub(crate) fn text_len(items: &[Lexeme<'_>]) -> usize
    requires { length (joined items.now) < 2 ^ 64 }
    ensures { result ≡ length (joined items.now) }
{
    let mut n = 0;
    for x in items {
        n += x.text.len();
    }
    n
}

/// Appends the texts of the items.
pub(crate) fn push_texts(to: &mut Vec<u8>, items: &[Lexeme<'_>]) -> Result<(), SpliceFault>
    ensures done { OnOk result (to.new.items ≡ to.old.items ++ joined items.now) }
    ensures refused { IfErr result (λ e. e ≡ OutOfMemory) }
{
    for x in items {
        to.extend_from_slice(x.text)?;
    }
    Ok(())
}

/// In the file of that name, bytes at the offset are replaced by other bytes.
pub(crate) fn splice(
    alloc: Global,
    file: &str,
    at: usize,
    was: Vec<u8>,
    now: Vec<u8>,
) -> Result<Splice, SpliceFault>
    ensures done { IfOk result (λ s. s ≡ record { file = file.now; at = at; was = was.items; now = now.items }) }
    ensures refused { IfErr result (λ e. e ≡ OutOfMemory) }
{
    let mut name = String::new(alloc);
    name.push_str(file)?;
    Ok(Splice {
        file: Text::of(name),
        at,
        was: Bytes::of(was),
        now: Bytes::of(now),
    })
}

pub(crate) fn one_splice(alloc: Global, splice: Splice) -> Result<Vec<Splice>, SpliceFault>
    ensures done { IfOk result (λ v. v.items ≡ splice ∷ []) }
    ensures refused { IfErr result (λ e. e ≡ OutOfMemory) }
{
    let mut splices = Vec::new(alloc);
    splices.reserve(1)?;
    splices.push_reserved(splice);
    Ok(splices)
}

/// Bytes are inserted at the offset, in the file of that name.
pub(crate) fn addition(
    alloc: Global,
    file: &str,
    at: usize,
    now: Vec<u8>,
) -> Result<Vec<Splice>, SpliceFault>
    ensures done { IfOk result (λ v. v.items ≡ record { file = file.now; at = at; was = []; now = now.items } ∷ []) }
    ensures refused { IfErr result (λ e. e ≡ OutOfMemory) }
{
    replacement(alloc, file, at, Vec::new(alloc), now)
}

/// In the file of that name, bytes at the offset are replaced by other bytes, by one splice.
pub(crate) fn replacement(
    alloc: Global,
    file: &str,
    at: usize,
    was: Vec<u8>,
    now: Vec<u8>,
) -> Result<Vec<Splice>, SpliceFault>
    ensures done { IfOk result (λ v. v.items ≡ record { file = file.now; at = at; was = was.items; now = now.items } ∷ []) }
    ensures refused { IfErr result (λ e. e ≡ OutOfMemory) }
{
    let splice = splice(alloc, file, at, was, now)?;
    one_splice(alloc, splice)
}

pub(crate) fn two_splices(
    alloc: Global,
    first: Splice,
    second: Splice,
) -> Result<Vec<Splice>, SpliceFault>
    ensures done { IfOk result (λ v. v.items ≡ first ∷ second ∷ []) }
    ensures refused { IfErr result (λ e. e ≡ OutOfMemory) }
{
    let mut splices = Vec::new(alloc);
    splices.reserve(2)?;
    splices.push_reserved(first);
    splices.push_reserved(second);
    Ok(splices)
}

/// An element or a statement of a file: the items before it, its own, and those after it.
#[derive(Clone, Copy)]
pub(crate) struct Place<'i, 'a> {
    pub alloc: Global,
    pub file: &'i str,
    pub left: &'i [Lexeme<'a>],
    pub own: &'i [Lexeme<'a>],
    pub right: &'i [Lexeme<'a>],
}

impl<'i, 'a> Place<'i, 'a> {
    /// The offset after it.
    pub(crate) fn end(self) -> usize
        requires { PlaceFits self }
        ensures { result ≡ length (joined self.entry.left.now) + length (joined self.entry.own.now) }
    {
        text_len(self.left) + text_len(self.own)
    }
}
