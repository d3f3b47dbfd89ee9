//! A file's tree.

ghost use Rattle.std.specs.Prelude.{◌≡◌, ◌+◌, ◌<◌, ◌^◌, IfOk, IfErr};
ghost use Rattle.meson_syntax.specs.Reads.{Is, IsSpanned, IsSpannedWithin, IsUnreadable, IsUnreadableWithin, MayNotRead, MayRefuseWithin, Reads, ReadsWithin, Refuses, wide};
ghost use Rattle.meson_syntax.specs.Tree.{Plain, erase};
ghost use Rattle.meson_syntax.specs.View.{view};
ghost use Rattle.meson_syntax.specs.declared.fault.ParseFault.{ParseFault};

use crate::block::read_tokens;
use crate::fault::ParseFault;
use crate::significant::tokens;
use crate::source::{Limits, MAX_DEPTH, MAX_LEN, check_source};
use crate::tree::Parsed;
use std::alloc::Global;

/// The tree of a file, with the span of each node.
pub fn parse(alloc: Global, source: &[u8]) -> Result<Parsed, ParseFault>
    // The text parses as the tree, and each node is at its span.
    ensures reads { IfOk result (λ p. IsSpanned source.now (view source.now p)) }
    // Any tree that the text parses as is that one.
    ensures finds { (t : Plain) → Reads source.now t → Is (λ p. erase (view source.now p)) result t }
    // What is refused before the grammar is checked is refused with that fault.
    ensures unreadable { (e : ParseFault) → IsUnreadable source.now e → Refuses result e }
    // A refusal gives the reason.
    ensures refused { IfErr result (MayNotRead source.now) }
{
    let limits = Limits {
        len: Some(MAX_LEN),
        depth: MAX_DEPTH,
    };
    parse_within(alloc, source, limits)
}

/// The tree of a text between two primitives of one command. It may have any length, and one construct more may be inside one another than in a file.
pub fn parse_wide(alloc: Global, source: &[u8]) -> Result<Parsed, ParseFault>
    // The text parses as the tree, and each node is at its span.
    ensures reads { IfOk result (λ p. IsSpannedWithin wide source.now (view source.now p)) }
    // Any tree that the text parses as is that one.
    ensures finds { (t : Plain) → ReadsWithin wide source.now t → Is (λ p. erase (view source.now p)) result t }
    // What is refused before the grammar is checked is refused with that fault.
    ensures unreadable { (e : ParseFault) → IsUnreadableWithin wide source.now e → Refuses result e }
    // A refusal gives the reason.
    ensures refused { IfErr result (MayRefuseWithin wide source.now) }
{
    let limits = Limits {
        len: None,
        depth: MAX_DEPTH + 1,
    };
    parse_within(alloc, source, limits)
}

/// The tree of a text within these limits.
pub fn parse_within(alloc: Global, source: &[u8], limits: Limits) -> Result<Parsed, ParseFault>
    requires { limits.depth + 1 < 2 ^ 64 }
    ensures reads { IfOk result (λ p. IsSpannedWithin limits source.now (view source.now p)) }
    ensures finds { (t : Plain) → ReadsWithin limits source.now t → Is (λ p. erase (view source.now p)) result t }
    ensures unreadable { (e : ParseFault) → IsUnreadableWithin limits source.now e → Refuses result e }
    ensures refused { IfErr result (MayRefuseWithin limits source.now) }
{
    check_source(source, limits)?;
    let tokens = tokens(alloc, source)?;
    read_tokens(alloc, source, tokens.as_slice(), limits.depth)
}
