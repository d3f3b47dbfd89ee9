//! What steps parse again.

ghost use Rattle.std.specs.List.{slice_range};
ghost use Rattle.std.specs.Prelude.{◌≡◌, ◌+◌, ◌≤◌, IfErr, IfOk, length};
ghost use Rattle.meson_syntax.specs.ReadsList.{IsSpannedListWithin, ReadsListWithin};
ghost use Rattle.meson_syntax.specs.Tree.{Listing, Nowhere, erase_listing};
ghost use Rattle.meson_syntax.specs.View.{list_view};
ghost use Rattle.meson_steps.specs.ListSteps.{wide_depth};

use meson_calls::Refusal;
use meson_syntax::{Bracket, List, MAX_DEPTH, ParseFault, parse_list_within};
use std::alloc::Global;

/// The depth to which a list may nest between two steps of one command.
const LIST_DEPTH: usize = MAX_DEPTH + 1;

/// A changed file or list is not parsed only when out of memory.
pub(crate) fn unread(fault: ParseFault) -> Refusal
    requires { fault ≡ ParseFault.OutOfMemory }
    ensures { result ≡ Refusal.OutOfMemory }
{
    match fault {
        ParseFault::OutOfMemory => Refusal::OutOfMemory,
        _ => unreachable!(),
    }
}

/// This number of bytes of a text, from an offset on.
pub(crate) fn part(bytes: &[u8], from: usize, len: usize) -> &[u8]
    requires { from + len ≤ length bytes.now }
    ensures { result.now ≡ slice_range bytes.now from (from + len) }
{
    // The part ends no later than the bytes, so the sum is within a `usize`.
    let _all = bytes.len();
    &bytes[from..from + len]
}

/// The list of a text.
pub(crate) fn list_in(alloc: Global, text: &[u8], bracket: Bracket) -> Result<List, Refusal>
    requires { (l : Listing Nowhere) × ReadsListWithin wide_depth bracket text.now l }
    ensures reads { IfOk result (λ l. IsSpannedListWithin wide_depth bracket text.now (list_view text.now l)) }
    ensures finds { (l : Listing Nowhere) → ReadsListWithin wide_depth bracket text.now l → IfOk result (λ x. erase_listing (list_view text.now x) ≡ l) }
    ensures refused { IfErr result (λ e. e ≡ Refusal.OutOfMemory) }
{
    match parse_list_within(alloc, text, bracket, LIST_DEPTH) {
        Ok(list) => Ok(list),
        Err(fault) => Err(unread(fault)),
    }
}
