//! A text that is one list.

ghost use Rattle.std.specs.Prelude.{◌≡◌, ◌+◌, ◌<◌, ◌^◌, IfErr, IfOk, length};
ghost use Rattle.meson_syntax.specs.inside.Input.{GivesAll};
ghost use Rattle.meson_syntax.specs.inside.Nests.{IsGrammatical};
ghost use Rattle.meson_syntax.specs.Reads.{Is, IsUnreadableWithin, Refuses};
ghost use Rattle.meson_syntax.specs.ReadsList.{IsSpannedList, IsSpannedListWithin, MayRefuseList, MayRefuseListWithin, ReadsList, ReadsListWithin, of_lists, of_lists_within};
ghost use Rattle.meson_syntax.specs.inside.ReadingLists as spec;
ghost use Rattle.meson_syntax.specs.inside.Tokens.{tokens_of};
ghost use Rattle.meson_syntax.specs.Tree.{Listing, Nowhere, erase_listing};
ghost use Rattle.meson_syntax.specs.View.{list_view};
ghost use Rattle.meson_syntax.specs.declared.fault.ParseFault.{ParseFault};

use crate::expression::read_expression;
use crate::fault::ParseFault;
use crate::grammar::{Cursor, Grammar};
use crate::list::opens;
use crate::operator::Bracket;
use crate::significant::tokens;
use crate::source::{Limits, MAX_DEPTH, check_source};
use crate::token::Token;
use crate::tree::List;
use std::alloc::Global;

/// The list of a text, from its opening bracket to its closing one and nothing else. It may have any length, and its depth counts from its own bracket.
pub fn parse_list(alloc: Global, source: &[u8], bracket: Bracket) -> Result<List, ParseFault>
    // The text parses as the list, and each node is at its span.
    ensures reads { IfOk result (λ l. IsSpannedList bracket source.now (list_view source.now l)) }
    // Any list that the text parses as is that one.
    ensures finds { (l : Listing Nowhere) → ReadsList bracket source.now l → Is (λ x. erase_listing (list_view source.now x)) result l }
    // What is refused before the grammar is checked is refused with that fault.
    ensures unreadable { (e : ParseFault) → IsUnreadableWithin of_lists source.now e → Refuses result e }
    // A refusal gives the reason.
    ensures refused { IfErr result (MayRefuseList bracket source.now) }
{
    parse_list_within(alloc, source, bracket, MAX_DEPTH)
}

/// The list of a text, in which this number of constructs may be inside one another, counted from its own bracket.
pub fn parse_list_within(
    alloc: Global,
    source: &[u8],
    bracket: Bracket,
    depth: usize,
) -> Result<List, ParseFault>
    requires { depth + 1 < 2 ^ 64 }
    ensures reads { IfOk result (λ l. IsSpannedListWithin depth bracket source.now (list_view source.now l)) }
    ensures finds { (l : Listing Nowhere) → ReadsListWithin depth bracket source.now l → Is (λ x. erase_listing (list_view source.now x)) result l }
    ensures unreadable { (e : ParseFault) → IsUnreadableWithin (of_lists_within depth) source.now e → Refuses result e }
    ensures refused { IfErr result (MayRefuseListWithin depth bracket source.now) }
{
    let limits = Limits { len: None, depth };
    check_source(source, limits)?;
    let tokens = tokens(alloc, source)?;
    read_list(alloc, source, tokens.as_slice(), bracket, depth)
}

/// The list that is all of the source with these significant tokens.
#[tactic(auto, unfolding(crate::specs::inside::ReadingLists::whole_list, crate::specs::inside::ReadingLists::bracketed, crate::specs::inside::Cursor::input))]
fn read_list(
    alloc: Global,
    source: &[u8],
    tokens: &[Token],
    bracket: Bracket,
    depth: usize,
) -> Result<List, ParseFault>
    requires { depth + 1 < 2 ^ 64 }
    ensures gives { GivesAll (list_view source.now) (spec.whole_list depth bracket (length source.now) (tokens_of source.now tokens.now)) result }
    // A refusal is one of the grammar.
    ensures refused { IfErr result IsGrammatical }
{
    let mut left = Cursor::new(tokens);
    let grammar = Grammar {
        alloc,
        source,
        depth,
        deeper: read_expression,
    };
    if !grammar.sees(&left, opens(bracket)) {
        return Err(grammar.unexpected(&left));
    }
    let list = grammar.listed(&mut left, bracket)?;
    if list.span.from != 0 {
        return Err(ParseFault::Unexpected(0));
    }
    if list.span.to != source.len() {
        return Err(grammar.unexpected(&left));
    }
    Ok(list)
}
