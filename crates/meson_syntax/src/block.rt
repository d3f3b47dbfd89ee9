//! Blocks of statements, and the tree of a file's tokens.
//!
//! The rules are those of the Syntax page of the Meson manual.

ghost use Rattle.std.specs.Prelude.{◌≡◌, ◌+◌, ◌<◌, ◌^◌, IfErr, IfOk, length, suc};
ghost use Rattle.meson_syntax.specs.inside.Cursor.{input};
ghost use Rattle.meson_syntax.specs.inside.Input.{GivesAll};
ghost use Rattle.meson_syntax.specs.inside.Nests.{IsGrammatical, NestsBlocks, Proceeds, AnswersAs};
ghost use Rattle.meson_syntax.specs.inside.Reading.{expression};
ghost use Rattle.meson_syntax.specs.inside.ReadingFiles as spec;
ghost use Rattle.meson_syntax.specs.inside.Tokens.{tokens_of};
ghost use Rattle.meson_syntax.specs.View.{block_view, expr_view, stmt_view, stmts_view, view};

use crate::expression::read_expression;
use crate::fault::ParseFault;
use crate::grammar::{Cursor, Grammar};
use crate::token::Token;
use crate::tree::{Block, Expr, Parsed, Stmt};
use meson_lex::{Kind, Span};
use meson_values::Many;
use std::alloc::Global;

/// The tree of the file with these significant tokens, in which at most `depth` constructs are inside one another.
#[tactic(auto, unfolding(crate::specs::inside::ReadingFiles::whole, crate::specs::inside::Cursor::input))]
pub(crate) fn read_tokens(
    alloc: Global,
    source: &[u8],
    tokens: &[Token],
    depth: usize,
) -> Result<Parsed, ParseFault>
    requires { depth + 1 < 2 ^ 64 }
    ensures gives { GivesAll (view source.now) (spec.whole depth (length source.now) (tokens_of source.now tokens.now)) result }
    // A refusal is one of the grammar.
    ensures refused { IfErr result IsGrammatical }
{
    let mut left = Cursor::new(tokens);
    let block = read_block(alloc, source, &mut left, depth + 1)?;
    if !left.is_over() {
        return Err(ParseFault::Unexpected(left.place(source)));
    }
    let span = Span {
        from: 0,
        to: source.len(),
    };
    Ok(Parsed { block, span })
}

/// Reads a block in which fewer than `depth` constructs are inside one another.
pub(crate) fn read_block(
    alloc: Global,
    source: &[u8],
    tokens: &mut Cursor<'_>,
    depth: usize,
) -> Result<Block, ParseFault>
    ensures { AnswersAs (spec.block_within depth) block_view source.now tokens.old result tokens.new }
{
    if depth == 0 {
        return Err(ParseFault::TooDeep(tokens.place(source)));
    }
    Grammar {
        alloc,
        source,
        depth: depth - 1,
        deeper: read_block,
    }
    .block(tokens)
}

/// Whether a block ends before a token of this kind, or at the end.
fn ends_block(kind: Option<Kind>) -> bool
    ensures { result ≡ spec.ends_block kind }
{
    match kind {
        None => true,
        Some(Kind::WordElif | Kind::WordElse | Kind::WordEndif | Kind::WordEndforeach) => true,
        _ => false,
    }
}

impl<'a, F> Grammar<'a, F> {
    /// An expression, from here.
    pub(crate) fn value(&self, tokens: &mut Cursor<'_>) -> Result<Expr, ParseFault>
        requires { self.now.depth + 1 < 2 ^ 64 }
        ensures { AnswersAs (expression (suc self.now.depth)) expr_view self.now.source.now tokens.old result tokens.new }
    {
        read_expression(self.alloc, self.source, tokens, self.depth + 1)
    }

    /// An expression that belongs to a construct that begins here: a condition, or what a loop runs through.
    pub(crate) fn inner_value(&self, tokens: &mut Cursor<'_>) -> Result<Expr, ParseFault>
        ensures { AnswersAs (expression self.now.depth) expr_view self.now.source.now tokens.old result tokens.new }
    {
        read_expression(self.alloc, self.source, tokens, self.depth)
    }

    /// The span of a block of these statements, which are parsed and began at `start`: from the first to the last, or empty.
    #[tactic(auto, unfolding(crate::specs::inside::Input::span_from))]
    fn block_span(&self, tokens: &Cursor<'_>, start: usize, statements: &[Stmt]) -> Span
        ensures { result ≡ spec.block_span start (stmts_view self.now.source.now statements.now) (input self.now.source.now tokens.now) }
    {
        match statements {
            [] => self.since(tokens, self.last(tokens)),
            [_, ..] => self.since(tokens, start),
        }
    }
}

impl<'a, F: Fn(Global, &[u8], &mut Cursor<'_>, usize) -> Result<Block, ParseFault>> Grammar<'a, F> {
    /// A block of a construct that begins here, after a line end.
    #[tactic(auto, unfolding(crate::specs::inside::ReadingFiles::bodied))]
    pub(crate) fn bodied(&self, tokens: &mut Cursor<'_>) -> Result<Block, ParseFault>
        requires { NestsBlocks self.now.depth (F.pre self.now.deeper) (F.post self.now.deeper) }
        ensures { Proceeds spec.bodied block_view self.now.source.now self.now.depth tokens.old result tokens.new }
    {
        self.expect(tokens, Kind::LineEnd)?;
        (self.deeper)(self.alloc, self.source, tokens, self.depth)
    }

    /// What was read before such a block, and the block.
    pub(crate) fn with_body<T: Drop>(
        &self,
        tokens: &mut Cursor<'_>,
        read: T,
    ) -> Result<(T, Block), ParseFault>
        requires { NestsBlocks self.now.depth (F.pre self.now.deeper) (F.post self.now.deeper) }
        ensures read { IfOk result (λ p. p.0 ≡ read) }
        ensures body { Proceeds spec.bodied (λ source p. block_view source p.1) self.now.source.now self.now.depth tokens.old result tokens.new }
    {
        let body = self.bodied(tokens)?;
        Ok((read, body))
    }

    /// The statements up to the end of their block, from the first to the last.
    #[tactic(auto, unfolding(crate::specs::inside::ReadingFiles::blocked))]
    fn block(&self, tokens: &mut Cursor<'_>) -> Result<Block, ParseFault>
        requires { NestsBlocks self.now.depth (F.pre self.now.deeper) (F.post self.now.deeper) }
        ensures { Proceeds spec.blocked block_view self.now.source.now self.now.depth tokens.old result tokens.new }
    {
        let start = self.from(tokens);
        let statements = self.lines(tokens)?;
        let span = self.block_span(tokens, start, statements.get());
        Ok(Block { statements, span })
    }

    /// The statements up to the end of their block, each with its line end.
    #[tactic(auto, unfolding(crate::specs::inside::ReadingFiles::statement_lines))]
    fn lines(&self, tokens: &mut Cursor<'_>) -> Result<Many<Stmt>, ParseFault>
        requires { NestsBlocks self.now.depth (F.pre self.now.deeper) (F.post self.now.deeper) }
        ensures { Proceeds spec.statement_lines stmts_view self.now.source.now self.now.depth tokens.old result tokens.new }
    {
        let mut found = Many::new(self.alloc);
        // Each turn takes at least one token.
        for _turn in 0..self.left(tokens) {
            if ends_block(self.peek(tokens)) {
                return Ok(found);
            }
            found.push_sparing(self.line(tokens)?)?;
        }
        Ok(found)
    }

    /// A statement and its line end.
    #[tactic(auto, unfolding(crate::specs::inside::ReadingFiles::statement_line))]
    fn line(&self, tokens: &mut Cursor<'_>) -> Result<Stmt, ParseFault>
        requires { NestsBlocks self.now.depth (F.pre self.now.deeper) (F.post self.now.deeper) }
        ensures { Proceeds spec.statement_line stmt_view self.now.source.now self.now.depth tokens.old result tokens.new }
    {
        let statement = self.statement(tokens)?;
        let statement = self.closed(tokens, Kind::LineEnd, statement)?;
        Ok(statement)
    }
}
