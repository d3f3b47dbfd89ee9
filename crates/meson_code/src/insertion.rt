//! Code that is inserted beside a statement or at the end of a file.

ghost use Rattle.std.specs.Prelude.{◌≡◌, ◌∷◌, [], IfErr, IfOk, Ok};
ghost use Rattle.meson_syntax.specs.View.{view};
ghost use Rattle.meson_statements.specs.Code.{IsStatements};
ghost use Rattle.meson_calls.specs.ChosenNotes.{Source};
ghost use Rattle.meson_calls.specs.Loading.{AreParsed, IsProject};
ghost use Rattle.meson_calls.specs.Refusals.{RefusedAs};
ghost use Rattle.meson_steps.specs.Plans.{ArePlanned};
ghost use Rattle.meson_places.specs.Names.{loaded_in, numbered_file};
ghost use Rattle.meson_code.specs.Insertion.{above_statement, below_statement, code_statements, code_steps, end_of_file, has_room, inserted_text, last_span, lines_at, side_in, side_of_lines};
ghost use Rattle.meson_targets.specs.inside.TargetViews.{place_view};

use crate::anchors::find_anchor;
use meson_calls::{CallRef, Refusal};
use meson_edit::nests_within;
use meson_lex::Span;
use meson_places::Sources;
use meson_places::lookup::numbered_file;
use meson_splice::Bytes;
use meson_statements::{Side, StatementCode, Surroundings};
use meson_steps::command::CodePlace;
use meson_steps::statements::statement_span;
use meson_steps::step::{LineSide, ListEdit, ListStep, push_step};
use meson_syntax::{MAX_DEPTH, Many, ParseFault, Parsed, Path, parse};
use meson_targets::StatementPlace;
use std::alloc::{AllocError, Global};

/// Statements to insert into a project.
#[derive(Clone, Copy)]
pub struct Insertion<'c> {
    /// Where they are inserted.
    pub place: &'c CodePlace,
    pub code: &'c StatementCode,
    /// The number of blank lines between them and the statement beside them, if that is requested.
    pub blank: Option<usize>,
}

/// Lines beside a statement of a block, or at the end of a file.
#[derive(Drop)]
pub struct FileLines {
    /// The block of the statement, or of the file.
    pub block: CallRef,
    pub side: LineSide,
}

impl FileLines {
    /// Above a statement.
    fn above(statement: StatementPlace) -> Self
        ensures { result ≡ above_statement (place_view statement) }
    {
        let StatementPlace { block, number } = statement;
        let side = LineSide::Above(number);
        FileLines { block, side }
    }

    /// Below a statement.
    fn below(statement: StatementPlace) -> Self
        ensures { result ≡ below_statement (place_view statement) }
    {
        let StatementPlace { block, number } = statement;
        let side = LineSide::Below(number);
        FileLines { block, side }
    }

    /// At the end of the file of this number. Does not allocate.
    fn at_end(alloc: Global, file: usize) -> Self
        ensures { result ≡ end_of_file file }
    {
        let steps = Many::new(alloc);
        let path = Path { steps };
        let block = CallRef { file, path };
        let side = LineSide::End;
        FileLines { block, side }
    }

    /// The lines of a place.
    ///
    /// # Errors
    /// The folder or the file is not in the project. Or no statement is found, or more than one, or what is found is within a larger expression. Or out of memory.
    fn find(alloc: Global, sources: Sources<'_>, place: &CodePlace) -> Result<Self, Refusal>
        requires { AreParsed sources.files.now sources.trees.now }
        ensures found { IfOk result (λ lines. lines_at (loaded_in sources.entry) place.now ≡ Ok lines) }
        ensures refused { RefusedAs result (lines_at (loaded_in sources.entry) place.now) }
    {
        match place {
            CodePlace::Above(search) => {
                let statement = find_anchor(alloc, sources, search)?;
                Ok(FileLines::above(statement))
            }
            CodePlace::Below(search) => {
                let statement = find_anchor(alloc, sources, search)?;
                Ok(FileLines::below(statement))
            }
            CodePlace::End(file) => {
                let number = numbered_file(sources.files, file.get())?;
                Ok(FileLines::at_end(alloc, number))
            }
        }
    }

    /// Whether the statements of this code, with what is around their block, nest no deeper than a file may.
    ///
    /// # Errors
    /// Out of memory.
    fn has_room(&self, alloc: Global, code: &StatementCode) -> Result<bool, AllocError>
        ensures room { IfOk result (λ b. b ≡ has_room self.now (code_statements code.now)) }
        ensures code { IsStatements code.now }
    {
        let around = self.block.path.steps.get().len() / 2;
        match parse(alloc, code.get().as_bytes()) {
            Ok(tree) => Ok(nests_within(&tree, MAX_DEPTH.saturating_sub(around))),
            Err(ParseFault::OutOfMemory) => Err(AllocError),
            Err(_) => Ok(false),
        }
    }

    /// The side of a statement of this tree, by its span, or the end of the file.
    fn side_in(&self, alloc: Global, tree: &Parsed) -> Option<Side>
        ensures { (source : Source) → result ≡ side_in (view source tree.now) self.now.block.path.steps self.now.side }
    {
        match self.side {
            LineSide::Above(n) => match statement_span(tree, &self.block.path, n) {
                Some(span) => Some(Side::Above(span)),
                None => None,
            },
            LineSide::Below(n) => match statement_span(tree, &self.block.path, n) {
                Some(span) => Some(Side::Below(span)),
                None => None,
            },
            LineSide::End => Some(Side::End(last_span(alloc, tree))),
        }
    }

    /// The code as it is written there.
    ///
    /// # Errors
    /// Out of memory.
    fn text(
        &self,
        alloc: Global,
        sources: Sources<'_>,
        code: &StatementCode,
        blank: Option<usize>,
    ) -> Result<Bytes, AllocError>
        requires parsed { AreParsed sources.files.now sources.trees.now }
        requires code { IsStatements code.now }
        ensures { IfOk result (λ b. b ≡ inserted_text (loaded_in sources.entry) self.now code.now blank) }
    {
        let file = self.block.file;
        if file >= sources.trees.len() {
            return Ok(Bytes::of(Vec::new(alloc)));
        }
        match self.side_in(alloc, &sources.trees[file]) {
            Some(side) => {
                let source = sources.files.bytes(file);
                let around = Surroundings {
                    source,
                    side,
                    blank,
                };
                Ok(Bytes::of(code.placed(alloc, around)?))
            }
            None => Ok(Bytes::of(Vec::new(alloc))),
        }
    }
}

/// The span of the last statement of a file, in bytes. Does not allocate.
fn last_span(alloc: Global, tree: &Parsed) -> Option<Span>
    ensures { (source : Source) → result ≡ last_span (view source tree.now) }
{
    let steps = Many::new(alloc);
    let count = tree.block.statements.get().len();
    statement_span(tree, &Path { steps }, count.saturating_sub(1))
}

/// The step that inserts code.
///
/// # Errors
/// The folder or the file is not in the project. Or no statement is found, or more than one, or what is found is within a larger expression. Or the statements
/// would nest deeper than a file may. Or out of memory.
pub fn insertion_steps(
    alloc: Global,
    sources: Sources<'_>,
    insertion: Insertion<'_>,
) -> Result<Vec<ListStep>, Refusal>
    requires { IsProject (loaded_in sources) }
    ensures plan { let old = loaded_in sources.entry in
        IfOk result (λ steps. ArePlanned old (code_steps old insertion.entry.place.now insertion.entry.code.now insertion.entry.blank) steps.items) }
    ensures refused { let old = loaded_in sources.entry in
        RefusedAs result (code_steps old insertion.entry.place.now insertion.entry.code.now insertion.entry.blank) }
{
    let lines = FileLines::find(alloc, sources, insertion.place)?;
    if !lines.has_room(alloc, insertion.code)? {
        return Err(Refusal::TooDeep);
    }
    let text = lines.text(alloc, sources, insertion.code, insertion.blank)?;
    let FileLines { block, side } = lines;
    let mut steps = Vec::new(alloc);
    push_step(&mut steps, block, ListEdit::Lines(side, text))?;
    Ok(steps)
}
