//! A statement that is removed.

ghost use Rattle.std.specs.Prelude.{◌≡◌, ◌<◌, ◌≤◌, ◌∷◌, [], IfErr, IfOk, bytes_eq, codes, length};
ghost use Rattle.std.specs.List.{find, list_any};
ghost use Rattle.meson_splice.specs.Files.{bytes_at};
ghost use Rattle.meson_syntax.specs.Grammar.{listing_words};
ghost use Rattle.meson_syntax.specs.View.{list_view, names_at, text_at};
ghost use Rattle.meson_syntax.specs.declared.operator.Bracket.TheVariants as bracket;
ghost use Rattle.meson_calls.specs.ChosenNotes.{call_with};
ghost use Rattle.meson_calls.specs.Loading.{AreParsed, IsProject, project};
ghost use Rattle.meson_calls.specs.NamedNotes.{AreIdentifiers, AreNamed, IsNamed};
ghost use Rattle.meson_calls.specs.Notes.{a_call, a_loop, note_view, note_views};
ghost use Rattle.meson_calls.specs.Refusals.{RefusedAs};
ghost use Rattle.meson_calls.specs.Strings.{AreGood, NotesGood, note_words};
ghost use Rattle.meson_steps.specs.ListSteps.{AreBare};
ghost use Rattle.meson_steps.specs.Plans.{ArePlanned};
ghost use Rattle.meson_targets.specs.inside.TargetViews.{place_view};
ghost use Rattle.meson_places.specs.Names.{loaded_in};
ghost use Rattle.meson_places.specs.Uses.{source_holds};
ghost use Rattle.meson_code.specs.AnchorLaws.{IsStatementAt};
ghost use Rattle.meson_code.specs.Removal.{blank_lines, first_needed, is_formatted_outside, is_needed, names_set, removal_step, removed_at, set_within, span_at, texts_beside};

use meson_calls::Refusal;
use meson_calls::literals::first_literal;
use meson_calls::note::{Note, What};
use meson_calls::noted::Noted;
use meson_calls::notes::notes_of;
use meson_calls::roles::{identifier_text, text_of};
use meson_layout::BlankLines;
use meson_lex::Span;
use meson_places::Sources;
use meson_places::uses::{placeholder, source_holds};
use meson_splice::Text;
use meson_steps::statements::{statement_span, stmt_at};
use meson_steps::step::{ListEdit, ListStep, push_step};
use meson_syntax::List;
use meson_targets::{StatementPlace, is_used_outside};
use std::alloc::{AllocError, Global};

/// A statement of a project.
#[derive(Clone, Copy)]
struct Removal<'p> {
    alloc: Global,
    sources: Sources<'p>,
    statement: &'p StatementPlace,
}

/// Whether a function sets the variable that its first argument names.
fn sets_variable(function: &[u8]) -> bool
    ensures { result ≡ bytes_eq function.now (codes "set_variable") }
{
    function == b"set_variable".as_slice()
}

impl<'p> Removal<'p> {
    /// Its span, in bytes of its file.
    fn span(&self) -> Span
        requires { AreParsed self.now.sources.files.now self.now.sources.trees.now }
        ensures value { result ≡ span_at (loaded_in self.now.sources) (place_view self.now.statement.now) }
        ensures ordered { result.from ≤ result.to }
        ensures within { result.to ≤ length (bytes_at self.now.statement.now.block.file self.now.sources.files.now) }
    {
        let place = self.statement;
        let none = Span { from: 0, to: 0 };
        if place.block.file >= self.sources.trees.len() {
            return none;
        }
        let tree = &self.sources.trees[place.block.file];
        match statement_span(tree, &place.block.path, place.number) {
            Some(span) => span,
            None => none,
        }
    }

    /// Whether a format string of the n-th file, outside the statement, holds a text.
    fn file_holds(&self, number: usize, part: &[u8]) -> bool
        requires project { AreParsed self.now.sources.files.now self.now.sources.trees.now }
        requires within { number < length self.now.sources.files.now }
        ensures { let l = loaded_in self.now.sources in let a = place_view self.now.statement.now in
            result ≡ list_any (source_holds part.now) (texts_beside a.block.file (span_at l a) number (bytes_at number l.files)) }
    {
        let bytes = self.sources.files.bytes(number);
        if number != self.statement.block.file {
            return source_holds(bytes, part);
        }
        let span = self.span();
        source_holds(&bytes[..span.from], part) || source_holds(&bytes[span.to..], part)
    }

    /// Whether a format string outside the statement holds the variable.
    fn is_formatted_outside(&self, name: &[u8]) -> Result<bool, AllocError>
        requires { AreParsed self.now.sources.files.now self.now.sources.trees.now }
        ensures { IfOk result (λ b. b ≡ is_formatted_outside (loaded_in self.now.sources) (place_view self.now.statement.now) name.now) }
    {
        let part = placeholder(self.alloc, name)?;
        for i in 0..self.sources.files.len() {
            if self.file_holds(i, part.as_slice()) {
                return Ok(true);
            }
        }
        Ok(false)
    }

    /// Whether the variable is used outside the statement.
    fn is_needed(&self, name: &[u8]) -> Result<bool, AllocError>
        requires { IsProject (loaded_in self.now.sources) }
        ensures { IfOk result (λ b. b ≡ is_needed (loaded_in self.now.sources) (place_view self.now.statement.now) name.now) }
    {
        let noted = Noted {
            files: self.sources.files,
            trees: self.sources.trees,
            notes: &[],
            kept: &[],
        };
        if is_used_outside(self.alloc, &noted, self.statement, name)? {
            return Ok(true);
        }
        self.is_formatted_outside(name)
    }

    /// The variable, if it is used outside the statement.
    fn if_needed(&self, name: &str) -> Result<Option<Text>, AllocError>
        requires { IsProject (loaded_in self.now.sources) }
        ensures { let needed = is_needed (loaded_in self.now.sources) (place_view self.now.statement.now) in
            IfOk result (λ found. found ≡ find needed (name.now ∷ [])) }
    {
        if !self.is_needed(name.as_bytes())? {
            return Ok(None);
        }
        let name = String::from_str(self.alloc, name)?;
        Ok(Some(Text::of(name)))
    }

    /// The variable that a call sets, if it is used outside the statement.
    fn if_needed_of_call(
        &self,
        source: &[u8],
        function: Span,
        arguments: &List,
    ) -> Result<Option<Text>, AllocError>
        requires project { IsProject (loaded_in self.now.sources) }
        requires good { AreGood (listing_words (list_view source.now arguments.now) bracket.Round) }
        ensures { let needed = is_needed (loaded_in self.now.sources) (place_view self.now.statement.now) in
            IfOk result (λ found. found ≡ find needed (names_set (a_call (call_with (text_at source.now function) (list_view source.now arguments.now))))) }
    {
        if !sets_variable(text_of(source, function)) {
            return Ok(None);
        }
        match first_literal(self.alloc, source, arguments)? {
            Some(text) => self.if_needed(text.as_str()),
            None => Ok(None),
        }
    }

    /// The first of the variables of a loop that is used outside the statement.
    fn first_of_loop(&self, source: &[u8], names: &[Span]) -> Result<Option<Text>, AllocError>
        requires project { IsProject (loaded_in self.now.sources) }
        requires named { AreIdentifiers (names_at source.now names.now) }
        ensures { let needed = is_needed (loaded_in self.now.sources) (place_view self.now.statement.now) in
            IfOk result (λ found. found ≡ find needed (names_set (a_loop (names_at source.now names.now)))) }
    {
        for i in 0..names.len() {
            let name = identifier_text(text_of(source, names[i]));
            if let Some(found) = self.if_needed(name)? {
                return Ok(Some(found));
            }
        }
        Ok(None)
    }

    /// The first of the variables that a note sets that is used outside the statement.
    fn first_of_note(&self, note: &Note<'_, '_>) -> Result<Option<Text>, AllocError>
        requires project { IsProject (loaded_in self.now.sources) }
        requires good { AreGood (note_words (note_view note.now).it) }
        requires named { IsNamed (note_view note.now).it }
        ensures { let needed = is_needed (loaded_in self.now.sources) (place_view self.now.statement.now) in
            IfOk result (λ found. found ≡ find needed (names_set (note_view note.now).it)) }
    {
        match note.what {
            What::Call {
                function,
                arguments,
            } => self.if_needed_of_call(note.source, function, arguments),
            What::Assign {
                name,
                sets: true,
                ..
            } => self.if_needed(identifier_text(text_of(note.source, name))),
            What::Assign { .. } => Ok(None),
            What::Loop { names } => self.first_of_loop(note.source, names),
        }
    }

    /// The first of the variables that the notes within the statement set that is used outside it.
    fn first_among(&self, notes: &[Note<'_, '_>]) -> Result<Option<Text>, AllocError>
        requires project { IsProject (loaded_in self.now.sources) }
        requires good { NotesGood (note_views notes.now) }
        requires named { AreNamed (note_views notes.now) }
        ensures { let a = place_view self.now.statement.now in
            IfOk result (λ found. found ≡ find (is_needed (loaded_in self.now.sources) a) (set_within a (note_views notes.now))) }
    {
        for i in 0..notes.len() {
            let note = &notes[i];
            if self.statement.is_outside(note.place) {
                continue;
            }
            if let Some(found) = self.first_of_note(note)? {
                return Ok(Some(found));
            }
        }
        Ok(None)
    }

    /// The first variable that the statement sets and that is used outside it.
    fn first_needed(&self) -> Result<Option<Text>, AllocError>
        requires { IsProject (loaded_in self.now.sources) }
        ensures { IfOk result (λ found. found ≡ first_needed (loaded_in self.now.sources) (place_view self.now.statement.now)) }
    {
        let taken = notes_of(self.alloc, self.sources.files, self.sources.trees)?;
        let notes = taken.all(self.alloc)?;
        self.first_among(notes.as_slice())
    }

    /// The blank lines that would be too many without the statement.
    fn blank_lines(&self) -> BlankLines
        requires project { AreParsed self.now.sources.files.now self.now.sources.trees.now }
        requires there { IsStatementAt (loaded_in self.now.sources) (place_view self.now.statement.now) }
        ensures { result ≡ blank_lines (project (loaded_in self.now.sources)) (place_view self.now.statement.now) }
    {
        let StatementPlace { block, number } = self.statement;
        let first = *number == 0;
        let last = if block.file >= self.sources.trees.len() {
            true
        } else {
            let tree = &self.sources.trees[block.file];
            stmt_at(tree, &block.path, *number + 1).is_none()
        };
        BlankLines::Trim { first, last }
    }
}

/// The step that removes the statement at a place, with the blank lines beside it that would be too many then.
///
/// # Errors
/// Out of memory.
pub(crate) fn removal_step(
    alloc: Global,
    sources: Sources<'_>,
    statement: StatementPlace,
) -> Result<Vec<ListStep>, Refusal>
    requires project { AreParsed sources.files.now sources.trees.now }
    requires there { IsStatementAt (loaded_in sources) (place_view statement) }
    ensures bare { IfOk result (λ steps. AreBare (removal_step (project (loaded_in sources.entry)) (place_view statement) ∷ []) steps.items) }
    ensures refused { IfErr result (λ e. e ≡ Refusal.OutOfMemory) }
{
    let removal = Removal {
        alloc,
        sources,
        statement: &statement,
    };
    let blank = removal.blank_lines();
    let StatementPlace { block, number } = statement;
    let mut steps = Vec::new(alloc);
    push_step(&mut steps, block, ListEdit::RemoveStatement(number, blank))?;
    Ok(steps)
}

/// The same, if nothing outside the statement needs it.
///
/// # Errors
/// A variable that the statement sets is used outside it, or out of memory.
pub(crate) fn removed_at(
    alloc: Global,
    sources: Sources<'_>,
    statement: StatementPlace,
) -> Result<Vec<ListStep>, Refusal>
    requires project { IsProject (loaded_in sources) }
    requires there { IsStatementAt (loaded_in sources) (place_view statement) }
    ensures plan { let old = loaded_in sources.entry in IfOk result (λ steps. ArePlanned old (removed_at old (place_view statement)) steps.items) }
    ensures refused { RefusedAs result (removed_at (loaded_in sources.entry) (place_view statement)) }
{
    let removal = Removal {
        alloc,
        sources,
        statement: &statement,
    };
    if let Some(name) = removal.first_needed()? {
        return Err(Refusal::InUse(name));
    }
    removal_step(alloc, sources, statement)
}
