//! What a walk does with each part that it visits.

ghost use Rattle.std.specs.Prelude.{◌≡◌, ◌∷◌, [], ◌++◌, ◌||◌, IsTrue, OnOk, option_map};
ghost use Rattle.meson_syntax.specs.View.{expr_view};
ghost use Rattle.meson_calls.specs.declared.call.CallRef.{CallRef};
ghost use Rattle.meson_calls.specs.Notes.{note_of, noted, taken_view, what_view, is_set};
ghost use Rattle.meson_calls.specs.Parts.{parts_of_expression};
ghost use Rattle.meson_calls.specs.ChosenNotes.{Source};
ghost use Rattle.meson_calls.specs.Setters.{assignments_in, is_loop, is_setter, setters_in};
ghost use Rattle.meson_calls.specs.Walks.{KeepsParts, bracket_of, keeper_view, kept_so_far, lists_of_kept, lists_opened, notes_of_kept, part_at, part_reads, part_view, read_in, reads_of_kept};

use crate::call::{BorrowedPlace, CallRef};
use crate::keeper::{Assignments, Keeper, Opened, Setters};
use crate::kept::KeptAssignment;
use crate::note::What;
use crate::part::{Part, Walk};
use crate::place::{child_place, place_of};
use crate::roles::{is_among, text_of};
use crate::taken::Taken;
use meson_syntax::{Assignment, Expr, Stmt};
use std::alloc::AllocError;

/// Whether a variable gets the value, rather than having it added.
fn sets(assignment: Assignment) -> bool
    ensures { result ≡ is_set assignment }
{
    match assignment {
        Assignment::Set => true,
        Assignment::Add => false,
    }
}

/// What is noted of an expression: a call.
fn call_in(expr: &Expr) -> Option<What<'_>>
    ensures { (source : Source) → option_map (what_view source) result ≡ note_of (part_view source (Part.Expression expr.entry)) }
{
    match expr {
        Expr::Call {
            name,
            arguments,
            ..
        } => Some(What::Call {
            function: *name,
            arguments,
        }),
        _ => None,
    }
}

/// What is noted of a statement: an assignment or a loop.
fn note_in(stmt: &Stmt) -> Option<What<'_>>
    ensures { (source : Source) → option_map (what_view source) result ≡ note_of (part_view source (Part.Statement stmt.entry)) }
{
    match stmt {
        Stmt::Assign {
            name,
            assignment,
            value,
            ..
        } => Some(What::Assign {
            name: *name,
            sets: sets(*assignment),
            value,
        }),
        Stmt::Foreach { names, .. } => Some(What::Loop { names: names.get() }),
        _ => None,
    }
}

/// Whether there is no note of the expression, nor of anything within it.
fn is_plain(value: &Expr) -> bool
    ensures { IsTrue result → (source : Source) (p : CallRef) → noted (parts_of_expression p (expr_view source value.now)) ≡ [] }
{
    match value {
        Expr::Identifier(_) => true,
        Expr::Boolean { .. } => true,
        Expr::Integer(_) => true,
        Expr::String { .. } => true,
        _ => false,
    }
}

/// Whether it is an assignment to one of the variables, or a loop.
fn is_setter(source: &[u8], names: &[&[u8]], what: What<'_>) -> bool
    ensures { result ≡ is_setter names.now (what_view source.now what.entry) }
{
    match what {
        What::Call { .. } => false,
        What::Assign { name, .. } => is_among(names, text_of(source, name)),
        What::Loop { .. } => true,
    }
}

impl<'n, 't> Keeper<'n, 't> {
    /// Notes that are added after these: of all parts, or of the setters of some variables.
    pub fn asked(names: &'n [&'n [u8]], all: bool, taken: Taken<'t>) -> Self
        ensures { keeper_view result ≡ kept_so_far names.entry.now all (taken_view taken.entry) }
    {
        if all {
            return Keeper::Notes(taken);
        }
        Keeper::Setters(Setters {
            names,
            found: taken,
        })
    }

    /// Whether nothing is kept of the expression or of anything in it, at any place. Then a walk may skip it.
    pub fn passes(&self, expr: &Expr) -> bool
        ensures { IsTrue result → (source : Source) (p : CallRef) → KeepsParts self.now (parts_of_expression p (expr_view source expr.now)) self.now }
    {
        match self {
            Keeper::Notes(_) => is_plain(expr),
            Keeper::Setters(_) => true,
            Keeper::Assignments(_) => true,
            Keeper::Reads { name: _, found: _ } => false,
            Keeper::Lists(_) => false,
        }
    }

    /// The notes, if notes are kept.
    pub fn notes(self) -> Option<Taken<'t>>
        ensures { option_map taken_view result ≡ notes_of_kept (keeper_view self.entry) }
    {
        match self {
            Keeper::Notes(found) => Some(found),
            Keeper::Setters(setters) => {
                let Setters { names: _, found } = setters;
                Some(found)
            }
            Keeper::Assignments(_) => None,
            Keeper::Reads { name: _, found: _ } => None,
            Keeper::Lists(_) => None,
        }
    }

    /// The places where the variable is read, if these are kept.
    pub fn reads(self) -> Option<Vec<CallRef>>
        ensures { option_map (λ found. found.items) result ≡ reads_of_kept (keeper_view self.entry) }
    {
        match self {
            Keeper::Notes(_) => None,
            Keeper::Setters(_) => None,
            Keeper::Assignments(_) => None,
            Keeper::Reads { name: _, found } => Some(found),
            Keeper::Lists(_) => None,
        }
    }

    /// The arrays and dictionaries, if these are kept.
    pub fn lists(self) -> Option<Vec<Opened>>
        ensures { option_map (λ found. found.items) result ≡ lists_of_kept (keeper_view self.entry) }
    {
        match self {
            Keeper::Notes(_) => None,
            Keeper::Setters(_) => None,
            Keeper::Assignments(_) => None,
            Keeper::Reads { name: _, found: _ } => None,
            Keeper::Lists(found) => Some(found),
        }
    }
}

impl<'t> Part<'t> {
    /// What is noted of the part.
    fn note(self) -> Option<What<'t>>
        ensures { (source : Source) → option_map (what_view source) result ≡ note_of (part_view source self.entry) }
    {
        match self {
            Part::Expression(expr) => call_in(expr),
            Part::Statement(stmt) => note_in(stmt),
        }
    }

    /// Whether it is an identifier that is the variable.
    fn reads(self, source: &[u8], name: &[u8]) -> bool
        ensures { result ≡ part_reads name.now (part_view source.now self.entry) }
    {
        match self {
            Part::Expression(expr) => match expr {
                Expr::Identifier(span) => text_of(source, *span) == name,
                _ => false,
            },
            Part::Statement(_) => false,
        }
    }

    /// The offset of the opening bracket, if it is an array or a dictionary.
    fn bracket(self) -> Option<usize>
        ensures { (source : Source) → result ≡ bracket_of (part_view source self.entry) }
    {
        match self {
            Part::Expression(expr) => match expr {
                Expr::Array(list) => Some(list.span.from),
                Expr::Dictionary(list) => Some(list.span.from),
                _ => None,
            },
            Part::Statement(_) => None,
        }
    }
}

impl<'t> Walk<'t> {
    /// Keeps a note of the part at the path, if parts of its kind are noted.
    fn keep_note(
        &self,
        path: &[usize],
        part: Part<'t>,
        found: &mut Taken<'t>,
    ) -> Result<(), AllocError>
        ensures { OnOk result (taken_view found.new ≡ taken_view found.old ++ noted (part_at self.now path.now part.entry ∷ [])) }
    {
        if let Some(what) = part.note() {
            found.take(self.file, path, self.source, what)?;
        }
        Ok(())
    }

    /// Keeps a note of the part at the path, if it is an assignment to one of the variables or a loop.
    fn keep_setter(
        &self,
        path: &[usize],
        part: Part<'t>,
        setters: &mut Setters<'_, 't>,
    ) -> Result<(), AllocError>
        ensures names { OnOk result (setters.new.names.now ≡ setters.old.names.now) }
        ensures found { OnOk result (taken_view setters.new.found
            ≡ taken_view setters.old.found ++ setters_in setters.old.names.now (noted (part_at self.now path.now part.entry ∷ []))) }
    {
        if let Some(what) = part.note() {
            if is_setter(self.source, setters.names, what) {
                setters.found.take(self.file, path, self.source, what)?;
            }
        }
        Ok(())
    }

    /// If the part at the path is an assignment, keeps the places of its variable and of its value. Also keeps whether it is a loop.
    fn keep_assignment(
        &self,
        path: &[usize],
        part: Part<'t>,
        assignments: &mut Assignments,
    ) -> Result<(), AllocError>
        ensures loops { OnOk result (assignments.new.loops ≡ (is_loop (part_at self.now path.now part.entry).it || assignments.old.loops)) }
        ensures found { OnOk result (assignments.new.found.items
            ≡ assignments.old.found.items ++ assignments_in (part_at self.now path.now part.entry ∷ [])) }
    {
        match part {
            Part::Statement(
                Stmt::Assign {
                    name,
                    assignment,
                    ..
                },
            ) => {
                let place = BorrowedPlace {
                    file: self.file,
                    path,
                };
                let CallRef { file: _, path } = child_place(self.alloc, place, 0)?;
                assignments.found.push(KeptAssignment {
                    name: *name,
                    sets: sets(*assignment),
                    value: path,
                })?;
                Ok(())
            }
            Part::Statement(Stmt::Foreach { .. }) => {
                assignments.loops = true;
                Ok(())
            }
            _ => Ok(()),
        }
    }

    /// Keeps the place of the part at the path, if it is the variable.
    fn keep_read(
        &self,
        path: &[usize],
        part: Part<'t>,
        name: &[u8],
        found: &mut Vec<CallRef>,
    ) -> Result<(), AllocError>
        ensures { OnOk result (found.new.items ≡ found.old.items ++ read_in name.now (part_at self.now path.now part.entry ∷ [])) }
    {
        if part.reads(self.source, name) {
            let place = place_of(self.alloc, self.file, path)?;
            found.push(place)?;
        }
        Ok(())
    }

    /// Keeps the part at the path, if it is an array or a dictionary.
    fn keep_list(
        &self,
        path: &[usize],
        part: Part<'t>,
        found: &mut Vec<Opened>,
    ) -> Result<(), AllocError>
        ensures { OnOk result (found.new.items ≡ found.old.items ++ lists_opened (part_at self.now path.now part.entry ∷ [])) }
    {
        if let Some(at) = part.bracket() {
            let place = place_of(self.alloc, self.file, path)?;
            found.push(Opened { at, place })?;
        }
        Ok(())
    }

    /// Keeps what is to be kept of the part at the path.
    pub fn visit(
        &self,
        path: &[usize],
        part: Part<'t>,
        keeper: &mut Keeper<'_, 't>,
    ) -> Result<(), AllocError>
        ensures { OnOk result (KeepsParts keeper.old (part_at self.now path.now part.entry ∷ []) keeper.new) }
    {
        match keeper {
            Keeper::Notes(found) => self.keep_note(path, part, found),
            Keeper::Setters(setters) => self.keep_setter(path, part, setters),
            Keeper::Assignments(assignments) => self.keep_assignment(path, part, assignments),
            Keeper::Reads { name, found } => self.keep_read(path, part, name, found),
            Keeper::Lists(found) => self.keep_list(path, part, found),
        }
    }
}
