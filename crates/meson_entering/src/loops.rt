//! The texts that the name of a loop may mean.

ghost use Rattle.std.specs.Prelude.{◌≡◌, ◌++◌, ◌∷◌, [], IfOk, OnOk, map, option_map, string_bytes};
ghost use Rattle.meson_syntax.specs.Grammar.{expression_words};
ghost use Rattle.meson_syntax.specs.Reads.{IsSpanned};
ghost use Rattle.meson_syntax.specs.View.{expr_view, names_at, view};
ghost use Rattle.meson_calls.specs.Notes.{note_view, note_views};
ghost use Rattle.meson_calls.specs.Strings.{AreGood, NotesGood, note_words};
ghost use Rattle.meson_entering.specs.Loops.{assigned_texts, innermost_list, is_first, list_around, list_texts, loop_texts, summand_texts, variable_texts};

use crate::lists::{add_own, add_value, summands};
use meson_calls::note::{Note, What};
use meson_calls::notes::notes_in;
use meson_calls::roles::text_of;
use meson_lex::Span;
use meson_syntax::{Expr, Many, Parsed, Path};
use std::alloc::{AllocError, Global};

/// A file whose loops are read, and its notes.
#[derive(Clone, Copy)]
struct Loops<'t> {
    alloc: Global,
    source: &'t [u8],
    tree: &'t Parsed,
    notes: &'t [Note<'t, 't>],
}

/// Whether this is the first name of a loop.
fn is_first(source: &[u8], name: &[u8], names: &[Span]) -> bool
    ensures { result ≡ is_first name.now (names_at source.now names.now) }
{
    match names.first() {
        Some(first) => text_of(source, *first) == name,
        None => false,
    }
}

/// The path of the n-th child of what is at a path.
fn child_of(alloc: Global, path: &[usize], number: usize) -> Result<Vec<usize>, AllocError>
    ensures { IfOk result (λ steps. steps.items ≡ path.now ++ number ∷ []) }
{
    let mut steps = Vec::from_slice(alloc, path)?;
    steps.push(number)?;
    Ok(steps)
}

impl<'t> Loops<'t> {
    /// The list of a loop that sets this name first, and in whose body a path is.
    fn list_around(
        &self,
        name: &[u8],
        path: &[usize],
        note: &Note<'_, '_>,
    ) -> Result<Option<&'t Expr>, AllocError>
        ensures { IfOk result (λ list. option_map (λ e. expr_view self.now.source.now e.now) list
            ≡ list_around (view self.now.source.now self.now.tree.now) name.now path.now (note_view note.now)) }
    {
        let What::Loop { names } = note.what else {
            return Ok(None);
        };
        if !is_first(note.source, name, names) {
            return Ok(None);
        }
        let body = child_of(self.alloc, note.place.path, 1)?;
        if !path.starts_with(body.as_slice()) {
            return Ok(None);
        }
        let list = Path {
            steps: Many::of(child_of(self.alloc, note.place.path, 0)?),
        };
        Ok(self.tree.expr_at(&list))
    }

    /// The list of the innermost of these loops.
    fn innermost_list(&self, name: &[u8], path: &[usize]) -> Result<Option<&'t Expr>, AllocError>
        ensures { IfOk result (λ list. option_map (λ e. expr_view self.now.source.now e.now) list
            ≡ innermost_list (view self.now.source.now self.now.tree.now) name.now path.now (note_views self.now.notes.now)) }
    {
        let mut innermost = None;
        for i in 0..self.notes.len() {
            if let Some(list) = self.list_around(name, path, &self.notes[i])? {
                innermost = Some(list);
            }
        }
        Ok(innermost)
    }

    /// Adds the texts of the value of a note, if it is an assignment to this variable.
    fn add_assigned(
        &self,
        variable: &[u8],
        note: &Note<'_, '_>,
        texts: &mut Vec<String>,
    ) -> Result<(), AllocError>
        requires { AreGood (note_words (note_view note.now).it) }
        ensures { OnOk result (map string_bytes texts.new.items ≡ map string_bytes texts.old.items ++ assigned_texts variable.now (note_view note.now)) }
    {
        match note.what {
            What::Assign { name, value, .. } => {
                if text_of(note.source, name) == variable {
                    return add_value(self.alloc, note.source, value, texts);
                }
                Ok(())
            }
            _ => Ok(()),
        }
    }

    /// Adds the texts of each value that the file assigns to a variable.
    fn add_variable(&self, variable: &[u8], texts: &mut Vec<String>) -> Result<(), AllocError>
        requires { NotesGood (note_views self.now.notes.now) }
        ensures { OnOk result (map string_bytes texts.new.items ≡ map string_bytes texts.old.items ++ variable_texts variable.now (note_views self.now.notes.now)) }
    {
        for i in 0..self.notes.len() {
            self.add_assigned(variable, &self.notes[i], texts)?;
        }
        Ok(())
    }

    /// Adds the texts of what is summed in a list.
    fn add_summand(&self, summand: &Expr, texts: &mut Vec<String>) -> Result<(), AllocError>
        requires notes { NotesGood (note_views self.now.notes.now) }
        requires good { AreGood (expression_words (expr_view self.now.source.now summand.now)) }
        ensures { OnOk result (map string_bytes texts.new.items
            ≡ map string_bytes texts.old.items ++ summand_texts (note_views self.now.notes.now) (expr_view self.now.source.now summand.now)) }
    {
        match summand {
            Expr::Identifier(name) => self.add_variable(text_of(self.source, *name), texts),
            _ => add_own(self.alloc, self.source, summand, texts),
        }
    }

    /// The texts of a list.
    fn texts_of(&self, list: &Expr) -> Result<Vec<String>, AllocError>
        requires notes { NotesGood (note_views self.now.notes.now) }
        requires good { AreGood (expression_words (expr_view self.now.source.now list.now)) }
        ensures { IfOk result (λ texts. map string_bytes texts.items
            ≡ list_texts (note_views self.now.notes.now) (expr_view self.now.source.now list.now)) }
    {
        let mut texts = Vec::new(self.alloc);
        let summands = summands(self.alloc, list)?;
        for i in 0..summands.len() {
            self.add_summand(summands[i], &mut texts)?;
        }
        Ok(texts)
    }
}

/// The texts that a name may mean at a path, as far as they are known: those of the list of the innermost loop around it that sets this name first.
pub(crate) fn loop_texts(
    alloc: Global,
    source: &[u8],
    tree: &Parsed,
    name: &[u8],
    path: &[usize],
) -> Result<Vec<String>, AllocError>
    requires { IsSpanned source.now (view source.now tree.now) }
    ensures { IfOk result (λ texts. map string_bytes texts.items ≡ loop_texts (view source.now tree.now) name.now path.now) }
{
    let taken = notes_in(alloc, 0, source, tree)?;
    let notes = taken.all(alloc)?;
    let loops = Loops {
        alloc,
        source,
        tree,
        notes: notes.as_slice(),
    };
    match loops.innermost_list(name, path)? {
        Some(list) => loops.texts_of(list),
        None => Ok(Vec::new(alloc)),
    }
}
