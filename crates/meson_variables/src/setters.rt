//! What sets a variable besides assignments.

ghost use Rattle.std.specs.Prelude.{◌≡◌, None, IfOk, OnOk, option_map, string_bytes, if◌then◌else◌};
ghost use Rattle.meson_syntax.specs.Grammar.{listing_words};
ghost use Rattle.meson_syntax.specs.declared.operator.Bracket.TheVariants as bracket;
ghost use Rattle.meson_syntax.specs.View.{names_at, text_at, list_view};
ghost use Rattle.meson_calls.specs.Calls.{is};
ghost use Rattle.meson_calls.specs.Notes.{note_view, note_views};
ghost use Rattle.meson_variables.specs.Noted.{note_sets, is_set_by, assigned_notes};
ghost use Rattle.meson_calls.specs.ChosenNotes.{Source, call_with};
ghost use Rattle.meson_calls.specs.Strings.{AreGood, NotesGood, note_words};
ghost use Rattle.meson_variables.specs.CodeValues.{value_in};
ghost use Rattle.meson_variables.specs.Variables.{one_of_names, only_value, sets_variable};

use crate::values::Values;
use meson_calls::literals::first_literal;
use meson_calls::note::{Note, What};
use meson_calls::roles::text_of;
use meson_lex::Span;
use meson_syntax::List;
use std::alloc::{AllocError, Global};

/// Whether a text is that of one of some spans.
pub fn one_of(source: &[u8], spans: &[Span], name: &[u8]) -> bool
    ensures { result ≡ one_of_names (names_at source.now spans.now) name.now }
{
    for i in 0..spans.len() {
        if text_of(source, spans[i]) == name {
            return true;
        }
    }
    false
}

/// The name that a call sets, if it is a `set_variable` of a literal.
fn set_name(
    alloc: Global,
    source: &[u8],
    function: Span,
    arguments: &List,
) -> Result<Option<String>, AllocError>
    requires { AreGood (listing_words (list_view source.now arguments.now) bracket.Round) }
    ensures { (x : Source) → IfOk result (λ name. is x (option_map string_bytes name)
        ≡ sets_variable x (call_with (text_at source.now function) (list_view source.now arguments.now))) }
{
    if text_of(source, function) == b"set_variable".as_slice() {
        let name = first_literal(alloc, source, arguments)?;
        Ok(name)
    } else {
        Ok(None)
    }
}

impl<'t> Values<'t> {
    /// Forgets the variables of a loop.
    fn forget_each(&mut self, source: &[u8], names: &[Span])
        ensures { (x : Source) → value_in self.new x ≡ (if one_of_names (names_at source.now names.now) x then None else value_in self.old x) }
    {
        for i in 0..names.len() {
            self.forget(text_of(source, names[i]));
        }
    }

    /// Forgets the variable that a call sets.
    fn forget_called(
        &mut self,
        alloc: Global,
        source: &[u8],
        function: Span,
        arguments: &List,
    ) -> Result<(), AllocError>
        requires { AreGood (listing_words (list_view source.now arguments.now) bracket.Round) }
        ensures { OnOk result ((x : Source) → value_in self.new x
            ≡ (if sets_variable x (call_with (text_at source.now function) (list_view source.now arguments.now)) then None else value_in self.old x)) }
    {
        match set_name(alloc, source, function, arguments)? {
            Some(name) => {
                self.forget(name.as_bytes());
                Ok(())
            }
            None => Ok(()),
        }
    }

    /// Forgets what a loop or a `set_variable` sets.
    fn forget_set(&mut self, alloc: Global, note: &Note<'_, '_>) -> Result<(), AllocError>
        requires { AreGood (note_words (note_view note.now).it) }
        ensures { OnOk result ((x : Source) → value_in self.new x ≡ (if note_sets x (note_view note.now).it then None else value_in self.old x)) }
    {
        match note.what {
            What::Call {
                function,
                arguments,
            } => self.forget_called(alloc, note.source, function, arguments),
            What::Assign { .. } => Ok(()),
            What::Loop { names } => {
                self.forget_each(note.source, names);
                Ok(())
            }
        }
    }

    /// Forgets what loops and `set_variable` set.
    fn forget_all_set(&mut self, alloc: Global, notes: &[Note<'_, '_>]) -> Result<(), AllocError>
        requires { NotesGood (note_views notes.now) }
        ensures { OnOk result ((x : Source) → value_in self.new x ≡ (if is_set_by x (note_views notes.now) then None else value_in self.old x)) }
    {
        for i in 0..notes.len() {
            self.forget_set(alloc, &notes[i])?;
        }
        Ok(())
    }

    /// The values of the variables that notes assign, each once, and set in no other way.
    ///
    /// # Errors
    /// Out of memory.
    pub fn by_notes(alloc: Global, notes: &[Note<'_, 't>]) -> Result<Values<'t>, AllocError>
        requires { NotesGood (note_views notes.now) }
        ensures { IfOk result (λ values. (x : Source) → value_in values x
            ≡ (if is_set_by x (note_views notes.now) then None else only_value (assigned_notes x (note_views notes.now)))) }
    {
        let mut values = Values::assigned(alloc, notes)?;
        values.forget_all_set(alloc, notes)?;
        Ok(values)
    }
}
