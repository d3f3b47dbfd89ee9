//! The values of variables, by name.

ghost use Rattle.std.specs.Prelude.{◌≡◌, ℕ, List, ◌∷◌, [], Some, None, OnOk, IfOk, option_map, bytes_eq, if◌then◌else◌};
ghost use Rattle.meson_syntax.specs.View.{expr_view};
ghost use Rattle.meson_calls.specs.Calls.{chosen};
ghost use Rattle.meson_variables.specs.Variables.{is_outermost, only_value};
ghost use Rattle.meson_calls.specs.Notes.{note_view, note_views};
ghost use Rattle.meson_variables.specs.Noted.{note_assigned, assigned_notes};
ghost use Rattle.meson_variables.specs.CodeValues.{value_view, met_in, taken, value_in};
ghost use Rattle.meson_variables.specs.inside.CodeValues.{assignment, merged, with_assigned};

use meson_calls::call::BorrowedPlace;
use meson_calls::note::{Note, What};
use meson_calls::roles::text_of;
use meson_syntax::Expr;
use std::alloc::{AllocError, Global};
use std::collections::HashMap;

/// The value of an assignment outside `if` and `foreach`, with the file and the number of its statement there.
#[derive(Clone, Copy)]
pub struct Value<'t> {
    pub file: usize,
    pub statement: usize,
    pub source: &'t [u8],
    pub value: &'t Expr,
}

/// The variables that are assigned, by name: each with its value, or with none if it has no single expression.
#[derive(Drop)]
pub struct Values<'t> {
    by_name: HashMap<&'t [u8], Option<Value<'t>>>,
}

/// Whether an assignment is outside `if` and `foreach`.
fn is_outermost(place: BorrowedPlace<'_>) -> bool
    ensures { result ≡ is_outermost place.entry.path.now }
{
    place.path.len() == 1
}

/// The value of a variable whose only assignment this is: one with `=`, outside `if` and `foreach`.
fn outermost<'t>(note: &Note<'_, 't>, sets: bool, value: &'t Expr) -> Option<Value<'t>>
    ensures { option_map value_view result ≡ only_value (assignment note.now sets (expr_view note.now.source.now value.now) ∷ []) }
{
    if sets && is_outermost(note.place) {
        Some(Value {
            file: note.place.file,
            statement: note.place.path[0],
            source: note.source,
            value,
        })
    } else {
        None
    }
}

impl<'t> Values<'t> {
    /// No variables. Does not allocate.
    pub fn new(alloc: Global) -> Self
        ensures { (x : List ℕ) → met_in result x ≡ None }
    {
        Values {
            by_name: HashMap::new(alloc),
        }
    }

    /// Meets an assignment to a variable: its value is kept if it is the first, and none if it is not.
    ///
    /// # Errors
    /// Out of memory.
    fn put(&mut self, name: &'t [u8], value: Option<Value<'t>>) -> Result<(), AllocError>
        ensures { OnOk result ((x : List ℕ) → met_in self.new x
            ≡ (if bytes_eq name.entry.now x then Some (merged (met_in self.old x) (option_map value_view value.entry)) else met_in self.old x)) }
    {
        match self.by_name.insert(name, value)? {
            Some(_) => {
                self.by_name.insert(name, None)?;
                Ok(())
            }
            None => Ok(()),
        }
    }

    /// Meets what a note assigns.
    fn meet(&mut self, note: &Note<'_, 't>) -> Result<(), AllocError>
        ensures { OnOk result ((x : List ℕ) → met_in self.new x ≡ with_assigned (met_in self.old x) (chosen (note_assigned x) (note_view note.now))) }
    {
        match note.what {
            What::Assign { name, sets, value } => {
                self.put(text_of(note.source, name), outermost(note, sets, value))
            }
            _ => Ok(()),
        }
    }

    /// The variables that notes assign.
    ///
    /// # Errors
    /// Out of memory.
    pub fn assigned(alloc: Global, notes: &[Note<'_, 't>]) -> Result<Values<'t>, AllocError>
        ensures { IfOk result (λ values. (x : List ℕ) → met_in values x ≡ taken (assigned_notes x (note_views notes.now))) }
    {
        let mut values = Values::new(alloc);
        for i in 0..notes.len() {
            values.meet(&notes[i])?;
        }
        Ok(values)
    }

    /// Forgets a variable.
    pub fn forget(&mut self, name: &[u8])
        ensures { (x : List ℕ) → value_in self.new x ≡ (if bytes_eq name.now x then None else value_in self.old x) }
    {
        let _ = self.by_name.remove(name);
    }

    /// The value of a variable.
    pub fn of(&self, name: &[u8]) -> Option<Value<'t>>
        ensures { option_map value_view result ≡ value_in self.now name.now }
    {
        match self.by_name.get(name) {
            Some(value) => *value,
            None => None,
        }
    }
}
