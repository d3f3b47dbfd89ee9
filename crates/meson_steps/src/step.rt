//! The steps of a command: edits of lists, of whole statements and of assigned values, one after another.

ghost use Rattle.std.specs.Prelude.{◌≡◌, ◌++◌, ◌∷◌, [], OnErr, OnOk};
ghost use Rattle.meson_steps.specs.inside.ListSteps.{edits_list};

use meson_calls::CallRef;
use meson_layout::BlankLines;
use meson_splice::Bytes;
use std::alloc::AllocError;

/// Where whole lines are inserted: beside a statement of a block, by its number there, or at the end of the file.
#[derive(Clone, Copy, Debug)]
pub enum LineSide {
    /// Above the statement and the comment lines directly above it.
    Above(usize),
    /// Below the statement.
    Below(usize),
    /// At the end of the file.
    End,
}

/// One edit of a list, a block or an assignment, with the numbers of elements or statements and the bytes to write.
#[derive(Debug, Drop)]
pub enum ListEdit {
    /// The first element of an empty list.
    First(Bytes),
    /// An element after the one of this number.
    After(usize, Bytes),
    /// The element is removed.
    Remove(usize),
    /// Its value is replaced by another one.
    Replace(usize, Bytes),
    /// Its value is replaced by the array of it.
    Wrap(usize),
    /// The statement of this number is removed, with these blank lines beside it.
    RemoveStatement(usize, BlankLines),
    /// A statement after all others of the file.
    Append(Bytes),
    /// The assignment assigns another value.
    Assign(Bytes),
    /// Statements on lines of their own.
    Lines(LineSide, Bytes),
}

impl ListEdit {
    /// Whether it is an edit of a list.
    pub(crate) fn is_of_list(&self) -> bool
        ensures { result ≡ edits_list self.now }
    {
        !matches!(
            self,
            ListEdit::RemoveStatement(_, _)
                | ListEdit::Append(_)
                | ListEdit::Assign(_)
                | ListEdit::Lines(_, _)
        )
    }
}

/// An edit of the list of the array, dictionary or call at a place, or of the block or the assignment there.
#[derive(Debug, Drop)]
pub struct ListStep {
    pub list: CallRef,
    pub edit: ListEdit,
}

/// Adds a step after the others.
pub fn push_step(steps: &mut Vec<ListStep>, list: CallRef, edit: ListEdit) -> Result<(), AllocError>
    ensures added { OnOk result (steps.new.items ≡ steps.old.items ++ record { list = list; edit = edit } ∷ []) }
    ensures kept { OnErr result (steps.new.items ≡ steps.old.items) }
{
    steps.push(ListStep { list, edit })?;
    Ok(())
}
