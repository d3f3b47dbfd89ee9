//! The steps that remove a target, with its whole statement.

ghost use Rattle.std.specs.Prelude.{◌≡◌, ◌∷◌, [], IfErr, IfOk, Ok};
ghost use Rattle.meson_calls.specs.Loading.{IsProject};
ghost use Rattle.meson_calls.specs.NotedProjects.{IsNotedFor, loaded_in, project_in};
ghost use Rattle.meson_calls.specs.Refusals.{RefusedAs};
ghost use Rattle.meson_calls.specs.Searching.{name_at};
ghost use Rattle.meson_steps.specs.Meanings.{AreMeant};
ghost use Rattle.meson_targets.specs.TargetEdits.{named_removed, not_in_use, call_removed};
ghost use Rattle.meson_targets.specs.inside.TargetViews.{IsNamed, held_view, place_view};

use crate::holder::{Held, Holder, holder_of};
use crate::uses::{StatementPlace, is_used_outside};
use meson_calls::finding::the_call;
use meson_calls::noted::Noted;
use meson_calls::roles::identifier_text;
use meson_calls::{BorrowedName, CallRef, Refusal, Role};
use meson_layout::BlankLines;
use meson_splice::Text;
use meson_steps::step::{ListEdit, ListStep, push_step};
use std::alloc::Global;

/// Refuses a variable that is used elsewhere.
///
/// # Errors
/// The statement sets a variable that is used outside it, or out of memory.
fn not_in_use(
    alloc: Global,
    noted: &Noted<'_>,
    line: &StatementPlace,
    held: Held<'_>,
) -> Result<(), Refusal>
    requires project { IsProject (loaded_in noted.now) }
    requires named { IsNamed held }
    ensures checked { IfOk result (λ u. not_in_use (project_in noted.now) (place_view line.now) (held_view held.entry) ≡ Ok tt) }
    ensures refused { RefusedAs result (not_in_use (project_in noted.now) (place_view line.now) (held_view held.entry)) }
{
    match held {
        Held::Alone => Ok(()),
        Held::SetTo(name) => {
            if is_used_outside(alloc, noted, line, name)? {
                let name = String::from_str(alloc, identifier_text(name))?;
                return Err(Refusal::InUse(Text::of(name)));
            }
            Ok(())
        }
    }
}

/// The step that removes a statement.
fn statement_removed(alloc: Global, line: StatementPlace) -> Result<Vec<ListStep>, Refusal>
    ensures done { IfOk result (λ steps. steps.items ≡ record { list = line.block; edit = ListEdit.RemoveStatement line.number BlankLines.Stay } ∷ []) }
    ensures refused { IfErr result (λ e. e ≡ Refusal.OutOfMemory) }
{
    let StatementPlace { block, number } = line;
    let mut steps = Vec::new(alloc);
    push_step(
        &mut steps,
        block,
        ListEdit::RemoveStatement(number, BlankLines::Stay),
    )?;
    Ok(steps)
}

/// The step that removes the statement of a call.
///
/// # Errors
/// The call is neither a statement nor an assigned value, its variable is used elsewhere, or out of memory.
fn call_removed(alloc: Global, noted: &Noted<'_>, call: &CallRef) -> Result<Vec<ListStep>, Refusal>
    requires { IsProject (loaded_in noted.now) }
    ensures meant { IfOk result (λ steps. AreMeant (call_removed (project_in noted.now) call.now) steps.items) }
    ensures refused { RefusedAs result (call_removed (project_in noted.now) call.now) }
{
    let Some(holder) = holder_of(alloc, noted.files, noted.trees, call)? else {
        return Err(Refusal::NotStatement);
    };
    let Holder { statement, held } = holder;
    not_in_use(alloc, noted, &statement, held)?;
    statement_removed(alloc, statement)
}

/// The step that removes a target, with its whole statement.
///
/// # Errors
/// There is no such target or more than one, or it is neither a statement nor an assigned value. Or its variable is used elsewhere, or out of memory.
pub fn target_removed(
    alloc: Global,
    noted: &Noted<'_>,
    target: BorrowedName<'_>,
) -> Result<Vec<ListStep>, Refusal>
    requires { IsNotedFor Role.Target target.id.now noted.now }
    ensures meant { IfOk result (λ steps. AreMeant (named_removed (project_in noted.now) (name_at target.entry)) steps.items) }
    ensures refused { RefusedAs result (named_removed (project_in noted.now) (name_at target.entry)) }
{
    let call = the_call(alloc, Role::Target, target, noted.files, noted.notes)?;
    call_removed(alloc, noted, &call)
}
