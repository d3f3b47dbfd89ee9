//! Why a change of a target's sources is refused, where variables are followed.

ghost use Rattle.std.specs.Prelude.{◌≡◌, ◌∷◌, [], IfOk};
ghost use Rattle.meson_calls.specs.Searching.{name_at};
ghost use Rattle.meson_explaining.specs.Followed.{followed_items, followed_not_there, place_of, shared_list, sought_names};
ghost use Rattle.meson_explaining.specs.Removals.{change_way, fixed_notes, followed_unresolved, with_list};

use crate::bad_names::{one_line, one_note};
use crate::explaining::with_help;
use crate::explanation::Explanation;
use crate::followed::{absent_notes, first_absent, followed_items, place_of};
use crate::names::sought_names;
use crate::removals::{REMOVAL_WAY, RENAMING_WAY, fixed_notes, unknown_notes};
use crate::sources::few_close_notes;
use crate::subject::Subject;
use crate::values::value_notes;
use crate::written::written_notes;
use meson_calls::BorrowedName;
use meson_plan::{Project, Role};
use meson_splice::{Many, Text};
use meson_steps::source_change::SourceChange;
use std::alloc::{AllocError, Global};

/// Which names a target does not have.
pub(crate) fn followed_not_there(
    alloc: Global,
    project: &Project,
    target: BorrowedName<'_>,
    names: &[Text],
) -> Result<Explanation, AllocError>
    ensures { IfOk result (λ e. e ≡ followed_not_there project.now (name_at target.entry) names.now) }
{
    let place = place_of(alloc, project, target)?;
    let items = followed_items(alloc, project, &place)?;
    let mut notes = absent_notes(alloc, project, &place, names)?;
    let name = first_absent(alloc, project, &place, names)?;
    let mut close = few_close_notes(alloc, name, items.get())?;
    notes.append(&mut close)?;
    with_help(alloc, notes, "--follow target ID info lists the sources")
}

/// What changes one list, for a change of sources that are not all known.
fn change_way(change: &SourceChange) -> &'static str
    ensures { result.now ≡ change_way change.now }
{
    match change {
        SourceChange::Add(_) | SourceChange::Remove(_) => REMOVAL_WAY,
        SourceChange::Rename { .. } => RENAMING_WAY,
    }
}

/// Which name is not among what is known of a target.
pub(crate) fn followed_unresolved(
    alloc: Global,
    project: &Project,
    target: BorrowedName<'_>,
    change: &SourceChange,
) -> Result<Explanation, AllocError>
    ensures { IfOk result (λ e. e ≡ followed_unresolved project.now (name_at target.entry) (change_way change.now) (sought_names change.now)) }
{
    let names = sought_names(change);
    let place = place_of(alloc, project, target)?;
    let items = followed_items(alloc, project, &place)?;
    let name = first_absent(alloc, project, &place, names)?;
    let mut notes = unknown_notes(alloc, name)?;
    let mut written = written_notes(alloc, project, name)?;
    notes.append(&mut written)?;
    let mut close = few_close_notes(alloc, name, items.get())?;
    notes.append(&mut close)?;
    let subject = Subject {
        role: Role::Target,
        name: target,
    };
    let mut hidden = value_notes(alloc, project, subject, "kwargs")?;
    notes.append(&mut hidden)?;
    let help = two_lines(
        alloc,
        change_way(change),
        "--follow target ID info counts what is not known",
    )?;
    Ok(Explanation {
        notes: Many::of(notes),
        help: Many::of(help),
    })
}

/// Which names are in no list.
pub(crate) fn followed_not_removable(
    alloc: Global,
    project: &Project,
    target: BorrowedName<'_>,
    names: &[Text],
) -> Result<Explanation, AllocError>
    ensures { let l = project.now in IfOk result (λ e.
        e ≡ with_list (fixed_notes (followed_items l (place_of l (name_at target.entry))) names.now)) }
{
    let place = place_of(alloc, project, target)?;
    let items = followed_items(alloc, project, &place)?;
    let notes = fixed_notes(alloc, items.get(), names)?;
    with_help(alloc, notes, "write it in a list, as in ['a.c']")
}

/// Two lines of help.
fn two_lines(alloc: Global, first: &str, second: &str) -> Result<Vec<Text>, AllocError>
    ensures { IfOk result (λ lines. lines.items ≡ first.now ∷ second.now ∷ []) }
{
    let mut lines = one_line(alloc, first)?;
    lines.push(Text::of(String::from_str(alloc, second)?))?;
    Ok(lines)
}

/// The list that is set to a variable is read for something else too.
pub(crate) fn shared_list(alloc: Global, name: &str) -> Result<Explanation, AllocError>
    ensures { IfOk result (λ e. e ≡ shared_list name.now) }
{
    let text = format!(in alloc; "something else reads the list of {name} too")?;
    let notes = one_note(alloc, text)?;
    let help = two_lines(
        alloc,
        "--follow=shared changes it for all of them",
        "--follow target ID info tells who gets each source",
    )?;
    Ok(Explanation {
        notes: Many::of(notes),
        help: Many::of(help),
    })
}
