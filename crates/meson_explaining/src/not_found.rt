//! Why an id names no call.

ghost use Rattle.std.specs.Prelude.{◌≡◌, IfOk, filter, is_none};
ghost use Rattle.meson_explaining.specs.NotFound.{missing_notes, not_found, unnamed};

use crate::calls::{Telling, add_few, add_further};
use crate::explaining::with_help;
use crate::explanation::{Explanation, Note};
use crate::nearest::near_notes;
use meson_calls::Reading;
use meson_inventory::holdings::{HeldCall, Holdings, calls_held, holdings_of};
use meson_plan::{Project, Role};
use std::alloc::{AllocError, Global};

/// How many calls no id can name, for want of a literal name.
fn unnamed(calls: &[HeldCall]) -> usize
    ensures { result ≡ unnamed calls.now }
{
    calls.iter().filter(|call| call.head.name.is_none()).count()
}

/// The notes where none of these calls has the id.
pub(crate) fn missing_notes(
    alloc: Global,
    id: &str,
    nameless: &str,
    calls: &[HeldCall],
    subdirs: &[HeldCall],
) -> Result<Vec<Note>, AllocError>
    ensures { IfOk result (λ notes. notes.items ≡ missing_notes id.now nameless.now calls.now subdirs.now) }
{
    let mut notes = near_notes(alloc, id, calls)?;
    let telling = Telling {
        most: 2,
        more: ", not entered",
        others: "further subdir calls that are not entered",
    };
    add_few(alloc, &mut notes, telling, subdirs)?;
    add_further(alloc, &mut notes, nameless, unnamed(calls))?;
    Ok(notes)
}

/// Why no target has the id.
fn no_target(
    alloc: Global,
    reading: Reading,
    project: &Project,
    id: &str,
) -> Result<Explanation, AllocError>
    ensures { IfOk result (λ e. e ≡ not_found reading project.now Role.Target id.now) }
{
    let Holdings {
        targets,
        not_entered,
    } = holdings_of(alloc, reading, project)?;
    let notes = missing_notes(
        alloc,
        id,
        "targets without a literal name",
        targets.get(),
        not_entered.get(),
    )?;
    with_help(
        alloc,
        notes,
        "a target is found by its name or its variable, which list shows; --sourcedir FOLDER reads the targets of another folder",
    )
}

/// Why no dependency has the id.
fn no_dependency(
    alloc: Global,
    reading: Reading,
    project: &Project,
    id: &str,
) -> Result<Explanation, AllocError>
    ensures { IfOk result (λ e. e ≡ not_found reading project.now Role.Dependency id.now) }
{
    let calls = calls_held(alloc, project, "dependency")?;
    let held = holdings_of(alloc, reading, project)?;
    let notes = missing_notes(
        alloc,
        id,
        "dependencies without a literal name",
        calls.get(),
        held.not_entered.get(),
    )?;
    with_help(
        alloc,
        notes,
        "a dependency is found by its name or its variable; --sourcedir FOLDER reads the dependencies of another folder",
    )
}

/// Why an id names no call, where the build files are read so.
pub(crate) fn not_found(
    alloc: Global,
    reading: Reading,
    project: &Project,
    role: Role,
    id: &str,
) -> Result<Explanation, AllocError>
    ensures { IfOk result (λ e. e ≡ not_found reading project.now role id.now) }
{
    match role {
        Role::Target => no_target(alloc, reading, project, id),
        Role::Dependency => no_dependency(alloc, reading, project, id),
        Role::Project => with_help(alloc, Vec::new(alloc), "the id of a project is /"),
    }
}
