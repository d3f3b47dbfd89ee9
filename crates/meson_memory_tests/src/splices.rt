//! Changes that are done, taken back and kept.

use crate::rows::Row;
use crate::trial::{Call, Fault, Wrong, each_growth_refused};
use meson_script::Session;
use meson_splice::{Change, FileSet, History, Many, SpliceFault, Unkept, apply_all, revert};
use std::alloc::Global;
use std::mem;

impl Fault for SpliceFault {
    fn is_want(&self) -> bool {
        matches!(self, SpliceFault::OutOfMemory)
    }
}

/// Files, and a change of them.
#[derive(Debug, Drop)]
struct Changing {
    files: FileSet,
    change: Change,
}

enum Apply {}

impl Call for Apply {
    type Given = Changing;

    type Value = ();

    type Fault = SpliceFault;

    fn given(alloc: Global, row: Row<'_>) -> Option<Changing> {
        let (_, change) = row.changed(alloc)?;
        Some(Changing {
            files: row.files(alloc)?,
            change,
        })
    }

    fn make(alloc: Global, given: &mut Changing) -> Result<(), SpliceFault> {
        apply_all(alloc, &mut given.files, &given.change)
    }
}

enum Revert {}

impl Call for Revert {
    type Given = Changing;

    type Value = ();

    type Fault = SpliceFault;

    fn given(alloc: Global, row: Row<'_>) -> Option<Changing> {
        let (project, change) = row.changed(alloc)?;
        Some(Changing {
            files: project.files().copy(alloc).ok()?,
            change,
        })
    }

    fn make(alloc: Global, given: &mut Changing) -> Result<(), SpliceFault> {
        revert(alloc, &mut given.files, &given.change)
    }
}

/// A history, and a change that is kept in it. There is no room for it among the changes that were done, and one can be redone.
#[derive(Debug, Drop)]
struct Keeping {
    history: History,
    change: Change,
}

enum Keep {}

impl Call for Keep {
    type Given = Keeping;

    type Value = ();

    type Fault = SpliceFault;

    fn given(alloc: Global, row: Row<'_>) -> Option<Keeping> {
        let (_, change) = row.changed(alloc)?;
        let Session { history, .. } = row.session(alloc)?;
        let History { past: future, .. } = history;
        let past = Many::new(alloc);
        Some(Keeping {
            history: History { past, future },
            change,
        })
    }

    fn make(alloc: Global, given: &mut Keeping) -> Result<(), SpliceFault> {
        let none = Change::untitled(alloc, Many::new(alloc));
        match given.history.keep(mem::replace(&mut given.change, none)) {
            Ok(()) => Ok(()),
            Err(Unkept { change, fault }) => {
                given.change = change;
                Err(fault)
            }
        }
    }
}

#[test]
fn applies(rt: HostRuntime) -> Result<(), Wrong> {
    each_growth_refused::<Apply>(rt.alloc())
}

#[test]
fn reverts(rt: HostRuntime) -> Result<(), Wrong> {
    each_growth_refused::<Revert>(rt.alloc())
}

#[test]
fn keeps(rt: HostRuntime) -> Result<(), Wrong> {
    each_growth_refused::<Keep>(rt.alloc())
}
