//! Scripts, sessions and logs.

use crate::rows::{Row, TITLE};
use crate::trial::{Call, Fault, Wrong, each_growth_refused};
use meson_plan::{LoadFault, Refusal};
use meson_script::{
    ListingForm, Report, RunFault, Script, ScriptFault, Session, UndoFault, UnknownMembers,
    Unstarted, log_text, read_log,
};
use meson_splice::{FileSet, History, SpliceFault};
use std::alloc::Global;
use std::mem;

impl Fault for ScriptFault {
    fn is_want(&self) -> bool {
        matches!(self, ScriptFault::OutOfMemory)
    }
}

impl Fault for RunFault {
    fn is_want(&self) -> bool {
        self.refusal.is_want()
    }
}

impl Fault for UndoFault {
    fn is_want(&self) -> bool {
        match self {
            UndoFault::Splice(fault) => fault.is_want(),
            UndoFault::Load(fault) => fault.is_want(),
        }
    }
}

enum ReadScript {}

impl Call for ReadScript {
    type Given = String;

    type Value = Script;

    type Fault = ScriptFault;

    fn given(alloc: Global, row: Row<'_>) -> Option<String> {
        String::from_str(alloc, row.script).ok()
    }

    fn make(alloc: Global, given: &mut String) -> Result<Script, ScriptFault> {
        Script::from_json_with(alloc, given.as_str(), UnknownMembers::Refused)
    }
}

/// Files, and what was done to them.
#[derive(Debug, Drop)]
struct Starting {
    files: FileSet,
    history: History,
}

enum Start {}

impl Call for Start {
    type Given = Starting;

    type Value = Session;

    type Fault = LoadFault;

    fn given(alloc: Global, row: Row<'_>) -> Option<Starting> {
        let session = row.session(alloc)?;
        let files = session.files().copy(alloc).ok()?;
        let Session { history, .. } = session;
        Some(Starting { files, history })
    }

    fn make(alloc: Global, given: &mut Starting) -> Result<Session, LoadFault> {
        let files = mem::replace(&mut given.files, FileSet::new(alloc));
        let history = mem::replace(&mut given.history, History::new(alloc));
        match Session::start(alloc, files, history) {
            Ok(session) => Ok(session),
            Err(
                Unstarted {
                    files,
                    history,
                    fault,
                },
            ) => {
                *given = Starting { files, history };
                Err(fault)
            }
        }
    }
}

/// A session, and a script for it.
#[derive(Debug, Drop)]
struct Running {
    session: Session,
    script: Script,
}

enum Run {}

impl Call for Run {
    type Given = Running;

    type Value = Report;

    type Fault = RunFault;

    fn given(alloc: Global, row: Row<'_>) -> Option<Running> {
        Some(Running {
            session: Session::of(row.project(alloc)?, History::new(alloc)),
            script: row.script(alloc)?,
        })
    }

    fn make(alloc: Global, given: &mut Running) -> Result<Report, RunFault> {
        given.session.run(alloc, &given.script)
    }
}

enum RunTitled {}

impl Call for RunTitled {
    type Given = Running;

    type Value = Report;

    type Fault = RunFault;

    fn given(alloc: Global, row: Row<'_>) -> Option<Running> {
        Run::given(alloc, row)
    }

    fn make(alloc: Global, given: &mut Running) -> Result<Report, RunFault> {
        given.session.run_titled(alloc, &given.script, TITLE)
    }
}

enum RunWithPositions {}

impl Call for RunWithPositions {
    type Given = Running;

    type Value = Report;

    type Fault = RunFault;

    fn given(alloc: Global, row: Row<'_>) -> Option<Running> {
        Run::given(alloc, row)
    }

    fn make(alloc: Global, given: &mut Running) -> Result<Report, RunFault> {
        given
            .session
            .run_listed(alloc, &given.script, TITLE, ListingForm::Placed)
    }
}

enum Undo {}

impl Call for Undo {
    type Given = Session;

    type Value = Report;

    type Fault = UndoFault;

    fn given(alloc: Global, row: Row<'_>) -> Option<Session> {
        row.session(alloc)
    }

    fn make(alloc: Global, given: &mut Session) -> Result<Report, UndoFault> {
        given.undo(alloc)
    }
}

enum Redo {}

impl Call for Redo {
    type Given = Session;

    type Value = Report;

    type Fault = UndoFault;

    fn given(alloc: Global, row: Row<'_>) -> Option<Session> {
        let mut session = row.session(alloc)?;
        let _ = session.undo(alloc);
        Some(session)
    }

    fn make(alloc: Global, given: &mut Session) -> Result<Report, UndoFault> {
        given.redo(alloc)
    }
}

enum WriteLog {}

impl Call for WriteLog {
    type Given = Session;

    type Value = Vec<u8>;

    type Fault = ScriptFault;

    fn given(alloc: Global, row: Row<'_>) -> Option<Session> {
        row.session(alloc)
    }

    fn make(alloc: Global, given: &mut Session) -> Result<Vec<u8>, ScriptFault> {
        log_text(alloc, given)
    }
}

enum ReadLog {}

impl Call for ReadLog {
    type Given = Vec<u8>;

    type Value = History;

    type Fault = ScriptFault;

    fn given(alloc: Global, row: Row<'_>) -> Option<Vec<u8>> {
        log_text(alloc, &row.session(alloc)?).ok()
    }

    fn make(alloc: Global, given: &mut Vec<u8>) -> Result<History, ScriptFault> {
        read_log(alloc, given.as_slice())
    }
}

#[test]
fn reads_a_script(rt: HostRuntime) -> Result<(), Wrong> {
    each_growth_refused::<ReadScript>(rt.alloc())
}

#[test]
fn starts(rt: HostRuntime) -> Result<(), Wrong> {
    each_growth_refused::<Start>(rt.alloc())
}

#[test]
fn runs(rt: HostRuntime) -> Result<(), Wrong> {
    each_growth_refused::<Run>(rt.alloc())
}

#[test]
fn runs_with_a_title(rt: HostRuntime) -> Result<(), Wrong> {
    each_growth_refused::<RunTitled>(rt.alloc())
}

#[test]
fn runs_with_positions(rt: HostRuntime) -> Result<(), Wrong> {
    each_growth_refused::<RunWithPositions>(rt.alloc())
}

#[test]
fn undoes(rt: HostRuntime) -> Result<(), Wrong> {
    each_growth_refused::<Undo>(rt.alloc())
}

#[test]
fn redoes(rt: HostRuntime) -> Result<(), Wrong> {
    each_growth_refused::<Redo>(rt.alloc())
}

#[test]
fn writes_a_log(rt: HostRuntime) -> Result<(), Wrong> {
    each_growth_refused::<WriteLog>(rt.alloc())
}

#[test]
fn reads_a_log(rt: HostRuntime) -> Result<(), Wrong> {
    each_growth_refused::<ReadLog>(rt.alloc())
}
