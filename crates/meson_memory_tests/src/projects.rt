//! Projects: loaded, copied, queried and changed.

use crate::rows::Row;
use crate::trial::{Call, Fault, Wrong, each_growth_refused, grows_less};
use meson_inventory::{project_lines, project_object};
use meson_plan::{
    BorrowedName, CallRef, Done, LoadFault, Project, Reading, Refusal, Role, Sources, Unloaded,
};
use meson_script::{Script, info_kwargs, info_target};
use meson_splice::FileSet;
use serde_json::Value;
use std::alloc::{AllocError, Global};
use std::mem;

impl Fault for Refusal {
    fn is_want(&self) -> bool {
        matches!(self, Refusal::OutOfMemory)
    }
}

impl Fault for LoadFault {
    fn is_want(&self) -> bool {
        matches!(self, LoadFault::OutOfMemory)
    }
}

enum Load {}

impl Call for Load {
    type Given = FileSet;

    type Value = Project;

    type Fault = LoadFault;

    fn given(alloc: Global, row: Row<'_>) -> Option<FileSet> {
        row.files(alloc)
    }

    fn make(alloc: Global, given: &mut FileSet) -> Result<Project, LoadFault> {
        let files = mem::replace(given, FileSet::new(alloc));
        match Project::load(alloc, files) {
            Ok(project) => Ok(project),
            Err(Unloaded { files, fault }) => {
                *given = files;
                Err(fault)
            }
        }
    }
}

enum CopyProject {}

impl Call for CopyProject {
    type Given = Project;

    type Value = Project;

    type Fault = Refusal;

    fn given(alloc: Global, row: Row<'_>) -> Option<Project> {
        row.project(alloc)
    }

    fn make(alloc: Global, given: &mut Project) -> Result<Project, Refusal> {
        given.copy(alloc)
    }
}

/// A project, and its first target if it has one.
#[derive(Debug, Drop)]
struct Asking {
    project: Project,
    target: Option<CallRef>,
}

enum AskSources {}

impl Call for AskSources {
    type Given = Asking;

    type Value = Sources;

    type Fault = Refusal;

    fn given(alloc: Global, row: Row<'_>) -> Option<Asking> {
        let project = row.project(alloc)?;
        let target = project.targets(alloc).ok()?.pop();
        Some(Asking { project, target })
    }

    fn make(alloc: Global, given: &mut Asking) -> Result<Sources, Refusal> {
        match &given.target {
            Some(target) if given.project.is_target(target) => given.project.sources(alloc, target),
            _ => Err(Refusal::NotFound),
        }
    }
}

/// A project, and a script for it.
#[derive(Debug, Drop)]
struct Performing {
    project: Project,
    script: Script,
}

enum Perform {}

impl Call for Perform {
    type Given = Performing;

    type Value = Done;

    type Fault = Refusal;

    fn given(alloc: Global, row: Row<'_>) -> Option<Performing> {
        Some(Performing {
            project: row.project(alloc)?,
            script: row.script(alloc)?,
        })
    }

    fn make(alloc: Global, given: &mut Performing) -> Result<Done, Refusal> {
        match given.script.commands.get().first() {
            Some(command) => given.project.perform(alloc, command),
            None => Err(Refusal::NotFound),
        }
    }
}

/// A project, and the id of a target.
#[derive(Debug, Drop)]
struct Naming {
    project: Project,
    id: String,
}

enum ListTarget {}

impl Call for ListTarget {
    type Given = Naming;

    type Value = Value;

    type Fault = Refusal;

    fn given(alloc: Global, row: Row<'_>) -> Option<Naming> {
        Some(Naming {
            project: row.project(alloc)?,
            id: String::from_str(alloc, row.target).ok()?,
        })
    }

    fn make(alloc: Global, given: &mut Naming) -> Result<Value, Refusal> {
        let name = BorrowedName {
            id: given.id.as_str(),
            folder: None,
        };
        info_target(alloc, &given.project, name, Reading::Written)
    }
}

enum FollowTarget {}

impl Call for FollowTarget {
    type Given = Naming;

    type Value = Value;

    type Fault = Refusal;

    fn given(alloc: Global, row: Row<'_>) -> Option<Naming> {
        ListTarget::given(alloc, row)
    }

    fn make(alloc: Global, given: &mut Naming) -> Result<Value, Refusal> {
        let name = BorrowedName {
            id: given.id.as_str(),
            folder: None,
        };
        info_target(alloc, &given.project, name, Reading::Followed)
    }
}

enum ListKeywords {}

impl Call for ListKeywords {
    type Given = Project;

    type Value = Value;

    type Fault = Refusal;

    fn given(alloc: Global, row: Row<'_>) -> Option<Project> {
        row.project(alloc)
    }

    fn make(alloc: Global, given: &mut Project) -> Result<Value, Refusal> {
        let name = BorrowedName {
            id: "/",
            folder: None,
        };
        info_kwargs(alloc, given, Role::Project, name)
    }
}

impl Fault for AllocError {
    fn is_want(&self) -> bool {
        true
    }
}

enum ListProject {}

impl Call for ListProject {
    type Given = Project;

    type Value = Value;

    type Fault = AllocError;

    fn given(alloc: Global, row: Row<'_>) -> Option<Project> {
        row.project(alloc)
    }

    fn make(alloc: Global, given: &mut Project) -> Result<Value, AllocError> {
        project_object(alloc, Reading::Written, given)
    }
}

enum ListLines {}

impl Call for ListLines {
    type Given = Project;

    type Value = String;

    type Fault = AllocError;

    fn given(alloc: Global, row: Row<'_>) -> Option<Project> {
        row.project(alloc)
    }

    fn make(alloc: Global, given: &mut Project) -> Result<String, AllocError> {
        project_lines(alloc, Reading::Written, given)
    }
}

/// The number of assignments. A command on a project that has them makes fewer allocations than that.
const ASSIGNMENTS: u32 = 1_000;

/// A root file with a target, and the assignments after it.
fn with_assignments(alloc: Global) -> Result<String, AllocError> {
    let target = "src = ['a.cpp', 'b.cpp']\nexecutable('e', src)\n";
    let mut root = String::from_str(alloc, target)?;
    for _ in 0..ASSIGNMENTS {
        root.push_str("y = [1]\n")?;
    }
    Ok(root)
}

/// A command that made an allocation for each assignment.
#[derive(Debug, Drop)]
struct TooManyGrowths;

impl From<AllocError> for TooManyGrowths {
    fn from(_: AllocError) -> Self {
        TooManyGrowths
    }
}

#[test]
fn loads(rt: HostRuntime) -> Result<(), Wrong> {
    each_growth_refused::<Load>(rt.alloc())
}

#[test]
fn copies(rt: HostRuntime) -> Result<(), Wrong> {
    each_growth_refused::<CopyProject>(rt.alloc())
}

#[test]
fn tells_sources(rt: HostRuntime) -> Result<(), Wrong> {
    each_growth_refused::<AskSources>(rt.alloc())
}

#[test]
fn performs(rt: HostRuntime) -> Result<(), Wrong> {
    each_growth_refused::<Perform>(rt.alloc())
}

#[test]
fn lists_a_target(rt: HostRuntime) -> Result<(), Wrong> {
    each_growth_refused::<ListTarget>(rt.alloc())
}

#[test]
fn lists_a_followed_target(rt: HostRuntime) -> Result<(), Wrong> {
    each_growth_refused::<FollowTarget>(rt.alloc())
}

#[test]
fn lists_keywords(rt: HostRuntime) -> Result<(), Wrong> {
    each_growth_refused::<ListKeywords>(rt.alloc())
}

#[test]
fn lists_a_project(rt: HostRuntime) -> Result<(), Wrong> {
    each_growth_refused::<ListProject>(rt.alloc())
}

#[test]
fn lists_lines(rt: HostRuntime) -> Result<(), Wrong> {
    each_growth_refused::<ListLines>(rt.alloc())
}

#[test]
fn performs_without_a_growth_for_each_assignment(rt: HostRuntime) -> Result<(), TooManyGrowths> {
    let alloc = rt.alloc();
    let root = with_assignments(alloc)?;
    let row = Row {
        root: root.as_str(),
        below: "",
        target: "e",
        script: "[{\"type\":\"target\",\"target\":\"e\",\"operation\":\"src_add\",\"sources\":[\"c.cpp\"]}]",
    };
    let is_few = grows_less::<Perform>(alloc, row, ASSIGNMENTS);
    // With no allocation it must fail, if allocations can fail: so the heap took the order.
    let _ = grows_less::<Perform>(alloc, row, 1);
    if is_few { Ok(()) } else { Err(TooManyGrowths) }
}
