//! Laws of listings, runs, undos and redos. The functions do nothing: what they ensure is the law.

ghost use Rattle.meson_script.specs.Laws.{BeginsAStack, LoadsOrWantsMemory, NothingIsRedone, NothingIsUndone, RedoIsAStep, RunIsAStep, RunsPatch, RunsText, RunsThenUndosRestore, UndoIsAStep, UndosAreSteps};
ghost use Rattle.meson_script.specs.ListingRows.{DependencyRow, ProjectRow, RefusedRows, TargetRow};
ghost use Rattle.meson_script.specs.Outcomes.{NotRefused, NotStopped, OneOutcome, OneProject, OneRefusal, OneResult, OneStop};
ghost use Rattle.meson_script.specs.Untouched.{ScriptsKeep};

/// What is listed for some build files.
pub fn rows()
    ensures target { TargetRow }
    ensures project { ProjectRow }
    ensures dependency { DependencyRow }
    ensures refused { RefusedRows }
{}

/// From every state, runs and then as many undos give the files before them.
pub fn runs_then_undos_restore()
    ensures { RunsThenUndosRestore }
{}

/// A project without history means a stack without past and future.
pub fn begins_a_stack()
    ensures { BeginsAStack }
{}

/// A change that was done and kept is a run of the stack, if the files then load.
pub fn run_is_a_step()
    ensures { RunIsAStep }
{}

/// Undoing a history that fits is an undo of the stack, and nothing is refused if the stack has a past.
pub fn undo_is_a_step()
    ensures step { UndoIsAStep }
    ensures none { NothingIsUndone }
{}

/// A number of undos of a history that fits is the same number of undos of the stack.
pub fn undos_are_steps()
    ensures { UndosAreSteps }
{}

/// Redoing a history that fits is a redo of the stack, and nothing is refused if the stack has a future.
pub fn redo_is_a_step()
    ensures step { RedoIsAStep }
    ensures none { NothingIsRedone }
{}

/// The files after commands are those before them with the splices done.
pub fn runs_patch()
    ensures { RunsPatch }
{}

/// In all scripts that are run, one after another, each command keeps every byte outside the lists and statements that its edits touch.
pub fn scripts_keep()
    ensures { ScriptsKeep }
{}

/// What the splices of commands remove and insert is text.
pub fn runs_text()
    ensures { RunsText }
{}

/// Files that load get no fault but out of memory.
pub fn loads_or_wants_memory()
    ensures { LoadsOrWantsMemory }
{}

/// A command has one outcome: it is performed in one way, or refused for one reason.
pub fn one_outcome()
    ensures performed { OneOutcome }
    ensures apart { NotRefused }
    ensures refused { OneRefusal }
{}

/// A whole script has one outcome: it is done with one result, or refused at one command for one reason.
pub fn one_script()
    ensures performed { OneResult }
    ensures places { OneProject }
    ensures apart { NotStopped }
    ensures refused { OneStop }
{}
