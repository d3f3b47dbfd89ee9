//! Steps done on the files and trees of a project, one after another.

ghost use Rattle.std.specs.Prelude.{[], ◌++◌, ◌<◌, ◌≡◌, ◌≤◌, IfErr, IfOk, List, OnOk, Ok, length, true, false, ℕ};
ghost use Rattle.meson_splice.specs.declared.file_set.File.{File};
ghost use Rattle.meson_splice.specs.Files.{bytes_at};
ghost use Rattle.meson_splice.specs.Patch.{patched_all};
ghost use Rattle.meson_splice.specs.Saved.{bytes_put_back};
ghost use Rattle.meson_steps.specs.Done.{IsDone, MayNotBeDone, Meaning};
ghost use Rattle.meson_calls.specs.Loading.{IsProject, Loaded};
ghost use Rattle.meson_calls.specs.Refusals.{IfRefused};
ghost use Rattle.meson_steps.specs.inside.Laying.{AreLaid};
ghost use Rattle.meson_steps.specs.Plans.{ArePlanned};
ghost use Rattle.meson_steps.specs.Steps as meant;
ghost use Rattle.meson_steps.specs.Working.{HasDeep, HasLarge, IsFresh, IsUnderWay, Reached, Restores, so_far, standing};
ghost use Rattle.meson_steps.specs.inside.Working.{AreShallowSoFar, IsChanged, IsNext, MayChange, tree_of};
ghost use Rattle.meson_steps.specs.inside.Held.{DoesStep, MayHold, settled};

use crate::held::HeldList;
use crate::journal::{Saved, exchange, is_saved};
use crate::layouts::{laid, looked_at, primitive_of, unmade};
use crate::reading::unread;
use crate::step::{ListEdit, ListStep};
use meson_calls::{CallRef, Refusal};
use meson_edit::nests_within;
use meson_splice::{Change, FileSet, Many, SavedBytes, Splice, apply_saving};
use meson_syntax::{MAX_DEPTH, MAX_LEN, Parsed, parse_wide};
use std::alloc::{AllocError, Global};

/// Files and trees that steps change, the splices so far, the former contents, and the number of bytes that were read again.
#[derive(Drop)]
pub struct Work {
    pub splices: Vec<Splice>,
    pub files: FileSet,
    pub trees: Vec<Parsed>,
    /// The trees and lists that were replaced.
    pub saved: Vec<Saved>,
    /// The original bytes of the files that were changed.
    pub saved_bytes: Vec<SavedBytes>,
    pub relexed: u64,
}

/// Makes splices in the files, whose original bytes are saved, and returns the splices.
pub(crate) fn applied(
    alloc: Global,
    files: &mut FileSet,
    saved: &mut Vec<SavedBytes>,
    splices: Vec<Splice>,
) -> Result<Vec<Splice>, Refusal>
    requires { (new : List File) × (patched_all files.old splices.items ≡ Ok new) }
    ensures made { OnOk result (patched_all files.old splices.items ≡ Ok files.new) }
    ensures same { IfOk result (λ made. made.items ≡ splices.items) }
    ensures restored { bytes_put_back saved.new.items files.new ≡ bytes_put_back saved.old.items files.old }
    ensures refused { IfErr result (λ e. e ≡ Refusal.OutOfMemory) }
{
    let change = Change::untitled(alloc, Many::of(splices));
    match apply_saving(alloc, files, saved, &change) {
        Ok(()) => {}
        Err(fault) => return Err(unmade(fault)),
    }
    let Change { splices, title: _ } = change;
    Ok(splices.take())
}

impl Work {
    /// Nothing done so far, on the files and trees of a project. Does not allocate.
    pub fn start(alloc: Global, files: FileSet, trees: Vec<Parsed>) -> Work
        requires { IsProject (record { files = files; parsed = trees.items }) }
        ensures is { so_far result ≡ record { files = files; parsed = trees.items } }
        ensures fresh { IsFresh result }
        ensures restores { Restores result (record { files = files; parsed = trees.items }) }
    {
        Work {
            splices: Vec::new(alloc),
            files,
            trees,
            saved: Vec::new(alloc),
            saved_bytes: Vec::new(alloc),
            relexed: 0,
        }
    }

    /// Does one more step, while a list may be held back, and gives the one that is held back then.
    ///
    /// # Errors
    /// Out of memory.
    fn step(
        &mut self,
        alloc: Global,
        held: Option<HeldList>,
        step: ListStep,
    ) -> Result<Option<HeldList>, Refusal>
        requires next { (old : Loaded) × IsNext old (settled held self.old) step }
        requires held { MayHold self.old held }
        ensures done { DoesStep step (settled held self.old) result self.new }
        ensures holds { IfOk result (MayHold self.new) }
        ensures restores { (first : Loaded) → Restores self.old first → Restores self.new first }
        ensures refused { IfErr result (λ e. e ≡ Refusal.OutOfMemory) }
    {
        let Some(held) = held else {
            return self.first_step(alloc, step);
        };
        if held.is_changed_by(&step) {
            return self.further_step(alloc, held, step.edit);
        }
        self.settle(held)?;
        self.first_step(alloc, step)
    }

    /// Does one more step, if no list is held back.
    ///
    /// # Errors
    /// Out of memory.
    fn first_step(&mut self, alloc: Global, step: ListStep) -> Result<Option<HeldList>, Refusal>
        requires { (old : Loaded) × IsNext old (standing self.old) step }
        ensures done { DoesStep step (standing self.old) result self.new }
        ensures holds { IfOk result (MayHold self.new) }
        ensures restores { (first : Loaded) → Restores self.old first → Restores self.new first }
        ensures refused { IfErr result (λ e. e ≡ Refusal.OutOfMemory) }
    {
        let ListStep { list: place, edit } = step;
        let of_list = edit.is_of_list();
        let splices = self.laid_at(alloc, &place, edit)?;
        if splices.as_slice().is_empty() {
            return Ok(None);
        }
        if of_list {
            return Ok(Some(self.change_list(alloc, place, splices)?));
        }
        self.change(alloc, place.file, splices)?;
        Ok(None)
    }

    /// The splices of an edit of the list or the block at a place, but for those that change nothing.
    ///
    /// # Errors
    /// Out of memory.
    fn laid_at(
        &self,
        alloc: Global,
        place: &CallRef,
        edit: ListEdit,
    ) -> Result<Vec<Splice>, Refusal>
        requires { (old : Loaded) × IsNext old (standing self.now) (record { list = place.now; edit = edit }) }
        ensures done { (d : Parsed) → let tree = tree_of self.now.trees.items place.now d in
            IfOk result (λ v. AreLaid self.now.files tree (record { list = place.now; edit = edit }) v.items) }
        ensures refused { IfErr result (λ e. e ≡ Refusal.OutOfMemory) }
    {
        let file = place.file;
        if file >= self.trees.len() {
            unreachable!();
        }
        let tree = &self.trees[file];
        let list = looked_at(tree, &place.path, edit.is_of_list());
        let Some(primitive) = primitive_of(tree, &place.path, edit) else {
            unreachable!();
        };
        laid(
            alloc,
            self.files.name(file),
            self.files.bytes(file),
            list,
            &primitive,
        )
    }

    /// Makes the splices of a step in its file, and parses that again.
    ///
    /// # Errors
    /// Out of memory.
    fn change(&mut self, alloc: Global, file: usize, splices: Vec<Splice>) -> Result<(), Refusal>
        requires trees { file < length self.old.trees.items }
        requires files { file < length self.old.files }
        requires read { MayChange self.old.files file splices.items }
        ensures done { OnOk result (IsChanged (standing self.old) (standing self.new) file splices.items (length (bytes_at file self.new.files))) }
        ensures restores { (first : Loaded) → Restores self.old first → Restores self.new first }
        ensures refused { IfErr result (λ e. e ≡ Refusal.OutOfMemory) }
    {
        let splices = applied(alloc, &mut self.files, &mut self.saved_bytes, splices)?;
        push_all(&mut self.splices, splices)?;
        let bytes = self.files.bytes(file);
        self.relexed = self.relexed.saturating_add(bytes.len() as u64);
        match parse_wide(alloc, bytes) {
            Ok(tree) => exchange(&mut self.trees, &mut self.saved, file, tree)?,
            Err(fault) => return Err(unread(fault)),
        }
        Ok(())
    }

    /// Does steps, one after another.
    ///
    /// # Errors
    /// Out of memory.
    pub fn do_steps(&mut self, alloc: Global, steps: Vec<ListStep>) -> Result<(), Refusal>
        requires { (old : Loaded) × (ss : List meant.Step) × IsUnderWay old ss steps.items self.old }
        ensures done { (old : Loaded) (ss : List meant.Step) → IsUnderWay old ss steps.items self.old → OnOk result (Reached old ss [] self.new) }
        ensures restores { (first : Loaded) → Restores self.old first → Restores self.new first }
        ensures refused { IfErr result (λ e. e ≡ Refusal.OutOfMemory) }
    {
        let mut held = None;
        for step in steps {
            held = self.step(alloc, held, step)?;
        }
        let Some(held) = held else {
            return Ok(());
        };
        Ok(self.settle(held)?)
    }

    /// Refuses a result that passes a limit.
    ///
    /// # Errors
    /// It passes a limit.
    pub fn within_limits(&self) -> Result<(), Refusal>
        ensures done { (old : Loaded) (whole : Meaning) (ss : List meant.Step) → whole ≡ Ok ss → Reached old ss [] self.now
            → OnOk result (IsDone old whole self.now) }
        ensures refused { (old : Loaded) (whole : Meaning) (ss : List meant.Step) → whole ≡ Ok ss → Reached old ss [] self.now
            → IfErr result (MayNotBeDone old whole) }
    {
        if !self.is_shallow() {
            return Err(Refusal::TooDeep);
        }
        if !self.is_small() {
            return Err(Refusal::TooLarge);
        }
        Ok(())
    }

    /// Whether no tree of a changed file nests too deep.
    fn is_shallow(&self) -> bool
        ensures yes { result ≡ true → AreShallowSoFar self.now.saved.items self.now.trees.items }
        ensures no { result ≡ false → HasDeep self.now.trees.items }
    {
        for i in 0..self.trees.len() {
            if is_saved(self.saved.as_slice(), i) {
                if !nests_within(&self.trees[i], MAX_DEPTH) {
                    return false;
                }
            }
        }
        true
    }

    /// Whether no file is too large.
    fn is_small(&self) -> bool
        ensures yes { result ≡ true → (k : ℕ) → k < length self.now.files → length (bytes_at k self.now.files) ≤ MAX_LEN }
        ensures no { result ≡ false → HasLarge self.now.files }
    {
        for i in 0..self.files.len() {
            if self.files.bytes(i).len() > MAX_LEN {
                return false;
            }
        }
        true
    }
}

pub(crate) fn push_all(to: &mut Vec<Splice>, from: Vec<Splice>) -> Result<(), AllocError>
    ensures { OnOk result (to.new.items ≡ to.old.items ++ from.items) }
{
    to.reserve(from.len())?;
    for splice in from {
        to.push(splice)?;
    }
    Ok(())
}

/// Does these steps, and checks the limits of the result.
///
/// # Errors
/// The result passes a limit, or out of memory.
pub fn done(alloc: Global, work: &mut Work, steps: Vec<ListStep>) -> Result<(), Refusal>
    requires fresh { IsFresh work.old }
    requires planned { (whole : Meaning) × ArePlanned (so_far work.old) whole steps.items }
    ensures done { (whole : Meaning) → ArePlanned (so_far work.old) whole steps.items → OnOk result (IsDone (so_far work.old) whole work.new) }
    ensures restores { (first : Loaded) → Restores work.old first → Restores work.new first }
    ensures refused { (whole : Meaning) → ArePlanned (so_far work.old) whole steps.items → IfRefused result (MayNotBeDone (so_far work.old) whole) }
{
    work.do_steps(alloc, steps)?;
    work.within_limits()
}
