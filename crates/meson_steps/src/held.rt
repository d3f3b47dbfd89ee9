//! A list of a tree that steps change, one after another.

ghost use Rattle.std.specs.Prelude.{◌<◌, ◌≡◌, IfErr, IfOk, OnOk, Some, length, true};
ghost use Rattle.meson_splice.specs.Saved.{bytes_put_back};
ghost use Rattle.meson_syntax.specs.declared.tree.Parsed.{Parsed};
ghost use Rattle.meson_calls.specs.Loading.{Loaded};
ghost use Rattle.meson_steps.specs.inside.Held.{DoesStep, IsHeld, IsHeldThen, IsReadAgain, IsSettled, MayHold, settled};
ghost use Rattle.meson_steps.specs.inside.Journal.{settled_tree};
ghost use Rattle.meson_steps.specs.inside.Laying.{AreLaid};
ghost use Rattle.meson_steps.specs.inside.ListSteps.{edits_list};
ghost use Rattle.meson_steps.specs.Working.{MayChangeList, MayReadList, Restores, standing};
ghost use Rattle.meson_steps.specs.inside.Working.{IsNext, tree_of};

use crate::journal::{SavedList, exchange_list};
use crate::layouts::{laid, list_primitive};
use crate::reading::{list_in, part};
use crate::spans::{ListSpot, list_spot};
use crate::step::{ListEdit, ListStep};
use crate::work::{Work, applied, push_all};
use meson_calls::{CallRef, Refusal};
use meson_lex::Span;
use meson_splice::Splice;
use meson_syntax::Bracket;
use std::alloc::{AllocError, Global};

/// A list that steps changed, in its place in the file. It is held back: its tree still has the old list. The tree gets the new one, and its borders move, when
/// a step is on another list or no step is left.
#[derive(Drop)]
pub struct HeldList {
    pub bracket: Bracket,
    pub list: SavedList,
}

impl HeldList {
    /// Whether a step is an edit of this list.
    pub(crate) fn is_changed_by(&self, step: &ListStep) -> bool
        ensures { result ≡ true → (edits_list step.now.edit ≡ true) × (step.now.list ≡ self.now.list.place) }
    {
        let place = &self.list.place;
        step.edit.is_of_list()
            && step.list.file == place.file
            && step.list.path.steps.get() == place.path.steps.get()
    }
}

impl Work {
    /// Puts a list that was held back into its tree, and moves the borders after it.
    ///
    /// # Errors
    /// Out of memory.
    pub(crate) fn settle(&mut self, held: HeldList) -> Result<(), AllocError>
        requires { IsHeld self.old held }
        ensures done { OnOk result (IsSettled self.old held self.new) }
        ensures restores { (first : Loaded) → Restores self.old first → Restores self.new first }
    {
        let HeldList { bracket: _, list } = held;
        exchange_list(&mut self.trees, &mut self.saved, list)
    }

    /// Does one more step on the list that is held back.
    ///
    /// # Errors
    /// Out of memory.
    pub(crate) fn further_step(
        &mut self,
        alloc: Global,
        held: HeldList,
        edit: ListEdit,
    ) -> Result<Option<HeldList>, Refusal>
        requires next { (old : Loaded) × IsNext old (settled (Some held) self.old) (record { list = held.list.place; edit = edit }) }
        requires held { IsHeld self.old held }
        requires of_list { edits_list edit ≡ true }
        ensures done { DoesStep (record { list = held.list.place; edit = edit }) (settled (Some held) self.old) result self.new }
        ensures holds { IfOk result (MayHold self.new) }
        ensures restores { (first : Loaded) → Restores self.old first → Restores self.new first }
        ensures refused { IfErr result (λ e. e ≡ Refusal.OutOfMemory) }
    {
        let splices = self.laid_again(alloc, &held, edit)?;
        if splices.as_slice().is_empty() {
            return Ok(Some(held));
        }
        Ok(Some(self.change_again(alloc, held, splices)?))
    }

    /// The splices of an edit of the list that is held back, but for those that change nothing.
    ///
    /// # Errors
    /// Out of memory.
    fn laid_again(
        &self,
        alloc: Global,
        held: &HeldList,
        edit: ListEdit,
    ) -> Result<Vec<Splice>, Refusal>
        requires next { (old : Loaded) × IsNext old (settled (Some held.now) self.now) (record { list = held.now.list.place; edit = edit }) }
        requires held { IsHeld self.now held.now }
        requires of_list { edits_list edit ≡ true }
        ensures done { (d : Parsed) → let place = held.now.list.place in let tree = tree_of (settled (Some held.now) self.now).trees place d in
            IfOk result (λ v. AreLaid self.now.files tree (record { list = place; edit = edit }) v.items) }
        ensures refused { IfErr result (λ e. e ≡ Refusal.OutOfMemory) }
    {
        let list = &held.list.list;
        let Some(primitive) = list_primitive(list, edit) else {
            unreachable!();
        };
        let file = held.list.place.file;
        laid(
            alloc,
            self.files.name(file),
            self.files.bytes(file),
            Some(list.span),
            &primitive,
        )
    }

    /// Makes the splices of a step on a list in the list's file, and parses its new text. Gives the list, in its place, and its number of bytes.
    ///
    /// # Errors
    /// Out of memory.
    fn read_list(
        &mut self,
        alloc: Global,
        file: usize,
        spot: ListSpot,
        splices: Vec<Splice>,
    ) -> Result<(meson_syntax::List, usize), Refusal>
        requires files { file < length self.old.files }
        requires read { MayReadList self.old.files file splices.items spot }
        ensures done { (m : MayReadList self.old.files file splices.items spot)
            → IfOk result (λ r. IsReadAgain self.old self.new file splices.items spot m r.0 r.1) }
        ensures kept { (self.new.trees.items ≡ self.old.trees.items) × (self.new.saved.items ≡ self.old.saved.items) }
        ensures restored { bytes_put_back self.new.saved_bytes.items self.new.files ≡ bytes_put_back self.old.saved_bytes.items self.old.files }
        ensures refused { IfErr result (λ e. e ≡ Refusal.OutOfMemory) }
    {
        let ListSpot { bracket, span } = spot;
        let around = self.files.bytes(file).len() - (span.to - span.from);
        let splices = applied(alloc, &mut self.files, &mut self.saved_bytes, splices)?;
        push_all(&mut self.splices, splices)?;
        let bytes = self.files.bytes(file);
        let now = bytes.len() - around;
        self.relexed = self.relexed.saturating_add(now as u64);
        let mut list = list_in(alloc, part(bytes, span.from, now), bracket)?;
        list.move_by(span.from);
        Ok((list, now))
    }

    /// Makes the splices of a step on a list of a tree. The list is held back then.
    ///
    /// # Errors
    /// Out of memory.
    pub(crate) fn change_list(
        &mut self,
        alloc: Global,
        place: CallRef,
        splices: Vec<Splice>,
    ) -> Result<HeldList, Refusal>
        requires trees { place.file < length self.old.trees.items }
        requires files { place.file < length self.old.files }
        requires read { (d : Parsed) → MayChangeList self.old.files place splices.items (tree_of self.old.trees.items place d) }
        ensures done { (d : Parsed) → IfOk result (IsHeldThen (standing self.old) self.new place splices.items (tree_of self.old.trees.items place d)) }
        ensures holds { IfOk result (IsHeld self.new) }
        ensures kept { (self.new.trees.items ≡ self.old.trees.items) × (self.new.saved.items ≡ self.old.saved.items) }
        ensures restored { bytes_put_back self.new.saved_bytes.items self.new.files ≡ bytes_put_back self.old.saved_bytes.items self.old.files }
        ensures refused { IfErr result (λ e. e ≡ Refusal.OutOfMemory) }
    {
        let Some(spot) = list_spot(&self.trees[place.file], &place.path) else {
            unreachable!();
        };
        let (list, now) = self.read_list(alloc, place.file, spot, splices)?;
        let Span { from, to } = spot.span;
        let list = SavedList {
            place,
            list,
            from,
            was: to - from,
            now,
        };
        Ok(HeldList {
            bracket: spot.bracket,
            list,
        })
    }

    /// Makes the splices of a step on the list that is held back.
    ///
    /// # Errors
    /// Out of memory.
    fn change_again(
        &mut self,
        alloc: Global,
        held: HeldList,
        splices: Vec<Splice>,
    ) -> Result<HeldList, Refusal>
        requires held { IsHeld self.old held }
        requires files { held.list.place.file < length self.old.files }
        requires read { (d : Parsed) → let tree = settled_tree held.list (tree_of self.old.trees.items held.list.place d) in
            MayChangeList self.old.files held.list.place splices.items tree }
        ensures done { (d : Parsed) → let tree = settled_tree held.list (tree_of self.old.trees.items held.list.place d) in
            IfOk result (IsHeldThen (settled (Some held) self.old) self.new held.list.place splices.items tree) }
        ensures holds { IfOk result (IsHeld self.new) }
        ensures kept { (self.new.trees.items ≡ self.old.trees.items) × (self.new.saved.items ≡ self.old.saved.items) }
        ensures restored { bytes_put_back self.new.saved_bytes.items self.new.files ≡ bytes_put_back self.old.saved_bytes.items self.old.files }
        ensures refused { IfErr result (λ e. e ≡ Refusal.OutOfMemory) }
    {
        let HeldList {
            bracket,
            list: held,
        } = held;
        let SavedList {
            place,
            list,
            from,
            was,
            now: _,
        } = held;
        let spot = ListSpot {
            bracket,
            span: list.span,
        };
        let (list, now) = self.read_list(alloc, place.file, spot, splices)?;
        let list = SavedList {
            place,
            list,
            from,
            was,
            now,
        };
        Ok(HeldList { bracket, list })
    }
}
