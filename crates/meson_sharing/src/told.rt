//! What is reported of the sources of a target, where variables are followed.

ghost use Rattle.std.specs.Prelude.{◌≡◌, ◌++◌, ◌∷◌, [], IfOk, MatchOption, OnOk, ⊤, count_by, false, map};
ghost use Rattle.std.specs.List.{cons_option};
ghost use Rattle.meson_calls.specs.ChosenNotes.{Source, placed_call};
ghost use Rattle.meson_calls.specs.GoodLists.{GoodListing};
ghost use Rattle.meson_calls.specs.Loading.{IsProject, loaded_from};
ghost use Rattle.meson_syntax.specs.View.{list_view};
ghost use Rattle.meson_following.specs.CodeFollowing.{followed_project, item_view, mark_view};
ghost use Rattle.meson_sharing.specs.CodeTargets.{all_targets, target_view};
ghost use Rattle.meson_sharing.specs.CodeOwning.{is_closed_by};
ghost use Rattle.meson_sharing.specs.CodeTold.{IsKept, are_own, items_with, item_with, mark_with, sharers_with, told_item_view, told_view};
ghost use Rattle.meson_sharing.specs.Sharing.{variable_of};
ghost use Rattle.meson_sharing.specs.Told.{is_opaque, told, told_at};

use crate::owning::{are_closed_by, is_closed_by};
use crate::takers::ways_of_sources;
use crate::targets::{Target, sharing_names, targets_of};
use crate::variable::variable_text;
use meson_calls::CallRef;
use meson_calls::place::copy_place;
use meson_following::makers::{is_one_of, is_same_place};
use meson_following::{Follower, Following, Item, Mark};
use meson_splice::{Many, Text};
use meson_syntax::{Expr, List};
use std::alloc::{AllocError, Global};

/// A source that is reported.
#[derive(Debug, Drop)]
pub struct ToldItem {
    pub item: Item,
    /// The variable in whose value it is; `None` where it is in the call itself.
    pub variable: Option<Text>,
    /// The names of the other targets that get it, in file order and source order; `None` where none does, but something that is no target.
    pub shared: Option<Many<Text>>,
}

/// What is reported of the sources of a target.
#[derive(Debug, Drop)]
pub struct Told {
    pub items: Vec<ToldItem>,
    /// How many things are not known.
    pub unknown: usize,
}

/// A maker, the variable to which its value is assigned, and which other targets get what is in it.
#[derive(Drop)]
pub(crate) struct Answer {
    pub maker: CallRef,
    pub variable: Option<Text>,
    pub shared: Option<Many<Text>>,
}

/// What is kept from one item to the next: all targets and whether all values are read for this target alone, which are found when they are first needed, and
/// the last answer.
#[derive(Drop)]
pub(crate) struct Kept {
    pub targets: Option<Vec<Target>>,
    pub last: Option<Answer>,
    pub all_own: Option<bool>,
}

/// What decides which other targets get what is in the sources of a target: its call, the values that it follows, and its ways.
#[derive(Clone, Copy)]
pub(crate) struct Sharing<'t> {
    pub follower: Follower<'t>,
    pub call: &'t CallRef,
    pub followed: &'t [CallRef],
    pub ways: &'t [CallRef],
}

/// Equal names.
fn copy_texts(alloc: Global, names: &[Text]) -> Result<Vec<Text>, AllocError>
    ensures { IfOk result (λ all. all.items ≡ names.now) }
{
    let mut all = Vec::with_capacity(alloc, names.len())?;
    for name in names {
        all.push(name.clone()?)?;
    }
    Ok(all)
}

/// An equal name, if there is one.
fn copy_name(name: &Option<Text>) -> Result<Option<Text>, AllocError>
    ensures { IfOk result (λ copy. copy ≡ name.now) }
{
    match name {
        Some(name) => Ok(Some(name.clone()?)),
        None => Ok(None),
    }
}

/// Equal names, if there are some.
fn copy_names(alloc: Global, names: &Option<Many<Text>>) -> Result<Option<Many<Text>>, AllocError>
    ensures { IfOk result (λ all. all ≡ names.now) }
{
    match names {
        Some(names) => {
            let all = copy_texts(alloc, names.get())?;
            Ok(Some(Many::of(all)))
        }
        None => Ok(None),
    }
}

/// How many things are not known.
fn count_unknown(marks: &[Mark]) -> usize
    ensures { result ≡ count_by is_opaque (map mark_view marks.now) }
{
    marks
        .iter()
        .filter(|mark| matches!(mark, Mark::Opaque))
        .count()
}

/// All targets of the project: those that are kept, if they are.
fn kept_targets(
    follower: &Follower<'_>,
    kept: Option<Vec<Target>>,
) -> Result<Vec<Target>, AllocError>
    requires project { IsProject (loaded_from follower.now.files.now follower.now.trees.now) }
    requires kept { MatchOption kept ⊤ (λ ts. map target_view ts.items ≡ all_targets (followed_project follower.now)) }
    ensures { IfOk result (λ ts. map target_view ts.items ≡ all_targets (followed_project follower.now)) }
{
    match kept {
        Some(targets) => Ok(targets),
        None => targets_of(follower),
    }
}

impl Sharing<'_> {
    /// Whether what is in all values that the target follows is read for it alone. It is found once.
    fn are_own(&self, kept: &mut Kept) -> Result<bool, AllocError>
        requires project { IsProject (loaded_from self.now.follower.files.now self.now.follower.trees.now) }
        requires kept { IsKept self.now kept.now }
        ensures are { IfOk result (λ are. are ≡ are_own self.now) }
        ensures kept { OnOk result (IsKept self.now kept.new) }
    {
        if let Some(are) = kept.all_own {
            return Ok(are);
        }
        let are = are_closed_by(&self.follower, self.followed, self.ways)?;
        kept.all_own = Some(are);
        Ok(are)
    }

    /// Whether what is in the value of a maker is read for the target alone. That value by itself is looked at only if something else reads one of all values.
    fn is_own(&self, maker: &CallRef, kept: &mut Kept) -> Result<bool, AllocError>
        requires project { IsProject (loaded_from self.now.follower.files.now self.now.follower.trees.now) }
        requires kept { IsKept self.now kept.now }
        ensures is { IfOk result (λ is. is ≡ is_closed_by (followed_project self.now.follower) false self.now.followed.now self.now.ways.now maker.now) }
        ensures kept { OnOk result (IsKept self.now kept.new) }
    {
        if is_one_of(self.followed, maker) {
            if self.are_own(kept)? {
                return Ok(true);
            }
        }
        is_closed_by(&self.follower, false, self.followed, self.ways, maker)
    }

    /// The names of the other targets that get what is in the value of a maker; `None` where none does, but something that is no target.
    /// No other target is looked for where the value is read for this one alone.
    fn sharers(&self, maker: &CallRef, kept: &mut Kept) -> Result<Option<Many<Text>>, AllocError>
        requires project { IsProject (loaded_from self.now.follower.files.now self.now.follower.trees.now) }
        requires kept { IsKept self.now kept.now }
        ensures names { IfOk result (λ names. names ≡ sharers_with self.now maker.now) }
        ensures kept { OnOk result (IsKept self.now kept.new) }
    {
        let alloc = self.follower.alloc;
        if self.is_own(maker, kept)? {
            return Ok(Some(Many::new(alloc)));
        }
        let targets = kept_targets(&self.follower, kept.targets.take())?;
        let names = sharing_names(alloc, targets.as_slice(), self.call, maker)?;
        kept.targets = Some(targets);
        if names.is_empty() {
            return Ok(None);
        }
        Ok(Some(Many::of(names)))
    }

    /// The answer for a maker: the last one, if that is for the same.
    fn answer(&self, maker: &CallRef, kept: &mut Kept) -> Result<Answer, AllocError>
        requires project { IsProject (loaded_from self.now.follower.files.now self.now.follower.trees.now) }
        requires kept { IsKept self.now kept.now }
        ensures answer { IfOk result (λ a. (a.maker ≡ maker.now) × (a.variable ≡ variable_of (followed_project self.now.follower) maker.now)
            × (a.shared ≡ sharers_with self.now maker.now)) }
        ensures kept { OnOk result (IsKept self.now kept.new) }
    {
        if let Some(answer) = kept.last.take() {
            if is_same_place(&answer.maker, maker) {
                return Ok(answer);
            }
        }
        let variable = variable_text(&self.follower, maker)?;
        let shared = self.sharers(maker, kept)?;
        let maker = copy_place(self.follower.alloc, maker)?;
        Ok(Answer {
            maker,
            variable,
            shared,
        })
    }

    /// Takes an item with the names of the other targets that get it.
    fn take_item(
        &self,
        item: Item,
        kept: &mut Kept,
        items: &mut Vec<ToldItem>,
    ) -> Result<(), AllocError>
        requires project { IsProject (loaded_from self.now.follower.files.now self.now.follower.trees.now) }
        requires kept { IsKept self.now kept.now }
        ensures all { OnOk result (map told_item_view items.new.items ≡ map told_item_view items.old.items ++ item_with self.now (item_view item) ∷ []) }
        ensures kept { OnOk result (IsKept self.now kept.new) }
    {
        let alloc = self.follower.alloc;
        let Some(maker) = item.way.through.as_slice().last() else {
            items.push(ToldItem {
                item,
                variable: None,
                shared: Some(Many::new(alloc)),
            })?;
            return Ok(());
        };
        let answer = self.answer(maker, kept)?;
        let variable = copy_name(&answer.variable)?;
        let shared = copy_names(alloc, &answer.shared)?;
        items.push(ToldItem {
            item,
            variable,
            shared,
        })?;
        kept.last = Some(answer);
        Ok(())
    }

    /// Takes what is met, if it is an item.
    fn take_mark(
        &self,
        mark: Mark,
        kept: &mut Kept,
        items: &mut Vec<ToldItem>,
    ) -> Result<(), AllocError>
        requires project { IsProject (loaded_from self.now.follower.files.now self.now.follower.trees.now) }
        requires kept { IsKept self.now kept.now }
        ensures all { OnOk result (map told_item_view items.new.items
            ≡ map told_item_view items.old.items ++ cons_option (mark_with self.now (mark_view mark)) []) }
        ensures kept { OnOk result (IsKept self.now kept.new) }
    {
        match mark {
            Mark::Known(item) => self.take_item(item, kept, items),
            _ => Ok(()),
        }
    }

    /// The items that are met, each with the names of the other targets that get it.
    fn items(&self, marks: Vec<Mark>) -> Result<Vec<ToldItem>, AllocError>
        requires { IsProject (loaded_from self.now.follower.files.now self.now.follower.trees.now) }
        ensures { IfOk result (λ items. map told_item_view items.items ≡ items_with self.now (map mark_view marks.items)) }
    {
        let mut items = Vec::new(self.follower.alloc);
        let mut kept = Kept {
            targets: None,
            last: None,
            all_own: None,
        };
        for mark in marks {
            self.take_mark(mark, &mut kept, &mut items)?;
        }
        Ok(items)
    }
}

/// What is reported of the sources of the target whose call at a place has these arguments.
fn tell_of<'t>(
    follower: &Follower<'t>,
    call: &CallRef,
    source: &'t [u8],
    arguments: &List,
) -> Result<Told, AllocError>
    requires project { IsProject (loaded_from follower.now.files.now follower.now.trees.now) }
    requires good { GoodListing (list_view source.now arguments.now) }
    ensures { (function : Source) → IfOk result (λ t.
        told_view t ≡ told (followed_project follower.now) (placed_call call.now function source.now arguments.now)) }
{
    let Following { marks, followed } = follower.follow_call(call, source, arguments)?;
    let ways = ways_of_sources(follower.alloc, call, source, arguments)?;
    let sharing = Sharing {
        follower: *follower,
        call,
        followed: followed.as_slice(),
        ways: ways.as_slice(),
    };
    let unknown = count_unknown(marks.as_slice());
    let items = sharing.items(marks)?;
    Ok(Told { items, unknown })
}

/// What is reported of the sources of the target that the call at a place makes: each that an evaluation may give it, in the order in which they are met.
/// Nothing is reported where no call stands there.
///
/// # Errors
/// Out of memory.
pub fn tell_sources(follower: &Follower<'_>, call: &CallRef) -> Result<Told, AllocError>
    requires { IsProject (loaded_from follower.now.files.now follower.now.trees.now) }
    ensures { IfOk result (λ t. told_view t ≡ told_at (followed_project follower.now) call.now) }
{
    let nothing = Told {
        items: Vec::new(follower.alloc),
        unknown: 0,
    };
    let Some(value) = follower.value_at(call) else {
        return Ok(nothing);
    };
    match value.expr {
        Expr::Call { arguments, .. } => {
            let told = tell_of(follower, call, value.source, arguments)?;
            Ok(told)
        }
        _ => Ok(nothing),
    }
}
