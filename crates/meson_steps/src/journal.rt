//! What steps replaced, so that after a refusal it can be put back without allocating.

ghost use Rattle.std.specs.Prelude.{◌+◌, ◌<◌, ◌≡◌, OnOk, Some, false, length, slice_index_or, slice_set, true, vec_capacity};
ghost use Rattle.meson_lex.specs.declared.kinds.Span.{Span};
ghost use Rattle.meson_syntax.specs.ListPut.{list_exchanged};
ghost use Rattle.meson_syntax.specs.MovedCode.{moved_parsed};
ghost use Rattle.meson_syntax.specs.Moving.{moved};
ghost use Rattle.meson_syntax.specs.Paths.{ListAt, list_at};
ghost use Rattle.meson_syntax.specs.View.{list_view, view};
ghost use Rattle.meson_calls.specs.ChosenNotes.{Source};
ghost use Rattle.meson_steps.specs.Journal.{MayPut, MayPutBack, MayShift, PutsBack, changed_tree, saved_file, is_saved, put_back, put_one};
ghost use Rattle.meson_steps.specs.inside.Journal.{Follows, IsFollowed, IsPutBackFor, IsSavedToo, MayTakeMoved, Trees, settled_tree};

use meson_calls::CallRef;
use meson_lex::Span;
use meson_syntax::{List, Parsed, Path};
use std::alloc::AllocError;
use std::mem;

/// What a step replaced.
#[derive(Drop)]
pub enum Saved {
    /// The tree of a file.
    Tree { file: usize, tree: Parsed },
    /// A list of it.
    List(SavedList),
}

/// A list that is replaced by another one: its place, its start, its number of bytes, and that of the other one.
#[derive(Drop)]
pub struct SavedList {
    pub place: CallRef,
    pub list: List,
    pub from: usize,
    pub was: usize,
    pub now: usize,
}

impl Saved {
    /// The number of the file.
    fn file(&self) -> usize
        ensures { result ≡ saved_file self.now }
    {
        match self {
            Saved::Tree { file, .. } => *file,
            Saved::List(list) => list.place.file,
        }
    }

    /// Where it is a list that `new` follows: has it put back for `new`. Gives whether it is.
    fn follow(&mut self, new: &SavedList) -> bool
        ensures yes { result ≡ true → IsPutBackFor self.old new.entry.now self.new }
        ensures no { result ≡ false → self.new ≡ self.old }
    {
        match self {
            Saved::Tree { .. } => false,
            Saved::List(last) => {
                let follows = last.is_followed_by(new);
                if follows {
                    last.now = new.now;
                }
                follows
            }
        }
    }
}

/// Whether something of a file is saved.
pub(crate) fn is_saved(saved: &[Saved], file: usize) -> bool
    ensures { result ≡ is_saved file saved.now }
{
    saved.iter().any(|s| s.file() == file)
}

/// Replaces the tree of a file, which is saved, by another tree.
///
/// # Errors
/// Out of memory.
pub(crate) fn exchange(
    trees: &mut Vec<Parsed>,
    saved: &mut Vec<Saved>,
    file: usize,
    tree: Parsed,
) -> Result<(), AllocError>
    requires { file < length trees.old.items }
    ensures done { OnOk result (trees.new.items ≡ slice_set trees.old.items file tree) }
    ensures saved { OnOk result (IsSavedToo file saved.old.items saved.new.items) }
    ensures restores { (first : Trees) → PutsBack saved.old.items trees.old.items first → PutsBack saved.new.items trees.new.items first }
{
    saved.reserve(1)?;
    let tree = mem::replace(&mut trees[file], tree);
    saved.push_reserved(Saved::Tree { file, tree });
    Ok(())
}

/// Moves the borders of a tree as the `was` bytes at `from` become `now` bytes, and puts a list where the path names one. Gives the list that was there. Does
/// not allocate.
fn put_in(tree: &mut Parsed, path: &Path, list: List, from: usize, was: usize, now: usize) -> List
    requires { MayShift from was now tree.old }
    ensures is { tree.new ≡ list_exchanged path.now.steps from was now list tree.old }
    ensures gives { (source : Source) (r : ListAt Span) → list_at (view source (moved_parsed (moved (from + was) was now) tree.old)) path.now.steps
        ≡ Some r → list_view source result ≡ r.list }
{
    tree.shift(from, was, now);
    tree.put_list(path, list)
}

/// A list with the span that it had before the list's end moved.
fn with_span(list: List, from: usize, to: usize) -> List
    ensures { result ≡ record list { span = record { from = from; to = to } } }
{
    let mut list = list;
    list.span = Span { from, to };
    list
}

impl SavedList {
    /// Whether `new` takes the place of the list that took the place of this one.
    fn is_followed_by(&self, new: &SavedList) -> bool
        ensures { result ≡ true → Follows self.entry.now new.entry.now }
    {
        self.place.file == new.place.file
            && self.place.path.steps.get() == new.place.path.steps.get()
            && self.from == new.from
            && self.now == new.was
    }
}

/// If `new` takes the place of a list that took the place of the last one that is saved, that one is saved for `new` too. Returns whether
/// it does.
fn follow_last(saved: &mut Vec<Saved>, new: &SavedList) -> bool
    ensures yes { result ≡ true → IsFollowed saved.old.items new.entry.now saved.new.items }
    ensures no { result ≡ false → saved.new.items ≡ saved.old.items }
    ensures room { vec_capacity saved.new ≡ vec_capacity saved.old }
{
    let Some(mut last) = saved.pop() else {
        return false;
    };
    let follows = last.follow(new);
    saved.push_reserved(last);
    follows
}

/// Replaces the list that is there, which is saved, by the list of `new`, parsed from the list's new text. Of the lists that were in
/// one place, one after another, only the first is saved.
///
/// # Errors
/// Out of memory.
pub(crate) fn exchange_list(
    trees: &mut Vec<Parsed>,
    saved: &mut Vec<Saved>,
    new: SavedList,
) -> Result<(), AllocError>
    requires there { new.place.file < length trees.old.items }
    requires takes { (d : Parsed) → MayTakeMoved (slice_index_or trees.old.items new.place.file d) new }
    ensures done { OnOk result (trees.new.items ≡ changed_tree new.place.file (settled_tree new) trees.old.items) }
    ensures saved { OnOk result (IsSavedToo new.place.file saved.old.items saved.new.items) }
    ensures restores { (first : Trees) → PutsBack saved.old.items trees.old.items first → PutsBack saved.new.items trees.new.items first }
{
    saved.reserve(1)?;
    let is_saved = follow_last(saved, &new);
    let SavedList {
        place,
        list,
        from,
        was,
        now,
    } = new;
    let old = put_in(&mut trees[place.file], &place.path, list, from, was, now);
    if is_saved {
        return Ok(());
    }
    let list = with_span(old, from, from + was);
    saved.push_reserved(Saved::List(SavedList {
        place,
        list,
        from,
        was,
        now,
    }));
    Ok(())
}

/// Puts one tree or one list back.
fn put_one(trees: &mut Vec<Parsed>, saved: Saved)
    requires { MayPut saved trees.old.items }
    ensures { trees.new.items ≡ put_one saved trees.old.items }
{
    match saved {
        Saved::Tree { file, tree } => {
            if file < trees.len() {
                trees[file] = tree;
            }
        }
        Saved::List(
            SavedList {
                place,
                list,
                from,
                was,
                now,
            },
        ) => {
            if place.file < trees.len() {
                put_in(&mut trees[place.file], &place.path, list, from, now, was);
            }
        }
    }
}

/// Puts back what is saved, the newest first. Does not allocate.
pub fn put_back(trees: &mut Vec<Parsed>, saved: Vec<Saved>)
    requires { MayPutBack saved.items trees.old.items }
    ensures { trees.new.items ≡ put_back saved.items trees.old.items }
{
    let mut left = saved;
    while let Some(last) = left.pop() {
        put_one(trees, last);
    }
}
