//! What is met in the sources of a target, gathered in one place.

ghost use Rattle.std.specs.Prelude.{◌≡◌, ◌∷◌, IfOk, OnErr, OnOk};
ghost use Rattle.meson_calls.specs.Project.{place};
ghost use Rattle.meson_calls.specs.Roles.{one_of};

use crate::followed::Followed;
use crate::source::SourceItem;
use meson_calls::call::CallRef;
use meson_calls::place::{copy_place, place_of};
use std::alloc::{AllocError, Global};

/// A file, its source, and the innermost variable that was followed to it.
#[derive(Clone, Copy)]
pub struct Site<'t> {
    pub file: usize,
    pub source: &'t [u8],
    pub variable: Option<&'t str>,
}

/// What was met. The items, their numbers in their lists, and the file of each opaque mark (only their number is used). The list of the first item that is in
/// one, the first empty list, and the variables that were followed.
#[derive(Drop)]
pub struct Marks<'t> {
    pub items: Vec<SourceItem>,
    pub numbers: Vec<Option<usize>>,
    pub unknown: Vec<usize>,
    pub list: Option<CallRef>,
    pub vacant: Option<CallRef>,
    pub followed: Followed<'t>,
}

impl<'t> Marks<'t> {
    ghost use Rattle.meson_variables.specs.Expansion.{opaque, empty};
    ghost use Rattle.meson_variables.specs.Tallies.{gathered, no_marks, with_mark, with_item};

    /// None so far. Does not allocate.
    pub fn new(alloc: Global) -> Self
        ensures { gathered result ≡ no_marks }
    {
        Marks {
            items: Vec::new(alloc),
            numbers: Vec::new(alloc),
            unknown: Vec::new(alloc),
            list: None,
            vacant: None,
            followed: Followed::new(alloc),
        }
    }

    /// Whether a variable was followed.
    pub fn has_followed(&self, name: &[u8]) -> bool
        ensures { result ≡ one_of (gathered self.now).followed name.now }
    {
        self.followed.has(name)
    }

    /// Follows a variable.
    pub fn follow(&mut self, name: &'t [u8]) -> Result<(), AllocError>
        ensures done { OnOk result (gathered self.new
            ≡ record { tally = (gathered self.old).tally; followed = name.entry.now ∷ (gathered self.old).followed }) }
        ensures kept { OnErr result (gathered self.new ≡ gathered self.old) }
    {
        self.followed.put(name)?;
        Ok(())
    }

    /// Meets something opaque in this file.
    pub fn miss(&mut self, file: usize) -> Result<(), AllocError>
        ensures done { OnOk result (gathered self.new ≡ with_mark (gathered self.old) opaque) }
        ensures kept { OnErr result (gathered self.new ≡ gathered self.old) }
    {
        self.unknown.push(file)?;
        Ok(())
    }

    /// Meets an empty list.
    pub fn meet_vacant(
        &mut self,
        alloc: Global,
        file: usize,
        path: &[usize],
    ) -> Result<(), AllocError>
        ensures done { OnOk result (gathered self.new ≡ with_mark (gathered self.old) (empty (place file path.now))) }
        ensures kept { OnErr result (gathered self.new ≡ gathered self.old) }
    {
        if self.vacant.is_none() {
            let place = place_of(alloc, file, path)?;
            self.vacant = Some(place);
        }
        Ok(())
    }

    /// Meets a literal, which has this number in its list.
    pub fn meet(
        &mut self,
        alloc: Global,
        item: SourceItem,
        number: Option<usize>,
    ) -> Result<(), AllocError>
        ensures done { OnOk result (gathered self.new
            ≡ record { tally = with_item (gathered self.old).tally item number; followed = (gathered self.old).followed }) }
        ensures kept { OnErr result (gathered self.new ≡ gathered self.old) }
    {
        self.numbers.reserve(1)?;
        self.items.reserve(1)?;
        if self.list.is_none() {
            self.list = copy_list(alloc, &item.list)?;
        }
        self.numbers.push_reserved(number);
        self.items.push_reserved(item);
        Ok(())
    }
}

fn copy_list(alloc: Global, list: &Option<CallRef>) -> Result<Option<CallRef>, AllocError>
    ensures { IfOk result (λ copy. copy ≡ list.now) }
{
    match list {
        Some(place) => {
            let copy = copy_place(alloc, place)?;
            Ok(Some(copy))
        }
        None => Ok(None),
    }
}
