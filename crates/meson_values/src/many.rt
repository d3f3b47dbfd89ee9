//! A list that owns its elements.

ghost use Rattle.std.specs.Prelude.{◌≡◌, ◌<◌, ◌++◌, ◌∷◌, [], List, IfErr, MatchOption, OnErr, OnOk, length};
ghost use Rattle.std.specs.Borrow.{sem};
ghost use Rattle.meson_values.specs.LendsItems.{LendsItems};

use std::alloc::{AllocError, AllocFailed, Global};
use std::marker::Model;

/// Elements in order. Contracts see the list of them, so that a tree made of such lists is plain data.
#[derive(Debug)]
pub struct Many<T> {
    vec: Vec<T>,
}

impl<T> Model for Many<T> {
    ghost use Rattle.std.specs.Prelude.{List};
    ghost use Rattle.std.specs.Coded.{coded_list};

    ghost Value = { List T };

    ghost coded = { coded_list T.code };

    ghost view = { λ m. m.vec.items };
}

/// Written by hand, so that what a tree holds is dropped by a call of this function.
impl<T: Drop> Drop for Many<T> {
    fn drop(self) {
        let Many { vec: _ } = self;
    }
}

impl<T> Many<T> {
    /// No elements. Does not allocate.
    pub fn new(alloc: Global) -> Self
        ensures { result ≡ [] }
    {
        Many {
            vec: Vec::new(alloc),
        }
    }

    /// The elements of a vector. Does not allocate.
    pub fn of(vec: Vec<T>) -> Self
        ensures { result ≡ vec.items }
    {
        Many { vec }
    }

    /// The elements, borrowed.
    pub fn get(&self) -> &[T]
        ensures { result.now ≡ self.now }
    {
        self.vec.as_slice()
    }

    /// The elements, borrowed for writing.
    pub fn get_mut(&mut self) -> &mut [T]
        ensures* writes_back { sem 𝓛 (LendsItems T.row self.entry result) }
        ensures value { result.now ≡ self.old }
    {
        self.vec.as_mut_slice()
    }

    /// The elements, given back as a vector. Does not allocate.
    pub fn take(self) -> Vec<T>
        ensures { result.items ≡ self }
    {
        let Many { vec } = self;
        vec
    }

    /// The last element.
    pub fn last(&self) -> Option<&T>
        ensures { MatchOption result (self.now ≡ []) (λ x. (front : List T) × (self.now ≡ front ++ x.now ∷ [])) }
    {
        self.vec.as_slice().last()
    }

    /// Adds an element after the others. Hands it back when out of memory.
    pub fn push(&mut self, item: T) -> Result<(), AllocFailed<T>>
        ensures ok { OnOk result (self.new ≡ self.old ++ item ∷ []) }
        ensures err { IfErr result (λ e. (e.value ≡ item) × (self.new ≡ self.old)) }
    {
        self.vec.push(item)
    }

    /// Moves the last element to the end of `to`.
    pub fn move_last(&mut self, to: &mut Many<T>) -> Result<(), AllocError>
        requires { 0 < length self.old }
        ensures ok { OnOk result ((x : T) × (self.old ≡ self.new ++ x ∷ []) × (to.new ≡ to.old ++ x ∷ [])) }
        ensures err { OnErr result ((self.new ≡ self.old) × (to.new ≡ to.old)) }
    {
        to.vec.reserve(1)?;
        let item = self.vec.pop().unwrap();
        to.vec.push_reserved(item);
        Ok(())
    }
}

impl<T: Drop> Many<T> {
    /// Drops all elements.
    pub fn clear(&mut self)
        ensures { self.new ≡ [] }
    {
        self.vec.clear();
    }

    /// Adds an element after the others, or drops it when out of memory. For lists that mostly have one element or two: their memory is doubled from there on.
    pub fn push_sparing(&mut self, item: T) -> Result<(), AllocError>
        ensures ok { OnOk result (self.new ≡ self.old ++ item ∷ []) }
        ensures err { OnErr result (self.new ≡ self.old) }
    {
        let room = self.vec.len().max(2);
        self.push_with_room(item, room)
    }

    /// The same for an element after which others are expected, or none: the last one takes no more memory than it needs.
    pub fn push_expecting(&mut self, item: T, others: bool) -> Result<(), AllocError>
        ensures ok { OnOk result (self.new ≡ self.old ++ item ∷ []) }
        ensures err { OnErr result (self.new ≡ self.old) }
    {
        let room = if others { self.vec.len().max(4) } else { 1 };
        self.push_with_room(item, room)
    }

    /// If no memory is left, it is allocated for `room` more.
    fn push_with_room(&mut self, item: T, room: usize) -> Result<(), AllocError>
        ensures ok { OnOk result (self.new ≡ self.old ++ item ∷ []) }
        ensures err { OnErr result (self.new ≡ self.old) }
    {
        if self.vec.len() == self.vec.capacity() {
            self.vec.reserve_exact(room)?;
        }
        self.vec.reserve(1)?;
        self.vec.push_reserved(item);
        Ok(())
    }
}

impl<T: PartialEq> PartialEq for Many<T> {
    ghost use Rattle.std.specs.Cmp.Lexicographic.{lists_per, pointwise};

    ghost eq = { pointwise T.eq };

    ghost laws = { lists_per T.laws };

    fn eq(&self, other: &Self) -> bool {
        self.vec.as_slice() == other.vec.as_slice()
    }
}
