//! The variables that were followed.

ghost use Rattle.std.specs.Prelude.{◌≡◌, ℕ, List, map, reverse, bytes_eq};
ghost use Rattle.std.specs.HashSet.{contains_by};
ghost use Rattle.meson_calls.specs.Roles.{one_of};

use std::alloc::{AllocError, Global};
use std::collections::HashSet;

/// The variables that were followed, in their order, and as a set.
#[derive(Drop)]
pub struct Followed<'t> {
    names: Vec<&'t [u8]>,
    set: HashSet<&'t [u8]>,
    ghost same: { (x : List ℕ) → contains_by (λ k. bytes_eq x k.now) set ≡ one_of (reverse (map (λ k. k.now) names.items)) x },
}

impl<'t> Followed<'t> {
    ghost use Rattle.std.specs.Prelude.{[], ◌∷◌, OnErr, OnOk};
    ghost use Rattle.meson_variables.specs.Tallies.{followed_names};

    /// None so far. Does not allocate.
    pub fn new(alloc: Global) -> Self
        ensures { followed_names result ≡ [] }
    {
        Followed {
            names: Vec::new(alloc),
            set: HashSet::new(alloc),
        }
    }

    /// Whether a variable was followed.
    pub fn has(&self, name: &[u8]) -> bool
        ensures { result ≡ one_of (followed_names self.now) name.now }
    {
        self.set.contains(name)
    }

    /// Follows a variable.
    ///
    /// # Errors
    /// Out of memory.
    pub fn put(&mut self, name: &'t [u8]) -> Result<(), AllocError>
        ensures put { OnOk result (followed_names self.new ≡ name.entry.now ∷ followed_names self.old) }
        ensures kept { OnErr result (followed_names self.new ≡ followed_names self.old) }
    {
        self.names.reserve(1)?;
        self.set.insert(name)?;
        self.names.push_reserved(name);
        Ok(())
    }
}
