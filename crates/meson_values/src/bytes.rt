//! A byte string that owns its bytes.

ghost use Rattle.std.specs.Prelude.{◌≡◌, ℕ, List, bytes_eq};
ghost use Rattle.std.proofs.Common.{rules};
ghost use Rattle.std.specs.Cmp.Rules.{comparing};

use std::alloc::AllocError;
use std::marker::Model;

/// A byte string. Contracts see its bytes.
#[derive(Debug, Drop)]
pub struct Bytes {
    vec: Vec<u8>,
}

impl Model for Bytes {
    ghost Value = { List ℕ };

    ghost view = { λ b. b.vec.items };
}

impl Bytes {
    /// The bytes of a vector. Does not allocate.
    pub fn of(vec: Vec<u8>) -> Self
        ensures { result ≡ vec.items }
    {
        Bytes { vec }
    }

    /// The bytes, borrowed.
    pub fn get(&self) -> &[u8]
        ensures { result.now ≡ self.now }
    {
        self.vec.as_slice()
    }

    /// The bytes, given back as a vector. Does not allocate.
    pub fn take(self) -> Vec<u8>
        ensures { result.items ≡ self }
    {
        let Bytes { vec } = self;
        vec
    }
}

impl Clone for Bytes {
    ghost is_clone = { λ s t. t ≡ s };

    fn clone(&self) -> Result<Self, AllocError> {
        let vec = self.vec.clone()?;
        Ok(Bytes { vec })
    }
}

impl PartialEq for Bytes {
    ghost eq = { bytes_eq };

    ghost laws = { Prim.search (comparing, rules) };

    fn eq(&self, other: &Self) -> bool {
        self.vec.as_slice() == other.vec.as_slice()
    }
}
