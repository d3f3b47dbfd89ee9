//! A text that owns its bytes.

ghost use Rattle.std.specs.Prelude.{◌≡◌, ℕ, List, Some, bytes_eq, string_bytes};
ghost use Rattle.std.proofs.Common.{rules};
ghost use Rattle.std.specs.Cmp.Rules.{comparing};

use std::alloc::AllocError;
use std::fmt;
use std::marker::Model;

/// A text. Contracts see its bytes in UTF-8.
#[derive(Debug, Drop)]
pub struct Text {
    string: String,
}

impl Model for Text {
    ghost Value = { List ℕ };

    ghost view = { λ t. string_bytes t.string };
}

impl Text {
    /// The text of a string. Does not allocate.
    pub fn of(string: String) -> Self
        ensures { result ≡ string_bytes string }
    {
        Text { string }
    }

    /// The text, borrowed.
    pub fn get(&self) -> &str
        ensures { result.now ≡ self.now }
    {
        self.string.as_str()
    }

    /// The text, given back as a string. Does not allocate.
    pub fn take(self) -> String
        ensures { string_bytes result ≡ self }
    {
        let Text { string } = self;
        string
    }
}

impl Clone for Text {
    ghost is_clone = { λ s t. t ≡ s };

    fn clone(&self) -> Result<Self, AllocError> {
        let string = self.string.clone()?;
        Ok(Text { string })
    }
}

impl PartialEq for Text {
    ghost eq = { bytes_eq };

    ghost laws = { Prim.search (comparing, rules) };

    fn eq(&self, other: &Self) -> bool {
        self.string.as_str() == other.string.as_str()
    }
}

impl fmt::Display for Text {
    ghost output = { λ t. Some t };

    fn fmt<W: fmt::Write>(&self, f: &mut fmt::Formatter<W>) -> fmt::Result {
        f.write_str(self.string.as_str())
    }
}
