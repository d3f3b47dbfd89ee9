//! How far a name is from another.

ghost use Rattle.std.specs.Prelude.{◌≡◌, IfOk};
ghost use Rattle.meson_explaining.specs.Nearest.{edits};

use std::alloc::{AllocError, Global};
use strsim::levenshtein;

/// How many edits lead from one name to another, where the case of ASCII letters does not count.
pub(crate) fn edits(alloc: Global, from: &str, to: &str) -> Result<usize, AllocError>
    ensures { IfOk result (λ n. n ≡ edits from.now to.now) }
{
    let from = from.to_ascii_lowercase(alloc)?;
    let to = to.to_ascii_lowercase(alloc)?;
    levenshtein(alloc, from.as_str(), to.as_str())
}
