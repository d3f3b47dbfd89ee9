//! The arrays and dictionaries of a file.

ghost use Rattle.std.specs.Prelude.{◌≡◌, IfOk};
ghost use Rattle.meson_syntax.specs.Reads.{IsSpanned};
ghost use Rattle.meson_syntax.specs.View.{view};
ghost use Rattle.meson_calls.specs.Parts.{parts_of_file};
ghost use Rattle.meson_calls.specs.Walks.{lists_opened};

use crate::keeper::{Keeper, Opened};
use crate::walk_statements::walk_file;
use meson_syntax::Parsed;
use std::alloc::{AllocError, Global};

/// The arrays and dictionaries of the file of this number, in source order: each comes before those within it.
///
/// # Errors
/// Out of memory.
pub fn lists_of(
    alloc: Global,
    file: usize,
    source: &[u8],
    parsed: &Parsed,
) -> Result<Vec<Opened>, AllocError>
    requires { IsSpanned source.now (view source.now parsed.now) }
    ensures { IfOk result (λ found. found.items ≡ lists_opened (parts_of_file file (view source.entry.now parsed.entry.now))) }
{
    let mut keeper = Keeper::Lists(Vec::new(alloc));
    walk_file(alloc, file, source, parsed, &mut keeper)?;
    match keeper.lists() {
        Some(found) => Ok(found),
        None => unreachable!(),
    }
}
