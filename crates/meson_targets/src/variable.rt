//! The variable that is set to a call.

ghost use Rattle.std.specs.Prelude.{◌≡◌, IfOk};
ghost use Rattle.meson_calls.specs.Loading.{AreParsed, named_trees, views};
ghost use Rattle.meson_targets.specs.TargetEdits.{variable_of};

use crate::holder::{Held, holder_of};
use meson_calls::CallRef;
use meson_calls::roles::identifier_text;
use meson_splice::{FileSet, Text};
use meson_syntax::Parsed;
use std::alloc::{AllocError, Global};

/// The variable that a statement sets to the call at a place, if one does.
///
/// # Errors
/// Out of memory.
pub fn variable_of(
    alloc: Global,
    files: &FileSet,
    trees: &[Parsed],
    call: &CallRef,
) -> Result<Option<Text>, AllocError>
    requires { AreParsed files.now trees.now }
    ensures { IfOk result (λ name. name ≡ variable_of (named_trees files.now (views files.now trees.now)) call.now) }
{
    let Some(holder) = holder_of(alloc, files, trees, call)? else {
        return Ok(None);
    };
    match holder.held {
        Held::SetTo(name) => {
            let name = identifier_text(name);
            Ok(Some(Text::of(String::from_str(alloc, name)?)))
        }
        Held::Alone => Ok(None),
    }
}
