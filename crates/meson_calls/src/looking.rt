//! What is at a place.

ghost use Rattle.std.specs.Prelude.{◌≡◌, length};
ghost use Rattle.meson_calls.specs.Loading.{named_trees, views};
ghost use Rattle.meson_calls.specs.Roles.{is_target};

use crate::call::{CallRef, Role};
use crate::naming::is_role_call;
use meson_splice::FileSet;
use meson_syntax::Parsed;

/// Whether the place is that of a call of a target.
pub fn is_target(files: &FileSet, trees: &[Parsed], call: &CallRef) -> bool
    requires { length trees.now ≡ length files.now }
    ensures { result ≡ is_target (named_trees files.now (views files.now trees.now)) call.now }
{
    if call.file >= trees.len() {
        return false;
    }
    match trees[call.file].expr_at(&call.path) {
        Some(expr) => is_role_call(Role::Target, files.bytes(call.file), expr),
        None => false,
    }
}
