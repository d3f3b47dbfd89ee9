//! The variables to which values are assigned.

ghost use Rattle.std.specs.Prelude.{◌≡◌, IfOk, OnOk, map, option_map};
ghost use Rattle.meson_calls.specs.Loading.{IsProject, loaded_from};
ghost use Rattle.meson_syntax.specs.View.{stmt_view};
ghost use Rattle.meson_following.specs.CodeFollowing.{followed_project};
ghost use Rattle.meson_sharing.specs.CodeOwning.{name_there, with_name};
ghost use Rattle.meson_sharing.specs.Sharing.{assigned_name, names_of, variable_of};

use meson_calls::CallRef;
use meson_calls::place::place_of;
use meson_calls::roles::{identifier_text, is_among, text_of};
use meson_following::Follower;
use meson_splice::Text;
use meson_steps::statements::stmt_at;
use meson_syntax::Stmt;
use std::alloc::AllocError;

/// The variable to which a statement assigns.
fn assigned_name<'t>(source: &'t [u8], stmt: &Stmt) -> Option<&'t [u8]>
    ensures { option_map (λ x. x.now) result ≡ assigned_name (stmt_view source.entry.now stmt.now) }
{
    match stmt {
        Stmt::Assign { name, .. } => Some(text_of(source, *name)),
        _ => None,
    }
}

/// The variable to which the n-th statement of the block at a place assigns.
fn name_there<'t>(follower: &Follower<'t>, block: &CallRef, n: usize) -> Option<&'t [u8]>
    requires { IsProject (loaded_from follower.now.files.now follower.now.trees.now) }
    ensures { option_map (λ x. x.now) result ≡ name_there (followed_project follower.now) block.now n }
{
    if block.file >= follower.trees.len() {
        return None;
    }
    match stmt_at(&follower.trees[block.file], &block.path, n) {
        Some(stmt) => assigned_name(follower.files.bytes(block.file), stmt),
        None => None,
    }
}

/// The variable to which the value of a maker is assigned. This value is the first child of the statement that assigns it.
fn variable_of<'t>(follower: &Follower<'t>, maker: &CallRef) -> Result<Option<&'t [u8]>, AllocError>
    requires { IsProject (loaded_from follower.now.files.now follower.now.trees.now) }
    ensures { IfOk result (λ name. option_map (λ x. x.now) name ≡ variable_of (followed_project follower.now) maker.now) }
{
    let steps = maker.path.steps.get();
    if steps.len() < 2 {
        return Ok(None);
    }
    let above = steps.len() - 2;
    if steps[above + 1] != 0 {
        return Ok(None);
    }
    let block = place_of(follower.alloc, maker.file, &steps[..above])?;
    Ok(name_there(follower, &block, steps[above]))
}

/// The variable to which the value of a maker is assigned, as a text.
///
/// # Errors
/// Out of memory.
pub fn variable_text(follower: &Follower<'_>, maker: &CallRef) -> Result<Option<Text>, AllocError>
    requires { IsProject (loaded_from follower.now.files.now follower.now.trees.now) }
    ensures { IfOk result (λ name. name ≡ variable_of (followed_project follower.now) maker.now) }
{
    let Some(name) = variable_of(follower, maker)? else {
        return Ok(None);
    };
    let text = String::from_str(follower.alloc, identifier_text(name))?;
    Ok(Some(Text::of(text)))
}

/// Takes the variable to which the value of a maker is assigned, if there is one and it is not there yet.
fn take_name<'t>(
    follower: &Follower<'t>,
    maker: &CallRef,
    names: &mut Vec<&'t [u8]>,
) -> Result<(), AllocError>
    requires { IsProject (loaded_from follower.now.files.now follower.now.trees.now) }
    ensures { OnOk result (map (λ x. x.now) names.new.items
        ≡ with_name (map (λ x. x.now) names.old.items) (variable_of (followed_project follower.now) maker.now)) }
{
    let Some(name) = variable_of(follower, maker)? else {
        return Ok(());
    };
    if is_among(names.as_slice(), name) {
        return Ok(());
    }
    names.push(name)?;
    Ok(())
}

/// The variables to which the values of these makers are assigned, each once.
pub(crate) fn names_of<'t>(
    follower: &Follower<'t>,
    makers: &[CallRef],
) -> Result<Vec<&'t [u8]>, AllocError>
    requires { IsProject (loaded_from follower.now.files.now follower.now.trees.now) }
    ensures { IfOk result (λ names. map (λ x. x.now) names.items ≡ names_of (followed_project follower.now) makers.now) }
{
    let mut names = Vec::new(follower.alloc);
    for i in 0..makers.len() {
        take_name(follower, &makers[i], &mut names)?;
    }
    Ok(names)
}
