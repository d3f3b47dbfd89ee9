//! The names in a command.

ghost use Rattle.std.specs.Prelude.{◌≡◌, All, IfOk, OnOk, bytes_eq, map};
ghost use Rattle.std.specs.List.{list_any};
ghost use Rattle.std.specs.Str.{IsUtf8};
ghost use Rattle.meson_steps.specs.Names.{checked_names, distinct};

use meson_calls::Refusal;
use meson_splice::Text;
use std::alloc::{AllocError, Global};

/// Refuses an empty name.
///
/// # Errors
/// A name is empty.
pub fn checked_names(names: &[Text]) -> Result<(), Refusal>
    ensures checked { result ≡ checked_names names.now }
    ensures utf8 { OnOk result (All IsUtf8 names.now) }
{
    for name in names {
        if name.get().is_empty() {
            return Err(Refusal::BadName);
        }
    }
    Ok(())
}

/// Whether a name is one of these.
pub fn is_among(names: &[&Text], name: &Text) -> bool
    ensures { result ≡ list_any (λ x. bytes_eq x name.now) (map (λ x. x.now) names.now) }
{
    for i in 0..names.len() {
        if names[i] == name {
            return true;
        }
    }
    false
}

/// Each name once, at its first place.
pub fn distinct<'n>(alloc: Global, names: &'n [Text]) -> Result<Vec<&'n Text>, AllocError>
    ensures { IfOk result (λ all. map (λ x. x.now) all.items ≡ distinct names.now) }
{
    let mut all = Vec::new(alloc);
    for i in 0..names.len() {
        if !is_among(all.as_slice(), &names[i]) {
            all.push(&names[i])?;
        }
    }
    Ok(all)
}
