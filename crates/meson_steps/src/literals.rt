//! Texts in their written form.

ghost use Rattle.std.specs.Prelude.{◌≡◌, ◌++◌, IfErr, IfOk, OnErr, OnOk};
ghost use Rattle.std.specs.Str.{IsUtf8};
ghost use Rattle.meson_lex.specs.Literals.{literal};

use meson_calls::Refusal;
use meson_lex::write_literal;
use meson_splice::{Bytes, Text};
use std::alloc::{AllocError, Global};

/// A copy of a key, for a refusal that names it.
pub fn key_of(key: &Text) -> Result<Text, Refusal>
    ensures copied { IfOk result (λ t. t ≡ key.now) }
    ensures refused { IfErr result (λ e. e ≡ Refusal.OutOfMemory) }
{
    let copy = key.clone()?;
    Ok(copy)
}

/// Appends a text's literal.
pub fn push_literal(alloc: Global, to: &mut Vec<u8>, text: &str) -> Result<(), Refusal>
    ensures done { OnOk result (to.new.items ≡ to.old.items ++ literal text.now) }
    ensures kept { OnErr result (to.new.items ≡ to.old.items) }
    ensures utf8 { IsUtf8 text.now }
    ensures refused { IfErr result (λ e. e ≡ Refusal.OutOfMemory) }
{
    let token = write_literal(alloc, text).map_err(AllocError::from)?;
    to.extend_from_slice(token.as_slice())?;
    Ok(())
}

/// The literal of a text.
pub fn written_text(alloc: Global, text: &Text) -> Result<Bytes, Refusal>
    ensures done { IfOk result (λ b. b ≡ literal text.now) }
    ensures utf8 { IfOk result (λ b. IsUtf8 text.now) }
    ensures refused { IfErr result (λ e. e ≡ Refusal.OutOfMemory) }
{
    let mut out = Vec::new(alloc);
    push_literal(alloc, &mut out, text.get())?;
    Ok(Bytes::of(out))
}
