//! Values that are given in words.

ghost use Rattle.std.specs.Prelude.{◌≡◌, ◌≢◌, IfErr, IfOk, None, Some};
ghost use Rattle.meson_steps.specs.declared.value_fault.ValueFault.TheVariants as value_fault;
ghost use Rattle.meson_steps.specs.GivenWords.{meant_by};

use crate::code::Code;
use crate::value_fault::ValueFault;
use meson_splice::Text;
use std::alloc::Global;

/// A value that is given.
#[derive(Debug)]
pub enum Given {
    /// A text, which is written as a literal.
    Text(Text),
    /// `true` or `false`.
    Switch(bool),
    /// An expression, which is written as it is given.
    Code(Code),
}

/// Written by hand, so that it is proved here alone, and not in each crate that drops a value.
impl Drop for Given {
    fn drop(self) {
        match self {
            Given::Text(_) => {}
            Given::Switch(_) => {}
            Given::Code(_) => {}
        }
    }
}

/// What a word means as a value: `:CODE` is one expression of the grammar, `true` and `false` are truth values, and any other word is the text.
///
/// # Errors
/// The code is not one expression, or out of memory.
pub fn given_of(alloc: Global, word: &Text) -> Result<Given, ValueFault>
    ensures given { IfOk result (λ g. meant_by word.now ≡ Some g) }
    ensures refused { IfErr result (λ e. e ≢ value_fault.OutOfMemory → (e ≡ value_fault.NotCode) × (meant_by word.now ≡ None)) }
{
    let text = word.get();
    if let Some(code) = text.strip_prefix(":") {
        let code = Code::of(alloc, code)?.ok_or(ValueFault::NotCode)?;
        return Ok(Given::Code(code));
    }
    match text {
        "true" => Ok(Given::Switch(true)),
        "false" => Ok(Given::Switch(false)),
        _ => Ok(Given::Text(word.clone()?)),
    }
}
