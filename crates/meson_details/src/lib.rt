//! What is reported of a call: its head, and the values of its keyword arguments.
#![tactic(auto)]

pub mod called;
mod details;
pub mod duplicates;
pub mod showing;
pub mod values;

pub use details::{ArgumentKey, Head, Shown, ValueDetails};
