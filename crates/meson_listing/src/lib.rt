//! Listings: JSON of what is reported of a call, of its sources and of its keyword arguments.
#![tactic(auto)]

pub mod entries;
mod followed;
pub mod laws;
mod objects;
mod values;

pub use followed::{followed_object, put_told, target_with};
pub use objects::{call_object, target_object};
pub use values::value_object;
