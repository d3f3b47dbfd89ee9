//! Which bytes of a file become which, and where they are in lines and UTF-16 units, as the language server protocol counts.
#![tactic(auto)]

mod edits;
mod files;
pub mod laws;
mod positions;
mod ranges;
mod shared_ends;

pub use edits::{Edit, find_edits};
pub use files::{FileEdits, compare};
pub use positions::{Position, position_of};
pub use ranges::{Range, RangedEdit, with_ranges};
