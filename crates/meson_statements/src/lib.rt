//! Statements that are written into build files, with the indent and the line ends of their place.
#![tactic(auto)]

mod code;
mod endings;
mod indenting;
pub mod laws;
mod places;

pub use code::StatementCode;
pub use indenting::indented;
pub use places::{Side, Surroundings};
