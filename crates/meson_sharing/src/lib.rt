//! Which lists of sources are read for one target alone, where variables are followed.
#![tactic(auto)]

pub mod laws;
mod owning;
mod takers;
mod targets;
mod told;
mod uses;
mod variable;
mod ways;

pub use owning::{is_closed_by, is_own, is_unshared};
pub use takers::ways_of_sources;
pub use told::{Told, ToldItem, tell_sources};
pub use variable::variable_text;
