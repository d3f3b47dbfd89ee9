//! What a command changes though its words do not say so, in words for people.
#![tactic(auto)]

mod additions;
mod known;
pub mod laws;
mod left_variables;
mod overwrites;
mod reads;
mod shared_lists;
mod side_effects;
mod unset_names;

pub use side_effects::warnings;
