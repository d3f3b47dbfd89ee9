//! Changes of values that are variables, where variables are followed.
#![tactic(auto)]

mod choices;
pub mod followed;
pub mod laws;
mod losing;
mod makers;
mod variables;

pub use followed::followed_steps;
