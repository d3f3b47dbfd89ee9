//! Keyword arguments and default options: what a command requests of a call, and its edits, one entry after another.
#![tactic(auto)]

pub mod changing;
mod elements;
mod keyword_steps;
pub mod laws;
mod option_steps;
pub mod request;
mod tasks;
pub mod value_kinds;
mod writing;
