//! The values of variables, and the sources of a target.
#![tactic(auto)]

pub mod call_sources;
pub mod expansion;
pub mod followed;
pub mod held_arguments;
pub mod marks;
pub mod meeting;
pub mod mentions;
pub mod setters;
pub mod source;
pub mod sums;
pub mod target_sources;
pub mod unknown_setters;
pub mod values;
pub mod variables;

pub use source::{SourceItem, Sources};
