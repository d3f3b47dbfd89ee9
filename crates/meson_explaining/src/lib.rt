//! Why a command is refused, in words for people: what the project holds that the refusal is about, and what may be done.
#![tactic(auto)]

mod argument_places;
mod argument_values;
mod arguments;
mod bad_names;
pub mod calls;
mod distance;
mod excerpts;
mod explaining;
mod explanation;
pub mod followed;
mod followed_reasons;
mod insertions;
mod keys;
pub mod laws;
mod lines;
mod missing_places;
mod names;
mod nearest;
mod not_found;
mod printable;
mod reasons;
pub mod removals;
pub mod sources;
pub mod subject;
pub mod targets;
mod unknown;
pub mod values;
mod ways;
mod written;

pub use excerpts::{explain_fault, fault_lines};
pub use explaining::explain;
pub use explanation::{Explanation, Note, Spot};
pub use lines::{explanation_lines, warning_lines};
pub use names::meant_name;
