//! A project of many build files, and what commands do to it.
#![tactic(auto)]

pub mod answer;
mod details;
mod kept;
pub mod laws;
pub mod listing;
mod named;
mod order;
mod planning;
mod project;
mod values;

pub use answer::Answer;
pub use details::{TargetDetails, told_sources};
pub use listing::{info_argument, info_kwargs, info_target};
pub use meson_calls::{
    BorrowedName, CallName, CallRef, LoadFault, MAX_FILES, Reading, Refusal, Role, Unloaded,
};
pub use meson_details::{Head, Shown};
pub use meson_steps::argument::ValueName;
pub use meson_steps::command::{Command, Done, Setting};
pub use meson_variables::{SourceItem, Sources};
pub use project::Project;
pub use values::{FoundValue, find_value};
