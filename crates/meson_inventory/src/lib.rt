//! What a project holds: its files, its targets, and the `subdir` calls that enter none of its files; its calls of a function; and its assignments. Each as
//! JSON and as lines.
#![tactic(auto)]

pub mod assignments;
mod followed;
pub mod holdings;
mod info;
mod inventory;
pub mod laws;
mod line_counter;
mod lines;
mod placed;
mod position_counter;

pub use info::{placed_info, placed_info_argument, placed_info_kwargs, placed_info_target};
pub use inventory::{assignments_object, calls_object, project_object};
pub use line_counter::file_bytes;
pub use lines::{assignments_lines, call_words, calls_lines, project_lines};
pub use placed::{placed_assignments_object, placed_calls_object, placed_project_object};
