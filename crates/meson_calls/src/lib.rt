//! What the build files of a project hold: their calls, and which of these an id names.
#![tactic(auto)]

pub mod arguments;
pub mod call;
pub mod chosen_notes;
pub mod entering;
pub mod file_names;
pub mod finding;
pub mod folders;
pub mod keeper;
pub mod keeping;
pub mod kept;
pub mod keys;
pub mod laws;
pub mod lists;
pub mod literals;
pub mod load_fault;
pub mod loading;
pub mod looking;
pub mod naming;
pub mod note;
pub mod noted;
pub mod notes;
pub mod part;
pub mod place;
pub mod refusal;
pub mod roles;
pub mod searching;
pub mod spelling;
pub mod taken;
pub mod walk;
pub mod walk_statements;

pub use call::{BorrowedName, BorrowedPlace, CallName, CallRef, Reading, Role};
pub use load_fault::{LoadFault, Unloaded};
pub use loading::MAX_FILES;
pub use refusal::Refusal;
