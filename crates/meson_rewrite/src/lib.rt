//! Edits `meson.build` files in place: the program over any store of named files and any two writers.
#![tactic(auto)]

mod advice;
mod changes;
mod codes;
mod endings;
mod faults;
mod input;
pub mod laws;
mod lines;
mod listed;
mod logged_runs;
mod notes;
mod objects;
mod opening;
mod program;
mod quoted;
mod refused;
mod remarks;
mod reports;
mod request;
mod said;
mod steps;
mod stop;
mod subjects;
mod texts;
mod warnings;

pub use input::{Unread, words_with_code};
pub use meson_command::{Action, Asked, UsageFault, command_of};
pub use meson_store::{
    Counted, Folder, Memory, Output, Store, StoreError, StoreFault, Writer, commit,
};
pub use program::rewrite;
