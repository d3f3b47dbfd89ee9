//! Commands, and edits of the files of a project, one after another. How each is laid out, what the files and trees are then, and the limits on the result.
#![tactic(auto)]

pub mod argument;
pub mod code;
pub mod command;
pub mod given;
mod held;
pub mod journal;
pub mod laws;
mod layouts;
pub mod literals;
pub mod names;
pub mod order;
pub mod ordered_list;
mod reading;
pub mod source_change;
pub mod spans;
pub mod statements;
pub mod step;
pub mod value_fault;
pub mod work;
