//! Places in a project that a request names: a call, the value of a variable, and in it an argument, an entry or an element.
#![tactic(auto)]

mod additions;
pub mod all_assigned;
pub mod all_changed;
pub mod arguments;
mod assigned;
pub mod assigned_arrays;
pub mod assignments;
pub mod changes;
mod colon;
mod elements;
mod equality;
pub mod insertions;
mod keys;
pub mod known;
pub mod laws;
pub mod lines;
pub mod list_search;
mod lone_values;
pub mod lookup;
pub mod name;
pub mod named_values;
mod naming;
mod new_elements;
pub mod operands;
pub mod removals;
pub mod replacements;
mod room;
mod said_elements;
mod several;
pub mod slots;
pub mod sorted_additions;
pub mod spans;
pub mod target_names;
pub mod uses;
pub mod value_lists;
pub mod values;
pub mod variables;

pub use elements::ListKind;
pub use name::Sources;
pub use slots::Slot;
