//! What variables hold where they are read, as the build files are evaluated.
#![tactic(auto)]

pub mod arguments;
pub mod effects;
mod entered;
pub mod flows;
pub mod follower;
pub mod laws;
pub mod lists;
pub mod makers;
pub mod marks;
pub mod names;
mod passing;
mod reader;
mod reads;
pub mod site;
mod sources;
pub mod walk;
mod walk_loops;
mod walk_statements;

pub use follower::{Follower, Value};
pub use makers::{Known, Made, Maker};
pub use marks::{Following, Item, Mark, Way};
