//! The splices of one edit of a build file.
#![tactic(auto)]

mod blank_lines;
mod edits;
mod insertion;
pub mod laws;
mod lexemes;
mod line_spots;
mod lists;
mod looks;
mod place;
mod primitive;
mod removal;
mod statements;

pub use edits::layout;
pub use lists::list_layout;
pub use primitive::{BlankLines, LineSpot, Primitive};
