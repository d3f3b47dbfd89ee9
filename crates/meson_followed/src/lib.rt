//! Sources added to a target and removed from it, and sources renamed, where variables are followed.
#![tactic(auto)]

mod adding;
mod asking;
mod changing;
mod homes;
pub mod laws;
mod named;
mod paths;
mod removals;
pub mod removing;
pub mod renaming;
mod sources;
mod ways;

pub use adding::sources_added;
pub use changing::change_sources;
pub use removing::sources_removed;
pub use renaming::sources_renamed;
