//! Stores of named files and writers that count their failures; and the commit of a project's files to a store.
#![tactic(auto)]

mod committing;
mod folder;
pub mod laws;
mod memory;
mod names;
mod output;
mod overlaid;
mod replaced;
mod store;
mod store_fault;

pub use committing::{commit, path_in};
pub use folder::Folder;
pub use memory::Memory;
pub use output::{Counted, Output, Writer};
pub use overlaid::{Below, Overlaid};
pub use store::{Store, StoreError};
pub use store_fault::StoreFault;
