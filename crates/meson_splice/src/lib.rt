//! File sets, splices of their bytes, and the history of what was done and undone.
#![tactic(auto)]

mod change;
mod fault;
mod file_set;
mod gap_text;
mod history;
pub mod laws;
mod splice;
mod way;

pub use change::{Change, SavedBytes, apply_all, apply_saving, put_bytes_back, revert};
pub use fault::SpliceFault;
pub use file_set::{File, FileSet, PushFault, Unpushed};
pub use history::{History, Unkept};
pub use meson_values::{Bytes, Many, Text};
pub use splice::{Splice, apply, inverse};
