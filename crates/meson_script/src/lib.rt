//! Scripts performed on a project, undone and redone, and what their info commands report.
#![tactic(auto)]

mod fault;
pub mod laws;
mod listings;
mod log;
mod performing;
mod session;
mod stepping;
mod titles;

pub use fault::{RunFault, UndoFault, Unstarted};
pub use listings::ListingForm;
pub use log::log_text;
pub use meson_json::{Script, ScriptFault, UnknownMembers, empty_log, is_title, read_log};
pub use meson_plan::{info_kwargs, info_target};
pub use performing::{Ran, perform_all};
pub use session::{Report, Session};
