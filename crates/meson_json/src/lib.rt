//! Scripts and the undo log as JSON.
#![tactic(auto)]

pub mod argument;
mod choices;
pub mod code;
mod code_entry;
pub mod count;
mod entry;
mod fault;
pub mod laws;
mod log;
mod member_check;
mod members;
pub mod names;
mod remarks;
pub mod script;
mod script_remarks;
pub mod target;
mod texts_file;
mod title;
mod value_entry;
mod version;

pub use choices::Choice;
pub use fault::ScriptFault;
pub use log::{empty_log, history_text, read_log};
pub use member_check::UnknownMembers;
pub use members::owned;
pub use remarks::Remarks;
pub use script::Script;
pub use script_remarks::explain_script;
pub use texts_file::read_texts;
pub use title::is_title;
