//! Files of cases: how bytes are written there, and how the result of a case compares with the file.
#![tactic(auto)]

mod escapes;
mod judging;
mod transcript;

pub use escapes::{bytes_of, line_of, text_of};
pub use judging::{Case, judge};
pub use transcript::Transcript;
