//! The lexer of Meson build files: the items of a text, its first fault, and the literals of strings.
#![tactic(auto)]

mod bytes;
mod escapes;
mod fault;
mod front;
mod iter;
mod kinds;
pub mod laws;
mod lines;
mod literals;
mod marks;
mod numbers;
mod source;
mod strings;
mod words;

pub use fault::{LexFault, LiteralFault};
pub use iter::Items;
pub use kinds::{Item, Kind, Span};
pub use literals::{literal_value, write_literal};
pub use source::{items, text};
pub use words::is_identifier;
