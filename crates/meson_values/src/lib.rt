//! Text, bytes and lists that contracts see as lists, so that what is made of them is plain data.
#![tactic(auto)]

mod bytes;
mod many;
mod text;

pub use bytes::Bytes;
pub use many::Many;
pub use text::Text;
