//! Build files as trees whose nodes carry their spans, in bytes.
#![tactic(auto)]

mod block;
mod boxed;
mod copy;
mod copy_statements;
mod expression;
mod fault;
mod file;
mod grammar;
pub mod laws;
mod list;
mod list_mut;
mod list_text;
mod moving;
mod operator;
mod path;
mod primary;
mod row;
mod selection;
mod shift;
mod significant;
mod source;
mod statement;
mod tail;
mod token;
mod tree;

pub use boxed::Boxed;
pub use copy::copy_tree;
pub use fault::ParseFault;
pub use file::{parse, parse_wide, parse_within};
pub use list_text::{parse_list, parse_list_within};
pub use meson_values::Many;
pub use operator::{Assignment, Bracket, Operator, StringKind, UnaryOperator};
pub use path::Path;
pub use source::{Limits, MAX_DEPTH, MAX_LEN};
pub use tree::{Arg, Block, Branch, Expr, List, Operand, Parsed, Stmt, Tail};
