//! What is reported of a call.

use meson_splice::{Many, Text};

/// A call without its arguments, and its name.
#[derive(Debug, Drop)]
pub struct Head {
    /// The offset in bytes of the call's first byte in its file.
    pub at: usize,
    /// The name of its function.
    pub function: Text,
    /// Whether it has a `kwargs:` argument, which may hold any keyword.
    pub hidden: bool,
    /// The text of its first argument without a name, if that is a literal.
    pub name: Option<Text>,
}

/// The value of a keyword argument.
#[derive(Debug, Drop)]
pub enum Shown {
    /// A literal, by its text.
    Text(Text),
    /// `true` or `false`.
    Bool(bool),
    /// A variable, by its name.
    Id(Text),
    /// An array that holds literals alone, and one that is empty.
    Texts(Many<Text>),
    /// An array that holds variables alone.
    Ids(Many<Text>),
    /// Anything else, by its text in the file.
    Opaque(Text),
}

/// What leads from a call, an array or a dictionary to a value in it.
#[derive(Debug, Drop)]
pub enum ArgumentKey {
    /// The number of an argument without a name or of an element, counted from 0.
    Number(usize),
    /// The name of a keyword argument, or the text of an entry's key.
    Text(Text),
    /// The key of an entry that is not a literal, by its text in the file.
    Code(Text),
}

/// What is reported of a value.
#[derive(Debug, Drop)]
pub enum ValueDetails {
    /// A call, with its arguments in their order.
    Call {
        function: Text,
        /// The text of its first argument without a name, if that is a literal.
        name: Option<Text>,
        arguments: Many<(ArgumentKey, Shown)>,
    },
    /// An array or a dictionary, by what is in it, in its order.
    List(Many<(ArgumentKey, Shown)>),
    /// Any other value.
    Other(Shown),
}
