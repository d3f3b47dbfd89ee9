//! Operators, brackets and the kinds of strings: what distinguishes nodes of one form.
//!
//! The rules are those of the Syntax page of the Meson manual.

/// An operator between two operands.
#[derive(Clone, Copy, Debug, PartialEq, Eq)]
pub enum Operator {
    Or,
    And,
    Equal,
    NotEqual,
    Less,
    LessEqual,
    Greater,
    GreaterEqual,
    In,
    /// `not in`, two words.
    NotIn,
    Plus,
    Minus,
    Times,
    Divide,
    Remainder,
}

/// An operator before its one operand.
#[derive(Clone, Copy, Debug, PartialEq, Eq)]
pub enum UnaryOperator {
    Not,
    Minus,
}

/// How a string is quoted, and whether it is a format string.
#[derive(Clone, Copy, Debug, PartialEq, Eq)]
pub enum StringKind {
    /// Between single quotes.
    Plain,
    /// Between three quotes.
    Multiline,
    /// Between single quotes after an `f`.
    Format,
    /// Between three quotes after an `f`.
    FormatMultiline,
}

/// What an assignment does with its value.
#[derive(Clone, Copy, Debug, PartialEq, Eq)]
pub enum Assignment {
    /// `=`: the variable gets it.
    Set,
    /// `+=`: it is added to the variable.
    Add,
}

/// The brackets of a list, which decide what may be in it.
#[derive(Clone, Copy, Debug, PartialEq, Eq)]
pub enum Bracket {
    /// The arguments of a call: those with a name are after those without.
    Round,
    /// The elements of an array.
    Square,
    /// The keys and values of a dictionary.
    Curly,
}
