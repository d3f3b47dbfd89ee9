//! What the items of a build file are.

/// A range of bytes of a source, from the first one to after the last one.
#[derive(Clone, Copy, Debug, PartialEq, Eq)]
pub struct Span {
    pub from: usize,
    pub to: usize,
}

/// What an item is: a kind of the Meson manual's Syntax page, with one kind for each reserved word and punctuation mark.
#[derive(Clone, Copy, Debug, PartialEq, Eq)]
pub enum Kind {
    /// Spaces and TABs.
    Blank,
    /// LF, or CR LF.
    LineEnd,
    /// `#` and what follows it on its line.
    Comment,
    /// A backslash at the end of a line, with that line end.
    Continuation,
    Identifier,
    WordTrue,
    WordFalse,
    WordIf,
    WordElif,
    WordElse,
    WordEndif,
    WordAnd,
    WordOr,
    WordNot,
    WordIn,
    WordForeach,
    WordEndforeach,
    WordBreak,
    WordContinue,
    Integer,
    /// A string between single quotes.
    PlainString,
    /// A string between three quotes.
    MultilineString,
    /// A string between single quotes after an `f`.
    FormatString,
    /// A string between three quotes after an `f`.
    FormatMultilineString,
    OpenRound,
    CloseRound,
    OpenSquare,
    CloseSquare,
    OpenCurly,
    CloseCurly,
    Comma,
    Dot,
    Colon,
    Question,
    Plus,
    Minus,
    Star,
    Slash,
    Percent,
    Assign,
    PlusAssign,
    Equal,
    NotEqual,
    Less,
    LessEqual,
    Greater,
    GreaterEqual,
}

/// A stretch of a build file, with what it is.
#[derive(Clone, Copy, Debug, PartialEq, Eq)]
pub struct Item {
    pub kind: Kind,
    pub span: Span,
}
