//! Trees. They hold no text: the text of a node is the source's slice at its span.
//!
//! The rules are those of the Syntax page of the Meson manual.

use crate::boxed::Boxed;
use crate::operator::{Assignment, Operator, StringKind, UnaryOperator};
use meson_lex::Span;
use meson_values::Many;

/// An expression.
#[cycle(tree)]
pub enum Expr {
    /// A variable.
    Identifier(Span),
    /// `true` or `false`.
    Boolean {
        span: Span,
        value: bool,
    },
    /// A number, as it is written.
    Integer(Span),
    /// A string, with its quotes.
    String {
        span: Span,
        kind: StringKind,
    },
    /// An expression in round brackets.
    Paren {
        span: Span,
        inside: Boxed<Expr>,
    },
    /// Expressions in square brackets.
    Array(List),
    /// Keys and values in curly brackets.
    Dictionary(List),
    /// A function's name and its arguments, from the name to the closing bracket.
    Call {
        span: Span,
        name: Span,
        arguments: List,
    },
    /// `not` or `-` before an expression.
    Unary {
        span: Span,
        operator: UnaryOperator,
        operand: Boxed<Expr>,
    },
    /// Two operands or more with operators of one precedence between them, read from the left.
    Row {
        span: Span,
        first: Boxed<Expr>,
        rest: Many<Operand>,
    },
    /// An expression with the method calls and indexes after it.
    Postfix {
        span: Span,
        base: Boxed<Expr>,
        tails: Many<Tail>,
    },
    /// `condition ? yes : no`.
    Conditional {
        span: Span,
        condition: Boxed<Expr>,
        yes: Boxed<Expr>,
        no: Boxed<Expr>,
    },
}

/// An operator, and the operand after it.
#[cycle(tree)]
pub struct Operand {
    pub operator: Operator,
    pub value: Expr,
}

/// What is after an expression that has a method called or is indexed.
#[cycle(tree)]
pub enum Tail {
    /// A method call, from its dot to its closing bracket.
    Method {
        span: Span,
        name: Span,
        arguments: List,
    },
    /// An index, from bracket to bracket.
    Index {
        span: Span,
        index: Expr,
    },
}

/// An element of a list.
#[cycle(tree)]
pub enum Arg {
    /// An element of an array, or a positional argument of a call.
    Plain(Expr),
    /// A keyword argument of a call, from its name to the end of its value.
    Named {
        span: Span,
        name: Span,
        value: Expr,
    },
    /// An entry of a dictionary, from its key to the end of its value.
    Pair {
        span: Span,
        key: Boxed<Expr>,
        value: Boxed<Expr>,
    },
}

/// The elements between two brackets, from bracket to bracket.
#[cycle(tree)]
pub struct List {
    pub items: Many<Arg>,
    /// Whether a comma is after the last element.
    pub trailing: bool,
    pub span: Span,
}

/// A statement.
#[cycle(statements)]
pub enum Stmt {
    /// An expression by itself.
    Expr(Expr),
    /// A variable and the value that it gets or that is added to it, from the variable to the end of the value.
    Assign {
        span: Span,
        name: Span,
        assignment: Assignment,
        value: Expr,
    },
    /// From `if` to `endif`: a branch for `if` and for each `elif`, and the block after `else`.
    If {
        span: Span,
        branches: Many<Branch>,
        otherwise: Option<Block>,
    },
    /// From `foreach` to `endforeach`: the variables, what they run through, and the body.
    Foreach {
        span: Span,
        names: Many<Span>,
        items: Expr,
        body: Block,
    },
    /// `break`.
    Break(Span),
    /// `continue`.
    Continue(Span),
}

/// A condition and the statements after it.
#[cycle(statements)]
pub struct Branch {
    pub condition: Expr,
    pub block: Block,
}

/// Statements one after another, from the first to the last. If there are none it is empty, at the end of the token before its line end.
#[cycle(statements)]
pub struct Block {
    pub statements: Many<Stmt>,
    pub span: Span,
}

/// A whole file, from its first byte to its last.
pub struct Parsed {
    pub block: Block,
    pub span: Span,
}

// ---- drops
//
// Each drop is written by hand: dropping a tree or a part of it is then one call, and these functions are proved here alone. A derived one is expanded in
// place, variant by variant, and is proved anew in each crate that drops a part.

impl Drop for Expr {
    #[cycle(tree)]
    fn drop(self) {
        match self {
            Expr::Identifier(_) => {}
            Expr::Boolean { span: _, value: _ } => {}
            Expr::Integer(_) => {}
            Expr::String { span: _, kind: _ } => {}
            Expr::Paren { span: _, inside: _ } => {}
            Expr::Array(_) => {}
            Expr::Dictionary(_) => {}
            Expr::Call {
                span: _,
                name: _,
                arguments: _,
            } => {}
            Expr::Unary {
                span: _,
                operator: _,
                operand: _,
            } => {}
            Expr::Row {
                span: _,
                first: _,
                rest: _,
            } => {}
            Expr::Postfix {
                span: _,
                base: _,
                tails: _,
            } => {}
            Expr::Conditional {
                span: _,
                condition: _,
                yes: _,
                no: _,
            } => {}
        }
    }
}

impl Drop for Operand {
    #[cycle(tree)]
    fn drop(self) {
        let Operand {
            operator: _,
            value: _,
        } = self;
    }
}

impl Drop for Tail {
    #[cycle(tree)]
    fn drop(self) {
        match self {
            Tail::Method {
                span: _,
                name: _,
                arguments: _,
            } => {}
            Tail::Index { span: _, index: _ } => {}
        }
    }
}

impl Drop for Arg {
    #[cycle(tree)]
    fn drop(self) {
        match self {
            Arg::Plain(_) => {}
            Arg::Named {
                span: _,
                name: _,
                value: _,
            } => {}
            Arg::Pair {
                span: _,
                key: _,
                value: _,
            } => {}
        }
    }
}

impl Drop for List {
    #[cycle(tree)]
    fn drop(self) {
        let List {
            items: _,
            trailing: _,
            span: _,
        } = self;
    }
}

impl Drop for Stmt {
    #[cycle(statements)]
    fn drop(self) {
        match self {
            Stmt::Expr(_) => {}
            Stmt::Assign {
                span: _,
                name: _,
                assignment: _,
                value: _,
            } => {}
            Stmt::If {
                span: _,
                branches: _,
                otherwise: _,
            } => {}
            Stmt::Foreach {
                span: _,
                names: _,
                items: _,
                body: _,
            } => {}
            Stmt::Break(_) => {}
            Stmt::Continue(_) => {}
        }
    }
}

impl Drop for Branch {
    #[cycle(statements)]
    fn drop(self) {
        let Branch {
            condition: _,
            block: _,
        } = self;
    }
}

impl Drop for Block {
    #[cycle(statements)]
    fn drop(self) {
        let Block {
            statements: _,
            span: _,
        } = self;
    }
}

impl Drop for Parsed {
    fn drop(self) {
        let Parsed { block: _, span: _ } = self;
    }
}
