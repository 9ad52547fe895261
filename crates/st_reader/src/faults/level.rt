//! A level: what is between a pair of brackets.
use crate::faults::expression::Expression;

/// The brackets around a level.
#[derive(Clone, Copy, PartialEq, Eq)]
pub enum Bracket {
    /// None: the level is the whole method.
    Method,
    Parenthesis,
    Block,
}

/// What happens to the value of a statement.
#[derive(Clone, Copy)]
pub enum Statement {
    Kept,
    /// The statement has a caret, so it is the last one.
    Answered,
}

/// What was read since an opening bracket. The closing one is still to come.
#[derive(Clone, Copy)]
pub struct Level {
    pub bracket: Bracket,
    pub statement: Statement,
    pub expression: Expression,
}

impl Level {
    /// A new level, after its opening bracket.
    pub fn new(bracket: Bracket) -> Self {
        Level {
            bracket,
            statement: Statement::Kept,
            expression: Expression::new(),
        }
    }

    /// Starts a new expression.
    pub fn begin_expression(&mut self) {
        self.expression = Expression::new();
    }
}
