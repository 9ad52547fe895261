//! From tokens to trees: a recursive descent with one function for each form of the grammar.
ghost use Rattle.std.specs.Prelude.{◌≡◌, option_map};
ghost use Rattle.st_reader.specs.Lexemes.{tokens_of};
ghost use Rattle.st_reader.specs.TreeViews.{statements_view, method_view};
ghost use Rattle.st_reader.specs.Parser.{Gives, body_of, method_of};

mod building;
mod expressions;
mod fronts;
mod leaves;
mod patterns;

use crate::parser::expressions::statements;
use crate::parser::patterns::{pattern, temporaries};
use crate::tokens::Lexeme;
use crate::trees::{MethodSyntax, Statements};
use st_classes::limits;
use std::alloc::{AllocFailed, Global};

/// Why there is no tree.
#[derive(Clone, Copy, PartialEq, Eq)]
pub enum Wrong {
    NoTree,
    NoMemory,
}

impl<T: Drop> From<AllocFailed<T>> for Wrong {
    fn from(_failed: AllocFailed<T>) -> Wrong
        ensures { result ≡ Wrong.NoMemory }
    {
        Wrong::NoMemory
    }
}

/// Drops what was read so far when the rest cannot be read, and answers the error. Large values are dropped in this one place, not
/// on each path that gives up.
pub(crate) fn let_go<T: Drop, E>(_read: T, error: E) -> E
    ensures { result ≡ error }
{
    error
}

/// What was read, and the tokens after it.
type Parsed<'t, T> = Result<(T, &'t [Lexeme]), Wrong>;

/// The statements of a method, up to the end.
#[tactic(auto, unfolding(crate::specs::Parser::body_of))]
fn body(alloc: Global, source: &[u8], lexemes: &[Lexeme]) -> Result<Option<Statements>, Wrong>
    ensures { Gives (λ b. option_map statements_view b) result (body_of (tokens_of source.now lexemes.now)) }
{
    if lexemes.is_empty() {
        return Ok(None);
    }
    let (statements, rest) = statements(alloc, source, limits::NESTING, lexemes)?;
    if rest.is_empty() {
        Ok(Some(statements))
    } else {
        Err(let_go(statements, Wrong::NoTree))
    }
}

/// The method whose tokens are those of a whole source.
#[tactic(auto, unfolding(crate::specs::Parser::method_of))]
pub(crate) fn method(
    alloc: Global,
    source: &[u8],
    lexemes: &[Lexeme],
) -> Result<MethodSyntax, Wrong>
    ensures { Gives method_view result (method_of (tokens_of source.now lexemes.now)) }
{
    let (pattern, rest) = pattern(alloc, source, lexemes)?;
    match temporaries(alloc, source, rest) {
        Ok((temporaries, rest)) => match body(alloc, source, rest) {
            Ok(body) => Ok(MethodSyntax {
                pattern,
                temporaries,
                body,
            }),
            Err(wrong) => Err(let_go((pattern, temporaries), wrong)),
        },
        Err(wrong) => Err(let_go(pattern, wrong)),
    }
}
