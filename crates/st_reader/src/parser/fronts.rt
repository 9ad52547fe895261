//! Looks at the first tokens: their kinds, and what ends a group, a block or statements.
ghost use Rattle.std.specs.Prelude.{◌≡◌, ◌∷◌, MatchOption, IfErr, ℕ, List};
ghost use Rattle.st_reader.specs.Lexemes.{tokens_of, Lacks, LacksTarget, IsTarget, seen};
ghost use Rattle.st_reader.specs.Parser.{Gives, parenthesis_end, block_end, is_end};

use crate::parser::Wrong;
use crate::tokens::{Kind, Lexeme, Mark};
use crate::trees::Span;

/// The first token and those after it, if it is of a given kind.
pub fn next(kind: Kind, lexemes: &[Lexeme]) -> Option<(Lexeme, &[Lexeme])>
    ensures { MatchOption result (Lacks kind lexemes.now) (λ x. (lexemes.now ≡ x.0 ∷ x.1.now) × (x.0.kind ≡ kind)) }
{
    let (first, rest) = lexemes.split_first()?;
    (first.kind == kind).then_some((*first, rest))
}

/// The variable and the `:=` at the front, and the tokens after them, if they are there.
pub fn next_target(lexemes: &[Lexeme]) -> Option<(Lexeme, Span, &[Lexeme])>
    ensures { MatchOption result (LacksTarget lexemes.now) (λ x. IsTarget lexemes.now x.0 x.1 x.2.now) }
{
    let (variable, rest) = next(Kind::Identifier, lexemes)?;
    let (assign, rest) = next(Kind::Assign, rest)?;
    Some((variable, assign.span, rest))
}

/// The parenthesis that closes a group, and the tokens after it.
pub fn parenthesis_end(lexemes: &[Lexeme]) -> Result<(Span, &[Lexeme]), Wrong>
    ensures gives { (source : List ℕ) → Gives (seen (λ place. place) source) result (parenthesis_end (tokens_of source lexemes.now)) }
    ensures err { IfErr result (λ e. e ≡ Wrong.NoTree) }
{
    match lexemes {
        [closing, rest @ ..] if closing.kind == Kind::Mark(Mark::CloseParenthesis) => {
            Ok((closing.span, rest))
        }
        _ => Err(Wrong::NoTree),
    }
}

/// The bracket that closes a block, and the tokens after it.
pub fn block_end(lexemes: &[Lexeme]) -> Result<(Span, &[Lexeme]), Wrong>
    ensures gives { (source : List ℕ) → Gives (seen (λ place. place) source) result (block_end (tokens_of source lexemes.now)) }
    ensures err { IfErr result (λ e. e ≡ Wrong.NoTree) }
{
    match lexemes {
        [closing, rest @ ..] if closing.kind == Kind::Mark(Mark::CloseBlock) => Ok((
            closing.span,
            rest,
        )),
        _ => Err(Wrong::NoTree),
    }
}

/// Whether statements end here.
pub fn is_end(lexemes: &[Lexeme]) -> bool
    ensures { (source : List ℕ) → result ≡ is_end (tokens_of source lexemes.now) }
{
    match lexemes {
        [] => true,
        [first, ..] => first.kind == Kind::Mark(Mark::CloseBlock),
    }
}
