//! Reads the pattern of a method and its temporaries.
ghost use Rattle.std.specs.Prelude.{◌≡◌, MatchResult};
ghost use Rattle.st_reader.specs.Lexemes.{tokens_of, seen};
ghost use Rattle.st_reader.specs.Parser.{Gives, parameter_of, parameters_of, pattern_of, names_of, temporaries_of};

use crate::parser::fronts::next;
use crate::parser::leaves::name;
use crate::parser::{Parsed, Wrong};
use crate::tokens::{Kind, Lexeme, Mark};
use crate::trees::{Name, Parameter, Pattern, Temporaries};
use st_classes::limits;
use st_classes::seq::Seq;
use std::alloc::Global;

/// The argument after a selector or a keyword of a pattern.
fn parameter<'t>(alloc: Global, source: &[u8], lexemes: &'t [Lexeme]) -> Parsed<'t, Name>
    ensures { Gives (seen (λ n. n) source.now) result (parameter_of (tokens_of source.now lexemes.now)) }
{
    let Some((argument, rest)) = next(Kind::Identifier, lexemes) else {
        return Err(Wrong::NoTree);
    };
    Ok((name(alloc, source, argument.span)?, rest))
}

/// The keywords of a pattern with their arguments, at most eight.
fn parameters<'t>(alloc: Global, source: &[u8], lexemes: &'t [Lexeme]) -> Parsed<'t, Seq<Parameter>>
    ensures { Gives (seen (λ ps. ps) source.now) result (parameters_of 8 (tokens_of source.now lexemes.now)) }
{
    let mut parameters = Vec::new(alloc);
    let mut rest = lexemes;
    while let Some((keyword, after)) = next(Kind::Keyword, rest) {
        if parameters.len() >= limits::ARGUMENTS {
            return Err(Wrong::NoTree);
        }
        let (argument, behind) = parameter(alloc, source, after)?;
        let keyword = name(alloc, source, keyword.span)?;
        match parameters.push(Parameter { keyword, argument }) {
            Ok(()) => rest = behind,
            Err(failed) => return Err(Wrong::from(failed)),
        }
    }
    Ok((Seq::from_vec(parameters), rest))
}

/// The pattern of a method.
#[tactic(auto, unfolding(crate::specs::Parser::pattern_of))]
pub fn pattern<'t>(alloc: Global, source: &[u8], lexemes: &'t [Lexeme]) -> Parsed<'t, Pattern>
    ensures { Gives (seen (λ p. p) source.now) result (pattern_of (tokens_of source.now lexemes.now)) }
{
    let [first, rest @ ..] = lexemes else {
        return Err(Wrong::NoTree);
    };
    match first.kind {
        Kind::Identifier => Ok((Pattern::Unary(name(alloc, source, first.span)?), rest)),
        Kind::Binary => {
            let (argument, rest) = parameter(alloc, source, rest)?;
            let selector = name(alloc, source, first.span)?;
            Ok((Pattern::Binary { selector, argument }, rest))
        }
        Kind::Keyword => {
            let (parameters, rest) = parameters(alloc, source, lexemes)?;
            Ok((Pattern::Keyword(parameters), rest))
        }
        _ => Err(Wrong::NoTree),
    }
}

fn names<'t>(alloc: Global, source: &[u8], lexemes: &'t [Lexeme]) -> Parsed<'t, Seq<Name>>
    ensures { MatchResult result (λ x. names_of (tokens_of source.now lexemes.now) ≡ (x.0, tokens_of source.now x.1.now)) (λ e. e ≡ Wrong.NoMemory) }
{
    let mut names = Vec::new(alloc);
    let mut rest = lexemes;
    while let Some((first, after)) = next(Kind::Identifier, rest) {
        let name = name(alloc, source, first.span)?;
        match names.push(name) {
            Ok(()) => rest = after,
            Err(failed) => return Err(Wrong::from(failed)),
        }
    }
    Ok((Seq::from_vec(names), rest))
}

/// The temporaries, if there are bars.
#[tactic(auto, unfolding(crate::specs::Parser::temporaries_of))]
pub fn temporaries<'t>(
    alloc: Global,
    source: &[u8],
    lexemes: &'t [Lexeme],
) -> Parsed<'t, Option<Temporaries>>
    ensures { Gives (seen (λ t. t) source.now) result (temporaries_of (tokens_of source.now lexemes.now)) }
{
    let Some((opening, rest)) = next(Kind::Mark(Mark::Bar), lexemes) else {
        return Ok((None, lexemes));
    };
    let (names, rest) = names(alloc, source, rest)?;
    let Some((closing, rest)) = next(Kind::Mark(Mark::Bar), rest) else {
        return Err(Wrong::NoTree);
    };
    Ok((
        Some(Temporaries {
            opening: opening.span,
            names,
            closing: closing.span,
        }),
        rest,
    ))
}
