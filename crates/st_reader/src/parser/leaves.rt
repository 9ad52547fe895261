//! Reads the leaves of trees: names, symbols and numbers.
ghost use Rattle.std.specs.Prelude.{◌≡◌, IfErr, MatchResult};
ghost use Rattle.st_reader.specs.Lexemes.{tokens_of, seen, text_at, name_at, symbol_at};
ghost use Rattle.st_reader.specs.Tokens.{digits_value};
ghost use Rattle.st_reader.specs.TreeViews.{operand_view};
ghost use Rattle.st_reader.specs.Parser.{Gives, literal_of, negative_of};

use crate::characters;
use crate::parser::{Parsed, Wrong};
use crate::tokens::{Kind, Lexeme, text};
use crate::trees::{Name, Operand, Span};
use st_classes::seq::Seq;
use std::alloc::Global;

/// The name at a span.
pub fn name(alloc: Global, source: &[u8], span: Span) -> Result<Name, Wrong>
    ensures { MatchResult result (λ n. n ≡ name_at source.now span) (λ e. e ≡ Wrong.NoMemory) }
{
    let Ok(text) = Vec::from_slice(alloc, text(source, span)) else {
        return Err(Wrong::NoMemory);
    };
    Ok(Name {
        text: Seq::from_vec(text),
        span,
    })
}

/// The name of a symbol, without its `#`.
pub fn symbol(alloc: Global, source: &[u8], span: Span) -> Result<Name, Wrong>
    ensures { MatchResult result (λ n. n ≡ symbol_at source.now span) (λ e. e ≡ Wrong.NoMemory) }
{
    let whole = text(source, span);
    let Ok(text) = Vec::from_slice(alloc, &whole[whole.len().min(1)..]) else {
        return Err(Wrong::NoMemory);
    };
    Ok(Name {
        text: Seq::from_vec(text),
        span,
    })
}

/// A number: its digits, and its minus if it has one.
pub fn number(source: &[u8], minus: Option<Span>, digits: Span) -> Result<Operand, Wrong>
    ensures gives { Gives operand_view result (literal_of minus (digits_value (text_at source.now digits)) digits) }
    ensures err { IfErr result (λ e. e ≡ Wrong.NoTree) }
{
    let Some(magnitude) = characters::digits_value(text(source, digits)) else {
        return Err(Wrong::NoTree);
    };
    let value = match minus {
        None => 0i64.checked_add_unsigned(magnitude),
        Some(_) => 0i64.checked_sub_unsigned(magnitude),
    };
    match value {
        Some(value) => Ok(Operand::Number {
            value,
            span: digits,
            minus,
        }),
        None => Err(Wrong::NoTree),
    }
}

/// The digits directly after a minus.
pub fn negative<'t>(source: &[u8], minus: Span, lexemes: &'t [Lexeme]) -> Parsed<'t, Operand>
    ensures gives { Gives (seen operand_view source.now) result (negative_of minus (tokens_of source.now lexemes.now)) }
    ensures err { IfErr result (λ e. e ≡ Wrong.NoTree) }
{
    match lexemes {
        [digits, rest @ ..] if digits.kind == Kind::Number && digits.span.start == minus.end => {
            Ok((number(source, Some(minus), digits.span)?, rest))
        }
        _ => Err(Wrong::NoTree),
    }
}
