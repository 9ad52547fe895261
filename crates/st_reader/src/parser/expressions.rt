//! Reads operands, messages, expressions and statements, with one function for each form of the grammar.
ghost use Rattle.std.specs.Prelude.{◌≡◌, length, map, MatchResult};
ghost use Rattle.st_reader.specs.Lexemes.{tokens_of, seen};
ghost use Rattle.st_reader.specs.TreeViews.{operand_view, chain_view, message_view, expression_view, statements_view, sends, seen_parts, seen_further};
ghost use Rattle.st_reader.specs.Parser.{Gives, unaries_of, targets_of, operand_of, term_of, binary_of, keyword_parts_of, message_of, further_messages_of, expression_of, filled_block_with, group_of, block_of, statements_with};

use crate::parser::building::{
    answered, bracketed, parenthesized, push_binary, unanswered, with_further, with_parts,
};
use crate::parser::fronts::{block_end, is_end, next, next_target, parenthesis_end};
use crate::parser::leaves::{name, negative, number, symbol};
use crate::parser::{Parsed, Wrong, let_go};
use crate::tokens::{Kind, Lexeme, Mark, text};
use crate::trees::{Chain, Expression, Message, Name, Operand, Span, Statements, Target};
use st_classes::limits;
use st_classes::seq::Seq;
use std::alloc::Global;

/// The unary messages at the front.
fn unaries<'t>(alloc: Global, source: &[u8], lexemes: &'t [Lexeme]) -> Parsed<'t, Vec<Message>>
    ensures { MatchResult result (λ x. (e : _) → unaries_of e (tokens_of source.now lexemes.now) ≡ (sends e (map message_view x.0.items), tokens_of source.now x.1.now)) (λ e. e ≡ Wrong.NoMemory) }
{
    let mut messages = Vec::new(alloc);
    let mut rest = lexemes;
    while let Some((first, after)) = next(Kind::Identifier, rest) {
        let selector = name(alloc, source, first.span)?;
        match messages.push(Message::Unary(selector)) {
            Ok(()) => rest = after,
            Err(failed) => return Err(Wrong::from(failed)),
        }
    }
    Ok((messages, rest))
}

/// The variables at the front that are assigned to.
fn targets<'t>(alloc: Global, source: &[u8], lexemes: &'t [Lexeme]) -> Parsed<'t, Seq<Target>>
    ensures { MatchResult result (λ x. targets_of (tokens_of source.now lexemes.now) ≡ (x.0, tokens_of source.now x.1.now)) (λ e. e ≡ Wrong.NoMemory) }
{
    let mut targets = Vec::new(alloc);
    let mut rest = lexemes;
    while let Some((variable, assign, after)) = next_target(rest) {
        let name = name(alloc, source, variable.span)?;
        match targets.push(Target { name, assign }) {
            Ok(()) => rest = after,
            Err(failed) => return Err(Wrong::from(failed)),
        }
    }
    Ok((Seq::from_vec(targets), rest))
}

/// An operand. Brackets may nest `nesting` deep in it.
#[cycle(read)]
fn operand<'t>(
    alloc: Global,
    source: &[u8],
    nesting: u8,
    lexemes: &'t [Lexeme],
) -> Parsed<'t, Operand>
    ensures { Gives (seen operand_view source.now) result (operand_of (group_of nesting) (block_of nesting) (tokens_of source.now lexemes.now)) }
{
    let [first, rest @ ..] = lexemes else {
        return Err(Wrong::NoTree);
    };
    match first.kind {
        Kind::Identifier => Ok((Operand::Name(name(alloc, source, first.span)?), rest)),
        Kind::Symbol => Ok((Operand::Symbol(symbol(alloc, source, first.span)?), rest)),
        Kind::Number => Ok((number(source, None, first.span)?, rest)),
        Kind::Binary if text(source, first.span) == b"-".as_slice() => negative(
            source, first.span, rest,
        ),
        Kind::Mark(Mark::OpenParenthesis) => group(alloc, source, nesting, first.span, rest),
        Kind::Mark(Mark::OpenBlock) => block(alloc, source, nesting, first.span, rest),
        _ => Err(Wrong::NoTree),
    }
}

/// An expression in parentheses, after the opening one.
#[tactic(auto, unfolding(crate::specs::Parser::group_with))]
#[cycle(read)]
fn group<'t>(
    alloc: Global,
    source: &[u8],
    nesting: u8,
    opening: Span,
    lexemes: &'t [Lexeme],
) -> Parsed<'t, Operand>
    ensures { Gives (seen operand_view source.now) result (group_of nesting opening (tokens_of source.now lexemes.now)) }
{
    if nesting == 0 {
        return Err(Wrong::NoTree);
    }
    let (inside, rest) = expression(alloc, source, nesting - 1, lexemes)?;
    match parenthesis_end(rest) {
        Ok((closing, rest)) => Ok((parenthesized(alloc, opening, inside, closing)?, rest)),
        Err(wrong) => Err(let_go(inside, wrong)),
    }
}

/// A block, after its opening bracket.
#[tactic(auto, unfolding(crate::specs::Parser::block_with))]
#[cycle(read)]
fn block<'t>(
    alloc: Global,
    source: &[u8],
    nesting: u8,
    opening: Span,
    lexemes: &'t [Lexeme],
) -> Parsed<'t, Operand>
    ensures { Gives (seen operand_view source.now) result (block_of nesting opening (tokens_of source.now lexemes.now)) }
{
    if nesting == 0 {
        return Err(Wrong::NoTree);
    }
    if let Some((closing, rest)) = next(Kind::Mark(Mark::CloseBlock), lexemes) {
        return Ok((
            Operand::Block {
                opening,
                inside: None,
                closing: closing.span,
            },
            rest,
        ));
    }
    filled_block(alloc, source, nesting - 1, opening, lexemes)
}

/// A block with statements, after its opening bracket. Brackets may nest `nesting` deep in it.
#[tactic(auto, unfolding(crate::specs::Parser::filled_block_with))]
#[cycle(read)]
fn filled_block<'t>(
    alloc: Global,
    source: &[u8],
    nesting: u8,
    opening: Span,
    lexemes: &'t [Lexeme],
) -> Parsed<'t, Operand>
    ensures { Gives (seen operand_view source.now) result (filled_block_with (expression_of nesting) opening (tokens_of source.now lexemes.now)) }
{
    let (inside, rest) = statements(alloc, source, nesting, lexemes)?;
    match block_end(rest) {
        Ok((closing, rest)) => Ok((bracketed(alloc, opening, inside, closing)?, rest)),
        Err(wrong) => Err(let_go(inside, wrong)),
    }
}

/// An operand and its unary messages.
#[tactic(auto, unfolding(crate::specs::Parser::term_of))]
#[cycle(read)]
fn term<'t>(alloc: Global, source: &[u8], nesting: u8, lexemes: &'t [Lexeme]) -> Parsed<'t, Chain>
    ensures { Gives (seen chain_view source.now) result (term_of (group_of nesting) (block_of nesting) (tokens_of source.now lexemes.now)) }
{
    let (operand, rest) = operand(alloc, source, nesting, lexemes)?;
    match unaries(alloc, source, rest) {
        Ok((messages, rest)) => Ok((Chain { operand, messages }, rest)),
        Err(wrong) => Err(let_go(operand, wrong)),
    }
}

/// A term and its binary messages.
#[cycle(read)]
fn binary<'t>(alloc: Global, source: &[u8], nesting: u8, lexemes: &'t [Lexeme]) -> Parsed<'t, Chain>
    ensures { Gives (seen chain_view source.now) result (binary_of (group_of nesting) (block_of nesting) (tokens_of source.now lexemes.now)) }
{
    let (mut chain, mut rest) = term(alloc, source, nesting, lexemes)?;
    while let Some((operator, after)) = next(Kind::Binary, rest) {
        let (argument, behind) = term(alloc, source, nesting, after)?;
        chain = push_binary(alloc, source, chain, operator.span, argument)?;
        rest = behind;
    }
    Ok((chain, rest))
}

/// Keywords with their arguments, at most eight.
#[cycle(read)]
fn parts<'t>(
    alloc: Global,
    source: &[u8],
    nesting: u8,
    lexemes: &'t [Lexeme],
) -> Parsed<'t, Vec<(Name, Chain)>>
    ensures { Gives (seen (λ v. seen_parts v.items) source.now) result (keyword_parts_of (group_of nesting) (block_of nesting) 8 (tokens_of source.now lexemes.now)) }
{
    let mut parts = Vec::new(alloc);
    let mut rest = lexemes;
    while let Some((keyword, after)) = next(Kind::Keyword, rest) {
        if parts.len() >= limits::ARGUMENTS {
            return Err(Wrong::NoTree);
        }
        let (argument, behind) = binary(alloc, source, nesting, after)?;
        let keyword = name(alloc, source, keyword.span)?;
        match parts.push((keyword, argument)) {
            Ok(()) => rest = behind,
            Err(failed) => return Err(Wrong::from(failed)),
        }
    }
    Ok((parts, rest))
}

/// A single message.
#[tactic(auto, unfolding(crate::specs::Parser::message_of))]
#[cycle(read)]
fn message<'t>(
    alloc: Global,
    source: &[u8],
    nesting: u8,
    lexemes: &'t [Lexeme],
) -> Parsed<'t, Message>
    ensures { Gives (seen message_view source.now) result (message_of (group_of nesting) (block_of nesting) (tokens_of source.now lexemes.now)) }
{
    let [first, rest @ ..] = lexemes else {
        return Err(Wrong::NoTree);
    };
    match first.kind {
        Kind::Identifier => Ok((Message::Unary(name(alloc, source, first.span)?), rest)),
        Kind::Binary => {
            let (argument, rest) = term(alloc, source, nesting, rest)?;
            match name(alloc, source, first.span) {
                Ok(selector) => Ok((Message::Binary(selector, argument), rest)),
                Err(wrong) => Err(let_go(argument, wrong)),
            }
        }
        Kind::Keyword => {
            let (parts, rest) = parts(alloc, source, nesting, lexemes)?;
            Ok((Message::Keyword(parts), rest))
        }
        _ => Err(Wrong::NoTree),
    }
}

/// The messages after semicolons.
#[cycle(read)]
fn further<'t>(
    alloc: Global,
    source: &[u8],
    nesting: u8,
    lexemes: &'t [Lexeme],
) -> Parsed<'t, Vec<(Span, Message)>>
    ensures { Gives (seen (λ v. seen_further v.items) source.now) result (further_messages_of (group_of nesting) (block_of nesting) (length (tokens_of source.now lexemes.now)) (tokens_of source.now lexemes.now)) }
{
    let mut further = Vec::new(alloc);
    let mut rest = lexemes;
    while let Some((semicolon, after)) = next(Kind::Mark(Mark::Semicolon), rest) {
        let (message, behind) = message(alloc, source, nesting, after)?;
        match further.push((semicolon.span, message)) {
            Ok(()) => rest = behind,
            Err(failed) => return Err(Wrong::from(failed)),
        }
    }
    Ok((further, rest))
}

/// An expression. Brackets may nest `nesting` deep in it.
#[cycle(read)]
fn expression<'t>(
    alloc: Global,
    source: &[u8],
    nesting: u8,
    lexemes: &'t [Lexeme],
) -> Parsed<'t, Expression>
    ensures { Gives (seen expression_view source.now) result (expression_of nesting (tokens_of source.now lexemes.now)) }
{
    let (targets, rest) = targets(alloc, source, lexemes)?;
    let (chain, rest) = binary(alloc, source, nesting, rest)?;
    let (parts, rest) = parts(alloc, source, nesting, rest)?;
    let receiver = with_parts(chain, parts)?;
    let (further, rest) = further(alloc, source, nesting, rest)?;
    Ok((with_further(targets, receiver, further)?, rest))
}

/// Statements. Brackets may nest `nesting` deep in their expressions.
#[cycle(read)]
pub fn statements<'t>(
    alloc: Global,
    source: &[u8],
    nesting: u8,
    lexemes: &'t [Lexeme],
) -> Parsed<'t, Statements>
    ensures { Gives (seen statements_view source.now) result (statements_with (expression_of nesting) (length (tokens_of source.now lexemes.now)) (tokens_of source.now lexemes.now)) }
{
    let mut before = Vec::new(alloc);
    let mut rest = lexemes;
    loop {
        if let Some((caret, after)) = next(Kind::Mark(Mark::Caret), rest) {
            let (last, behind) = expression(alloc, source, nesting, after)?;
            return Ok(answered(before, caret.span, last, behind));
        }
        let (sentence, after) = expression(alloc, source, nesting, rest)?;
        let Some((period, behind)) = next(Kind::Mark(Mark::Period), after) else {
            return Ok((unanswered(before, sentence, None), after));
        };
        if is_end(behind) {
            return Ok((unanswered(before, sentence, Some(period.span)), behind));
        }
        match before.push((sentence, period.span)) {
            Ok(()) => rest = behind,
            Err(failed) => return Err(Wrong::from(failed)),
        }
    }
}
