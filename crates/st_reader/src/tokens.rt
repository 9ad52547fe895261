//! The lexer: it cuts a text into tokens.
ghost use Rattle.std.specs.Prelude.{◌≡◌, ◌++◌, ◌<◌, ◌≤◌, length, drop, false, IfSome, IfOk, IfErr, OnOk, MatchOption};
ghost use Rattle.std.specs.List.{list_all};
ghost use Rattle.st_classes.specs.declared.refusals.Refusal.TheVariants.{NoMemory};
ghost use Rattle.st_classes.specs.Selectors.{is_letter, is_digit};
ghost use Rattle.st_reader.specs.Pieces.{begins, begins_equals, begins_colon, begins_fraction};
ghost use Rattle.st_reader.specs.Tokens.{StopsAt, CutsOneWay, Token, token_fits};
ghost use Rattle.st_reader.specs.Lexer.{comment, keyword_more, word_front, number_front, binary_more, keywords_length, symbol_length, mark_of, mark_front, front};
ghost use Rattle.st_reader.specs.Lexemes.{tokens_of, text_at, piece_lexemes, lexeme_fits, Cuts};

use crate::characters;
use crate::trees::Span;
use st_classes::refusals::Refusal;
use st_classes::{limits, selectors};
use std::alloc::Global;

/// The characters that are tokens by themselves.
#[derive(Clone, Copy, PartialEq, Eq, Debug)]
pub enum Mark {
    OpenParenthesis,
    CloseParenthesis,
    OpenBlock,
    CloseBlock,
    Caret,
    Period,
    Semicolon,
    Bar,
}

/// The kind of a token.
#[derive(Clone, Copy, PartialEq, Eq, Debug)]
pub enum Kind {
    Identifier,
    /// An identifier with a colon directly after it.
    Keyword,
    /// `:=`
    Assign,
    Binary,
    /// Decimal digits. A minus before them is a separate token.
    Number,
    Symbol,
    Mark(Mark),
}

/// What is at the front of a text: a byte of white space, a comment, or a token.
#[derive(Clone, Copy, PartialEq, Eq, Debug)]
pub enum Piece {
    White,
    Comment,
    Token(Kind),
}

/// A token, by its span in a source.
#[derive(Clone, Copy, PartialEq, Eq, Debug)]
pub struct Lexeme {
    pub kind: Kind,
    pub span: Span,
}

/// The tokens of a source up to the first place where none begins, and that place, if there is one.
#[derive(Drop)]
pub struct Tokens {
    pub lexemes: Vec<Lexeme>,
    pub stop: Option<u16>,
}

/// A law: no text is cut into tokens in two ways.
pub fn one_cut()
    ensures { CutsOneWay }
{}

/// The bytes of a source in a span, as far as it has them.
pub fn text(source: &[u8], place: Span) -> &[u8]
    ensures { result.now ≡ text_at source.now place }
{
    let start = usize::from(place.start).min(source.len());
    let after = &source[start..];
    let long = usize::from(place.end.saturating_sub(place.start));
    &after[..long.min(after.len())]
}

/// The bytes of a symbol, without its `#`.
pub fn symbol_text(source: &[u8], place: Span) -> &[u8]
    ensures { result.now ≡ drop 1 (text_at source.now place) }
{
    match text(source, place) {
        [_, symbol @ ..] => symbol,
        [] => &[],
    }
}

/// A comment, after its opening quote.
fn comment(rest: &[u8]) -> Option<(Piece, usize)>
    ensures { result ≡ comment rest.now }
{
    let length = characters::unquoted_length(rest);
    (length < rest.len()).then_some((Piece::Comment, length + 1))
}

fn begins_letter(text: &[u8]) -> bool
    ensures { result ≡ begins is_letter text.now }
{
    match text {
        [first, ..] => selectors::is_letter(*first),
        [] => false,
    }
}

fn begins_digit(text: &[u8]) -> bool
    ensures { result ≡ begins is_digit text.now }
{
    match text {
        [first, ..] => selectors::is_digit(*first),
        [] => false,
    }
}

fn begins_equals(text: &[u8]) -> bool
    ensures { result ≡ begins_equals text.now }
{
    match text {
        [first, ..] => *first == b'=',
        [] => false,
    }
}

/// Whether a text starts with a period and a digit.
fn begins_fraction(text: &[u8]) -> bool
    ensures { result ≡ begins_fraction text.now }
{
    match text {
        [first, rest @ ..] => *first == b'.' && begins_digit(rest),
        [] => false,
    }
}

/// Whether a text starts with a colon that is not part of a `:=`.
fn begins_colon(text: &[u8]) -> bool
    ensures { result ≡ begins_colon text.now }
{
    match text {
        [first, rest @ ..] => *first == b':' && !begins_equals(rest),
        [] => false,
    }
}

/// The number of bytes of a keyword after its first letter. `None` if no colon follows the identifier.
fn keyword_more(rest: &[u8]) -> Option<usize>
    ensures value { result ≡ keyword_more rest.now }
    ensures within { IfSome result (λ n. n ≤ length rest.now) }
{
    let length = characters::word_length(rest);
    begins_colon(&rest[length..]).then_some(length + 1)
}

/// An identifier or a keyword, after its first letter.
fn word_front(rest: &[u8]) -> (Kind, usize)
    ensures value { result ≡ word_front rest.now }
    ensures within { result.1 ≤ length rest.now }
{
    match keyword_more(rest) {
        Some(more) => (Kind::Keyword, more),
        None => (Kind::Identifier, characters::word_length(rest)),
    }
}

/// A number, after its first digit.
fn number_front(rest: &[u8]) -> Option<(Piece, usize)>
    ensures value { result ≡ number_front rest.now }
    ensures within { IfSome result (λ x. x.1 ≤ length rest.now) }
{
    let length = characters::digits_length(rest);
    let after = &rest[length..];
    if begins_letter(after) || begins_fraction(after) {
        return None;
    }
    Some((Piece::Token(Kind::Number), length))
}

/// The number of bytes of a binary selector after its first character.
fn binary_more(rest: &[u8]) -> usize
    ensures value { result ≡ binary_more rest.now }
    ensures within { result ≤ length rest.now }
{
    match rest {
        [second, ..] if selectors::is_binary_character(*second) && *second != b'-' => 1,
        _ => 0,
    }
}

/// The number of bytes of the keywords at the front. `None` if an identifier without a colon ends them.
fn keywords_length(text: &[u8]) -> Option<usize>
    ensures value { result ≡ keywords_length false text.now }
    ensures within { IfSome result (λ n. n ≤ length text.now) }
{
    let mut length = 0;
    while begins_letter(&text[length..]) {
        let more = keyword_more(&text[length + 1..])?;
        length += more + 1;
    }
    Some(length)
}

/// The number of bytes of a symbol after its `#`.
fn symbol_length(rest: &[u8]) -> Option<usize>
    ensures value { result ≡ symbol_length rest.now }
    ensures within { IfSome result (λ n. n ≤ length rest.now) }
{
    let [first, more @ ..] = rest else {
        return None;
    };
    if selectors::is_letter(*first) {
        match keyword_more(more) {
            Some(_) => keywords_length(rest),
            None => Some(characters::word_length(rest)),
        }
    } else if selectors::is_binary_character(*first) {
        Some(binary_more(more) + 1)
    } else {
        None
    }
}

fn mark_of(b: u8) -> Option<Mark>
    ensures { result ≡ mark_of b }
{
    match b {
        b'(' => Some(Mark::OpenParenthesis),
        b')' => Some(Mark::CloseParenthesis),
        b'[' => Some(Mark::OpenBlock),
        b']' => Some(Mark::CloseBlock),
        b'^' => Some(Mark::Caret),
        b'.' => Some(Mark::Period),
        b';' => Some(Mark::Semicolon),
        b'|' => Some(Mark::Bar),
        _ => None,
    }
}

/// A `:=` or a mark, from its first byte and what follows.
fn mark_front(first: u8, rest: &[u8]) -> Option<(Piece, usize)>
    ensures value { result ≡ mark_front first rest.now }
    ensures within { IfSome result (λ x. x.1 ≤ length rest.now) }
{
    if first == b':' && begins_equals(rest) {
        return Some((Piece::Token(Kind::Assign), 1));
    }
    let mark = mark_of(first)?;
    Some((Piece::Token(Kind::Mark(mark)), 0))
}

/// The piece at the front of a text, and the number of its bytes after the first. `None` if no piece begins there.
fn front(text: &[u8]) -> Option<(Piece, usize)>
    ensures value { result ≡ front text.now }
    ensures within { IfSome result (λ x. x.1 < length text.now) }
{
    let [first, rest @ ..] = text else {
        return None;
    };
    if characters::is_white(*first) {
        Some((Piece::White, 0))
    } else if *first == b'"' {
        comment(rest)
    } else if selectors::is_letter(*first) {
        let (kind, more) = word_front(rest);
        Some((Piece::Token(kind), more))
    } else if selectors::is_digit(*first) {
        number_front(rest)
    } else if selectors::is_binary_character(*first) {
        Some((Piece::Token(Kind::Binary), binary_more(rest)))
    } else if *first == b'#' {
        let length = symbol_length(rest)?;
        Some((Piece::Token(Kind::Symbol), length))
    } else {
        mark_front(*first, rest)
    }
}

/// Adds the token of a piece, if it has one.
fn put(lexemes: &mut Vec<Lexeme>, piece: Piece, span: Span) -> Result<(), Refusal>
    ensures ok { OnOk result (lexemes.new.items ≡ lexemes.old.items ++ piece_lexemes piece span) }
    ensures err { IfErr result (λ e. e ≡ NoMemory) }
{
    if let Piece::Token(kind) = piece {
        let Ok(()) = lexemes.push(Lexeme { kind, span }) else {
            return Err(Refusal::NoMemory);
        };
    }
    Ok(())
}

/// Cuts a text into its tokens, from the left. Each is as long as it can be.
///
/// If the cut reaches the end, these are the tokens of the text, and there is no other way to cut it. If it stops early, the text
/// has no cut: these are the tokens before the stop, and none begins there. The only refusal is `NoMemory`.
pub fn cut(alloc: Global, source: &[u8]) -> Result<Tokens, Refusal>
    requires { length source.now ≤ 4096 }
    ensures ok { IfOk result (λ c. Cuts source.now c) }
    ensures stops { IfOk result (λ c. IfSome c.stop (λ place. StopsAt source.now (tokens_of source.now c.lexemes.items) place)) }
    ensures err { IfErr result (λ e. e ≡ NoMemory) }
{
    let mut lexemes = Vec::new(alloc);
    let mut rest = source;
    let mut start = 0u16;
    while rest.len() > 0 {
        let Some((piece, more)) = front(rest) else {
            return Ok(Tokens {
                lexemes,
                stop: Some(start),
            });
        };
        let end = start + (more + 1) as u16;
        put(&mut lexemes, piece, Span { start, end })?;
        let (_, after) = rest.split_at(more + 1);
        rest = after;
        start = end;
    }
    Ok(Tokens {
        lexemes,
        stop: None,
    })
}

/// Whether a token is within its limits.
#[tactic(auto, unfolding(crate::specs::Lexemes::lexeme_fits))]
pub fn fits(source: &[u8], lexeme: Lexeme) -> bool
    ensures { result ≡ lexeme_fits source.now lexeme }
{
    match lexeme.kind {
        Kind::Identifier => text(source, lexeme.span).len() <= limits::IDENTIFIER,
        Kind::Keyword => text(source, lexeme.span).len() <= limits::IDENTIFIER + 1,
        Kind::Symbol => selectors::arity_of(symbol_text(source, lexeme.span)).is_some(),
        _ => true,
    }
}

/// Whether each token is within its limits: an identifier has at most 64 bytes, a keyword one more for its colon, and a symbol is a
/// selector.
pub fn fit(source: &[u8], lexemes: &[Lexeme]) -> bool
    ensures { result ≡ list_all token_fits (tokens_of source.now lexemes.now) }
{
    lexemes.iter().all(|lexeme| fits(source, *lexeme))
}
