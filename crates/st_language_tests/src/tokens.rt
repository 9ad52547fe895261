//! Texts and their tokens, by hand.
use st_classes::limits;
use st_reader::tokens::{Kind, Lexeme, cut};
use std::alloc::Global;
use std::test::*;

/// Texts, the tokens that they are cut into, and where no more begins. A token is a letter for its kind and its text.
const TEXTS: &[(&str, &str, Option<u16>)] = &[
    ("", "", None),
    (" \t\n\r\x0c", "", None),
    ("\"a comment\"\"another\"x\"\"", "ix", None),
    ("x \"open", "ix", Some(2)),
    ("x:=1", "ix a:= n1", None),
    ("a:b", "ka: ib", None),
    ("at:put:", "kat: kput:", None),
    ("a::=1", "ka: a:= n1", None),
    ("a : b", "ia", Some(2)),
    ("3a", "", Some(0)),
    ("3.5", "", Some(0)),
    ("3.", "n3 m.", None),
    ("3. 5", "n3 m. n5", None),
    ("3 .5", "n3 m. n5", None),
    ("-3", "b- n3", None),
    ("-+", "b-+", None),
    ("+-", "b+ b-", None),
    ("+++", "b++ b+", None),
    ("1--1", "n1 b- b- n1", None),
    ("#at", "y#at", None),
    ("#at:put:", "y#at:put:", None),
    ("#at:put", "", Some(0)),
    ("#at:put:=", "", Some(0)),
    ("#at:=", "y#at a:=", None),
    ("#at:3", "y#at: n3", None),
    ("#at: x", "y#at: ix", None),
    ("#+-", "y#+ b-", None),
    ("#++-", "y#++ b-", None),
    ("#3", "", Some(0)),
    ("# a", "", Some(0)),
    (":", "", Some(0)),
    ("= !", "b=", Some(2)),
    ("([^|;.])", "m( m[ m^ m| m; m. m] m)", None),
];

/// The table behind a function without a contract, so that the proof of a test carries none of it.
fn texts() -> &'static [(&'static str, &'static str, Option<u16>)] {
    TEXTS
}

fn letter_of(kind: Kind) -> u8 {
    match kind {
        Kind::Identifier => b'i',
        Kind::Keyword => b'k',
        Kind::Binary => b'b',
        Kind::Number => b'n',
        Kind::Symbol => b'y',
        Kind::Assign => b'a',
        Kind::Mark(_) => b'm',
    }
}

/// Whether a token of a text is this one.
fn is_token(source: &[u8], lexeme: Lexeme, word: &str) -> bool {
    let Some((letter, text)) = word.as_bytes().split_first() else {
        return false;
    };
    let (start, end) = (usize::from(lexeme.span.start), usize::from(lexeme.span.end));
    *letter == letter_of(lexeme.kind) && source.get(start..end) == Some(text)
}

/// Whether a text is cut into just these tokens, up to a place where none begins.
fn is_cut(alloc: Global, source: &[u8], words: &str, stop: Option<u16>) -> bool {
    if source.len() > limits::SOURCE {
        return false;
    }
    let Ok(tokens) = cut(alloc, source) else {
        return false;
    };
    let mut lexemes = tokens.lexemes.iter();
    for word in words.split_ascii_whitespace() {
        match lexemes.next() {
            Some(lexeme) if is_token(source, *lexeme, word) => {}
            _ => return false,
        }
    }
    tokens.stop == stop && lexemes.next().is_none()
}

#[test]
fn tokens_of_texts(rt: HostRuntime) -> Result<(), Fail> {
    for (source, words, stop) in texts() {
        assert!(rt;
            is_cut(rt.alloc(), source.as_bytes(), words, *stop),
            "{source}"
        );
    }
    Ok(())
}
