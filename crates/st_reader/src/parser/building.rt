//! Makes trees from the parts that the parser read.
ghost use Rattle.std.specs.Prelude.{◌≡◌, IfErr, MatchResult, ℕ, List, option_map};
ghost use Rattle.st_reader.specs.Lexemes.{tokens_of, seen, name_at};
ghost use Rattle.st_reader.specs.Syntax.{Message as Shown, send, parenthesis, block};
ghost use Rattle.st_reader.specs.TreeViews.{operand_view, chain_view, message_view, expression_view, statements_view, assigns, thens, last_of, seen_parts, seen_further, seen_sentences, behind_sentences};
ghost use Rattle.st_reader.specs.Parser.{Gives, with_parts, with_further, answered};

use crate::parser::fronts::next;
use crate::parser::leaves::name;
use crate::parser::{Wrong, let_go};
use crate::tokens::{Kind, Lexeme, Mark};
use crate::trees::{Chain, Expression, Message, Name, Operand, Span, Statements, Target};
use st_classes::seq::Seq;
use std::alloc::Global;

/// Adds one message to a chain.
#[tactic(auto, using(crate::proofs::Seen::push_is))]
pub fn push(chain: Chain, message: Message) -> Result<Chain, Wrong>
    ensures { MatchResult result (λ c. chain_view c ≡ send (chain_view chain) (message_view message)) (λ e. e ≡ Wrong.NoMemory) }
{
    let Chain {
        operand,
        mut messages,
    } = chain;
    match messages.push(message) {
        Ok(()) => Ok(Chain { operand, messages }),
        Err(failed) => Err(let_go((operand, messages), Wrong::from(failed))),
    }
}

/// Adds a binary message to a chain. The span is that of its selector.
pub fn push_binary(
    alloc: Global,
    source: &[u8],
    chain: Chain,
    operator: Span,
    argument: Chain,
) -> Result<Chain, Wrong>
    ensures { MatchResult result (λ c. chain_view c ≡ send (chain_view chain) (Shown.binary (name_at source.now operator) (chain_view argument))) (λ e. e ≡ Wrong.NoMemory) }
{
    match name(alloc, source, operator) {
        Ok(selector) => push(chain, Message::Binary(selector, argument)),
        Err(wrong) => Err(let_go((chain, argument), wrong)),
    }
}

/// Adds a keyword message to a chain, if there are keywords.
pub fn with_parts(chain: Chain, parts: Vec<(Name, Chain)>) -> Result<Chain, Wrong>
    ensures { MatchResult result (λ c. chain_view c ≡ with_parts (chain_view chain) (seen_parts parts.items)) (λ e. e ≡ Wrong.NoMemory) }
{
    if parts.is_empty() {
        return Ok(chain);
    }
    push(chain, Message::Keyword(parts))
}

/// Makes a cascade if there are further messages. Their receiver is that of the last message so far.
#[tactic(auto, using(crate::proofs::Seen::none_further, crate::proofs::Seen::further_is, crate::proofs::Seen::chain_expression))]
pub fn with_further(
    targets: Seq<Target>,
    receiver: Chain,
    further: Vec<(Span, Message)>,
) -> Result<Expression, Wrong>
    ensures gives { Gives expression_view result (option_map (assigns targets) (with_further (chain_view receiver) (seen_further further.items))) }
    ensures err { IfErr result (λ e. e ≡ Wrong.NoTree) }
{
    if further.is_empty() {
        return Ok(Expression {
            targets,
            receiver,
            cascade: None,
        });
    }
    let Chain {
        operand,
        mut messages,
    } = receiver;
    let Some(first) = messages.pop() else {
        return Err(Wrong::NoTree);
    };
    Ok(Expression {
        targets,
        receiver: Chain { operand, messages },
        cascade: Some((first, further)),
    })
}

/// Statements that end with an answered expression, and with a period if one follows.
pub fn answered(
    before: Vec<(Expression, Span)>,
    caret: Span,
    last: Expression,
    lexemes: &[Lexeme],
) -> (Statements, &[Lexeme])
    ensures { (source : List ℕ) → seen statements_view source result ≡ behind_sentences (seen_sentences before.items) (answered caret (expression_view last) (tokens_of source lexemes.now)) }
{
    let caret = Some(caret);
    match next(Kind::Mark(Mark::Period), lexemes) {
        Some((period, rest)) => (
            Statements {
                before,
                caret,
                last,
                period: Some(period.span),
            },
            rest,
        ),
        None => (
            Statements {
                before,
                caret,
                last,
                period: None,
            },
            lexemes,
        ),
    }
}

/// Statements that end with an expression.
pub fn unanswered(
    before: Vec<(Expression, Span)>,
    last: Expression,
    period: Option<Span>,
) -> Statements
    ensures { statements_view result ≡ thens (seen_sentences before.items) (last_of None (expression_view last) period) }
{
    Statements {
        before,
        caret: None,
        last,
        period,
    }
}

/// An expression in parentheses.
pub fn parenthesized(
    alloc: Global,
    opening: Span,
    inside: Expression,
    closing: Span,
) -> Result<Operand, Wrong>
    ensures { MatchResult result (λ o. operand_view o ≡ parenthesis opening (expression_view inside) closing) (λ e. e ≡ Wrong.NoMemory) }
{
    match Box::new(alloc, inside) {
        Ok(inside) => Ok(Operand::Parenthesis {
            opening,
            inside,
            closing,
        }),
        Err(failed) => Err(Wrong::from(failed)),
    }
}

/// A block of statements.
#[tactic(auto, using(crate::proofs::Seen::block_is))]
pub fn bracketed(
    alloc: Global,
    opening: Span,
    inside: Statements,
    closing: Span,
) -> Result<Operand, Wrong>
    ensures { MatchResult result (λ o. operand_view o ≡ block opening (statements_view inside) closing) (λ e. e ≡ Wrong.NoMemory) }
{
    match Box::new(alloc, inside) {
        Ok(inside) => Ok(Operand::Block {
            opening,
            inside: Some(inside),
            closing,
        }),
        Err(failed) => Err(Wrong::from(failed)),
    }
}
