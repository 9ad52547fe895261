//! Whether an expression is a block or `super` by itself, or another value.
ghost use Rattle.std.specs.Prelude.{◌≡◌, codes};
ghost use Rattle.std.specs.List.{list_any};
ghost use Rattle.std.specs.Str.{bytes_eq};
ghost use Rattle.st_reader.specs.TreeViews.{operand_view, chain_view, expression_view, statements_view, cascaded, seen_cascade};
ghost use Rattle.st_reader.specs.Inlining.{is_block as block, is_loose as loose};
ghost use Rattle.st_reader.specs.WellFormed.{sentences};
ghost use Rattle.st_reader.specs.ExpressionKinds.{expression_kind, name_alone as named};

use crate::trees::{Chain, Expression, Message, Name, Operand, Span, Statements};

/// What an expression is by itself: a block, `super`, or something else.
#[derive(Clone, Copy, PartialEq, Eq, Debug)]
pub enum Alone {
    Block,
    Super,
    Other,
}

fn name_alone(name: &Name) -> Alone
    ensures { result ≡ named (bytes_eq name.now.text (codes "super")) }
{
    if name.text.as_slice() == b"super".as_slice() {
        Alone::Super
    } else {
        Alone::Other
    }
}

/// What an operand is by itself.
pub fn operand_alone(operand: &Operand) -> Alone
    ensures { result ≡ expression_kind (operand_view operand.now) }
{
    match operand {
        Operand::Block { .. } => Alone::Block,
        Operand::Name(name) => name_alone(name),
        Operand::Number { .. } | Operand::Symbol(_) | Operand::Parenthesis { .. } => Alone::Other,
    }
}

/// What an operand with its messages is by itself. If it gets a message, it is neither a block nor `super`.
#[tactic(auto, using(crate::proofs::Alone::chain_plain, crate::proofs::Alone::chain_sent))]
fn chain_alone(chain: &Chain) -> Alone
    ensures { result ≡ expression_kind (chain_view chain.now) }
{
    if chain.messages.is_empty() {
        operand_alone(&chain.operand)
    } else {
        Alone::Other
    }
}

/// Whether a chain is a block by itself.
#[tactic(auto, using(crate::proofs::Alone::block_alone))]
pub(crate) fn is_block(chain: &Chain) -> bool
    ensures { result ≡ block (chain_view chain.now) }
{
    chain_alone(chain) == Alone::Block
}

/// Whether a chain is a block or `super` by itself.
#[tactic(auto, using(crate::proofs::Alone::loose_alone))]
pub(crate) fn is_loose(chain: &Chain) -> bool
    ensures { result ≡ loose (chain_view chain.now) }
{
    chain_alone(chain) != Alone::Other
}

/// What a value is by itself. A cascade is neither a block nor `super`.
pub(crate) fn value_alone(
    receiver: &Chain,
    cascade: &Option<(Message, Vec<(Span, Message)>)>,
) -> Alone
    ensures { result ≡ expression_kind (cascaded (chain_view receiver.now) (seen_cascade cascade.now)) }
{
    match cascade {
        None => chain_alone(receiver),
        Some(_) => Alone::Other,
    }
}

/// What an expression is by itself. An assignment is neither a block nor `super`.
#[tactic(auto, using(crate::proofs::Alone::expression_value, crate::proofs::Alone::expression_assigns))]
pub(crate) fn expression_alone(expression: &Expression) -> Alone
    ensures { result ≡ expression_kind (expression_view expression.now) }
{
    if expression.targets.is_empty() {
        value_alone(&expression.receiver, &expression.cascade)
    } else {
        Alone::Other
    }
}

/// Whether an expression is a block or `super` by itself.
#[tactic(auto, using(crate::proofs::Alone::loose_alone))]
fn is_loose_expression(expression: &Expression) -> bool
    ensures { result ≡ loose (expression_view expression.now) }
{
    expression_alone(expression) != Alone::Other
}

/// Whether a statement before the last one is a block or `super` by itself.
fn is_any_loose(before: &[(Expression, Span)]) -> bool
    ensures { result ≡ list_any (λ s. loose (expression_view s.0)) before.now }
{
    before
        .iter()
        .any(|sentence| is_loose_expression(&sentence.0))
}

/// Whether a statement is a block or `super` by itself.
#[tactic(auto, using(crate::proofs::Alone::loose_sentences))]
pub(crate) fn has_loose_sentence(statements: &Statements) -> bool
    ensures { result ≡ list_any loose (sentences (statements_view statements.now)) }
{
    is_any_loose(&statements.before) || is_loose_expression(&statements.last)
}
