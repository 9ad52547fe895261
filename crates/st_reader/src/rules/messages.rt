//! The rule for blocks and `super` in messages.
ghost use Rattle.std.specs.Prelude.{◌≡◌, ◌&&◌, ◌||◌, not};
ghost use Rattle.std.specs.List.{list_all, list_any};
ghost use Rattle.st_reader.specs.Syntax.{Expression, Message as Shown, keywords, send, cascade};
ghost use Rattle.st_reader.specs.TreeViews.{chain_view, message_view, parts_of, further_of, seen_parts, seen_further};
ghost use Rattle.st_reader.specs.Inlining.{is_block as block, is_loose as loose, inlining, suits_receiver, keyword_names, part_arguments, is_inlined as inlined};
ghost use Rattle.st_reader.specs.WellFormed.{arguments, further_arguments, is_well_placed};
ghost use Rattle.st_reader.specs.ExpressionKinds.{expression_kind};

use crate::inlining::Inlining;
use crate::rules::alone::{Alone, is_block, is_loose};
use crate::trees::{Chain, Message, Name, Span};

#[tactic(auto, using(crate::proofs::Messages::all_blocks))]
fn are_blocks(parts: &[(Name, Chain)]) -> bool
    ensures { result ≡ list_all (λ p. block (chain_view p.1)) parts.now }
{
    parts.iter().all(|part| is_block(&part.1))
}

/// Whether an argument is a block or `super`.
fn is_any_loose(parts: &[(Name, Chain)]) -> bool
    ensures { result ≡ list_any (λ p. loose (chain_view p.1)) parts.now }
{
    parts.iter().any(|part| is_loose(&part.1))
}

/// How a message with these keywords is inlined, if it is.
#[tactic(auto, using(crate::proofs::Messages::inlining_many))]
fn inlining_of(parts: &[(Name, Chain)]) -> Option<Inlining>
    ensures { result ≡ inlining (keyword_names (parts_of (seen_parts parts.now))) }
{
    match parts {
        [one] => Inlining::of_one(one.0.text.as_slice()),
        [one, two] => Inlining::of_two(one.0.text.as_slice(), two.0.text.as_slice()),
        [] | [_, _, _, ..] => None,
    }
}

/// Whether the receiver of an inlined message is of the right sort.
#[tactic(auto, using(crate::proofs::Messages::suits))]
fn suits(receiver: Alone, inlining: Option<Inlining>) -> bool
    ensures { (e : Expression) → expression_kind e ≡ receiver → result ≡ suits_receiver inlining e }
{
    match inlining {
        None => false,
        Some(inlining) if inlining.is_loop() => receiver == Alone::Block,
        Some(_) => receiver == Alone::Other,
    }
}

/// Whether a keyword message is inlined.
#[tactic(auto, using(crate::proofs::Messages::all_blocks))]
pub fn is_inlined(receiver: Alone, parts: &[(Name, Chain)]) -> bool
    ensures { (e : Expression) → expression_kind e ≡ receiver → result ≡ inlined e (keywords (parts_of (seen_parts parts.now))) }
{
    suits(receiver, inlining_of(parts)) && are_blocks(parts)
}

/// Whether a keyword message may go to a receiver.
#[tactic(auto, using(crate::proofs::Messages::any_loose, crate::proofs::Alone::block_alone))]
fn may_send(receiver: Alone, parts: &[(Name, Chain)]) -> bool
    ensures { (e : Expression) → expression_kind e ≡ receiver → result ≡ is_well_placed (send e (keywords (parts_of (seen_parts parts.now)))) }
{
    is_inlined(receiver, parts) || receiver != Alone::Block && !is_any_loose(parts)
}

/// Whether an argument of a message is a block or `super`.
#[tactic(auto, using(crate::proofs::Messages::keyword_is, crate::proofs::Messages::unary_is, crate::proofs::Messages::binary_is, crate::proofs::Messages::any_loose))]
fn has_loose(message: &Message) -> bool
    ensures { result ≡ list_any loose (arguments (message_view message.now)) }
{
    match message {
        Message::Unary(_) => false,
        Message::Binary(_, argument) => is_loose(argument),
        Message::Keyword(parts) => is_any_loose(parts),
    }
}

/// Whether a message may go to a receiver.
#[tactic(auto, using(crate::proofs::Messages::keyword_is, crate::proofs::Messages::unary_is, crate::proofs::Messages::binary_is, crate::proofs::Alone::block_alone))]
pub(crate) fn stands(receiver: Alone, message: &Message) -> bool
    ensures { (e : Expression) → expression_kind e ≡ receiver → result ≡ is_well_placed (send e (message_view message.now)) }
{
    match message {
        Message::Unary(_) => receiver != Alone::Block,
        Message::Binary(_, argument) => receiver != Alone::Block && !is_loose(argument),
        Message::Keyword(parts) => may_send(receiver, parts),
    }
}

/// Whether an argument of the messages after semicolons is a block or `super`.
fn is_any_further_loose(further: &[(Span, Message)]) -> bool
    ensures { result ≡ list_any (λ f. list_any loose (arguments (message_view f.1))) further.now }
{
    further.iter().any(|message| has_loose(&message.1))
}

/// Whether a cascade may go to a receiver.
#[tactic(auto, using(crate::proofs::Messages::further_loose))]
pub(crate) fn cascade_stands(receiver: &Chain, first: &Message, further: &[(Span, Message)]) -> bool
    ensures { result ≡ is_well_placed (cascade (chain_view receiver.now) (message_view first.now) (further_of (seen_further further.now))) }
{
    !is_loose(receiver) && !has_loose(first) && !is_any_further_loose(further)
}
