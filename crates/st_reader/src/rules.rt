//! The rules beyond the grammar: where blocks and `super` may be, what may be assigned to, and how variables may be named.
ghost use Rattle.std.specs.Prelude.{◌≡◌, true, map, option_map};
ghost use Rattle.std.specs.List.{list_all};
ghost use Rattle.st_reader.specs.TreeViews.{operand_view, chain_view, message_view, expression_view, statements_view, method_view, sends, parts_of, further_of, seen_parts, seen_further};
ghost use Rattle.st_reader.specs.Syntax.{Expression as Shown};
ghost use Rattle.st_reader.specs.ExpressionKinds.{expression_kind};
ghost use Rattle.st_reader.specs.Variables.{argument_texts};
ghost use Rattle.st_reader.specs.WellFormed.{allowed, message_allowed as message_passes, parts_allowed as parts_pass, further_allowed as further_pass, statements_allowed as statements_pass, body_allowed as body_passes, keeps_rules as keeps};

pub mod alone;
mod assignments;
pub mod messages;
mod variables;

use crate::rules::alone::{Alone, expression_alone, has_loose_sentence, operand_alone};
use crate::rules::assignments::may_assign;
use crate::rules::messages::cascade_stands;
use crate::rules::variables::are_variables;
use crate::trees::{
    Chain, Expression, Message, MethodSyntax, Name, Operand, Pattern, Span, Statements,
};

/// Whether all expressions in an operand are allowed.
#[cycle(rules)]
fn operand_allowed(pattern: &Pattern, operand: &Operand) -> bool
    ensures { result ≡ allowed (argument_texts pattern.now) (operand_view operand.now) }
{
    match operand {
        Operand::Number { .. } | Operand::Symbol(_) | Operand::Name(_) => true,
        Operand::Parenthesis { inside, .. } => {
            expression_alone(inside) == Alone::Other && expression_allowed(pattern, inside)
        }
        Operand::Block { inside: None, .. } => true,
        Operand::Block {
            inside: Some(inside),
            ..
        } => !has_loose_sentence(inside) && statements_allowed(pattern, inside),
    }
}

/// Whether all expressions in the arguments of keywords are allowed.
#[cycle(rules)]
fn parts_allowed(pattern: &Pattern, parts: &[(Name, Chain)]) -> bool
    ensures { result ≡ parts_pass (argument_texts pattern.now) (parts_of (seen_parts parts.now)) }
{
    for part in parts {
        if !chain_allowed(pattern, &part.1) {
            return false;
        }
    }
    true
}

/// Whether all expressions in a message are allowed.
#[tactic(auto, using(crate::proofs::Messages::keyword_is, crate::proofs::Messages::unary_is, crate::proofs::Messages::binary_is))]
#[cycle(rules)]
fn message_allowed(pattern: &Pattern, message: &Message) -> bool
    ensures { result ≡ message_passes (argument_texts pattern.now) (message_view message.now) }
{
    match message {
        Message::Unary(_) => true,
        Message::Binary(_, argument) => chain_allowed(pattern, argument),
        Message::Keyword(parts) => parts_allowed(pattern, parts),
    }
}

/// Whether all expressions are allowed when messages go to a receiver that is allowed.
#[cycle(rules)]
fn messages_allowed(pattern: &Pattern, receiver: Alone, messages: &[Message]) -> bool
    ensures { (e : Shown) → expression_kind e ≡ receiver → allowed (argument_texts pattern.now) e ≡ true → result ≡ allowed (argument_texts pattern.now) (sends e (map message_view messages.now)) }
{
    let mut receiver = receiver;
    for message in messages {
        if !messages::stands(receiver, message) || !message_allowed(pattern, message) {
            return false;
        }
        receiver = Alone::Other;
    }
    true
}

/// Whether all expressions in an operand and its messages are allowed.
#[tactic(auto, using(crate::proofs::Allowed::chain_fails))]
#[cycle(rules)]
fn chain_allowed(pattern: &Pattern, chain: &Chain) -> bool
    ensures { result ≡ allowed (argument_texts pattern.now) (chain_view chain.now) }
{
    operand_allowed(pattern, &chain.operand)
        && messages_allowed(pattern, operand_alone(&chain.operand), &chain.messages)
}

/// Whether all expressions in the messages after semicolons are allowed.
#[cycle(rules)]
fn further_allowed(pattern: &Pattern, further: &[(Span, Message)]) -> bool
    ensures { result ≡ further_pass (argument_texts pattern.now) (further_of (seen_further further.now)) }
{
    for message in further {
        if !message_allowed(pattern, &message.1) {
            return false;
        }
    }
    true
}

/// Whether all expressions in an expression are allowed, itself included.
#[tactic(auto, using(crate::proofs::Allowed::expression_fails, crate::proofs::Allowed::receiver_fails, crate::proofs::Allowed::plain_allowed))]
#[cycle(rules)]
fn expression_allowed(pattern: &Pattern, expression: &Expression) -> bool
    ensures { result ≡ allowed (argument_texts pattern.now) (expression_view expression.now) }
{
    if !may_assign(pattern, expression) || !chain_allowed(pattern, &expression.receiver) {
        return false;
    }
    let Some((first, further)) = &expression.cascade else {
        return true;
    };
    if !cascade_stands(&expression.receiver, first, further) {
        return false;
    }
    message_allowed(pattern, first) && further_allowed(pattern, further)
}

/// Whether all expressions in the statements before the last one are allowed.
#[cycle(rules)]
fn sentences_allowed(pattern: &Pattern, before: &[(Expression, Span)]) -> bool
    ensures { result ≡ list_all (λ s. allowed (argument_texts pattern.now) (expression_view s.0)) before.now }
{
    for sentence in before {
        if !expression_allowed(pattern, &sentence.0) {
            return false;
        }
    }
    true
}

/// Whether all expressions in statements are allowed.
#[tactic(auto, using(crate::proofs::Allowed::statements_rows))]
#[cycle(rules)]
fn statements_allowed(pattern: &Pattern, statements: &Statements) -> bool
    ensures { result ≡ statements_pass (argument_texts pattern.now) (statements_view statements.now) }
{
    sentences_allowed(pattern, &statements.before) && expression_allowed(pattern, &statements.last)
}

/// Whether all expressions in a method's statements are allowed, and no statement is a block or `super` by itself.
fn body_allowed(pattern: &Pattern, body: &Option<Statements>) -> bool
    ensures { result ≡ body_passes (argument_texts pattern.now) (option_map statements_view body.now) }
{
    match body {
        None => true,
        Some(statements) => {
            !has_loose_sentence(statements) && statements_allowed(pattern, statements)
        }
    }
}

/// Whether a method keeps the rules.
pub(crate) fn keeps_rules(syntax: &MethodSyntax) -> bool
    ensures { result ≡ keeps (method_view syntax.now) }
{
    are_variables(&syntax.pattern, &syntax.temporaries)
        && body_allowed(&syntax.pattern, &syntax.body)
}
