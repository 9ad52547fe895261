//! Emission: the code of a tree, line by line, with the depth of each line.
//!
//! Each function appends. The distance of a jump is filled in after the code that it skips. Each operand comes from at least one
//! line, so a depth never exceeds the number of lines.
ghost use Rattle.std.specs.Prelude.{◌≡◌, ◌+◌, ◌<◌, ◌≤◌, [], ◌∷◌, ◌++◌, length, map, slice_set, IfOk, OnOk, false};
ghost use Rattle.st_reader.specs.Syntax.{send};
ghost use Rattle.st_reader.specs.TreeViews.{operand_view, chain_view, message_view, expression_view, statements_view, parts_of, seen_parts, further_of, seen_further, seen_sentences};
ghost use Rattle.st_reader.specs.Inlining.{is_inlined as inlines, inlining_of_one};
ghost use Rattle.st_reader.specs.ExpressionKinds.{expression_kind, value_of};
ghost use Rattle.st_compile.specs.DraftCode.{line, receiver, return};
ghost use Rattle.st_compile.specs.Equations.{either, loop, inlined, inlining_of, blocks, kept, code, sent, arguments, further_sent, statements_value, body, method_code};
ghost use Rattle.st_compile.specs.DraftViews.{word_of, line_of};
ghost use Rattle.st_compile.specs.DraftGrowth.{arm_code, branch_word, dropped, goes_up, stores};

use crate::words::{Arm, Branch, Line, Sent, Word};
use st_classes::values::Value;
use st_reader::inlining::Inlining;
use st_reader::rules::alone::{Alone, operand_alone};
use st_reader::rules::messages;
use st_reader::trees::{
    Chain, Expression, Message, MethodTree, Name, Operand, Span, Statements, Target,
};
use std::alloc::{AllocError, Global};

/// Whether a message is inlined.
#[tactic(auto, using(crate::proofs::EmittingChains::keyword_is))]
fn is_inlined(receiver: Alone, message: &Message) -> bool
    ensures { (e : _) → expression_kind e ≡ receiver → result ≡ inlines e (message_view message.now) }
{
    match message {
        Message::Keyword(parts) => messages::is_inlined(receiver, parts),
        Message::Unary(_) | Message::Binary(..) => false,
    }
}

/// The code of a method. Its names are not resolved yet.
#[derive(Drop)]
pub struct Draft<'t> {
    pub lines: Vec<Line<'t>>,
}

impl<'t> Draft<'t> {
    /// Appends a line.
    fn put(&mut self, depth: usize, word: Word<'t>) -> Result<(), AllocError>
        ensures code { OnOk result (map line_of self.new.lines.items ≡ map line_of self.old.lines.items ++ line depth (word_of word.entry) ∷ []) }
        ensures longer { OnOk result (length self.old.lines.items + 1 ≡ length self.new.lines.items) }
    {
        self.lines.push(Line { depth, word })?;
        Ok(())
    }

    /// Replaces a line.
    fn patch(&mut self, place: usize, depth: usize, word: Word<'t>)
        requires { place < length self.old.lines.items }
        ensures code { map line_of self.new.lines.items ≡ slice_set (map line_of self.old.lines.items) place (line depth (word_of word.entry)) }
        ensures same_length { length self.old.lines.items ≡ length self.new.lines.items }
    {
        self.lines[place] = Line { depth, word };
    }

    /// The code of an operand.
    #[cycle(emit)]
    fn operand(&mut self, depth: usize, operand: &'t Operand) -> Result<(), AllocError>
        requires { depth ≤ length self.old.lines.items }
        ensures code { OnOk result (map line_of self.new.lines.items ≡ map line_of self.old.lines.items ++ code depth (operand_view operand.now)) }
        ensures longer { OnOk result (length self.old.lines.items < length self.new.lines.items) }
    {
        match operand {
            Operand::Number { value, .. } => self.put(depth, Word::Literal(Value::Int(*value))),
            Operand::Symbol(name) => self.put(depth, Word::Symbol(name)),
            Operand::Name(name) => self.put(depth, Word::Variable(name)),
            Operand::Parenthesis { inside, .. } => self.expression(depth, inside),
            Operand::Block { inside: None, .. } => self.put(depth, Word::Literal(Value::Nil)),
            Operand::Block {
                inside: Some(inside),
                ..
            } => self.statements(depth, inside),
        }
    }

    /// The code of an operand and of the messages that it gets in turn.
    #[cycle(emit)]
    fn chain(&mut self, depth: usize, chain: &'t Chain) -> Result<(), AllocError>
        requires { depth ≤ length self.old.lines.items }
        ensures code { OnOk result (map line_of self.new.lines.items ≡ map line_of self.old.lines.items ++ code depth (chain_view chain.now)) }
        ensures longer { OnOk result (length self.old.lines.items < length self.new.lines.items) }
    {
        let start = self.lines.len();
        self.operand(depth, &chain.operand)?;
        let mut receiver = operand_alone(&chain.operand);
        let messages = chain.messages.as_slice();
        for message in messages {
            self.message(depth, start, receiver, message)?;
            receiver = Alone::Other;
        }
        Ok(())
    }

    /// The code of a message. The code of its receiver is already there; it begins at `start`.
    #[tactic(auto, using(crate::proofs::EmittingChains::goes_up_is))]
    #[cycle(emit)]
    fn message(
        &mut self,
        depth: usize,
        start: usize,
        receiver: Alone,
        message: &'t Message,
    ) -> Result<(), AllocError>
        requires deep { depth < length self.old.lines.items }
        requires begun { start < length self.old.lines.items }
        ensures code { OnOk result ((front : _) (e : _) → expression_kind e ≡ receiver → start ≡ length front → map line_of self.old.lines.items ≡ front ++ code depth e → map line_of self.new.lines.items ≡ front ++ code depth (send e (message_view message.now))) }
        ensures longer { OnOk result (length self.old.lines.items ≤ length self.new.lines.items) }
    {
        if is_inlined(receiver, message) {
            self.inlined(depth, start, message)
        } else {
            self.sent(receiver, depth + 1, message)
        }
    }

    /// The code that sends a message to the topmost of `depth` operands.
    #[cycle(emit)]
    fn sent(
        &mut self,
        receiver: Alone,
        depth: usize,
        message: &'t Message,
    ) -> Result<(), AllocError>
        requires { depth ≤ length self.old.lines.items }
        ensures code { OnOk result (map line_of self.new.lines.items ≡ map line_of self.old.lines.items ++ sent (goes_up receiver) depth (message_view message.now)) }
        ensures longer { OnOk result (length self.old.lines.items < length self.new.lines.items) }
    {
        match message {
            Message::Unary(selector) => self.put(
                depth,
                Word::sent(receiver, Sent::One(selector, 0)),
            ),
            Message::Binary(selector, argument) => {
                self.chain(depth, argument)?;
                self.put(depth + 1, Word::sent(receiver, Sent::One(selector, 1)))
            }
            Message::Keyword(parts) => {
                let parts = parts.as_slice();
                self.arguments(depth, parts)?;
                self.put(
                    depth + parts.len(),
                    Word::sent(receiver, Sent::Keywords(parts)),
                )
            }
        }
    }

    /// The code of the arguments of keywords. Each is pushed above those before it.
    #[cycle(emit)]
    fn arguments(&mut self, depth: usize, parts: &'t [(Name, Chain)]) -> Result<(), AllocError>
        requires { depth ≤ length self.old.lines.items }
        ensures code { OnOk result (map line_of self.new.lines.items ≡ map line_of self.old.lines.items ++ arguments depth (parts_of (seen_parts parts.now))) }
        ensures longer { OnOk result (length self.old.lines.items + length parts.now ≤ length self.new.lines.items) }
    {
        let mut depth = depth;
        for part in parts {
            self.chain(depth, &part.1)?;
            depth += 1;
        }
        Ok(())
    }

    /// The rest of an inlined message, after the code of its receiver, which begins at `start`. It is empty if the message is not
    /// inlined.
    #[cycle(emit)]
    fn inlined(
        &mut self,
        depth: usize,
        start: usize,
        message: &'t Message,
    ) -> Result<(), AllocError>
        requires deep { depth < length self.old.lines.items }
        requires begun { start < length self.old.lines.items }
        ensures code { OnOk result ((front : _) (r : _) → start ≡ length front → map line_of self.old.lines.items ≡ front ++ r → map line_of self.new.lines.items ≡ front ++ inlined depth (inlining_of (message_view message.now)) r (blocks depth (message_view message.now))) }
        ensures longer { OnOk result (length self.old.lines.items ≤ length self.new.lines.items) }
    {
        let Message::Keyword(parts) = message else {
            return Ok(());
        };
        match parts.as_slice() {
            [(keyword, block)] => self.one_block(depth, start, keyword, block),
            [(first, one), (second, other)] => {
                match Inlining::of_two(first.text.as_slice(), second.text.as_slice()) {
                    Some(Inlining::IfTrueIfFalse) => {
                        self.either(depth, Branch::IfFalse, Arm::Block(one), Arm::Block(other))
                    }
                    Some(Inlining::IfFalseIfTrue) => {
                        self.either(depth, Branch::IfTrue, Arm::Block(one), Arm::Block(other))
                    }
                    _ => Ok(()),
                }
            }
            _ => Ok(()),
        }
    }

    /// The same for a message with one keyword.
    #[cycle(emit)]
    fn one_block(
        &mut self,
        depth: usize,
        start: usize,
        keyword: &Name,
        block: &'t Chain,
    ) -> Result<(), AllocError>
        requires deep { depth < length self.old.lines.items }
        requires begun { start < length self.old.lines.items }
        ensures code { OnOk result ((front : _) (r : _) → start ≡ length front → map line_of self.old.lines.items ≡ front ++ r → map line_of self.new.lines.items ≡ front ++ inlined depth (inlining_of_one keyword.now.text) r (code depth (chain_view block.now) ∷ [])) }
        ensures longer { OnOk result (length self.old.lines.items ≤ length self.new.lines.items) }
    {
        let arm = Arm::Block(block);
        let nil = Arm::Plain(Value::Nil);
        let falsity = Arm::Plain(Value::Bool(false));
        let truth = Arm::Plain(Value::Bool(true));
        match Inlining::of_one(keyword.text.as_slice()) {
            Some(Inlining::IfTrue) => self.either(depth, Branch::IfFalse, arm, nil),
            Some(Inlining::IfFalse) => self.either(depth, Branch::IfTrue, arm, nil),
            Some(Inlining::And) => self.either(depth, Branch::IfFalse, arm, falsity),
            Some(Inlining::Or) => self.either(depth, Branch::IfTrue, arm, truth),
            Some(Inlining::WhileTrue) => self.repeated(depth, start, Branch::IfFalse, block),
            Some(Inlining::WhileFalse) => self.repeated(depth, start, Branch::IfTrue, block),
            _ => Ok(()),
        }
    }

    /// The code of two arms. The first runs if the branch is not taken, the other if it is.
    #[cycle(emit)]
    fn either(
        &mut self,
        depth: usize,
        branch: Branch,
        first: Arm<'t>,
        other: Arm<'t>,
    ) -> Result<(), AllocError>
        requires { depth < length self.old.lines.items }
        ensures code { OnOk result (map line_of self.new.lines.items ≡ either (branch_word branch) depth (map line_of self.old.lines.items) (arm_code depth first.entry) (arm_code depth other.entry)) }
        ensures longer { OnOk result (length self.old.lines.items ≤ length self.new.lines.items) }
    {
        let fork = self.lines.len();
        self.put(depth + 1, branch.over(0))?;
        self.arm(depth, first)?;
        let end = self.lines.len();
        self.put(depth + 1, Word::Jump(0))?;
        self.arm(depth, other)?;
        let passed = self.lines.len() - end - 1;
        self.patch(fork, depth + 1, branch.over(end - fork));
        self.patch(end, depth + 1, Word::Jump(passed));
        Ok(())
    }

    /// The code of an arm.
    #[cycle(emit)]
    fn arm(&mut self, depth: usize, arm: Arm<'t>) -> Result<(), AllocError>
        requires { depth ≤ length self.old.lines.items }
        ensures code { OnOk result (map line_of self.new.lines.items ≡ map line_of self.old.lines.items ++ arm_code depth arm.entry) }
        ensures longer { OnOk result (length self.old.lines.items < length self.new.lines.items) }
    {
        match arm {
            Arm::Block(block) => self.chain(depth, block),
            Arm::Plain(value) => self.put(depth, Word::Literal(value)),
        }
    }

    /// The body of a loop, after its condition, which begins at `start`. It is repeated until the branch is taken.
    #[cycle(emit)]
    fn repeated(
        &mut self,
        depth: usize,
        start: usize,
        branch: Branch,
        body: &'t Chain,
    ) -> Result<(), AllocError>
        requires deep { depth < length self.old.lines.items }
        requires begun { start < length self.old.lines.items }
        ensures code { OnOk result ((front : _) (c : _) → start ≡ length front → map line_of self.old.lines.items ≡ front ++ c → map line_of self.new.lines.items ≡ front ++ loop (branch_word branch) depth c (code depth (chain_view body.now))) }
        ensures longer { OnOk result (length self.old.lines.items ≤ length self.new.lines.items) }
    {
        let fork = self.lines.len();
        let valued = depth + 1;
        self.put(valued, branch.over(0))?;
        self.chain(depth, body)?;
        self.put(valued, Word::Drop)?;
        let end = self.lines.len();
        self.put(depth, Word::Back(end - start + 1))?;
        self.put(depth, Word::Literal(Value::Nil))?;
        self.patch(fork, valued, branch.over(end - fork));
        Ok(())
    }

    /// The code that sends a message, drops its answer and keeps the receiver.
    #[cycle(emit)]
    fn kept(&mut self, depth: usize, message: &'t Message) -> Result<(), AllocError>
        requires { depth ≤ length self.old.lines.items }
        ensures code { OnOk result (map line_of self.new.lines.items ≡ map line_of self.old.lines.items ++ kept depth (sent false (depth + 1) (message_view message.now))) }
        ensures longer { OnOk result (length self.old.lines.items < length self.new.lines.items) }
    {
        self.put(depth, Word::Repeat)?;
        self.sent(Alone::Other, depth + 1, message)?;
        self.put(depth + 1, Word::Drop)
    }

    /// The further messages of a cascade.
    #[cycle(emit)]
    fn further(&mut self, depth: usize, messages: &'t [(Span, Message)]) -> Result<(), AllocError>
        requires { depth ≤ length self.old.lines.items }
        ensures code { OnOk result (map line_of self.new.lines.items ≡ map line_of self.old.lines.items ++ further_sent depth (further_of (seen_further messages.now))) }
        ensures longer { OnOk result (length self.old.lines.items ≤ length self.new.lines.items) }
    {
        let Some((last, before)) = messages.split_last() else {
            return Ok(());
        };
        for message in before {
            self.kept(depth, &message.1)?;
        }
        self.sent(Alone::Other, depth, &last.1)
    }

    /// Stores the topmost operand in variables, the last one first.
    fn stores(&mut self, depth: usize, targets: &'t [Target]) -> Result<(), AllocError>
        ensures code { OnOk result (map line_of self.new.lines.items ≡ map line_of self.old.lines.items ++ stores depth targets.now) }
        ensures longer { OnOk result (length self.old.lines.items ≤ length self.new.lines.items) }
    {
        let mut left = targets;
        while let Some((last, rest)) = left.split_last() {
            self.put(depth, Word::Store(&last.name))?;
            left = rest;
        }
        Ok(())
    }

    /// The code of an expression's value, before it is stored.
    #[cycle(emit)]
    fn value(&mut self, depth: usize, expression: &'t Expression) -> Result<(), AllocError>
        requires { depth ≤ length self.old.lines.items }
        ensures code { OnOk result (map line_of self.new.lines.items ≡ map line_of self.old.lines.items ++ code depth (value_of expression.now)) }
        ensures longer { OnOk result (length self.old.lines.items < length self.new.lines.items) }
    {
        self.chain(depth, &expression.receiver)?;
        match &expression.cascade {
            None => Ok(()),
            Some((first, further)) => {
                self.kept(depth + 1, first)?;
                self.further(depth + 1, further)
            }
        }
    }

    /// The code of an expression.
    #[cycle(emit)]
    fn expression(&mut self, depth: usize, expression: &'t Expression) -> Result<(), AllocError>
        requires { depth ≤ length self.old.lines.items }
        ensures code { OnOk result (map line_of self.new.lines.items ≡ map line_of self.old.lines.items ++ code depth (expression_view expression.now)) }
        ensures longer { OnOk result (length self.old.lines.items < length self.new.lines.items) }
    {
        self.value(depth, expression)?;
        self.stores(depth + 1, expression.targets.as_slice())
    }

    /// The code of statements whose values are dropped.
    #[cycle(emit)]
    fn dropped(
        &mut self,
        depth: usize,
        sentences: &'t [(Expression, Span)],
    ) -> Result<(), AllocError>
        requires { depth ≤ length self.old.lines.items }
        ensures code { OnOk result (map line_of self.new.lines.items ≡ map line_of self.old.lines.items ++ dropped depth (seen_sentences sentences.now)) }
        ensures longer { OnOk result (length self.old.lines.items ≤ length self.new.lines.items) }
    {
        for sentence in sentences {
            self.expression(depth, &sentence.0)?;
            self.put(depth + 1, Word::Drop)?;
        }
        Ok(())
    }

    /// The code of a block's statements. It leaves their value.
    #[cycle(emit)]
    fn statements(&mut self, depth: usize, statements: &'t Statements) -> Result<(), AllocError>
        requires { depth ≤ length self.old.lines.items }
        ensures code { OnOk result (map line_of self.new.lines.items ≡ map line_of self.old.lines.items ++ statements_value depth (statements_view statements.now)) }
        ensures longer { OnOk result (length self.old.lines.items < length self.new.lines.items) }
    {
        self.dropped(depth, statements.before.as_slice())?;
        self.expression(depth, &statements.last)?;
        match statements.caret {
            None => Ok(()),
            Some(_) => self.put(depth + 1, Word::Return),
        }
    }

    /// The code that answers the receiver.
    fn answer_receiver(&mut self) -> Result<(), AllocError>
        ensures { OnOk result (map line_of self.new.lines.items ≡ map line_of self.old.lines.items ++ line 0 receiver ∷ line 1 return ∷ []) }
    {
        self.put(0, Word::Receiver)?;
        self.put(1, Word::Return)
    }

    /// The code of a method's statements.
    fn body(&mut self, statements: &'t Statements) -> Result<(), AllocError>
        ensures { OnOk result (map line_of self.new.lines.items ≡ map line_of self.old.lines.items ++ body (statements_view statements.now)) }
    {
        self.dropped(0, statements.before.as_slice())?;
        self.expression(0, &statements.last)?;
        match statements.caret {
            None => {
                self.put(1, Word::Drop)?;
                self.answer_receiver()
            }
            Some(_) => self.put(1, Word::Return),
        }
    }

    fn method(&mut self, tree: &'t MethodTree) -> Result<(), AllocError>
        ensures { OnOk result (map line_of self.new.lines.items ≡ map line_of self.old.lines.items ++ method_code tree.now.syntax) }
    {
        match tree.body() {
            None => self.answer_receiver(),
            Some(statements) => self.body(statements),
        }
    }

    /// The code of a method.
    pub fn of_method(alloc: Global, tree: &'t MethodTree) -> Result<Draft<'t>, AllocError>
        ensures { IfOk result (λ draft. map line_of draft.lines.items ≡ method_code tree.now.syntax) }
    {
        let mut draft = Draft {
            lines: Vec::new(alloc),
        };
        draft.method(tree)?;
        Ok(draft)
    }
}
