//! An expression, read token by token.
ghost use Rattle.std.specs.Prelude.{◌≡◌, IfErr};

use crate::faults::checks::Faults;
use crate::faults::keywords::{Keywords, Selector};
use crate::faults::stop::Stop;
use crate::faults::term::Term;

/// The role of an operand in its expression.
#[derive(Clone, Copy, PartialEq, Eq)]
enum Role {
    /// The first operand, the receiver of the messages.
    Receiver,
    /// After a binary selector.
    BinaryArgument,
    /// After a keyword.
    KeywordArgument,
    /// After a binary selector that follows a semicolon. Neither a binary selector nor a keyword can follow.
    CascadeArgument,
}

/// What has been sent to the first operand.
#[derive(Clone, Copy)]
enum Sent {
    Nothing,
    /// Messages. The last one was sent to this term.
    To(Term),
    Cascade,
}

/// An expression without its assignments, up to the last token that was read.
#[derive(Clone, Copy)]
pub struct Expression {
    sent: Sent,
    keywords: Option<Keywords>,
    role: Role,
    /// The last operand, with its unary messages.
    operand: Term,
}

impl Expression {
    /// A new expression. Nothing of it has been read.
    pub fn new() -> Self {
        Expression {
            sent: Sent::Nothing,
            keywords: None,
            role: Role::Receiver,
            operand: Term::Other,
        }
    }

    /// Reads an operand.
    pub fn operand(&mut self, operand: Term) {
        self.operand = operand;
    }

    /// Reads a unary selector.
    pub fn unary(&mut self, faults: &mut Faults) {
        self.operand.receive(faults);
        if self.role == Role::Receiver {
            self.sent = Sent::To(self.operand);
        }
        self.operand = Term::Other;
    }

    /// The binary expression that ends here. It is a receiver or an argument of keywords, or the whole expression.
    fn binary_expression(&self, faults: &mut Faults) -> Term {
        match self.role {
            Role::Receiver | Role::KeywordArgument => self.operand,
            Role::BinaryArgument | Role::CascadeArgument => {
                self.operand.stand_alone(faults);
                Term::Other
            }
        }
    }

    /// Reads a binary selector.
    pub fn binary(&mut self, faults: &mut Faults) -> Result<(), Stop>
        ensures { IfErr result (λ e. e ≡ Stop.Stuck) }
    {
        if self.role == Role::CascadeArgument {
            return Err(Stop::Stuck);
        }
        let receiver = self.binary_expression(faults);
        receiver.receive(faults);
        if self.keywords.is_none() {
            self.sent = Sent::To(receiver);
        }
        self.role = Role::BinaryArgument;
        Ok(())
    }

    /// Reads a keyword at an offset.
    pub fn keyword(&mut self, keyword: &[u8], offset: u16, faults: &mut Faults) -> Result<(), Stop>
        ensures { IfErr result (λ e. e ≡ Stop.Stuck) }
    {
        if self.role == Role::CascadeArgument {
            return Err(Stop::Stuck);
        }
        let before = self.binary_expression(faults);
        self.keywords = Some(match self.keywords {
            None => {
                self.sent = Sent::To(before);
                Keywords::new(before, Selector::new(keyword))
            }
            Some(mut keywords) => {
                keywords.add_argument(before, faults);
                keywords.add_keyword(keyword, offset, faults);
                keywords
            }
        });
        self.role = Role::KeywordArgument;
        Ok(())
    }

    /// Reads a semicolon.
    pub fn semicolon(&mut self, faults: &mut Faults) -> Result<(), Stop>
        ensures { IfErr result (λ e. e ≡ Stop.Stuck) }
    {
        if let Some(mut keywords) = self.keywords {
            keywords.cascade();
            self.keywords = Some(keywords);
        }
        self.end(faults);
        match self.sent {
            Sent::Nothing => return Err(Stop::Stuck),
            Sent::To(receiver) => receiver.go_without_message(faults),
            Sent::Cascade => {},
        }
        *self = Expression {
            sent: Sent::Cascade,
            ..Expression::new()
        };
        Ok(())
    }

    /// Reads a binary selector after a semicolon.
    pub fn cascade_binary(&mut self) {
        self.role = Role::CascadeArgument;
    }

    /// Reads a keyword after a semicolon.
    pub fn cascade_keyword(&mut self) {
        self.keywords = Some(Keywords::new(Term::Other, Selector::Sent));
        self.role = Role::KeywordArgument;
    }

    /// Ends the expression. Its last operand has been read.
    pub fn end(&self, faults: &mut Faults) {
        let last = self.binary_expression(faults);
        match self.keywords {
            None => last.stand_alone(faults),
            Some(mut keywords) => {
                keywords.add_argument(last, faults);
                keywords.end(faults);
            }
        }
    }

    /// Ends early, after an operand: the rest cannot be read.
    pub fn break_off(&self, faults: &mut Faults) {
        self.operand.go_without_message(faults);
    }
}
