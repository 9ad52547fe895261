//! The pass over the tokens: an automaton with a list of the open brackets.
ghost use Rattle.std.specs.Prelude.{◌≡◌, ◌≤◌, length, IfErr};

use crate::faults::checks::{Check, Fault, Faults};
use crate::faults::level::{Bracket, Level, Statement};
use crate::faults::names::Names;
use crate::faults::numbers::{self, Sign};
use crate::faults::stop::Stop;
use crate::faults::term::Term;
use crate::tokens::{self, Kind, Lexeme, Mark, Tokens, text};
use crate::trees::Span;
use st_classes::{limits, selectors};
use std::alloc::Global;

/// What may come next.
#[derive(Clone, Copy)]
enum State {
    /// The pattern.
    Pattern,
    /// The argument of a binary pattern.
    BinaryArgument,
    /// The argument of a keyword of the pattern.
    KeywordArgument,
    /// Another keyword of the pattern, or what follows a pattern.
    Keywords,
    /// The temporaries, a statement, or the end.
    Body,
    /// A temporary or the closing bar.
    Temporaries,
    /// A statement or the end of the level.
    Statement,
    /// An expression.
    Expression,
    /// `:=` after this name, or what follows the name as an operand.
    Name(Span),
    /// An operand.
    Operand,
    /// The digits after a minus.
    Digits,
    /// A message or what follows an expression.
    Message,
    /// A message after a semicolon.
    Cascade,
    /// A semicolon or what follows an expression.
    Semicolon,
    /// The end of the level, after the period of an answered expression.
    End,
    /// Nothing: the tokens do not follow the grammar.
    Stuck,
}

impl State {
    /// The check that fails if nothing of this sort comes.
    fn check(self) -> Check {
        match self {
            State::Pattern | State::BinaryArgument | State::KeywordArgument => Check::Pattern,
            _ => Check::Tokens,
        }
    }
}

/// Reads the tokens in order.
#[derive(Drop)]
struct Reader<'s> {
    source: &'s [u8],
    state: State,
    level: Level,
    /// The enclosing levels, the outermost first.
    outer: Vec<Level>,
    names: Names,
    faults: Faults,
}

impl Reader<'_> {
    fn text(&self, name: Lexeme) -> &[u8] {
        text(self.source, name.span)
    }

    fn note(&mut self, check: Check, at: Lexeme) {
        self.faults.note(check, at.span.start);
    }

    /// Whether an identifier can name an argument or a temporary.
    fn is_variable(&self, lexeme: Lexeme) -> bool {
        lexeme.kind == Kind::Identifier && !selectors::begins_upper(self.text(lexeme))
    }

    fn pattern(&self, lexeme: Lexeme) -> Result<State, Stop>
        ensures { IfErr result (λ e. e ≡ Stop.Stuck) }
    {
        match lexeme.kind {
            Kind::Identifier => Ok(State::Body),
            Kind::Binary => Ok(State::BinaryArgument),
            Kind::Keyword => Ok(State::KeywordArgument),
            _ => Err(Stop::Stuck),
        }
    }

    fn argument(&mut self, lexeme: Lexeme, next: State) -> Result<State, Stop> {
        if !self.is_variable(lexeme) {
            return Err(Stop::Stuck);
        }
        self.names
            .add_argument(self.source, lexeme.span, &mut self.faults)?;
        Ok(next)
    }

    fn keywords(&mut self, lexeme: Lexeme) -> Result<State, Stop> {
        if lexeme.kind != Kind::Keyword {
            return self.body(lexeme);
        }
        if self.names.has_all_arguments() {
            self.note(Check::Sizes, lexeme);
        }
        Ok(State::KeywordArgument)
    }

    fn body(&mut self, lexeme: Lexeme) -> Result<State, Stop> {
        match lexeme.kind {
            Kind::Mark(Mark::Bar) => Ok(State::Temporaries),
            _ => self.statement(lexeme),
        }
    }

    fn temporaries(&mut self, lexeme: Lexeme) -> Result<State, Stop> {
        if lexeme.kind == Kind::Mark(Mark::Bar) {
            return Ok(State::Statement);
        }
        if !self.is_variable(lexeme) {
            return Err(Stop::Stuck);
        }
        self.names
            .add_temporary(self.source, lexeme.span, &mut self.faults)?;
        Ok(State::Temporaries)
    }

    fn statement(&mut self, lexeme: Lexeme) -> Result<State, Stop> {
        match lexeme.kind {
            Kind::Mark(Mark::Caret) => {
                self.level.statement = Statement::Answered;
                Ok(State::Expression)
            }
            Kind::Mark(Mark::CloseBlock) => self.close(Bracket::Block),
            _ => self.expression(lexeme),
        }
    }

    fn expression(&mut self, lexeme: Lexeme) -> Result<State, Stop> {
        self.level.begin_expression();
        let state = self.operand(lexeme)?;
        if lexeme.kind == Kind::Identifier {
            Ok(State::Name(lexeme.span))
        } else {
            Ok(state)
        }
    }

    fn name(&mut self, name: Span, lexeme: Lexeme) -> Result<State, Stop>
        ensures { IfErr result (λ e. e ≡ Stop.Stuck) }
    {
        if lexeme.kind != Kind::Assign {
            return self.message(lexeme);
        }
        self.names.assign(self.source, name, &mut self.faults);
        Ok(State::Expression)
    }

    fn operand(&mut self, lexeme: Lexeme) -> Result<State, Stop> {
        match lexeme.kind {
            Kind::Identifier => Ok(self.variable(lexeme)),
            Kind::Number => Ok(self.number(lexeme, Sign::Plain)),
            Kind::Symbol => Ok(self.value(Term::Other)),
            Kind::Binary if self.is_minus_of_digits(lexeme) => Ok(State::Digits),
            Kind::Mark(Mark::OpenParenthesis) => {
                self.open(Bracket::Parenthesis, lexeme, Term::Other)?;
                Ok(State::Expression)
            }
            Kind::Mark(Mark::OpenBlock) => {
                self.open(Bracket::Block, lexeme, Term::Block(lexeme.span.start))?;
                Ok(State::Statement)
            }
            _ => Err(Stop::Stuck),
        }
    }

    fn value(&mut self, operand: Term) -> State {
        self.level.expression.operand(operand);
        State::Message
    }

    fn variable(&mut self, name: Lexeme) -> State {
        if self.text(name) == b"super".as_slice() {
            self.value(Term::Super(name.span.start))
        } else {
            self.value(Term::Other)
        }
    }

    fn number(&mut self, digits: Lexeme, sign: Sign) -> State {
        if numbers::is_out_of_range(self.source, digits.span, sign) {
            self.note(Check::Sizes, digits);
        }
        self.value(Term::Other)
    }

    /// Whether a binary selector is a minus with a digit directly after it.
    fn is_minus_of_digits(&self, lexeme: Lexeme) -> bool {
        let behind = self.source.get(usize::from(lexeme.span.end));
        self.text(lexeme) == b"-".as_slice() && behind.is_some_and(|b| selectors::is_digit(*b))
    }

    fn digits(&mut self, lexeme: Lexeme) -> Result<State, Stop>
        ensures { IfErr result (λ e. e ≡ Stop.Stuck) }
    {
        if lexeme.kind != Kind::Number {
            return Err(Stop::Stuck);
        }
        Ok(self.number(lexeme, Sign::Minus))
    }

    fn message(&mut self, lexeme: Lexeme) -> Result<State, Stop>
        ensures { IfErr result (λ e. e ≡ Stop.Stuck) }
    {
        match lexeme.kind {
            Kind::Identifier => {
                self.level.expression.unary(&mut self.faults);
                Ok(State::Message)
            }
            Kind::Binary => {
                self.level.expression.binary(&mut self.faults)?;
                Ok(State::Operand)
            }
            Kind::Keyword => {
                let keyword = text(self.source, lexeme.span);
                self.level
                    .expression
                    .keyword(keyword, lexeme.span.start, &mut self.faults)?;
                Ok(State::Operand)
            }
            _ => self.semicolon(lexeme),
        }
    }

    fn semicolon(&mut self, lexeme: Lexeme) -> Result<State, Stop>
        ensures { IfErr result (λ e. e ≡ Stop.Stuck) }
    {
        if lexeme.kind != Kind::Mark(Mark::Semicolon) {
            return self.expression_end(lexeme);
        }
        self.level.expression.semicolon(&mut self.faults)?;
        Ok(State::Cascade)
    }

    fn cascade(&mut self, lexeme: Lexeme) -> Result<State, Stop>
        ensures { IfErr result (λ e. e ≡ Stop.Stuck) }
    {
        match lexeme.kind {
            Kind::Identifier => Ok(State::Semicolon),
            Kind::Binary => {
                self.level.expression.cascade_binary();
                Ok(State::Operand)
            }
            Kind::Keyword => {
                self.level.expression.cascade_keyword();
                Ok(State::Operand)
            }
            _ => Err(Stop::Stuck),
        }
    }

    fn expression_end(&mut self, lexeme: Lexeme) -> Result<State, Stop>
        ensures { IfErr result (λ e. e ≡ Stop.Stuck) }
    {
        self.level.expression.end(&mut self.faults);
        match lexeme.kind {
            Kind::Mark(Mark::Period) => self.period(),
            Kind::Mark(Mark::CloseParenthesis) => self.close(Bracket::Parenthesis),
            Kind::Mark(Mark::CloseBlock) => self.close(Bracket::Block),
            _ => Err(Stop::Stuck),
        }
    }

    fn period(&self) -> Result<State, Stop>
        ensures { IfErr result (λ e. e ≡ Stop.Stuck) }
    {
        match (self.level.bracket, self.level.statement) {
            (Bracket::Parenthesis, _) => Err(Stop::Stuck),
            (_, Statement::Kept) => Ok(State::Statement),
            (_, Statement::Answered) => Ok(State::End),
        }
    }

    fn end(&mut self, lexeme: Lexeme) -> Result<State, Stop>
        ensures { IfErr result (λ e. e ≡ Stop.Stuck) }
    {
        match lexeme.kind {
            Kind::Mark(Mark::CloseBlock) => self.close(Bracket::Block),
            _ => Err(Stop::Stuck),
        }
    }

    /// Opens a bracket. The bracketed part is an operand of the enclosing level.
    fn open(&mut self, bracket: Bracket, opening: Lexeme, operand: Term) -> Result<(), Stop> {
        self.level.expression.operand(operand);
        self.outer.push(self.level)?;
        if self.outer.len() > usize::from(limits::NESTING) {
            self.note(Check::Nesting, opening);
        }
        self.level = Level::new(bracket);
        Ok(())
    }

    fn close(&mut self, bracket: Bracket) -> Result<State, Stop>
        ensures { IfErr result (λ e. e ≡ Stop.Stuck) }
    {
        if self.level.bracket != bracket {
            return Err(Stop::Stuck);
        }
        let Some(level) = self.outer.pop() else {
            return Err(Stop::Stuck);
        };
        self.level = level;
        Ok(State::Message)
    }

    fn step(&mut self, lexeme: Lexeme) -> Result<State, Stop> {
        match self.state {
            State::Pattern => self.pattern(lexeme),
            State::BinaryArgument => self.argument(lexeme, State::Body),
            State::KeywordArgument => self.argument(lexeme, State::Keywords),
            State::Keywords => self.keywords(lexeme),
            State::Body => self.body(lexeme),
            State::Temporaries => self.temporaries(lexeme),
            State::Statement => self.statement(lexeme),
            State::Expression => self.expression(lexeme),
            State::Name(name) => self.name(name, lexeme),
            State::Operand => self.operand(lexeme),
            State::Digits => self.digits(lexeme),
            State::Message => self.message(lexeme),
            State::Cascade => self.cascade(lexeme),
            State::Semicolon => self.semicolon(lexeme),
            State::End => self.end(lexeme),
            State::Stuck => Ok(State::Stuck),
        }
    }

    /// Stops at an offset: the token there does not follow the grammar, or no token begins there.
    fn stick(&mut self, offset: u16) {
        self.faults.note(self.state.check(), offset);
        if let State::Name(_) | State::Message = self.state {
            self.level.expression.break_off(&mut self.faults);
        }
        self.state = State::Stuck;
    }

    fn read(&mut self, lexeme: Lexeme) -> Result<(), Stop> {
        if !tokens::fits(self.source, lexeme) {
            self.note(Check::Sizes, lexeme);
        }
        match self.step(lexeme) {
            Ok(state) => self.state = state,
            Err(Stop::Stuck) => self.stick(lexeme.span.start),
            Err(Stop::NoMemory) => return Err(Stop::NoMemory),
        }
        Ok(())
    }

    /// Ends the pass after the last token.
    fn finish(&mut self, offset: u16) {
        match self.state {
            State::Name(_) | State::Message | State::Semicolon => {
                self.level.expression.end(&mut self.faults);
            }
            State::Keywords | State::Body | State::Statement | State::End | State::Stuck => {},
            _ => self.faults.note(self.state.check(), offset),
        }
        if !self.outer.is_empty() {
            self.faults.note(Check::Tokens, offset);
        }
    }
}

/// The first fault of a source that was cut into tokens, or `None` if it has a method.
pub fn first_fault(alloc: Global, source: &[u8], cut: &Tokens) -> Result<Option<Fault>, Stop>
    requires { length source.now ≤ 4096 }
{
    let mut reader = Reader {
        source,
        state: State::Pattern,
        level: Level::new(Bracket::Method),
        outer: Vec::new(alloc),
        names: Names::new(alloc),
        faults: Faults::new(),
    };
    for lexeme in &cut.lexemes {
        reader.read(*lexeme)?;
    }
    match cut.stop {
        Some(offset) => reader.stick(offset),
        None => reader.finish(source.len() as u16),
    }
    Ok(reader.faults.first())
}
