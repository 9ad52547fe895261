//! Trees of methods. Each leaf holds the span of its token in the source, so a tree has exactly the tokens of its source. The tree
//! of a method also holds its source.
//!
//! A receiver and the messages that it gets in turn are one `Chain`. Only brackets nest, so a long sequence of messages does not
//! make a tree deep.
use st_classes::seq::Seq;
use std::marker::Model;

/// The bytes of a token, from `start` to before `end`. Offsets count from 0.
#[derive(Clone, Copy, PartialEq, Eq, Debug)]
pub struct Span {
    pub start: u16,
    pub end: u16,
}

/// An identifier, a keyword with its colon, or a binary selector.
#[derive(Drop)]
pub struct Name {
    pub text: Seq<u8>,
    pub span: Span,
}

/// A keyword of a pattern, and the argument after it.
#[derive(Drop)]
pub struct Parameter {
    pub keyword: Name,
    pub argument: Name,
}

/// The selector of a method, with the names of its arguments.
#[derive(Drop)]
pub enum Pattern {
    Unary(Name),
    Binary { selector: Name, argument: Name },
    Keyword(Seq<Parameter>),
}

/// The temporaries between bars.
#[derive(Drop)]
pub struct Temporaries {
    pub opening: Span,
    pub names: Seq<Name>,
    pub closing: Span,
}

/// The variable to which an assignment assigns, and the place of its `:=`.
#[derive(Drop)]
pub struct Target {
    pub name: Name,
    pub assign: Span,
}

/// An operand: what gets messages.
#[cycle(tree)]
#[derive(Drop)]
pub enum Operand {
    /// A number, with the place of its digits. A minus is directly before them.
    Number {
        value: i64,
        span: Span,
        minus: Option<Span>,
    },
    /// A symbol. Its place includes the `#`, its text does not.
    Symbol(Name),
    /// A variable, a class, or a reserved name.
    Name(Name),
    Parenthesis {
        opening: Span,
        inside: Box<Expression>,
        closing: Span,
    },
    Block {
        opening: Span,
        inside: Option<Box<Statements>>,
        closing: Span,
    },
}

/// A message with its arguments.
#[cycle(tree)]
#[derive(Drop)]
pub enum Message {
    Unary(Name),
    Binary(Name, Chain),
    Keyword(Vec<(Name, Chain)>),
}

/// An operand and its messages. The first goes to the operand, each other to the answer of the one before.
#[cycle(tree)]
#[derive(Drop)]
pub struct Chain {
    pub operand: Operand,
    pub messages: Vec<Message>,
}

/// An expression: the variables to which it is assigned, and its value. In a cascade the receiver gets several messages, separated
/// by semicolons.
#[cycle(tree)]
#[derive(Drop)]
pub struct Expression {
    pub targets: Seq<Target>,
    pub receiver: Chain,
    pub cascade: Option<(Message, Vec<(Span, Message)>)>,
}

/// Statements: those before the last, each with the period after it, and the last one, which may be answered and may have a period
/// too.
#[cycle(tree)]
#[derive(Drop)]
pub struct Statements {
    pub before: Vec<(Expression, Span)>,
    pub caret: Option<Span>,
    pub last: Expression,
    pub period: Option<Span>,
}

/// The syntax of a method: its pattern, its temporaries if it has bars, and its statements if it has any.
#[derive(Drop)]
pub(crate) struct MethodSyntax {
    pub pattern: Pattern,
    pub temporaries: Option<Temporaries>,
    pub body: Option<Statements>,
}

/// A method, and the source that spells it.
#[derive(Drop)]
pub struct MethodTree {
    syntax: MethodSyntax,
    source: Seq<u8>,
}

impl Model for MethodTree {
    ghost use Rattle.std.specs.Coded.{codes};
    ghost use Rattle.st_reader.specs.Spelling.{Spells};
    ghost use Rattle.st_reader.specs.StoredTrees.{statements_code};
    ghost use Rattle.st_reader.specs.TreeViews.{TreeView, method_view};

    ghost Value = { TreeView };

    ghost coded = { Prim.hlevel (codes, statements_code) };

    ghost view = { λ t. record { syntax = method_view t.syntax; source = t.source } };

    ghost invariant = { λ t. Spells (method_view t.syntax) t.source };
}

impl MethodTree {
    ghost use Rattle.std.specs.Prelude.{◌≡◌, option_map};
    ghost use Rattle.st_reader.specs.Spelling.{Spells};
    ghost use Rattle.st_reader.specs.TreeViews.{method_view, statements_view};

    /// The tree of a method and of the source that spells it.
    pub(crate) fn new(syntax: MethodSyntax, source: Seq<u8>) -> MethodTree
        requires { Spells (method_view syntax) source }
        ensures { result ≡ record { syntax = method_view syntax; source = source } }
    {
        MethodTree { syntax, source }
    }

    /// The selector of the method, with the names of its arguments.
    pub fn pattern(&self) -> &Pattern
        ensures { result.now ≡ self.now.syntax.pattern }
    {
        &self.syntax.pattern
    }

    /// The temporaries between bars, if there are bars.
    pub fn temporaries(&self) -> &Option<Temporaries>
        ensures { result.now ≡ self.now.syntax.temporaries }
    {
        &self.syntax.temporaries
    }

    /// The statements, if there are any.
    pub fn body(&self) -> &Option<Statements>
        ensures { option_map statements_view result.now ≡ self.now.syntax.body }
    {
        &self.syntax.body
    }

    pub fn source(&self) -> &[u8]
        ensures { result.now ≡ self.now.source }
    {
        self.source.as_slice()
    }

    /// A law: the source spells the method.
    pub fn known(&self)
        ensures { Spells self.now.syntax self.now.source }
    {
        let _ = &self.source;
    }
}
