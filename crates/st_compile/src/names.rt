//! The numbers of selectors and symbols.
ghost use Rattle.std.specs.Prelude.{◌≡◌, ◌≤◌, [], ◌∷◌, ◌++◌, Some, true, OnOk, OnErr, IfOk, IfErr};
ghost use Rattle.std.specs.List.{flat_map};
ghost use Rattle.st_classes.specs.Names.{interned};
ghost use Rattle.st_classes.specs.Refusals.{first_of, Answers};
ghost use Rattle.st_classes.specs.Selectors.{is_selector, place_of};
ghost use Rattle.st_compile.specs.DraftViews.{sent_arguments, sent_text};
ghost use Rattle.st_compile.specs.NeededNames.{IsFull, names_rule};
ghost use Rattle.st_compile.specs.Scopes.{pattern_selector};

use crate::words::Sent;
use st_classes::names::Names;
use st_classes::refusals::Refusal;
use st_classes::values::Selector;
use st_reader::trees::{Chain, Name, Parameter, Pattern};
use std::alloc::{AllocError, Global};

/// Interns a text and answers its number.
pub(crate) fn number_of(alloc: Global, text: &[u8], names: &mut Names) -> Result<Selector, Refusal>
    requires { is_selector text.now ≡ true }
    ensures answers { Answers (first_of (names_rule names.old (text.now ∷ []) ∷ [])) result (λ s. place_of names.new text.now ≡ Some s.0) }
    ensures names { OnOk result (names.new ≡ interned names.old text.now) }
    ensures unchanged { OnErr result (names.new ≡ names.old) }
    ensures full { IfErr result (λ e. IsFull names.new e) }
{
    let number = names.intern(alloc, text);
    names.known();
    number
}

/// Adds a keyword to a selector.
fn add_keyword(text: &mut Vec<u8>, keyword: &Name) -> Result<(), AllocError>
    ensures { OnOk result (text.new.items ≡ text.old.items ++ keyword.now.text) }
{
    text.extend_from_slice(keyword.text.as_slice())?;
    Ok(())
}

/// The selector of a keyword message: its keywords joined.
fn joined(alloc: Global, parts: &[(Name, Chain)]) -> Result<Vec<u8>, AllocError>
    ensures { IfOk result (λ text. text.items ≡ flat_map (λ p. p.0.text) parts.now) }
{
    let mut text = Vec::new(alloc);
    for part in parts {
        add_keyword(&mut text, &part.0)?;
    }
    Ok(text)
}

/// The selector of a keyword pattern: its keywords joined. The only refusal is `NoMemory`.
pub fn joined_pattern(alloc: Global, parameters: &[Parameter]) -> Result<Vec<u8>, Refusal>
    ensures ok { IfOk result (λ text. text.items ≡ flat_map (λ p. p.keyword.text) parameters.now) }
    ensures err { IfErr result (λ e. e ≡ Refusal.NoMemory) }
{
    let mut text = Vec::new(alloc);
    for parameter in parameters {
        add_keyword(&mut text, &parameter.keyword)?;
    }
    Ok(text)
}

/// The text of a pattern's selector. The only refusal is `NoMemory`.
pub fn pattern_text(alloc: Global, pattern: &Pattern) -> Result<Vec<u8>, Refusal>
    ensures ok { IfOk result (λ text. text.items ≡ pattern_selector pattern.now) }
    ensures err { IfErr result (λ e. e ≡ Refusal.NoMemory) }
{
    match pattern {
        Pattern::Unary(name) => Ok(Vec::from_slice(alloc, name.text.as_slice())?),
        Pattern::Binary { selector, .. } => Ok(Vec::from_slice(alloc, selector.text.as_slice())?),
        Pattern::Keyword(parameters) => joined_pattern(alloc, parameters.as_slice()),
    }
}

impl<'t> Sent<'t> {
    /// The number of arguments.
    pub fn arguments(self) -> u8
        requires { sent_arguments self ≤ 8 }
        ensures { result ≡ sent_arguments self.entry }
    {
        match self {
            Sent::One(_, arguments) => arguments,
            Sent::Keywords(parts) => parts.len() as u8,
        }
    }

    /// Interns the selector and answers its number.
    pub fn number(self, alloc: Global, names: &mut Names) -> Result<Selector, Refusal>
        requires { is_selector (sent_text self) ≡ true }
        ensures answers { Answers (first_of (names_rule names.old (sent_text self.entry ∷ []) ∷ [])) result (λ s. place_of names.new (sent_text self.entry) ≡ Some s.0) }
        ensures names { OnOk result (names.new ≡ interned names.old (sent_text self.entry)) }
        ensures unchanged { OnErr result (names.new ≡ names.old) }
        ensures full { IfErr result (λ e. IsFull names.new e) }
    {
        match self {
            Sent::One(name, _) => number_of(alloc, name.text.as_slice(), names),
            Sent::Keywords(parts) => {
                let text = joined(alloc, parts)?;
                number_of(alloc, text.as_slice(), names)
            }
        }
    }
}

/// Interns the selector of a pattern and answers its number.
pub(crate) fn pattern_number(
    alloc: Global,
    pattern: &Pattern,
    names: &mut Names,
) -> Result<Selector, Refusal>
    requires { is_selector (pattern_selector pattern.now) ≡ true }
    ensures answers { Answers (first_of (names_rule names.old (pattern_selector pattern.now ∷ []) ∷ [])) result (λ s. place_of names.new (pattern_selector pattern.now) ≡ Some s.0) }
    ensures names { OnOk result (names.new ≡ interned names.old (pattern_selector pattern.now)) }
    ensures unchanged { OnErr result (names.new ≡ names.old) }
    ensures full { IfErr result (λ e. IsFull names.new e) }
{
    match pattern {
        Pattern::Unary(name) => number_of(alloc, name.text.as_slice(), names),
        Pattern::Binary { selector, .. } => number_of(alloc, selector.text.as_slice(), names),
        Pattern::Keyword(parameters) => {
            let text = joined_pattern(alloc, parameters.as_slice())?;
            number_of(alloc, text.as_slice(), names)
        }
    }
}
