//! The rule for the names of arguments and temporaries.
ghost use Rattle.std.specs.Prelude.{◌≡◌, ◌++◌, length, map, nat_le};
ghost use Rattle.std.specs.List.{list_all, list_any};
ghost use Rattle.std.specs.Str.{bytes_eq};
ghost use Rattle.st_classes.specs.Selectors.{is_slot_name as slot_name};
ghost use Rattle.st_classes.specs.EditRules.{has_twice as twice};
ghost use Rattle.st_reader.specs.Variables.{arguments_of, temporaries_of, texts, argument_texts, are_variables as variables};

use crate::trees::{Name, Parameter, Pattern, Temporaries};
use st_classes::limits;
use st_classes::selectors::is_slot_name;

fn is_parameter(parameters: &[Parameter], text: &[u8]) -> bool
    ensures { result ≡ list_any (λ p. bytes_eq text.now p.argument.text) parameters.now }
{
    parameters
        .iter()
        .any(|parameter| text == parameter.argument.text.as_slice())
}

/// Whether a text is the name of an argument.
#[tactic(auto, using(crate::proofs::Variables::any_argument))]
pub fn is_argument(pattern: &Pattern, text: &[u8]) -> bool
    ensures { result ≡ list_any (bytes_eq text.now) (argument_texts pattern.now) }
{
    match pattern {
        Pattern::Unary(_) => false,
        Pattern::Binary { argument, .. } => text == argument.text.as_slice(),
        Pattern::Keyword(parameters) => is_parameter(parameters.as_slice(), text),
    }
}

fn is_among(text: &[u8], names: &[Name]) -> bool
    ensures { result ≡ list_any (λ n. bytes_eq text.now n.text) names.now }
{
    names.iter().any(|name| text == name.text.as_slice())
}

/// Whether two of the names are equal.
#[tactic(auto, using(crate::proofs::Variables::any_name))]
fn has_twice(names: &[Name]) -> bool
    ensures { result ≡ twice (texts names.now) }
{
    let mut rest = names;
    while let Some((name, later)) = rest.split_first() {
        if is_among(name.text.as_slice(), later) {
            return true;
        }
        rest = later;
    }
    false
}

/// Whether two of the arguments and names are equal.
#[tactic(auto, using(crate::proofs::Variables::any_either))]
fn have_twice(parameters: &[Parameter], names: &[Name]) -> bool
    ensures { result ≡ twice (texts (map (λ p. p.argument) parameters.now ++ names.now)) }
{
    let mut rest = parameters;
    while let Some((parameter, later)) = rest.split_first() {
        let text = parameter.argument.text.as_slice();
        if is_parameter(later, text) || is_among(text, names) {
            return true;
        }
        rest = later;
    }
    has_twice(names)
}

/// Whether two of a method's arguments and temporaries are equal.
#[tactic(auto, using(crate::proofs::Variables::any_name))]
fn clash(pattern: &Pattern, temporaries: &[Name]) -> bool
    ensures { result ≡ twice (texts (arguments_of pattern.now ++ temporaries.now)) }
{
    match pattern {
        Pattern::Unary(_) => has_twice(temporaries),
        Pattern::Binary { argument, .. } => {
            is_among(argument.text.as_slice(), temporaries) || has_twice(temporaries)
        }
        Pattern::Keyword(parameters) => have_twice(parameters.as_slice(), temporaries),
    }
}

/// Whether each name may be that of a variable.
fn are_names(names: &[Name]) -> bool
    ensures { result ≡ list_all (λ n. slot_name n.text) names.now }
{
    names.iter().all(|name| is_slot_name(name.text.as_slice()))
}

/// Whether each argument's name may be that of a variable.
fn are_arguments(parameters: &[Parameter]) -> bool
    ensures { result ≡ list_all (λ p. slot_name p.argument.text) parameters.now }
{
    parameters.iter().all(|parameter| is_slot_name(parameter.argument.text.as_slice()))
}

/// Whether the name of each argument of a method may be that of a variable.
#[tactic(auto, using(crate::proofs::Variables::all_arguments))]
fn arguments_are_names(pattern: &Pattern) -> bool
    ensures { result ≡ list_all slot_name (argument_texts pattern.now) }
{
    match pattern {
        Pattern::Unary(_) => true,
        Pattern::Binary { argument, .. } => is_slot_name(argument.text.as_slice()),
        Pattern::Keyword(parameters) => are_arguments(parameters.as_slice()),
    }
}

fn argument_count(pattern: &Pattern) -> usize
    ensures { result ≡ length (arguments_of pattern.now) }
{
    match pattern {
        Pattern::Unary(_) => 0,
        Pattern::Binary { .. } => 1,
        Pattern::Keyword(parameters) => parameters.len(),
    }
}

/// Whether there are at most 64 arguments and temporaries together.
#[tactic(auto, using(crate::proofs::Variables::long))]
fn are_few(pattern: &Pattern, temporaries: &[Name]) -> bool
    ensures { result ≡ nat_le (length (arguments_of pattern.now ++ temporaries.now)) 64 }
{
    argument_count(pattern).saturating_add(temporaries.len()) <= limits::TEMPORARIES
}

/// The temporaries of a method. There are none without bars.
fn names_of(temporaries: &Option<Temporaries>) -> &[Name]
    ensures { result.now ≡ temporaries_of temporaries.now }
{
    match temporaries {
        None => &[],
        Some(temporaries) => temporaries.names.as_slice(),
    }
}

/// Whether arguments and temporaries have different names, each of which may be that of a variable, and are at most 64.
#[tactic(auto, using(crate::proofs::Variables::all_names, crate::proofs::Variables::all_slots))]
pub fn are_variables(pattern: &Pattern, temporaries: &Option<Temporaries>) -> bool
    ensures { result ≡ variables (arguments_of pattern.now ++ temporaries_of temporaries.now) }
{
    let names = names_of(temporaries);
    // Names are compared with one another only if they are few.
    if !are_few(pattern, names) {
        return false;
    }
    arguments_are_names(pattern) && are_names(names) && !clash(pattern, names)
}
