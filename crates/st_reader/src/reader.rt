//! The entry point: from the source of a method to its tree.
ghost use Rattle.std.specs.Prelude.{◌≡◌, ◌⊎◌, length, IfOk, IfErr};
ghost use Rattle.st_classes.specs.declared.refusals.Refusal.TheVariants.{NoMemory};
ghost use Rattle.st_reader.specs.Syntax.{Method};
ghost use Rattle.st_reader.specs.TreeViews.{method_view};
ghost use Rattle.st_reader.specs.Spelling.{OneReading, Spells, SpellsGrammar};
ghost use Rattle.st_reader.specs.Faults.{IsBadSource, IsWithin};

use crate::characters;
use crate::faults::source_fault;
use crate::parser::{self, Wrong, let_go};
use crate::rules::keeps_rules;
use crate::tokens::{self, Tokens};
use crate::trees::{MethodSyntax, MethodTree};
use st_classes::limits;
use st_classes::refusals::Refusal;
use st_classes::seq::Seq;
use std::alloc::Global;

/// The method that a source spells by the grammar, whether or not it keeps the rules.
fn read_syntax(alloc: Global, source: &[u8]) -> Result<MethodSyntax, Refusal>
    ensures ok { IfOk result (λ m. SpellsGrammar (method_view m) source.now) }
    ensures only { IfOk result (λ m. (other : Method) → SpellsGrammar other source.now → other ≡ method_view m) }
    ensures refused { IfErr result (λ e. (e ≡ NoMemory) ⊎ (IsBadSource e × ((other : Method) → SpellsGrammar other source.now → ⊥))) }
    ensures offset { IfErr result (λ e. IsWithin (length source.now) e) }
{
    if source.len() > limits::SOURCE || !characters::are_characters(source) {
        return Err(source_fault(alloc, source));
    }
    let Tokens { lexemes, stop } = tokens::cut(alloc, source)?;
    if let Some(_) = stop {
        return Err(source_fault(alloc, source));
    }
    if !tokens::fit(source, &lexemes) {
        return Err(source_fault(alloc, source));
    }
    match parser::method(alloc, source, &lexemes) {
        Ok(syntax) => Ok(syntax),
        Err(Wrong::NoTree) => Err(source_fault(alloc, source)),
        Err(Wrong::NoMemory) => Err(Refusal::NoMemory),
    }
}

/// A law: no text spells two methods.
pub fn one_reading()
    ensures { OneReading }
{
    tokens::one_cut();
}

/// The tree of the method that a source spells, with a copy of the source.
///
/// `BadSource` says that the source spells no method. Either it is over 4,096 bytes, has a byte that no source may contain, cannot
/// be cut into tokens within their limits, or is not a method of the grammar, in which parentheses and blocks nest at most 64 deep.
/// Or the method breaks a rule: a block or `super` is where it may not be; an argument or something that is not a variable is
/// assigned to; arguments and temporaries have names that they may not have, have the same name twice, or are more than 64. The
/// offset is at most the length of the source. That the kind and the offset are the right ones is tested, not proved. The only
/// other refusal is `NoMemory`.
pub fn read_method(alloc: Global, source: &[u8]) -> Result<MethodTree, Refusal>
    ensures ok { IfOk result (λ t. t.source ≡ source.now) }
    ensures spelled { IfOk result (λ t. Spells t.syntax source.now) }
    ensures only { IfOk result (λ t. (other : Method) → Spells other source.now → other ≡ t.syntax) }
    ensures refused { IfErr result (λ e. (e ≡ NoMemory) ⊎ (IsBadSource e × ((other : Method) → Spells other source.now → ⊥))) }
    ensures offset { IfErr result (λ e. IsWithin (length source.now) e) }
{
    let syntax = read_syntax(alloc, source)?;
    if !keeps_rules(&syntax) {
        return Err(let_go(syntax, source_fault(alloc, source)));
    }
    match Vec::from_slice(alloc, source) {
        Ok(copy) => Ok(MethodTree::new(syntax, Seq::from_vec(copy))),
        Err(_) => Err(let_go(syntax, Refusal::NoMemory)),
    }
}
