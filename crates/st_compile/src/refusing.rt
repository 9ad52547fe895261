//! The refusals of a draft: unknown names, clashing names, and too much code.
ghost use Rattle.std.specs.Prelude.{◌≡◌, [], ◌∷◌, map, nat_le};
ghost use Rattle.std.specs.List.{list_all};
ghost use Rattle.st_classes.specs.Refusals.{first_of};
ghost use Rattle.st_compile.specs.DraftViews.{line_of, word_of};
ghost use Rattle.st_compile.specs.Scopes.{HasFew, named, scope_seen};
ghost use Rattle.st_compile.specs.CompileRules.{clash_rule, clashing, is_small, least_of, lesser, scope_rules, size_rule, start_of, unknown, unknown_rule};

use crate::scope::Scope;
use crate::words::{Line, Word};
use st_classes::limits;
use st_classes::refusals::{Refusal, SourceFault};
use st_reader::trees::Name;

/// The lesser of two offsets.
fn lesser(one: Option<u32>, other: Option<u32>) -> Option<u32>
    ensures { result ≡ lesser one other }
{
    match (one, other) {
        (Some(a), Some(b)) => Some(if a < b { a } else { b }),
        (Some(a), None) => Some(a),
        (None, b) => b,
    }
}

/// Where a word's name is in the source.
fn start_of(word: Word<'_>) -> u32
    ensures { result ≡ start_of (word_of word.entry) }
{
    match word {
        Word::Variable(name) | Word::Store(name) => u32::from(name.span.start),
        _ => 0,
    }
}

/// Where a line's name is in the source, if the name means nothing.
fn unknown_at(scope: &Scope<'_>, line: Line<'_>) -> Option<u32>
    requires { HasFew (scope_seen scope.now) }
    ensures { result ≡ least_of (unknown (scope_seen scope.now) (line_of line.entry ∷ [])) }
{
    if scope.is_known(line.word) {
        return None;
    }
    Some(start_of(line.word))
}

/// The first place in the source with a name that means nothing.
#[tactic(auto, using(crate::proofs::Least::unknown_more))]
fn first_unknown(scope: &Scope<'_>, lines: &[Line<'_>]) -> Option<u32>
    requires { HasFew (scope_seen scope.now) }
    ensures { result ≡ least_of (unknown (scope_seen scope.now) (map line_of lines.now)) }
{
    let mut least = None;
    for line in lines {
        least = lesser(least, unknown_at(scope, *line));
    }
    least
}

/// Where a name is in the source, if an instance variable has the same name.
fn clash_at(scope: &Scope<'_>, name: &Name) -> Option<u32>
    ensures { result ≡ least_of (clashing (scope_seen scope.now).slots (name.now ∷ [])) }
{
    if !scope.is_slot(name.text.as_slice()) {
        return None;
    }
    Some(u32::from(name.span.start))
}

/// The first place of an argument or a temporary that has the name of an instance variable.
#[tactic(auto, using(crate::proofs::Least::clash_more))]
fn first_clash(scope: &Scope<'_>) -> Option<u32>
    ensures { result ≡ least_of (clashing (scope_seen scope.now).slots (named scope.now.locals.items)) }
{
    let mut least = None;
    for name in scope.locals.as_slice() {
        least = lesser(least, clash_at(scope, name));
    }
    least
}

/// `BadSource` with `UnknownName` at the first name that means nothing, if there is one.
#[tactic(auto, using(crate::proofs::Least::place_rule))]
fn unknown_name(scope: &Scope<'_>, lines: &[Line<'_>]) -> Option<Refusal>
    requires { HasFew (scope_seen scope.now) }
    ensures { result ≡ first_of (unknown_rule (scope_seen scope.now) (map line_of lines.now) ∷ []) }
{
    let offset = first_unknown(scope, lines)?;
    Some(Refusal::BadSource {
        kind: SourceFault::UnknownName,
        offset,
    })
}

/// `BadSource` with `DuplicateName` at the first argument or temporary that has the name of an instance variable, if there is one.
#[tactic(auto, using(crate::proofs::Least::place_rule))]
fn clashing_name(scope: &Scope<'_>) -> Option<Refusal>
    ensures { result ≡ first_of (clash_rule (scope_seen scope.now) (named scope.now.locals.items) ∷ []) }
{
    let offset = first_clash(scope)?;
    Some(Refusal::BadSource {
        kind: SourceFault::DuplicateName,
        offset,
    })
}

/// Whether no line has more than 64 operands before it.
fn are_shallow(lines: &[Line<'_>]) -> bool
    ensures { result ≡ list_all (λ l. nat_le l.depth 64) lines.now }
{
    lines.iter().all(|line| line.depth <= limits::OPERANDS)
}

/// Whether there are at most 1,024 instructions, and no line has more than 64 operands before it.
#[tactic(auto, using(crate::proofs::Least::small_lines))]
fn is_small(lines: &[Line<'_>]) -> bool
    ensures { result ≡ is_small (map line_of lines.now) }
{
    lines.len() <= limits::INSTRUCTIONS && are_shallow(lines)
}

/// `BadSource` with `TooLarge` and the offset 0, if the code is too large.
fn too_large(lines: &[Line<'_>]) -> Option<Refusal>
    ensures { result ≡ first_of (size_rule (map line_of lines.now) ∷ []) }
{
    if is_small(lines) {
        return None;
    }
    Some(Refusal::BadSource {
        kind: SourceFault::TooLarge,
        offset: 0,
    })
}

/// The first refusal that applies to a code in a scope.
#[tactic(auto, using(crate::proofs::Least::first_rule))]
pub fn code_refusal(scope: &Scope<'_>, lines: &[Line<'_>]) -> Option<Refusal>
    requires { HasFew (scope_seen scope.now) }
    ensures { result ≡ first_of (scope_rules (scope_seen scope.now) (named scope.now.locals.items) (map line_of lines.now)) }
{
    if let Some(refusal) = unknown_name(scope, lines) {
        return Some(refusal);
    }
    if let Some(refusal) = clashing_name(scope) {
        return Some(refusal);
    }
    too_large(lines)
}
