//! The rule that only instance variables and temporaries are assigned to.
ghost use Rattle.std.specs.Prelude.{◌≡◌};
ghost use Rattle.std.specs.List.{list_all};
ghost use Rattle.st_reader.specs.Syntax.{Expression as Shown};
ghost use Rattle.st_reader.specs.Variables.{argument_texts};
ghost use Rattle.st_reader.specs.WellFormed.{may_change as changes};
ghost use Rattle.st_reader.specs.ExpressionKinds.{expression_kind, is_variable, assigns_well, may_assign as assigns};

use crate::rules::alone::{Alone, value_alone};
use crate::rules::variables::is_argument;
use crate::trees::{Expression, Name, Pattern, Target};
use st_classes::selectors::is_slot_name;

/// Whether a name may be assigned to: it is that of a variable, and not of an argument.
fn may_change(pattern: &Pattern, name: &Name) -> bool
    ensures { result ≡ changes (argument_texts pattern.now) name.now }
{
    is_slot_name(name.text.as_slice()) && !is_argument(pattern, name.text.as_slice())
}

fn may_change_all(pattern: &Pattern, targets: &[Target]) -> bool
    ensures { result ≡ list_all (is_variable (argument_texts pattern.now)) targets.now }
{
    targets
        .iter()
        .all(|target| may_change(pattern, &target.name))
}

/// Whether a value may be assigned to the targets, if there are any.
#[tactic(auto, using(crate::proofs::Alone::loose_alone))]
fn takes(pattern: &Pattern, targets: &[Target], value: Alone) -> bool
    ensures { (e : Shown) → expression_kind e ≡ value → result ≡ assigns_well (argument_texts pattern.now) targets.now e }
{
    targets.is_empty() || value == Alone::Other && may_change_all(pattern, targets)
}

/// Whether an expression assigns nothing, or assigns a value that is neither a block nor `super` to variables other than arguments.
pub fn may_assign(pattern: &Pattern, expression: &Expression) -> bool
    ensures { result ≡ assigns (argument_texts pattern.now) expression.now }
{
    takes(
        pattern,
        expression.targets.as_slice(),
        value_alone(&expression.receiver, &expression.cascade),
    )
}
