//! Name resolution: from words to instructions.
ghost use Rattle.std.specs.Prelude.{◌≡◌, ◌∷◌, [], ◌≤◌, map, true, Some, OnOk, OnErr, IfErr, length};
ghost use Rattle.std.specs.List.{flat_map};
ghost use Rattle.st_classes.specs.Refusals.{first_of, Answers};
ghost use Rattle.st_classes.specs.Selectors.{is_selector, place_of};
ghost use Rattle.st_compile.specs.DraftViews.{line_of, word_of};
ghost use Rattle.st_compile.specs.Encodable.{IsReady, is_near, word_fits};
ghost use Rattle.st_compile.specs.NeededNames.{InternsFirst, IsFull, interned_all, names_rule};
ghost use Rattle.st_compile.specs.CompileRules.{is_known};
ghost use Rattle.st_compile.specs.NameResolution.{instruction_of, instructions_of, word_texts};
ghost use Rattle.st_compile.specs.Scopes.{HasFew, pattern_selector, scope_seen};

use crate::names::{number_of, pattern_number};
use crate::scope::Scope;
use crate::words::{Line, Word};
use st_classes::instructions::Instruction;
use st_classes::names::Names;
use st_classes::refusals::Refusal;
use st_classes::values::{Selector, Value};
use st_reader::trees::Pattern;
use std::alloc::Global;

impl<'t> Word<'t> {
    /// The instruction of a word. The selector of a message and the text of a symbol are interned.
    fn instruction(
        self,
        alloc: Global,
        scope: &Scope<'_>,
        names: &mut Names,
    ) -> Result<Instruction, Refusal>
        requires few { HasFew (scope_seen scope.now) }
        requires known { is_known (scope_seen scope.now) (word_of self) ≡ true }
        requires fits { word_fits (word_of self) ≡ true }
        requires near { is_near (word_of self) ≡ true }
        ensures answers { Answers (first_of (names_rule names.old (word_texts (word_of self.entry)) ∷ [])) result (λ i. instruction_of names.new (scope_seen scope.now) (word_of self.entry) ≡ Some i) }
        ensures names { OnOk result (names.new ≡ interned_all names.old (word_texts (word_of self.entry))) }
        ensures unchanged { OnErr result (names.new ≡ names.old) }
        ensures full { IfErr result (λ e. IsFull names.new e) }
    {
        names.known();
        Ok(match self {
            Word::Literal(value) => Instruction::PushLit(value),
            Word::Symbol(name) => {
                let number = number_of(alloc, name.text.as_slice(), names)?;
                Instruction::PushLit(Value::Sym(number))
            }
            Word::Receiver => Instruction::PushSelf,
            Word::Variable(name) => match scope.pushed(name.text.as_slice()) {
                Some(instruction) => instruction,
                None => unreachable!(),
            },
            Word::Store(name) => match scope.stored(name.text.as_slice()) {
                Some(instruction) => instruction,
                None => unreachable!(),
            },
            Word::Drop => Instruction::Pop,
            Word::Repeat => Instruction::Dup,
            Word::Message(sent) => {
                let number = sent.number(alloc, names)?;
                Instruction::Send(number, sent.arguments())
            }
            Word::SuperMessage(sent) => {
                let number = sent.number(alloc, names)?;
                Instruction::SuperSend(number, sent.arguments())
            }
            Word::Jump(distance) => Instruction::Jump(distance as i16),
            Word::Back(distance) => Instruction::Jump(-(distance as i16)),
            Word::JumpFalse(distance) => Instruction::JumpFalse(distance as u16),
            Word::JumpTrue(distance) => Instruction::JumpTrue(distance as u16),
            Word::Return => Instruction::Answer,
        })
    }
}

/// The instructions of a code. Its selectors and symbols are interned in code order.
fn code_of(
    alloc: Global,
    scope: &Scope<'_>,
    lines: &[Line<'_>],
    names: &mut Names,
) -> Result<Vec<Instruction>, Refusal>
    requires few { HasFew (scope_seen scope.now) }
    requires ready { IsReady (scope_seen scope.now) (map line_of lines.now) }
    ensures answers { Answers (first_of (names_rule names.old (flat_map (λ l. word_texts l.word) (map line_of lines.now)) ∷ [])) result (λ code. instructions_of names.new (scope_seen scope.now) (map line_of lines.now) ≡ Some code.items) }
    ensures names { OnOk result (names.new ≡ interned_all names.old (flat_map (λ l. word_texts l.word) (map line_of lines.now))) }
    ensures some { InternsFirst names.old (flat_map (λ l. word_texts l.word) (map line_of lines.now)) names.new }
    ensures full { IfErr result (λ e. IsFull names.new e) }
{
    names.known();
    let mut code = Vec::new(alloc);
    for line in lines {
        let instruction = line.word.instruction(alloc, scope, names)?;
        names.known();
        let Ok(()) = code.push(instruction) else {
            return Err(Refusal::NoMemory);
        };
    }
    Ok(code)
}

/// The number of a method's selector and the instructions of its code. The selector and then the texts of the code are interned.
pub fn resolve(
    alloc: Global,
    pattern: &Pattern,
    scope: &Scope<'_>,
    lines: &[Line<'_>],
    names: &mut Names,
) -> Result<(Selector, Vec<Instruction>), Refusal>
    requires selector { is_selector (pattern_selector pattern.now) ≡ true }
    requires few { HasFew (scope_seen scope.now) }
    requires ready { IsReady (scope_seen scope.now) (map line_of lines.now) }
    ensures answers { Answers (first_of (names_rule names.old (pattern_selector pattern.now ∷ flat_map (λ l. word_texts l.word) (map line_of lines.now)) ∷ [])) result (λ r. (place_of names.new (pattern_selector pattern.now) ≡ Some r.0.0) × (instructions_of names.new (scope_seen scope.now) (map line_of lines.now) ≡ Some r.1.items)) }
    ensures names { OnOk result (names.new ≡ interned_all names.old (pattern_selector pattern.now ∷ flat_map (λ l. word_texts l.word) (map line_of lines.now))) }
    ensures some { InternsFirst names.old (pattern_selector pattern.now ∷ flat_map (λ l. word_texts l.word) (map line_of lines.now)) names.new }
    ensures full { IfErr result (λ e. IsFull names.new e) }
{
    let number = pattern_number(alloc, pattern, names)?;
    let code = code_of(alloc, scope, lines, names)?;
    Ok((number, code))
}
