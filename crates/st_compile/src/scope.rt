//! What the names of a method mean in a class.
ghost use Rattle.std.specs.Prelude.{◌≡◌, ◌≤◌, true, length, position, IfOk};
ghost use Rattle.std.specs.List.{list_any};
ghost use Rattle.std.specs.Str.{bytes_eq};
ghost use Rattle.st_classes.specs.Classes.{is_class};
ghost use Rattle.st_classes.specs.Selectors.{place_of};
ghost use Rattle.st_reader.specs.Variables.{locals_of};
ghost use Rattle.st_compile.specs.DraftViews.{word_of};
ghost use Rattle.st_compile.specs.CompileRules.{is_known};
ghost use Rattle.st_compile.specs.NameResolution.{pushed, reserved, stored};
ghost use Rattle.st_compile.specs.Scopes.{HasFew, named, scope_of, scope_seen};

use crate::locals::locals_of;
use crate::words::Word;
use st_classes::instructions::Instruction;
use st_classes::seq::Seq;
use st_classes::values::{ClassId, Value};
use st_classes::version::Version;
use st_reader::trees::{MethodTree, Name};
use std::alloc::{AllocError, Global};

/// The instruction for a reserved name. `super` means the receiver.
fn reserved(text: &[u8]) -> Option<Instruction>
    ensures { result ≡ reserved text.now }
{
    if text == b"self".as_slice() || text == b"super".as_slice() {
        Some(Instruction::PushSelf)
    } else if text == b"nil".as_slice() {
        Some(Instruction::PushLit(Value::Nil))
    } else if text == b"true".as_slice() {
        Some(Instruction::PushLit(Value::Bool(true)))
    } else if text == b"false".as_slice() {
        Some(Instruction::PushLit(Value::Bool(false)))
    } else if text == b"thisActor".as_slice() {
        Some(Instruction::PushActor)
    } else {
        None
    }
}

/// The index of the first name with a text.
fn place_among(names: &[&Name], text: &[u8]) -> Option<usize>
    ensures { result ≡ position (λ n. bytes_eq text.now n.now.text) names.now }
{
    names.iter().position(|name| text == name.text.as_slice())
}

/// What the names of a method can mean.
#[derive(Drop)]
pub struct Scope<'t> {
    /// The class table.
    pub version: &'t Version,
    /// The instance variables of the class, inherited ones first.
    pub slots: &'t [Seq<u8>],
    /// The arguments, then the temporaries.
    pub locals: Vec<&'t Name>,
}

impl<'t> Scope<'t> {
    /// The scope of a method in a class.
    pub fn of_method(
        alloc: Global,
        tree: &'t MethodTree,
        class: ClassId,
        version: &'t Version,
    ) -> Result<Scope<'t>, AllocError>
        requires { is_class version.now class ≡ true }
        ensures scope { IfOk result (λ scope. scope_seen scope ≡ scope_of version.now class tree.now.syntax) }
        ensures locals { IfOk result (λ scope. named scope.locals.items ≡ locals_of tree.now.syntax) }
        ensures few { IfOk result (λ scope. HasFew (scope_seen scope)) }
    {
        version.known();
        tree.known();
        let locals = locals_of(alloc, tree)?;
        Ok(Scope {
            version,
            slots: version.slots(class),
            locals,
        })
    }

    /// The index of an argument or a temporary.
    fn local(&self, text: &[u8]) -> Option<usize>
        ensures { result ≡ place_of (scope_seen self.now).locals text.now }
    {
        place_among(self.locals.as_slice(), text)
    }

    /// The index of an instance variable.
    fn slot(&self, text: &[u8]) -> Option<usize>
        ensures { result ≡ place_of (scope_seen self.now).slots text.now }
    {
        self.slots.iter().position(|slot| text == slot.as_slice())
    }

    /// Whether a text is the name of an instance variable.
    pub fn is_slot(&self, text: &[u8]) -> bool
        ensures { result ≡ list_any (bytes_eq text.now) (scope_seen self.now).slots }
    {
        self.slots.iter().any(|slot| text == slot.as_slice())
    }

    /// The instruction that pushes the value of a name: a reserved name, else an argument or temporary, else an instance variable,
    /// else a class.
    #[tactic(auto, using(crate::proofs::Places::place_few))]
    pub fn pushed(&self, text: &[u8]) -> Option<Instruction>
        requires { HasFew (scope_seen self.now) }
        ensures { result ≡ pushed (scope_seen self.now) text.now }
    {
        if let Some(instruction) = reserved(text) {
            return Some(instruction);
        }
        if let Some(place) = self.local(text) {
            return Some(Instruction::PushTemp(place as u8));
        }
        if let Some(place) = self.slot(text) {
            return Some(Instruction::PushSlot(place as u8));
        }
        let class = self.version.class_named(text)?;
        Some(Instruction::PushLit(Value::Class(class)))
    }

    /// The instruction that stores in an argument or a temporary, or else in an instance variable.
    #[tactic(auto, using(crate::proofs::Places::place_few))]
    pub fn stored(&self, text: &[u8]) -> Option<Instruction>
        requires { HasFew (scope_seen self.now) }
        ensures { result ≡ stored (scope_seen self.now) text.now }
    {
        if let Some(place) = self.local(text) {
            return Some(Instruction::StoreTemp(place as u8));
        }
        let place = self.slot(text)?;
        Some(Instruction::StoreSlot(place as u8))
    }

    /// Whether a word's name, if it has one, means something.
    pub fn is_known(&self, word: Word<'_>) -> bool
        requires { HasFew (scope_seen self.now) }
        ensures { result ≡ is_known (scope_seen self.now) (word_of word.entry) }
    {
        match word {
            Word::Variable(name) => self.pushed(name.text.as_slice()).is_some(),
            Word::Store(name) => self.stored(name.text.as_slice()).is_some(),
            _ => true,
        }
    }
}
