//! The installed methods that send a selector.
ghost use Rattle.std.specs.Prelude.{◌≡◌, IfOk};
ghost use Rattle.std.specs.List.{list_any};
ghost use Rattle.serde_json.specs.View.{view};
ghost use Rattle.st_queries.specs.OwnMethods.{standing as standing_in};
ghost use Rattle.st_classes.specs.EditLists.{method_at};
ghost use Rattle.st_classes.specs.Walks.{method_id};
ghost use Rattle.st_queries.specs.Answers.{is_send_of as sends_it, sender_at, senders_told};

use crate::listing::{Rows, list, only};
use crate::own_methods::standing;
use crate::values::method_named;
use st_classes::instructions::Instruction;
use st_classes::names::Names;
use st_classes::values::{ClassId, MethodId, Selector};
use st_classes::version::Version;
use st_wire::told::Told;
use std::alloc::{AllocError, Global};

/// Whether an instruction sends a selector, or super sends it.
fn is_send_of(selector: Selector, instruction: Instruction) -> bool
    ensures { result ≡ sends_it selector instruction }
{
    match instruction {
        Instruction::Send(sent, _) => sent == selector,
        Instruction::SuperSend(sent, _) => sent == selector,
        _ => false,
    }
}

/// Whether a code sends a selector.
fn sends(selector: Selector, code: &[Instruction]) -> bool
    ensures { result ≡ list_any (sends_it selector) code.now }
{
    code.iter()
        .any(|instruction| is_send_of(selector, *instruction))
}

/// The rows of the methods that send it, by the places of their installs.
#[derive(Drop)]
struct SenderRows<'a> {
    names: &'a Names,
    version: &'a Version,
    selector: Selector,
}

impl<'a> Rows for SenderRows<'a> {
    ghost is_row = { λ s n. Unit {0} };

    ghost row_of = { λ s n. sender_at s.names.now s.version.now s.selector (standing_in s.version.now n) (method_at s.version.now (method_id n)) };

    fn row(&self, alloc: Global, number: u32) -> Result<Option<Told>, AllocError> {
        let Some(class) = standing(self.version, number) else {
            return Ok(None);
        };
        match self.version.method(MethodId(number)) {
            Some(method) if sends(self.selector, method.code()) => Ok(Some(method_named(
                alloc,
                self.names,
                self.version,
                class,
                method.selector(),
            )?)),
            _ => Ok(None),
        }
    }
}

/// What is told of the installed methods that send a selector.
pub(crate) fn senders(
    alloc: Global,
    names: &Names,
    version: &Version,
    selector: Selector,
) -> Result<Told, AllocError>
    ensures { IfOk result (λ told. view told ≡ senders_told names.now version.now selector) }
{
    let rows = SenderRows {
        names,
        version,
        selector,
    };
    let told = list(alloc, &rows, 0, version.edits())?;
    only(alloc, "methods", told)
}
