//! Copies of what an event holds, for calls that take it by value.
ghost use Rattle.std.specs.Prelude.{◌≡◌, true, IfOk, OnErr};
ghost use Rattle.st_system.specs.ImageEvents.{has_texts};

use st_calls::calls::Call;
use st_classes::seq::Seq;
use st_classes::values::Values;
use std::alloc::{AllocError, Global};

/// A copy of a text.
fn copy_text(alloc: Global, text: &Seq<u8>) -> Result<Seq<u8>, AllocError>
    ensures { IfOk result (λ copy. copy ≡ text.now) }
{
    Ok(Seq::from_vec(text.as_slice().to_vec(alloc)?))
}

/// A copy of texts.
fn copy_texts(alloc: Global, texts: &Seq<Seq<u8>>) -> Result<Seq<Seq<u8>>, AllocError>
    ensures { IfOk result (λ copies. copies ≡ texts.now) }
{
    let mut copies = Vec::with_capacity(alloc, texts.len())?;
    for text in texts.as_slice() {
        copies.push(copy_text(alloc, text)?)?;
    }
    Ok(Seq::from_vec(copies))
}

/// A copy of values.
fn copy_values(alloc: Global, values: &Values) -> Result<Values, AllocError>
    ensures { IfOk result (λ copies. copies ≡ values.now) }
{
    Ok(Seq::from_vec(values.as_slice().to_vec(alloc)?))
}

/// A copy of a call. Memory can run out only if the call has texts or arguments.
pub(crate) fn copy_call(alloc: Global, call: &Call) -> Result<Call, AllocError>
    ensures copy { IfOk result (λ copy. copy ≡ call.now) }
    ensures memory { OnErr result (has_texts call.now ≡ true) }
{
    Ok(match call {
        Call::Intern(text) => Call::Intern(copy_text(alloc, text)?),
        Call::Define {
            name,
            parent,
            slots,
        } => Call::Define {
            name: copy_text(alloc, name)?,
            parent: *parent,
            slots: copy_texts(alloc, slots)?,
        },
        Call::Install { class, source } => Call::Install {
            class: *class,
            source: copy_text(alloc, source)?,
        },
        Call::Remove { class, selector } => Call::Remove {
            class: *class,
            selector: *selector,
        },
        Call::Reparent { class, parent } => Call::Reparent {
            class: *class,
            parent: *parent,
        },
        Call::Create(class) => Call::Create(*class),
        Call::Post {
            sender,
            seq,
            actor,
            selector,
            args,
        } => Call::Post {
            sender: *sender,
            seq: *seq,
            actor: *actor,
            selector: *selector,
            args: copy_values(alloc, args)?,
        },
        Call::Close(actor) => Call::Close(*actor),
        Call::Checkpoint => Call::Checkpoint,
    })
}
