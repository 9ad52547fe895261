//! Class tables for tests.
use st_classes::edits::Edit;
use st_classes::refusals::Refusal;
use st_classes::seq::Seq;
use st_classes::values::ClassId;
use st_classes::version::Version;
use std::alloc::{AllocError, Global};

/// Puts a value on the heap. It may be of any type here: where a class table, a tree or a method stands on the stack, the proof of each
/// function that lets it go pays for all its parts.
pub(crate) fn boxed<T: Drop>(alloc: Global, value: T) -> Result<Box<T>, Refusal> {
    match Box::new(alloc, value) {
        Ok(value) => Ok(value),
        Err(_) => Err(Refusal::NoMemory),
    }
}

pub(crate) fn kernel_version(alloc: Global) -> Result<Box<Version>, Refusal> {
    match Version::kernel(alloc) {
        Ok(version) => boxed(alloc, version),
        Err(AllocError) => Err(Refusal::NoMemory),
    }
}

fn copied(alloc: Global, text: &[u8]) -> Result<Seq<u8>, AllocError> {
    Ok(Seq::from_vec(Vec::from_slice(alloc, text)?))
}

fn texts(alloc: Global, list: &[&[u8]]) -> Result<Seq<Seq<u8>>, AllocError> {
    let mut texts = Vec::new(alloc);
    for text in list {
        texts.push(copied(alloc, text)?)?;
    }
    Ok(Seq::from_vec(texts))
}

/// One class more.
pub(crate) fn define(
    alloc: Global,
    version: &Version,
    name: &[u8],
    parent: ClassId,
    slots: &[&[u8]],
) -> Result<Box<Version>, Refusal> {
    let name = copied(alloc, name)?;
    let slots = texts(alloc, slots)?;
    let edit = Edit::Define {
        name,
        parent,
        slots,
    };
    boxed(alloc, version.with_edit(alloc, edit)?)
}
