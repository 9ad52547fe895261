//! What is wrong with a source that has no method, and where.
//!
//! The checks have an order. Of the failures of one check the least offset counts. The first two checks look at the bytes. All
//! others are made in one pass over the tokens. The pass keeps the open brackets in a list, so it needs no more stack for a deep
//! source than for a flat one.
ghost use Rattle.std.specs.Prelude.{length};
ghost use Rattle.st_reader.specs.Faults.{IsWithin, RefusesSource};

mod bytes;
mod checks;
mod expression;
mod keywords;
mod level;
mod names;
mod numbers;
mod reading;
mod stop;
mod term;

use crate::faults::checks::{Check, Fault};
use crate::faults::stop::Stop;
use crate::tokens;
use st_classes::limits;
use st_classes::refusals::{Refusal, SourceFault};
use std::alloc::Global;

/// The refusal of a source that has no method: `BadSource` with the first check that fails and the least offset at which it fails,
/// or `NoMemory`.
///
/// The offset is at most the length of the source. That the kind and the offset are the right ones is tested, not proved. If the
/// source has a method, the answer means nothing.
pub fn source_fault(alloc: Global, source: &[u8]) -> Refusal
    ensures source { RefusesSource result }
    ensures offset { IsWithin (length source.now) result }
{
    match first_fault(alloc, source) {
        Ok(Some(fault)) => fault.refusal_within(source.len()),
        Ok(None) => Refusal::BadSource {
            kind: SourceFault::BadToken,
            offset: 0,
        },
        Err(_) => Refusal::NoMemory,
    }
}

/// The first fault of a source, or `None` if it has a method.
fn first_fault(alloc: Global, source: &[u8]) -> Result<Option<Fault>, Stop> {
    if source.len() > limits::SOURCE {
        return Ok(Some(Fault::new(Check::Length, limits::SOURCE as u16)));
    }
    if let Some(offset) = bytes::bad_character(source) {
        return Ok(Some(Fault::new(Check::Characters, offset)));
    }
    let Ok(cut) = tokens::cut(alloc, source) else {
        return Err(Stop::NoMemory);
    };
    reading::first_fault(alloc, source, &cut)
}
