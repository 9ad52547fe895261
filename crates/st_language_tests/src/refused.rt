//! What no script shows of calls for which memory is refused: each is asked, and where it finds no memory it is seen that all stands as
//! it did, and it is asked again; its answer is then the one with ample memory. Memory is refused where a test runs with an allocation
//! that fails, as `tools/refused-growth` has it for each in turn.
ghost use Rattle.std.specs.Prelude.{◌+◌, ◌<◌, ◌^◌};

mod caches;
mod tokens;

use crate::lookups::{MISSING, WHO, next_edit, three_classes};
use st_classes::edits::Edit;
use st_classes::names::Names;
use st_classes::refusals::Refusal;
use st_classes::version::Version;
use st_guard::guard::Guard;
use st_guard::switch_guard::SwitchGuard;
use std::alloc::{AllocError, Global};
use std::test::*;

/// Texts, and the numbers that they get if they are names.
const INTERNED: &[(&str, Result<u16, Refusal>)] = &[
    ("foo", Ok(22)),
    ("at:put:", Ok(23)),
    ("foo", Ok(22)),
    ("3x", Err(Refusal::BadName)),
];

/// The table behind a function without a contract, so that the proof of a test carries none of it.
fn interned() -> &'static [(&'static str, Result<u16, Refusal>)] {
    INTERNED
}

fn intern(alloc: Global, names: &mut Names, text: &str) -> Result<u16, Refusal> {
    Ok(names.intern(alloc, text.as_bytes())?.0)
}

/// Whether a text is no name, in a table of this many.
fn is_missing(names: &Names, text: &str, count: u32) -> bool {
    names.find(text.as_bytes()).is_none() && names.len() == count
}

/// The number of a name, which is asked for again where there was no memory; and `Changed` where the table was changed then.
fn interned_again(alloc: Global, names: &mut Names, text: &str) -> Result<u16, Refusal> {
    let count = names.len();
    let first = intern(alloc, names, text);
    if first != Err(Refusal::NoMemory) {
        return first;
    }
    if !is_missing(names, text, count) {
        return Err(Refusal::Changed);
    }
    intern(alloc, names, text)
}

/// The kernel's names, made anew where memory was refused.
fn names_again(alloc: Global) -> Result<Names, AllocError> {
    match Names::kernel(alloc) {
        Ok(names) => Ok(names),
        Err(AllocError) => Names::kernel(alloc),
    }
}

#[test]
fn names_stay(rt: HostRuntime) -> Result<(), Fail> {
    let mut names = names_again(rt.alloc())?;
    for (text, wanted) in interned() {
        let answer = interned_again(rt.alloc(), &mut names, text);
        assert!(rt; answer == *wanted, "{text}");
    }
    Ok(())
}

/// Whether a guard that has noted nothing notes an edit, and stays as it was where there is no memory for that.
fn notes<G: Guard>(guard: &mut G, edit: &Edit) -> bool
    requires { G.count guard.old + 1 < 2 ^ 32 }
{
    let (one, other) = (guard.floor(MISSING), guard.floor(WHO));
    if guard.note(edit).is_ok() {
        return one == 0 && other == 0;
    }
    guard.floor(MISSING) == one && guard.floor(WHO) == other && guard.note(edit).is_ok()
}

/// Whether the guard of an install of `missing` has a floor for that alone.
fn raises_one(alloc: Global, version: &Version) -> bool {
    let mut guard = SwitchGuard::new(alloc);
    match version.edit(6) {
        Some(edit) => {
            notes(&mut guard, edit) && guard.floor(MISSING) == 1 && guard.floor(WHO) == 0
        }
        None => false,
    }
}

#[test]
fn guards_stay(rt: HostRuntime) -> Result<(), Fail> {
    let version = three_classes(rt.alloc())?;
    let later = next_edit(rt.alloc(), &version, 1)?;
    assert!(rt; raises_one(rt.alloc(), &later));
    Ok(())
}
