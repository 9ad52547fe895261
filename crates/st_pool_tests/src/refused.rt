//! Calls of a caller for which memory is refused: each that finds none leaves the image's document and what else all see, and answers when
//! it is asked again as it does with ample memory; and the shares are those of what was answered. No worker runs. Memory is refused where this runs with an
//! allocation that fails, as `tools/refused-growth` has it for each in turn.
use crate::calls::*;
use crate::plays::totals;
use crate::scenes::Scene;
use st_classes::kernel::{OBJECT, SMALL_INTEGER};
use st_classes::refusals::Refusal;
use st_pool::totals::Totals;
use st_wire::streams::MemoryOutput;
use std::alloc::{AllocError, Global};
use std::sync::Wait;
use std::test::*;

/// The calls behind a function without a contract. In each line what the call answers comes first. The names of all methods are there before
/// them, so that a call which finds no memory leaves no name.
fn lines() -> &'static str {
    LINES
}

const LINES: &str = r"Ok(22) = intern go
Ok(23) = intern tag
Ok(1) = define A
Err(ClassExists) = define A
Ok(2) = install go ^3 tag + 1
Err(BadSource { kind: BadToken, offset: 4 }) = install a ^(
Ok(3) = tag tag ^1
Ok(0) = create
Ok(1) = post 1 go
Err(Old { last: 1 }) = post 1 go
Ok(2) = post 2 tag
Ok(24) = intern fresh:
Ok(2) = sites go
Ok(4) = remove go
Err(NoSuchMethod) = remove go
Ok(5) = reparent
Ok(0) = close
Err(Closed) = post 3 tag
Err(Closed) = close
Err(Pending) = outcome
Ok(2) = checkpoint
Err(Old { last: 2 }) = post 2 tag
Err(Pending) = outcome";

/// How many sites a method of class A has.
fn sites<C: Calls, R: Wait>(
    rt: &R,
    alloc: Global,
    caller: &mut C,
    method: &str,
) -> Result<u64, Refusal> {
    let selector = caller.intern(rt, alloc, method.as_bytes())?;
    Ok(caller.stats(rt, alloc, A, selector)?.len() as u64)
}

/// An edit answers the new number of edits.
fn edit<C: Calls, R: Wait>(
    rt: &R,
    alloc: Global,
    caller: &mut C,
    word: &str,
    rest: &str,
) -> Result<u32, Refusal> {
    match word {
        "define" => define(rt, alloc, caller, rest),
        "install" => caller.install(rt, alloc, A, rest),
        "tag" => caller.install(rt, alloc, SMALL_INTEGER, rest),
        "reparent" => caller.reparent(rt, alloc, A, OBJECT),
        _ => remove(rt, alloc, caller, A, rest),
    }
}

/// A message of this number for the first actor.
fn post_line<C: Calls, R: Wait>(
    rt: &R,
    alloc: Global,
    caller: &mut C,
    line: &str,
) -> Result<u64, Refusal> {
    let (number, name) = line.split_once(' ').ok_or(Refusal::BadCommand)?;
    let seq = match number.parse() {
        Ok(seq) => seq,
        Err(_) => 0u64,
    };
    post(rt, alloc, caller, seq, FIRST, name)
}

/// What is answered to a call that is no edit.
fn act<C: Calls, R: Wait>(
    rt: &R,
    alloc: Global,
    caller: &mut C,
    word: &str,
    rest: &str,
) -> Result<u64, Refusal> {
    match word {
        "create" => Ok(u64::from(caller.create(rt, alloc, A)?.0)),
        "post" => post_line(rt, alloc, caller, rest),
        "intern" => Ok(u64::from(caller.intern(rt, alloc, rest.as_bytes())?.0)),
        "sites" => sites(rt, alloc, caller, rest),
        "checkpoint" => caller.checkpoint(rt, alloc),
        "close" => {
            caller.close(rt, alloc, FIRST)?;
            Ok(0)
        }
        _ => {
            caller.outcome(rt, FIRST, 1)?;
            Ok(0)
        }
    }
}

/// What a call answers.
fn ask<C: Calls, R: Wait>(
    rt: &R,
    alloc: Global,
    caller: &mut C,
    call: &str,
) -> Result<u64, Refusal> {
    let (word, rest) = call.split_once(' ').unwrap_or((call, ""));
    match word {
        "define" | "install" | "tag" | "remove" | "reparent" => {
            Ok(u64::from(edit(rt, alloc, caller, word, rest)?))
        }
        _ => act(rt, alloc, caller, word, rest),
    }
}

/// The text of the document that a caller sees, made anew where memory is refused for it.
fn document_again<C: Calls, R: Wait>(
    rt: &R,
    alloc: Global,
    caller: &mut C,
) -> Result<MemoryOutput, Refusal> {
    match caller.document(rt, alloc) {
        Ok(text) => Ok(text),
        // The output in memory fails where its growth is refused, and then it is a write that failed.
        Err(_) => caller.document(rt, alloc),
    }
}

/// The same as `ask`, asked again where there was no memory; and `Changed` where something was changed then.
fn ask_again<C: Calls, R: Wait>(
    rt: &R,
    alloc: Global,
    caller: &mut C,
    call: &str,
) -> Result<u64, Refusal> {
    let before = caller.seen(rt);
    let document = document_again(rt, alloc, caller)?;
    let first = ask(rt, alloc, caller, call);
    if first != Err(Refusal::NoMemory) {
        return first;
    }
    let stands = document_again(rt, alloc, caller)?.as_slice() == document.as_slice();
    if !stands || caller.seen(rt) != before {
        return Err(Refusal::Changed);
    }
    ask(rt, alloc, caller, call)
}

/// Whether an answer is written so. The text is made anew where memory is refused for it.
fn is_written(alloc: Global, answer: Result<u64, Refusal>, wanted: &str) -> bool {
    for _ in 0..2 {
        let text: Result<String, AllocError> = format!(in alloc; "{answer:?}");
        if let Ok(text) = text {
            return text.as_str() == wanted;
        }
    }
    false
}

/// Whether all calls are answered as they must be.
pub fn calls_alone<C: Calls, R: Wait>(rt: &R, alloc: Global, caller: &mut C) -> bool {
    for line in lines().lines() {
        let Some((wanted, call)) = line.split_once(" = ") else {
            return false;
        };
        let answer = ask_again(rt, alloc, caller, call);
        if !is_written(alloc, answer, wanted) {
            return false;
        }
    }
    true
}

#[test]
fn calls_of_a_caller(rt: HostRuntime) -> Result<(), Fail> {
    let wanted = Totals {
        posts: 2,
        edits: 5,
        steps: 0,
    };
    assert!(rt; totals(&rt, rt.alloc(), Scene::Refused) == Some(Ok(wanted)));
    Ok(())
}
