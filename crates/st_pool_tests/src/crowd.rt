//! Four callers, each on a thread, post to one actor. A fifth may make checkpoints meanwhile.
use crate::calls::*;
use crate::doors::pause;
use crate::failing_session::{TALKING, talk_and_fail};
use crate::plays::totals;
use crate::pools::{Image, Stage};
use crate::scenes::Scene;
use st_image::history::Item;
use st_mailbox::messages::{Message, Sender};
use st_pool::naming::Naming;
use st_pool::shares::CallerShare;
use st_pool::totals::Totals;
use std::alloc::Global;
use std::sync::Wait;
use std::test::*;
use std::thread;
use std::thread::Threads;
use std::time::Clock;

/// How many messages each caller posts.
pub const EACH: u64 = 100;

/// The thread that makes checkpoints is the fifth.
const FIFTH: u16 = 5;

/// Posts numbers 1 and on of a sender, and says whether all were accepted, each behind the one before, or where a checkpoint has begun
/// the numbers of turns anew.
fn post_all<C: Calls, R: Wait>(
    rt: &R,
    alloc: Global,
    caller: &mut C,
    sender: u16,
    are_anew: bool,
) -> bool {
    let mut last = 0;
    for number in 0..EACH {
        match post_of(rt, alloc, caller, sender, number + 1, FIRST, "a") {
            Ok(turn) if turn > last || are_anew => last = turn,
            _ => return false,
        }
    }
    true
}

/// Makes ten checkpoints, and says whether none was refused and the posts that they count never fall.
fn make_checkpoints<C: Calls, R: Wait + Clock>(rt: &R, alloc: Global, caller: &mut C) -> bool {
    let mut last = 0;
    for _ in 0..10 {
        match caller.checkpoint(rt, alloc) {
            Ok(posts) if posts >= last => last = posts,
            _ => return false,
        }
        pause(rt, 1);
    }
    true
}

/// Whether the receipts are those of the first messages of a sender, this many, in their order.
pub fn has_receipts<K: Naming>(share: &CallerShare<K>, sender: u16, count: u64) -> bool {
    let mut number = 0;
    for receipt in share.receipts() {
        number = 1u64.wrapping_add(number);
        if receipt.message.seq != number || receipt.message.sender != Sender::Client(sender) {
            return false;
        }
    }
    number == count
}

/// What the thread of a caller does, and whether it sees what it must.
fn has_done<C: Calls, R: Wait + Clock>(
    rt: &R,
    alloc: Global,
    scene: Scene,
    caller: &mut C,
    sender: u16,
) -> bool {
    if sender == FIFTH {
        make_checkpoints(rt, alloc, caller)
    } else {
        post_all(rt, alloc, caller, sender, scene == Scene::Checkpoints)
    }
}

/// The thread of a caller.
fn call_on_thread<K: Naming, R: Wait + Clock>(
    rt: &R,
    alloc: Global,
    stage: &Stage<K>,
    sender: u16,
) {
    let Ok(mut caller) = stage.shared.caller(rt, alloc) else {
        stage.marks.note_wrong();
        return;
    };
    if stage.scene == Scene::FailingSession && sender == TALKING {
        talk_and_fail(rt, alloc, stage, caller);
        return;
    }
    let is_done = has_done(rt, alloc, stage.scene, &mut caller, sender);
    let share = caller.end();
    if !is_done || sender != FIFTH && !has_receipts(&share, sender, EACH) {
        stage.marks.note_wrong();
    }
    hand_back(rt, stage, share);
}

/// Hands back the share of a caller.
pub fn hand_back<K: Naming, R: Wait>(rt: &R, stage: &Stage<K>, share: CallerShare<K>) {
    let mut shares = stage.shares.lock(rt);
    // where memory is refused once, it is asked for again
    let has_room = shares.callers.reserve(1).is_ok() || shares.callers.reserve(1).is_ok();
    if !has_room || shares.callers.push(share).is_err() {
        stage.marks.note_wrong();
    }
}

/// Lets callers call, and waits for them.
pub fn call_together<K: Naming + Send + Sync, R: Threads + Wait + Clock + Sync>(
    rt: &R,
    alloc: Global,
    stage: &Stage<K>,
    callers: u16,
) {
    thread::scope(thread::scope_env(), rt, |scope| {
        for sender in 0..callers {
            let calls = scope.spawn(move || call_on_thread(rt, alloc, stage, sender + 1));
            if calls.is_err() {
                stage.marks.note_wrong();
            }
        }
    });
}

/// The number of a message of a sender.
fn number_of(message: &Message, sender: u16) -> Option<u64> {
    (message.sender == Sender::Client(sender)).then_some(message.seq)
}

/// Whether a history has the messages of a sender in the order of their numbers, and all of them.
fn is_in_order(history: &[Item], sender: u16) -> bool {
    let mut number = 0;
    for item in history {
        if let Item::Posted { message, .. } = item {
            if let Some(seq) = number_of(message, sender) {
                number = 1u64.wrapping_add(number);
                if seq != number {
                    return false;
                }
            }
        }
    }
    number == EACH
}

/// Whether a history has the messages of all four senders in their orders.
pub fn are_in_order(image: &Image) -> bool {
    (1..5).all(|sender| is_in_order(image.history(), sender))
}

/// Four callers post a hundred messages each, and the last turn ends.
pub fn crowd<C: Calls, K: Naming + Send + Sync, R: Threads + Wait + Clock + Sync>(
    rt: &R,
    alloc: Global,
    stage: &Stage<K>,
    caller: &mut C,
) -> bool {
    if !make_actor(rt, alloc, caller, "a ^3 + 4 * 2") {
        return false;
    }
    call_together(rt, alloc, stage, 4);
    caller.sees_order(rt) && answers(rt, caller, FIRST, 400, 14)
}

/// The same while checkpoints are made. A message that is posted behind the last of them runs behind all others.
pub fn among_checkpoints<C: Calls, K: Naming + Send + Sync, R: Threads + Wait + Clock + Sync>(
    rt: &R,
    alloc: Global,
    stage: &Stage<K>,
    caller: &mut C,
) -> bool {
    if !make_actor(rt, alloc, caller, "a ^3 + 4 * 2") {
        return false;
    }
    call_together(rt, alloc, stage, FIFTH);
    match post_of(rt, alloc, caller, FIFTH, 1, FIRST, "a") {
        Ok(turn) => answers(rt, caller, FIRST, turn, 14),
        Err(_) => false,
    }
}

#[test]
fn checkpoints_are_made_among_callers(rt: HostRuntime) -> Result<(), Fail> {
    // each turn has seven steps
    let wanted = Totals {
        posts: 401,
        edits: 2,
        steps: 2807,
    };
    assert!(rt; totals(&rt, rt.alloc(), Scene::Checkpoints) == Some(Ok(wanted)));
    Ok(())
}

#[test]
fn four_callers_post_to_one_actor(rt: HostRuntime) -> Result<(), Fail> {
    let wanted = Totals {
        posts: 400,
        edits: 2,
        steps: 2800,
    };
    assert!(rt; totals(&rt, rt.alloc(), Scene::Crowd) == Some(Ok(wanted)));
    Ok(())
}
