//! Playing a scene: callers act, workers run, and all shares are settled.
ghost use Rattle.std.specs.Prelude.{◌≡◌};
ghost use Rattle.st_calls.specs.Growth.{amounts};

use crate::by_callers::{closing, not_understood, numbers};
use crate::calls::{Calls, FIRST};
use crate::crowd::{among_checkpoints, crowd, hand_back};
use crate::doors::{Door, Marks, TURNS, pause};
use crate::edits::{reparented, unused_selector, used_selector};
use crate::failing_session::among_sessions;
use crate::full::{at_checkout, at_commit, late_wait, room_again};
use crate::many::many_callers;
use crate::overlap::{overlap, overlap_of_four, pace};
use crate::pools::{Caller, Image, Shared, Stage, new_image, new_worker, no_shares};
use crate::refused::calls_alone;
use crate::scenes::Scene;
use crate::waking::{endless, hurried, long_turn, rally, rest, stopping, waking, waking_by_commit};
use st_classes::refusals::Refusal;
use st_pool::books::Blanks;
use st_pool::known_prefix::Opened;
use st_pool::naming::Naming;
use st_pool::settling::{Shares, settle};
use st_pool::shares::WorkerShare;
use st_pool::totals::Totals;
use st_pool::workers::worker_loop;
use std::alloc::Global;
use std::marker::Brand;
use std::sync::{Mutex, Wait};
use std::thread;
use std::thread::Threads;
use std::time::Clock;

/// Which share is not handed in.
#[derive(Clone, Copy, PartialEq, Eq, Debug)]
pub enum Missing {
    None,
    Caller,
    Worker,
}

/// The loop of a worker.
fn work<K: Naming, R: Wait + Clock>(
    rt: &R,
    alloc: Global,
    stage: &Stage<K>,
    number: u32,
) -> Option<WorkerShare<K>> {
    let worker = new_worker(alloc).ok()?;
    let mut door = Door {
        rt,
        marks: &stage.marks,
        number,
        way: stage.scene.way(),
        claims: 0,
    };
    let quantum = stage.scene.quantum();
    worker_loop(
        rt,
        alloc,
        &stage.shared,
        number,
        Box::into_inner(worker),
        &mut door,
        quantum,
    )
    .ok()
}

/// The thread of a worker.
fn work_on_thread<K: Naming, R: Wait + Clock>(
    rt: &R,
    alloc: Global,
    stage: &Stage<K>,
    number: u32,
) {
    let is_handed_back = match work(rt, alloc, stage, number) {
        Some(share) => stage.shares.lock(rt).workers.push(share).is_ok(),
        None => false,
    };
    if !is_handed_back {
        stage.marks.note_wrong();
    }
    stage.marks.leave();
}

/// What the caller of a scene does that needs the pool for nothing else, and whether it sees what it must.
fn act_alone<C: Calls, R: Wait + Clock>(
    rt: &R,
    alloc: Global,
    scene: Scene,
    caller: &mut C,
    marks: &Marks,
) -> bool {
    match scene {
        Scene::Overlap => overlap(rt, alloc, caller),
        Scene::OverlapOfFour => overlap_of_four(rt, alloc, caller),
        Scene::Pace => pace(rt, alloc, caller),
        Scene::NotUnderstood => not_understood(rt, alloc, caller),
        Scene::Closing => closing(rt, alloc, caller, marks),
        Scene::Numbers => numbers(rt, alloc, caller, marks),
        Scene::UsedSelector => used_selector(rt, alloc, caller, marks),
        Scene::UnusedSelector => unused_selector(rt, alloc, caller, marks),
        Scene::Reparented => reparented(rt, alloc, caller),
        Scene::FullAtCheckout => at_checkout(rt, alloc, caller, marks),
        Scene::FullAtCommit => at_commit(rt, alloc, caller, marks),
        Scene::LateWait => late_wait(rt, alloc, caller, marks),
        Scene::RoomAgain => room_again(rt, alloc, caller, marks),
        Scene::Rest => rest(rt),
        Scene::Stopping => stopping(rt, alloc, caller, marks),
        Scene::Endless => endless(rt, alloc, caller, marks),
        Scene::LongTurn => long_turn(rt, alloc, caller, marks),
        Scene::Hurried => hurried(rt, alloc, caller),
        Scene::Waking => waking(rt, alloc, caller),
        Scene::WakingByCommit => waking_by_commit(rt, alloc, caller, marks),
        Scene::Rally => rally(rt, alloc, caller),
        Scene::Refused => calls_alone(rt, alloc, caller),
        Scene::ManyCallers | Scene::Crowd | Scene::Checkpoints | Scene::FailingSession => false,
    }
}

/// What the caller of a scene does, and whether it sees what it must.
fn act<C: Calls, K: Naming + Send + Sync, R: Threads + Wait + Clock + Sync>(
    rt: &R,
    alloc: Global,
    stage: &Stage<K>,
    caller: &mut C,
) -> bool {
    match stage.scene {
        Scene::ManyCallers => many_callers(rt, alloc, stage),
        Scene::Crowd => crowd(rt, alloc, stage, caller),
        Scene::Checkpoints => among_checkpoints(rt, alloc, stage, caller),
        Scene::FailingSession => among_sessions(rt, alloc, stage, caller),
        scene => act_alone(rt, alloc, scene, caller, &stage.marks),
    }
}

/// A caller, asked for again where memory was refused.
fn caller_again<'a, K: Naming, R: Wait>(
    rt: &R,
    alloc: Global,
    shared: &'a Shared<K>,
) -> Result<Caller<'a, K>, Refusal> {
    match shared.caller(rt, alloc) {
        Err(Refusal::NoMemory) => shared.caller(rt, alloc),
        answer => answer,
    }
}

/// Lets the caller of a scene act, and hands its share back.
fn act_and_end<K: Naming + Send + Sync, R: Threads + Wait + Clock + Sync>(
    rt: &R,
    alloc: Global,
    stage: &Stage<K>,
) {
    let Ok(mut caller) = caller_again(rt, alloc, &stage.shared) else {
        stage.marks.note_wrong();
        return;
    };
    if !act(rt, alloc, stage, &mut caller) {
        stage.marks.note_wrong();
    }
    hand_back(rt, stage, caller.end());
}

/// Calls until no worker is left, for workers that a stop did not wake.
fn call_until_gone<K: Naming, R: Wait + Clock>(rt: &R, alloc: Global, stage: &Stage<K>) {
    let Ok(mut caller) = stage.shared.caller(rt, alloc) else {
        return;
    };
    for _ in 0..TURNS {
        if stage.marks.are_gone(stage.scene.workers() as u64) {
            return;
        }
        let _answer = caller.close(rt, alloc, FIRST);
        pause(rt, 1);
    }
}

/// Waits until all workers have ended. Where they do not, that is wrong, and they are called.
fn see_them_go<K: Naming, R: Wait + Clock>(rt: &R, alloc: Global, stage: &Stage<K>) {
    if !stage.marks.await_gone(rt, stage.scene.workers() as u64) {
        stage.marks.note_wrong();
        call_until_gone(rt, alloc, stage);
    }
}

/// Lets workers run while the caller of a scene acts. They are told to stop in any case, and all have ended then.
fn play<K: Naming + Send + Sync, R: Threads + Wait + Clock + Sync>(
    rt: &R,
    alloc: Global,
    stage: &Stage<K>,
) {
    thread::scope(thread::scope_env(), rt, |scope| {
        for number in 0..stage.scene.workers() {
            let works = scope.spawn(move || work_on_thread(rt, alloc, stage, number));
            if works.is_err() {
                stage.marks.note_wrong();
            }
        }
        act_and_end(rt, alloc, stage);
        stage.shared.stop(rt);
        stage.marks.tell();
        see_them_go(rt, alloc, stage);
    });
}

/// Leaves a share out.
fn leave_out<K: Naming>(shares: &mut Shares<K>, missing: Missing) {
    match missing {
        Missing::None => {}
        Missing::Caller => {
            let _share = shares.callers.pop();
        }
        Missing::Worker => {
            let _share = shares.workers.pop();
        }
    }
}

/// What settling answers, where all was as it must be before.
fn settled<K: Naming>(stage: Stage<K>, missing: Missing) -> Option<Result<Totals, Refusal>> {
    let is_wrong = stage.marks.is_wrong() || !stage.marks.are_paired();
    let Stage { shared, shares, .. } = stage;
    let mut shares = shares.into_inner();
    leave_out(&mut shares, missing);
    if is_wrong {
        return None;
    }
    Some(settle(shared, shares))
}

/// Plays a scene with a pool.
fn played<K: Naming + Send + Sync, R: Threads + Wait + Clock + Sync>(
    rt: &R,
    alloc: Global,
    image: Box<Image>,
    blanks: Blanks,
    opened: Opened,
    scene: Scene,
    missing: Missing,
) -> Option<Result<Totals, Refusal>>
    requires posts { blanks.posts.name ≡ K.posts }
    requires edits { blanks.edits.name ≡ K.edits }
    requires steps { blanks.steps.name ≡ K.steps }
    requires emptied { blanks.emptied.name ≡ K.emptied }
    requires book { opened.seen.book ≡ K.book }
    requires start { K.start ≡ amounts image.value }
    requires first { K.first ≡ image.value }
{
    let stage = Stage {
        shared: Shared::<K>::new(Box::into_inner(image), blanks, opened),
        shares: Mutex::new(no_shares(alloc)),
        marks: Marks::new(),
        scene,
    };
    play(rt, alloc, &stage);
    settled(stage, missing)
}

/// Plays a scene with a new pool, and leaves a share out when all is settled.
pub fn totals_without<R: Threads + Wait + Clock + Sync>(
    rt: &R,
    alloc: Global,
    scene: Scene,
    missing: Missing,
) -> Option<Result<Totals, Refusal>> {
    let image = new_image(alloc, scene).ok()?;
    played::<Brand, R>(
        rt,
        alloc,
        image,
        Blanks::new(),
        Opened::new(),
        scene,
        missing,
    )
}

/// Plays a scene with a new pool, and settles all shares: `None` where something was not as it must be before.
pub fn totals<R: Threads + Wait + Clock + Sync>(
    rt: &R,
    alloc: Global,
    scene: Scene,
) -> Option<Result<Totals, Refusal>> {
    totals_without(rt, alloc, scene, Missing::None)
}
