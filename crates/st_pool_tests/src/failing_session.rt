//! Of four callers that post to one actor one is that of a session, whose output fails in the middle of its replies. What it posted until
//! then counts.
use crate::calls::*;
use crate::crowd::{EACH, call_together, hand_back, has_receipts};
use crate::plays::totals;
use crate::pools::{Caller, Stage};
use crate::scenes::Scene;
use st_classes::refusals::Refusal;
use st_pool::naming::Naming;
use st_pool::shares::CallerShare;
use st_pool::totals::Totals;
use st_script::keepers::Nobody;
use st_server::admission::Admission;
use st_server::attending::{Services, attend};
use st_server::recording::Recorder;
use st_server::starts::ServerInfo;
use st_wire::streams::{MemoryInput, Writer};
use std::alloc::{AllocError, Global};
use std::io::{self, ErrorKind, Write};
use std::sync::Wait;
use std::sync::atomic::AtomicU64;
use std::test::*;
use std::thread::Threads;
use std::time::Clock;

/// The sender whose messages are the lines of a session.
pub const TALKING: u16 = 4;

/// Each reply is one write, and the write behind these fails: that of the reply to the next post, which was accepted.
const WRITES: u32 = 50;

const POSTED: u64 = 51;

/// A line of a post is this, the number of the message, and its end.
const LINE: &str = r#"{"actor":0,"args":[],"cmd":"post","selector":"a","sender":4,"seq":"#;

const LINE_END: &str = "}\n";

/// Takes this many writes, and then fails.
#[derive(Drop)]
struct Failing {
    left: u32,
}

impl Write for Failing {
    fn write(&mut self, bytes: &[u8]) -> io::Result<usize> {
        if self.left == 0 {
            return Err(io::Error::from(ErrorKind::BrokenPipe));
        }
        self.left -= 1;
        Ok(bytes.len())
    }

    fn flush(&mut self) -> io::Result<()> {
        Ok(())
    }
}

/// The lines of all posts.
fn lines(alloc: Global) -> Result<Vec<u8>, AllocError> {
    let mut lines = Vec::new(alloc);
    for number in 0..EACH {
        let seq = 1u64.wrapping_add(number);
        let number: Result<String, AllocError> = format!(in alloc; "{seq}");
        let number = number?;
        for part in [LINE, number.as_str(), LINE_END] {
            lines.extend_from_slice(part.as_bytes())?;
        }
    }
    Ok(lines)
}

/// A session over a caller: its share, and how it ended.
fn talk<K: Naming, R: Wait + Clock>(
    rt: &R,
    alloc: Global,
    stage: &Stage<K>,
    caller: Caller<'_, K>,
    lines: Vec<u8>,
) -> (CallerShare<K>, Result<u64, Refusal>) {
    let mut input = MemoryInput::new(lines);
    let mut output = Writer::new(Failing { left: WRITES });
    let sessions = AtomicU64::new(1);
    let info = ServerInfo {
        start: 0,
        sessions: &sessions,
        workers: 1,
    };
    let admission = Admission::new();
    let recorder = Recorder::new(alloc, &stage.shared, &Nobody, 0, 0, 0);
    let services = Services {
        keeper: &Nobody,
        recorder: &recorder,
        admission: &admission,
    };
    attend(rt, alloc, info, services, caller, &mut input, &mut output)
}

/// The thread of the session's caller.
pub fn talk_and_fail<K: Naming, R: Wait + Clock>(
    rt: &R,
    alloc: Global,
    stage: &Stage<K>,
    caller: Caller<'_, K>,
) {
    let lines = lines(alloc).unwrap_or(Vec::new(alloc));
    let (share, end) = talk(rt, alloc, stage, caller, lines);
    if end != Err(Refusal::WriteFault) || !has_receipts(&share, TALKING, POSTED) {
        stage.marks.note_wrong();
    }
    hand_back(rt, stage, share);
}

/// Three callers post a hundred messages each beside the session, and the last turn ends.
pub fn among_sessions<C: Calls, K: Naming + Send + Sync, R: Threads + Wait + Clock + Sync>(
    rt: &R,
    alloc: Global,
    stage: &Stage<K>,
    caller: &mut C,
) -> bool {
    if !make_actor(rt, alloc, caller, "a ^3 + 4 * 2") {
        return false;
    }
    call_together(rt, alloc, stage, 4);
    answers(rt, caller, FIRST, 351, 14)
}

#[test]
fn a_session_fails_among_callers(rt: HostRuntime) -> Result<(), Fail> {
    // three times a hundred posts and those of the session; each turn has seven steps
    let wanted = Totals {
        posts: 351,
        edits: 2,
        steps: 2457,
    };
    assert!(rt; totals(&rt, rt.alloc(), Scene::FailingSession) == Some(Ok(wanted)));
    Ok(())
}
