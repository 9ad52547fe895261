//! A server of a new image, by what a client is answered and by what the server tells in the end.
use boxcar::Vec as Faults;
use st_classes::refusals::Refusal;
use st_pool::totals::Totals;
use st_server::accept_policy::{FaultList, SessionObserver};
use st_server::sockets::serve_on;
use std::alloc::Global;
use std::fs::Files;
use std::io::{self, ErrorKind, Read, Write};
use std::net::Net;
use std::os::unix::net::{SocketAddr, SocketAddrExt, UnixListener, UnixStream};
use std::sync::Wait;
use std::test::*;
use std::thread::{self, Threads};
use std::time::{Clock, Duration};

const OUTCOME: &str = "{\"actor\":0,\"cmd\":\"outcome\",\"turn\":1}\n";

const PENDING: &[u8] = b"{\"error\":\"Pending\"}\n";

const ANSWER: &[u8] = b"{\"ok\":{\"answer\":14}}";

/// Lines, and their replies. Workers run the actors, so a `run` is no command, and nobody keeps the image, so it cannot be saved.
const SCRIPT: &[(&str, &str)] = &[
    (
        "{\"cmd\":\"define\",\"name\":\"M\",\"slots\":[],\"super\":\"Object\"}\n",
        "{\"ok\":{\"version\":1}}\n",
    ),
    (
        "{\"class\":\"M\",\"cmd\":\"method\",\"source\":\"a ^3 + 4 * 2\"}\n",
        "{\"ok\":{\"version\":2}}\n",
    ),
    (
        "{\"class\":\"M\",\"cmd\":\"actor\"}\n",
        "{\"ok\":{\"actor\":0}}\n",
    ),
    (
        "{\"actor\":0,\"args\":[],\"cmd\":\"post\",\"selector\":\"a\",\"sender\":1,\"seq\":1}\n",
        "{\"ok\":{\"turn\":1}}\n",
    ),
    ("{\"cmd\":\"run\"}\n", "{\"error\":\"BadCommand\"}\n"),
    ("{\"cmd\":\"save\"}\n", "{\"error\":\"BadArguments\"}\n"),
];

/// The table behind a function without a contract, so that the proof of a test carries none of it.
fn script() -> &'static [(&'static str, &'static str)] {
    SCRIPT
}

/// A socket without a file, under the first name that no other test has.
fn listen<R: Files + Net>(rt: &R) -> io::Result<UnixListener> {
    let mut name = *b"actorimage test a";
    for letter in b'a'..=b'z' {
        name[16] = letter;
        let address = SocketAddr::from_abstract_name(&name)?;
        if let Ok(listener) = UnixListener::bind_addr(rt, &address) {
            return Ok(listener);
        }
    }
    Err(io::Error::from(ErrorKind::AddrInUse))
}

/// Sends a line, and fills a buffer with the front of its reply.
fn ask(mut stream: &UnixStream, line: &str, reply: &mut [u8]) -> bool {
    stream.write_all(line.as_bytes()).is_ok() && stream.read_exact(reply).is_ok()
}

/// Whether a line is answered so.
fn is_answered(stream: &UnixStream, line: &str, wanted: &str) -> bool {
    let mut buffer = [0; 64];
    match buffer.get_mut(..wanted.len()) {
        Some(reply) => ask(stream, line, reply) && *reply == *wanted.as_bytes(),
        None => false,
    }
}

/// Whether the answer to the post comes in the end. The reply until then is as long as the answer without its newline.
fn is_awaited<R: Clock>(rt: &R, mut stream: &UnixStream) -> bool {
    let mut reply = [0; 20];
    let mut end = [0];
    for _ in 0..100_000 {
        if !ask(stream, OUTCOME, &mut reply) {
            return false;
        }
        if reply.as_slice() != PENDING {
            return reply.as_slice() == ANSWER
                && stream.read_exact(&mut end).is_ok()
                && end == *b"\n";
        }
        thread::sleep(rt, Duration::from_millis(1));
    }
    false
}

/// Whether a client is answered as it must be.
fn is_served<R: Net + Clock>(rt: &R, address: &SocketAddr) -> bool {
    let Ok(stream) = UnixStream::connect_addr(rt, address) else {
        return false;
    };
    for (line, reply) in script() {
        if !is_answered(&stream, line, reply) {
            return false;
        }
    }
    is_awaited(rt, &stream)
}

/// What a server of two workers and one session tells in the end, and how many refusals; or nothing if its client was answered otherwise.
fn told<R: Threads + Wait + Files + Net + Clock + Sync>(
    rt: &R,
    alloc: Global,
) -> Option<(Totals, usize)> {
    let listener = listen(rt).ok()?;
    let address = listener.local_addr().ok()?;
    let faults: Faults<Refusal> = Faults::new(alloc).ok()?;
    let (address, faults) = (&address, &faults);
    let (totals, is_well) = thread::join(
        rt,
        || serve_on(rt, alloc, listener, faults, 2, Some(1)),
        || is_served(rt, address),
    );
    if is_well {
        Some((totals.ok()?, faults.count()))
    } else {
        None
    }
}

#[test]
fn a_post_is_answered(rt: HostRuntime) -> Result<(), Fail> {
    let wanted = Totals {
        posts: 1,
        edits: 2,
        steps: 7,
    };
    assert!(rt; told(&rt, rt.alloc()) == Some((wanted, 0)));
    Ok(())
}

/// How many refusals are kept of a session that ends by one, where a server accepts so many sessions.
fn kept<R: Wait>(rt: &R, alloc: Global, sessions: Option<u32>) -> Option<usize> {
    let faults: Faults<Refusal> = Faults::new(alloc).ok()?;
    FaultList::of(&faults, sessions).ended(rt, Refusal::TooLong);
    Some(faults.count())
}

#[test]
fn faults_of_an_endless_server_are_let_go(rt: HostRuntime) -> Result<(), Fail> {
    assert!(rt; kept(&rt, rt.alloc(), Some(2)) == Some(1));
    assert!(rt; kept(&rt, rt.alloc(), None) == Some(0));
    Ok(())
}
