//! Lines of about 8,192 bytes that are commands, as both readers read them.
use crate::commands::{Wanted, both_read, new_reader};
use std::alloc::{AllocError, Global};
use std::test::*;

/// A line of a front, a part again and again, and a back; and what it is to be.
type Long = (&'static str, &'static str, usize, &'static str, Wanted);

const FRONT: &str = r#"{"actor":0,"args":["#;

const BACK: &str = r#"null],"cmd":"post","selector":"a","sender":0,"seq":0}"#;

/// White space, arguments, one key again and again, and a long selector.
const LONG: &[Long] = &[
    ("{", " ", 8_179, "\"cmd\":\"run\"}", Wanted::Run(1_000)),
    (
        FRONT,
        "true,",
        1_600,
        BACK,
        Wanted::Post(0, 1_601, "a", 0, 0),
    ),
    (
        FRONT,
        r#"{"ref":1},"#,
        800,
        BACK,
        Wanted::Post(0, 801, "a", 0, 0),
    ),
    (
        FRONT,
        r#"{"sym":"b"},"#,
        650,
        BACK,
        Wanted::Post(0, 651, "a", 0, 0),
    ),
    (
        "{",
        r#""actor":1,"#,
        800,
        r#""cmd":"close"}"#,
        Wanted::Close(1),
    ),
    (
        r#"{"actor":0,"args":[],"cmd":"post","selector":""#,
        "s",
        8_000,
        r#"","sender":0,"seq":0}"#,
        Wanted::Letters(8_000),
    ),
];

/// The table behind a function without a contract, so that the proof of a test carries none of it.
fn long_lines() -> &'static [Long] {
    LONG
}

fn repeated(
    alloc: Global,
    front: &str,
    part: &str,
    count: usize,
    back: &str,
) -> Result<String, AllocError> {
    let parts = part.repeat(alloc, count)?;
    format!(in alloc; "{front}{parts}{back}")
}

#[test]
fn both_readers_read_long_lines(rt: HostRuntime) -> Result<(), Fail> {
    let mut reader = new_reader(rt.alloc())?;
    for (front, part, count, back, wanted) in long_lines() {
        let line = repeated(rt.alloc(), front, part, *count, back)?;
        let is_read = both_read(rt.alloc(), &mut reader, line.as_bytes(), Some(wanted));
        assert!(rt; is_read, "{front} {part}");
    }
    Ok(())
}
