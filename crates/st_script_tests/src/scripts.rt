//! Worked scripts with other histories than the program's, and the replies that they must have.
use crate::sessions_in_memory::says;
use st_script::settings::ScriptSettings;
use std::alloc::{AllocError, Global};
use std::test::*;

/// The messages of a mailbox, the items of the history, and lines that are each answered by the next one.
type Script = (u32, u32, &'static str);

/// The table stands behind a function without a contract, so that the proof of a test carries nothing of it.
fn scripts() -> &'static [Script] {
    SCRIPTS
}

const SCRIPTS: &[Script] = &[
    // A `run` that finds the history full says so and nothing else. What ran before stands, and what did not is
    // pending.
    (
        2,
        6,
        r#"{"class":"Object","cmd":"actor"}
{"ok":{"actor":0}}
{"actor":0,"args":[],"cmd":"post","selector":"isNil","sender":1,"seq":1}
{"ok":{"turn":1}}
{"actor":0,"args":[],"cmd":"post","selector":"class","sender":1,"seq":2}
{"ok":{"turn":2}}
{"class":"Object","cmd":"actor"}
{"ok":{"actor":1}}
{"cmd":"run"}
{"error":"HistoryFull"}
{"actor":0,"cmd":"outcome","turn":1}
{"ok":{"answer":false}}
{"actor":0,"cmd":"outcome","turn":2}
{"error":"Pending"}
{"class":"Object","cmd":"actor"}
{"error":"HistoryFull"}
{"cmd":"run"}
{"error":"HistoryFull"}"#,
    ),
    // A history that is full has room behind a checkpoint, and a full mailbox has not.
    (
        1,
        4,
        r#"{"cmd":"define","name":"A","slots":[],"super":"Object"}
{"ok":{"version":1}}
{"class":"A","cmd":"method","source":"go ^1"}
{"ok":{"version":2}}
{"class":"A","cmd":"actor"}
{"ok":{"actor":0}}
{"actor":0,"args":[],"cmd":"post","selector":"go","sender":1,"seq":1}
{"ok":{"turn":1}}
{"class":"A","cmd":"actor"}
{"error":"HistoryFull"}
{"cmd":"checkpoint"}
{"ok":{"posts":1,"steps":0}}
{"actor":0,"args":[],"cmd":"post","selector":"go","sender":1,"seq":2}
{"error":"Full"}
{"class":"A","cmd":"actor"}
{"ok":{"actor":1}}
{"cmd":"run"}
{"ok":{"quanta":1,"steps":3}}
{"actor":0,"cmd":"outcome","turn":1}
{"ok":{"answer":1}}
{"cmd":"checkpoint","quanta":1}
{"error":"BadCommand"}"#,
    ),
    // In a history of three items: a close that finds no room for its own is refused, and the mailbox stays open. An
    // unknown actor and a closed mailbox are told before.
    (
        64,
        3,
        r#"{"class":"Object","cmd":"actor"}
{"ok":{"actor":0}}
{"class":"Object","cmd":"actor"}
{"ok":{"actor":1}}
{"actor":0,"cmd":"close"}
{"ok":{}}
{"actor":1,"cmd":"close"}
{"error":"HistoryFull"}
{"actor":0,"cmd":"close"}
{"error":"Closed"}
{"actor":2,"cmd":"close"}
{"error":"UnknownActor"}
{"actor":1,"args":[],"cmd":"post","selector":"isNil","sender":1,"seq":1}
{"error":"HistoryFull"}"#,
    ),
    // A history of one item has room for an actor, and for no message. No actor is ready.
    (
        1,
        1,
        r#"{"class":"Object","cmd":"actor"}
{"ok":{"actor":0}}
{"actor":0,"args":[],"cmd":"post","selector":"isNil","sender":1,"seq":1}
{"error":"HistoryFull"}
{"cmd":"run"}
{"ok":{"quanta":0,"steps":0}}
{"cmd":"define","name":"M","slots":[],"super":"Object"}
{"error":"HistoryFull"}
{"cmd":"run"}
{"ok":{"quanta":0,"steps":0}}"#,
    ),
    // One of two items has room for a message, and not for the beginning of its turn: the message is pending, and
    // its actor ready.
    (
        1,
        2,
        r#"{"class":"Object","cmd":"actor"}
{"ok":{"actor":0}}
{"actor":0,"args":[],"cmd":"post","selector":"isNil","sender":1,"seq":1}
{"ok":{"turn":1}}
{"cmd":"run"}
{"error":"HistoryFull"}
{"cmd":"define","name":"M","slots":[],"super":"Object"}
{"error":"HistoryFull"}
{"cmd":"run"}
{"error":"HistoryFull"}
{"actor":0,"args":[],"cmd":"post","selector":"isNil","sender":1,"seq":2}
{"error":"Full"}"#,
    ),
    // One of three items has room for the beginning, and not for the quantum: the message has begun and stays so,
    // and its actor is ready.
    (
        1,
        3,
        r#"{"class":"Object","cmd":"actor"}
{"ok":{"actor":0}}
{"actor":0,"args":[],"cmd":"post","selector":"isNil","sender":1,"seq":1}
{"ok":{"turn":1}}
{"cmd":"run"}
{"error":"HistoryFull"}
{"cmd":"define","name":"M","slots":[],"super":"Object"}
{"error":"HistoryFull"}
{"cmd":"run"}
{"error":"HistoryFull"}
{"actor":0,"args":[],"cmd":"post","selector":"isNil","sender":1,"seq":2}
{"error":"HistoryFull"}
{"actor":0,"cmd":"outcome","turn":1}
{"error":"Pending"}"#,
    ),
    // One of four items has room for both, and for nothing more. No actor is ready then.
    (
        1,
        4,
        r#"{"class":"Object","cmd":"actor"}
{"ok":{"actor":0}}
{"actor":0,"args":[],"cmd":"post","selector":"isNil","sender":1,"seq":1}
{"ok":{"turn":1}}
{"cmd":"run"}
{"ok":{"quanta":1,"steps":1}}
{"cmd":"define","name":"M","slots":[],"super":"Object"}
{"error":"HistoryFull"}
{"cmd":"run"}
{"ok":{"quanta":0,"steps":0}}
{"actor":0,"cmd":"outcome","turn":1}
{"ok":{"answer":false}}"#,
    ),
    // A definition and an actor are two items.
    (
        64,
        2,
        r#"{"cmd":"define","name":"M","slots":[],"super":"Object"}
{"ok":{"version":1}}
{"class":"M","cmd":"actor"}
{"ok":{"actor":0}}
{"actor":0,"args":[],"cmd":"post","selector":"isNil","sender":1,"seq":1}
{"error":"HistoryFull"}
{"cmd":"run"}
{"ok":{"quanta":0,"steps":0}}"#,
    ),
    // Without room for it, a close is refused, and the mailbox stays open: it tells of the history, and not that it
    // is closed.
    (
        1,
        1,
        r#"{"actor":0,"cmd":"close"}
{"error":"UnknownActor"}
{"class":"Object","cmd":"actor"}
{"ok":{"actor":0}}
{"actor":0,"cmd":"close"}
{"error":"HistoryFull"}
{"actor":0,"args":[],"cmd":"post","selector":"isNil","sender":1,"seq":1}
{"error":"HistoryFull"}"#,
    ),
    // With room for it, a mailbox is closed.
    (
        1,
        2,
        r#"{"actor":0,"cmd":"close"}
{"error":"UnknownActor"}
{"class":"Object","cmd":"actor"}
{"ok":{"actor":0}}
{"actor":0,"cmd":"close"}
{"ok":{}}
{"actor":0,"args":[],"cmd":"post","selector":"isNil","sender":1,"seq":1}
{"error":"Closed"}
{"actor":0,"cmd":"close"}
{"error":"Closed"}"#,
    ),
    // A script whose image nobody keeps cannot save it, also where the history is full.
    (
        64,
        1,
        r#"{"cmd":"save"}
{"error":"BadArguments"}
{"class":"Object","cmd":"actor"}
{"ok":{"actor":0}}
{"cmd":"save"}
{"error":"BadArguments"}
{"cmd":"save","image":"i"}
{"error":"BadCommand"}"#,
    ),
    // A checkpoint makes room in a history that is full.
    (
        64,
        2,
        r#"{"cmd":"define","name":"A","slots":[],"super":"Object"}
{"ok":{"version":1}}
{"class":"Object","cmd":"actor"}
{"ok":{"actor":0}}
{"actor":0,"args":[],"cmd":"post","selector":"isNil","sender":1,"seq":1}
{"error":"HistoryFull"}
{"cmd":"checkpoint"}
{"ok":{"posts":0,"steps":0}}
{"actor":0,"args":[],"cmd":"post","selector":"isNil","sender":1,"seq":1}
{"ok":{"turn":1}}
{"actor":0,"args":[],"cmd":"post","selector":"isNil","sender":1,"seq":1}
{"error":"Old","last":1}"#,
    ),
    // A mailbox of two messages in a history of three items, which an actor and two messages are. A full mailbox is
    // told before a full history.
    (
        2,
        3,
        r#"{"class":"Object","cmd":"actor"}
{"ok":{"actor":0}}
{"actor":0,"args":[],"cmd":"post","selector":"isNil","sender":1,"seq":1}
{"ok":{"turn":1}}
{"actor":0,"args":[],"cmd":"post","selector":"isNil","sender":1,"seq":2}
{"ok":{"turn":2}}
{"actor":0,"args":[],"cmd":"post","selector":"isNil","sender":1,"seq":3}
{"error":"Full"}
{"actor":0,"cmd":"close"}
{"error":"HistoryFull"}"#,
    ),
    // An edit that is refused is no item: a definition and an install are two.
    (
        64,
        2,
        r#"{"cmd":"define","name":"M","slots":[],"super":"Object"}
{"ok":{"version":1}}
{"class":"M","cmd":"method","source":"a ^x"}
{"error":"BadSource","kind":"UnknownName","offset":3}
{"class":"Object","cmd":"method","source":"isNil ^3"}
{"error":"KernelMethod"}
{"class":"M","cmd":"method","source":"a ^3 + 4 * 2"}
{"ok":{"version":2}}
{"class":"Object","cmd":"actor"}
{"error":"HistoryFull"}"#,
    ),
    // A removal is an item, and one that is refused is none.
    (
        64,
        3,
        r#"{"cmd":"define","name":"M","slots":[],"super":"Object"}
{"ok":{"version":1}}
{"class":"M","cmd":"method","source":"a ^3 + 4 * 2"}
{"ok":{"version":2}}
{"class":"N","cmd":"remove","selector":"a"}
{"error":"UnknownClass"}
{"class":"Object","cmd":"remove","selector":"isNil"}
{"error":"KernelMethod"}
{"class":"Object","cmd":"remove","selector":"a"}
{"error":"NoSuchMethod"}
{"class":"M","cmd":"remove","selector":"isNil"}
{"error":"NoSuchMethod"}
{"class":"M","cmd":"remove","selector":"a"}
{"ok":{"version":3}}
{"class":"M","cmd":"remove","selector":"a"}
{"error":"NoSuchMethod"}
{"class":"Object","cmd":"actor"}
{"error":"HistoryFull"}"#,
    ),
    // No lines.
    (64, 1_000_000, ""),
];

fn push_line(text: &mut Vec<u8>, line: &str) -> Result<(), AllocError> {
    text.extend_from_slice(line.as_bytes())?;
    text.push(b'\n')?;
    Ok(())
}

/// Whether each line of a dialogue is answered by the next, however the bytes are cut.
fn is_answered(alloc: Global, settings: ScriptSettings, dialogue: &str) -> Result<bool, Fail> {
    let mut script = Vec::new(alloc);
    let mut replies = Vec::new(alloc);
    let mut lines = 0u64;
    for (place, line) in dialogue.lines().enumerate() {
        if place % 2 == 0 {
            lines = lines.wrapping_add(1);
            push_line(&mut script, line)?;
        } else {
            push_line(&mut replies, line)?;
        }
    }
    says(alloc, settings, &script, &replies, Ok(lines))
}

#[test]
fn worked_scripts(rt: HostRuntime) -> Result<(), Fail> {
    for (capacity, history, dialogue) in scripts() {
        let settings = ScriptSettings {
            quantum: 256,
            capacity: *capacity,
            history: *history,
            start: 0,
        };
        assert!(rt; is_answered(rt.alloc(), settings, dialogue)?, "{dialogue}");
    }
    Ok(())
}
