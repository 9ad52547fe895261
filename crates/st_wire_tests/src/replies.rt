//! How replies are written: each form of reply but reports of sites, each name in one, and texts.
use st_classes::faults::Fault;
use st_classes::refusals::{ImagePlace, Limited, Refusal, SourceFault};
use st_classes::values::ActorId;
use st_wire::replies::{Answered, Reply, reply_text};
use st_wire::text::Text;
use std::alloc::{AllocError, Global};
use std::test::*;

/// A reply without texts.
enum Said {
    Version(u32),
    Actor(u32),
    Turn(u64),
    Closed,
    Ran(u32, u64),
    Counted(u64, u64),
    Saved(u64),
    Checked(u32, u32, u32),
    Int(i64),
    Bool(bool),
    Nil,
    Ref(u32),
    Local(u32),
    Fault(Fault),
    Refused(Refusal),
}

/// Replies without texts, and their lines: what is done, answers, each fault, each refusal, each kind of bad source, each limit and each
/// place in an image.
const REPLIES: &[(Said, &str)] = &[
    (Said::Version(1), r#"{"ok":{"version":1}}"#),
    (Said::Version(10), r#"{"ok":{"version":10}}"#),
    (Said::Actor(0), r#"{"ok":{"actor":0}}"#),
    (Said::Turn(1), r#"{"ok":{"turn":1}}"#),
    (Said::Closed, r#"{"ok":{}}"#),
    (Said::Ran(1, 7), r#"{"ok":{"quanta":1,"steps":7}}"#),
    (Said::Counted(2, 14), r#"{"ok":{"posts":2,"steps":14}}"#),
    (Said::Saved(95), r#"{"ok":{"bytes":95}}"#),
    (
        Said::Checked(1, 9, 5),
        r#"{"ok":{"actors":1,"classes":9,"edits":5}}"#,
    ),
    (Said::Int(14), r#"{"ok":{"answer":14}}"#),
    (Said::Int(-5), r#"{"ok":{"answer":-5}}"#),
    (Said::Bool(true), r#"{"ok":{"answer":true}}"#),
    (Said::Nil, r#"{"ok":{"answer":null}}"#),
    (Said::Ref(3), r#"{"ok":{"answer":{"ref":3}}}"#),
    (Said::Local(1), r#"{"ok":{"answer":{"local":1}}}"#),
    (
        Said::Fault(Fault::NotUnderstood),
        r#"{"ok":{"fault":"notUnderstood"}}"#,
    ),
    (
        Said::Fault(Fault::Overflow),
        r#"{"ok":{"fault":"overflow"}}"#,
    ),
    (
        Said::Fault(Fault::ZeroDivide),
        r#"{"ok":{"fault":"zeroDivide"}}"#,
    ),
    (
        Said::Fault(Fault::BadArgument),
        r#"{"ok":{"fault":"badArgument"}}"#,
    ),
    (
        Said::Fault(Fault::MustBeBoolean),
        r#"{"ok":{"fault":"mustBeBoolean"}}"#,
    ),
    (
        Said::Fault(Fault::StackOverflow),
        r#"{"ok":{"fault":"stackOverflow"}}"#,
    ),
    (
        Said::Fault(Fault::HeapFull),
        r#"{"ok":{"fault":"heapFull"}}"#,
    ),
    (
        Said::Fault(Fault::LocalArgument),
        r#"{"ok":{"fault":"localArgument"}}"#,
    ),
    (
        Said::Fault(Fault::TooManyActors),
        r#"{"ok":{"fault":"tooManyActors"}}"#,
    ),
    (
        Said::Refused(Refusal::UnknownClass),
        r#"{"error":"UnknownClass"}"#,
    ),
    (
        Said::Refused(Refusal::ClassExists),
        r#"{"error":"ClassExists"}"#,
    ),
    (
        Said::Refused(Refusal::KernelClass),
        r#"{"error":"KernelClass"}"#,
    ),
    (
        Said::Refused(Refusal::KernelMethod),
        r#"{"error":"KernelMethod"}"#,
    ),
    (Said::Refused(Refusal::BadName), r#"{"error":"BadName"}"#),
    (
        Said::Refused(Refusal::SlotClash),
        r#"{"error":"SlotClash"}"#,
    ),
    (Said::Refused(Refusal::TooDeep), r#"{"error":"TooDeep"}"#),
    (
        Said::Refused(Refusal::BadSource {
            kind: SourceFault::BadToken,
            offset: 0,
        }),
        r#"{"error":"BadSource","kind":"BadToken","offset":0}"#,
    ),
    (
        Said::Refused(Refusal::NoSuchMethod),
        r#"{"error":"NoSuchMethod"}"#,
    ),
    (
        Said::Refused(Refusal::UnknownActor),
        r#"{"error":"UnknownActor"}"#,
    ),
    (Said::Refused(Refusal::Closed), r#"{"error":"Closed"}"#),
    (Said::Refused(Refusal::Full), r#"{"error":"Full"}"#),
    (
        Said::Refused(Refusal::Old { last: 0 }),
        r#"{"error":"Old","last":0}"#,
    ),
    (
        Said::Refused(Refusal::BadArguments),
        r#"{"error":"BadArguments"}"#,
    ),
    (
        Said::Refused(Refusal::NothingToDo),
        r#"{"error":"NothingToDo"}"#,
    ),
    (
        Said::Refused(Refusal::Stale { version: 0 }),
        r#"{"error":"Stale","version":0}"#,
    ),
    (Said::Refused(Refusal::Changed), r#"{"error":"Changed"}"#),
    (
        Said::Refused(Refusal::TooMany {
            what: Limited::Names,
        }),
        r#"{"error":"TooMany","what":"names"}"#,
    ),
    (Said::Refused(Refusal::Pending), r#"{"error":"Pending"}"#),
    (Said::Refused(Refusal::Expired), r#"{"error":"Expired"}"#),
    (
        Said::Refused(Refusal::BadCommand),
        r#"{"error":"BadCommand"}"#,
    ),
    (Said::Refused(Refusal::TooLong), r#"{"error":"TooLong"}"#),
    (
        Said::Refused(Refusal::BadImage {
            place: ImagePlace::Shape,
        }),
        r#"{"error":"BadImage","place":"shape"}"#,
    ),
    (
        Said::Refused(Refusal::HistoryFull),
        r#"{"error":"HistoryFull"}"#,
    ),
    (Said::Refused(Refusal::NoMemory), r#"{"error":"NoMemory"}"#),
    (
        Said::Refused(Refusal::ReadFault),
        r#"{"error":"ReadFault"}"#,
    ),
    (
        Said::Refused(Refusal::WriteFault),
        r#"{"error":"WriteFault"}"#,
    ),
    (Said::Refused(Refusal::Cycle), r#"{"error":"Cycle"}"#),
    (
        Said::Refused(Refusal::SlotsDiffer),
        r#"{"error":"SlotsDiffer"}"#,
    ),
    (
        Said::Refused(Refusal::BadSource {
            kind: SourceFault::BlockEscapes,
            offset: 3,
        }),
        r#"{"error":"BadSource","kind":"BlockEscapes","offset":3}"#,
    ),
    (
        Said::Refused(Refusal::Old { last: 9 }),
        r#"{"error":"Old","last":9}"#,
    ),
    (
        Said::Refused(Refusal::Stale { version: 4 }),
        r#"{"error":"Stale","version":4}"#,
    ),
    (
        Said::Refused(Refusal::BadSource {
            kind: SourceFault::TooLarge,
            offset: 1,
        }),
        r#"{"error":"BadSource","kind":"TooLarge","offset":1}"#,
    ),
    (
        Said::Refused(Refusal::BadSource {
            kind: SourceFault::BadCharacter,
            offset: 1,
        }),
        r#"{"error":"BadSource","kind":"BadCharacter","offset":1}"#,
    ),
    (
        Said::Refused(Refusal::BadSource {
            kind: SourceFault::BadToken,
            offset: 1,
        }),
        r#"{"error":"BadSource","kind":"BadToken","offset":1}"#,
    ),
    (
        Said::Refused(Refusal::BadSource {
            kind: SourceFault::BadPattern,
            offset: 1,
        }),
        r#"{"error":"BadSource","kind":"BadPattern","offset":1}"#,
    ),
    (
        Said::Refused(Refusal::BadSource {
            kind: SourceFault::Nested,
            offset: 1,
        }),
        r#"{"error":"BadSource","kind":"Nested","offset":1}"#,
    ),
    (
        Said::Refused(Refusal::BadSource {
            kind: SourceFault::DuplicateName,
            offset: 1,
        }),
        r#"{"error":"BadSource","kind":"DuplicateName","offset":1}"#,
    ),
    (
        Said::Refused(Refusal::BadSource {
            kind: SourceFault::ReadOnly,
            offset: 1,
        }),
        r#"{"error":"BadSource","kind":"ReadOnly","offset":1}"#,
    ),
    (
        Said::Refused(Refusal::BadSource {
            kind: SourceFault::BlockEscapes,
            offset: 1,
        }),
        r#"{"error":"BadSource","kind":"BlockEscapes","offset":1}"#,
    ),
    (
        Said::Refused(Refusal::BadSource {
            kind: SourceFault::UnknownName,
            offset: 1,
        }),
        r#"{"error":"BadSource","kind":"UnknownName","offset":1}"#,
    ),
    (
        Said::Refused(Refusal::TooMany {
            what: Limited::Classes,
        }),
        r#"{"error":"TooMany","what":"classes"}"#,
    ),
    (
        Said::Refused(Refusal::TooMany {
            what: Limited::Slots,
        }),
        r#"{"error":"TooMany","what":"slots"}"#,
    ),
    (
        Said::Refused(Refusal::TooMany {
            what: Limited::Edits,
        }),
        r#"{"error":"TooMany","what":"edits"}"#,
    ),
    (
        Said::Refused(Refusal::TooMany {
            what: Limited::Actors,
        }),
        r#"{"error":"TooMany","what":"actors"}"#,
    ),
    (
        Said::Refused(Refusal::TooMany {
            what: Limited::Sessions,
        }),
        r#"{"error":"TooMany","what":"sessions"}"#,
    ),
    (
        Said::Refused(Refusal::BadImage {
            place: ImagePlace::Json,
        }),
        r#"{"error":"BadImage","place":"json"}"#,
    ),
    (
        Said::Refused(Refusal::BadImage {
            place: ImagePlace::Names,
        }),
        r#"{"error":"BadImage","place":"names"}"#,
    ),
    (
        Said::Refused(Refusal::BadImage {
            place: ImagePlace::Edits,
        }),
        r#"{"error":"BadImage","place":"edits"}"#,
    ),
    (
        Said::Refused(Refusal::BadImage {
            place: ImagePlace::Actors,
        }),
        r#"{"error":"BadImage","place":"actors"}"#,
    ),
    (
        Said::Refused(Refusal::BadImage {
            place: ImagePlace::Senders,
        }),
        r#"{"error":"BadImage","place":"senders"}"#,
    ),
];

/// Texts of symbols, and the lines of their answers.
const SYMBOLS: &[(&str, &str)] = &[
    ("\\\\", r#"{"ok":{"answer":{"sym":"\\\\"}}}"#),
    ("\"\n\u{1f}", r#"{"ok":{"answer":{"sym":"\"\n\u001f"}}}"#),
];

// The tables stand behind functions without contracts, so that the proofs of tests carry nothing of them.
fn replies() -> &'static [(Said, &'static str)] {
    REPLIES
}

fn symbols() -> &'static [(&'static str, &'static str)] {
    SYMBOLS
}

/// Whether a reply is written as this line and a newline.
pub(crate) fn is_line(alloc: Global, reply: &Reply, line: &str) -> Result<bool, AllocError> {
    let bytes = reply_text(alloc, reply)?;
    Ok(bytes.as_slice().strip_suffix(b"\n") == Some(line.as_bytes()))
}

fn reply_of(said: &Said) -> Reply {
    match said {
        Said::Version(number) => Reply::Version(*number),
        Said::Actor(number) => Reply::Actor(ActorId(*number)),
        Said::Turn(number) => Reply::Turn(*number),
        Said::Closed => Reply::Closed,
        Said::Ran(quanta, steps) => Reply::Ran {
            quanta: *quanta,
            steps: *steps,
        },
        Said::Counted(posts, steps) => Reply::Counted {
            posts: *posts,
            steps: *steps,
        },
        Said::Saved(bytes) => Reply::Saved(*bytes),
        Said::Checked(actors, classes, edits) => Reply::Checked {
            actors: *actors,
            classes: *classes,
            edits: *edits,
        },
        Said::Int(number) => Reply::Answer(Answered::Int(*number)),
        Said::Bool(value) => Reply::Answer(Answered::Bool(*value)),
        Said::Nil => Reply::Answer(Answered::Nil),
        Said::Ref(number) => Reply::Answer(Answered::Actor(ActorId(*number))),
        Said::Local(place) => Reply::Answer(Answered::Local(*place)),
        Said::Fault(fault) => Reply::Fault(*fault),
        Said::Refused(refusal) => Reply::Refused(*refusal),
    }
}

#[test]
fn replies_are_written(rt: HostRuntime) -> Result<(), Fail> {
    for (said, line) in replies() {
        assert!(rt; is_line(rt.alloc(), &reply_of(said), line)?, "{line}");
    }
    Ok(())
}

#[test]
fn texts_are_written(rt: HostRuntime) -> Result<(), Fail> {
    for (symbol, line) in symbols() {
        let answer = Answered::Symbol(Text::new(rt.alloc(), symbol)?);
        assert!(rt;
            is_line(rt.alloc(), &Reply::Answer(answer), line)?,
            "{line}"
        );
    }
    let class = Reply::Answer(Answered::Class(Text::new(rt.alloc(), "Counter")?));
    assert!(rt;
        is_line(
            rt.alloc(),
            &class,
            r#"{"ok":{"answer":{"class":"Counter"}}}"#
        )?
    );
    Ok(())
}
