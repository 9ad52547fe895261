//! Lines that are commands, as both readers read them: `read_command`, and the reader of many lines, by which the program reads. Lines
//! that are texts and no commands are tried on the built program, whose reader asks `read_command` for what it says of them; a session
//! ends before a line that is no text, so these are here.
use st_classes::refusals::Refusal;
use st_classes::seq::Seq;
use st_classes::values::ActorId;
use st_wire::commands::{Argument, Command, read_command};
use st_wire::line_readers::LineReader;
use st_wire::queries::Query;
use std::alloc::{AllocError, Global};
use std::test::*;

/// What a command is to be. Of lists it says how long they are.
#[derive(Drop)]
pub(crate) enum Wanted {
    /// A post with the arguments of the line that has one of each kind.
    Arguments,
    /// A post of a selector of so many letters `s`.
    Letters(usize),
    Define(&'static str, &'static str, usize),
    Method(&'static str, &'static str),
    Remove(&'static str, &'static str),
    Reparent(&'static str, &'static str),
    Actor(&'static str),
    Post(u32, usize, &'static str, u16, u64),
    Close(u32),
    Run(u32),
    Outcome(u32, u64),
    /// A query of a turn that failed.
    Fault(u32, u64),
    /// A query of the turns that failed behind so many steps.
    Faults(u64),
    Replace(&'static str, u32, &'static str),
    Wait(u32, &'static str, u32, u64),
    Stats(&'static str, &'static str),
    Checkpoint,
    Save,
    /// A query by its name, the class and the selector that it names, and its numbers.
    Query(&'static str, &'static str, &'static str, u32, u32),
}

/// Lines, and the commands that they are: one of each kind, at the ends of their ranges, and such as are written in unusual ways.
const COMMANDS: &[(&str, Wanted)] = &[
    (
        r#"{"cmd":"define","name":"M","slots":["a","b"],"super":"Object"}"#,
        Wanted::Define("M", "Object", 2),
    ),
    (
        r#"{"class":"M","cmd":"method","source":"a ^3 + 4 * 2"}"#,
        Wanted::Method("M", "a ^3 + 4 * 2"),
    ),
    (
        r#" {"cmd": "remove", "class": "M", "selector": "+"} "#,
        Wanted::Remove("M", "+"),
    ),
    (
        r#"{"class":"M","cmd":"reparent","super":"N"}"#,
        Wanted::Reparent("M", "N"),
    ),
    (r#"{"class":"M","cmd":"actor"}"#, Wanted::Actor("M")),
    (
        r#"{"actor":0,"args":[],"cmd":"post","selector":"a","sender":1,"seq":1}"#,
        Wanted::Post(0, 0, "a", 1, 1),
    ),
    (ARGUMENTS, Wanted::Post(1, 7, "m", u16::MAX, u64::MAX)),
    (ARGUMENTS, Wanted::Arguments),
    (
        r#"{"actor":4294967295,"cmd":"close"}"#,
        Wanted::Close(u32::MAX),
    ),
    (r#"{"cmd":"run"}"#, Wanted::Run(1_000)),
    (r#"{"cmd":"run","quanta":1}"#, Wanted::Run(1)),
    (r#"{"cmd":"run","quanta":1000000}"#, Wanted::Run(1_000_000)),
    (
        r#"{"actor":0,"cmd":"outcome","turn":1}"#,
        Wanted::Outcome(0, 1),
    ),
    (
        r#"{"class":"M","cmd":"stats","selector":"at:put:"}"#,
        Wanted::Stats("M", "at:put:"),
    ),
    (r#"{"cmd":"checkpoint"}"#, Wanted::Checkpoint),
    (r#"{"cmd":"save"}"#, Wanted::Save),
    (
        r#"{"cmd":"classes"}"#,
        Wanted::Query("classes", "", "", 0, 0),
    ),
    (
        r#"{"class":"M","cmd":"methods"}"#,
        Wanted::Query("methods", "M", "", 0, 0),
    ),
    (
        r#"{"class":"M","cmd":"source","selector":"at:put:"}"#,
        Wanted::Query("source", "M", "at:put:", 0, 0),
    ),
    (
        r#"{"class":"M","cmd":"versions","selector":"a"}"#,
        Wanted::Query("versions", "M", "a", 0, 0),
    ),
    (
        r#"{"cmd":"implementors","selector":"+"}"#,
        Wanted::Query("implementors", "", "+", 0, 0),
    ),
    (
        r#"{"cmd":"senders","selector":"a"}"#,
        Wanted::Query("senders", "", "a", 0, 0),
    ),
    (
        r#"{"cmd":"actors","from":4294967295,"most":4096}"#,
        Wanted::Query("actors", "", "", u32::MAX, 4_096),
    ),
    (
        r#"{"cmd":"actors","from":0,"most":1}"#,
        Wanted::Query("actors", "", "", 0, 1),
    ),
    (
        r#"{"cmd":"edits","from":4294967295}"#,
        Wanted::Query("edits", "", "", u32::MAX, 0),
    ),
    (
        r#"{"actor":65536,"cmd":"inspect"}"#,
        Wanted::Query("inspect", "", "", 65_536, 0),
    ),
    (
        r#"{"actor":4294967295,"cmd":"fault","turn":18446744073709551615}"#,
        Wanted::Fault(u32::MAX, u64::MAX),
    ),
    (r#"{"actor":3,"cmd":"fault","turn":0}"#, Wanted::Fault(3, 0)),
    (
        r#"{"after":18446744073709551615,"cmd":"faults"}"#,
        Wanted::Faults(u64::MAX),
    ),
    (r#"{"after":0,"cmd":"faults"}"#, Wanted::Faults(0)),
    (r#"{"cmd":"status"}"#, Wanted::Query("status", "", "", 0, 0)),
    (
        r#"{"class":"M","cmd":"replace","over":4294967295,"source":"a ^1"}"#,
        Wanted::Replace("M", u32::MAX, "a ^1"),
    ),
    (
        r#"{"actor":3,"cmd":"wait","epoch":"e-0","ms":60000,"turn":18446744073709551615}"#,
        Wanted::Wait(3, "e-0", 60_000, u64::MAX),
    ),
    (
        r#"{"actor":0,"cmd":"outcome","turn":18446744073709551615}"#,
        Wanted::Outcome(0, u64::MAX),
    ),
    // The keys in another order, and with escapes; white space.
    (
        r#"{"seq":7,"sender":2,"selector":"b:","cmd":"post","args":[1],"actor":9}"#,
        Wanted::Post(9, 1, "b:", 2, 7),
    ),
    (r#"{"\u0063md":"r\u0075n"}"#, Wanted::Run(1_000)),
    (
        "\t{ \"quanta\" :\r\n 7 , \"cmd\" : \"run\" } ",
        Wanted::Run(7),
    ),
    (
        r#"{"actor":0,"args":[],"cmd":"post","selector":"a\u0074\u003a\ud83d\ude00","sender":0,"seq":0}"#,
        Wanted::Post(0, 0, "at:\u{1f600}", 0, 0),
    ),
    // The last value of a key counts.
    (r#"{"cmd":"stats","cmd":"run"}"#, Wanted::Run(1_000)),
    (r#"{"actor":"x","actor":2,"cmd":"close"}"#, Wanted::Close(2)),
    (r#"{"actor":3,"actor":2,"cmd":"close"}"#, Wanted::Close(2)),
    (
        r#"{"actor":0,"args":[{"ref":[],"ref":1}],"cmd":"post","selector":"a","sender":0,"seq":0}"#,
        Wanted::Post(0, 1, "a", 0, 0),
    ),
];

const ARGUMENTS: &str =
    r#"{"actor":1,"args":[-9223372036854775808,9223372036854775807,true,null,{"ref":2},{"sym":"at:put:"},{"class":"\u0043"}],"cmd":"post","selector":"m","sender":65535,"seq":18446744073709551615}"#;

// The table stands behind a function without a contract, so that the proofs of tests carry nothing of it.
fn commands() -> &'static [(&'static str, Wanted)] {
    COMMANDS
}

fn is(text: &Seq<u8>, wanted: &str) -> bool {
    text.as_slice() == wanted.as_bytes()
}

fn is_wanted(command: &Command, wanted: &Wanted) -> bool {
    match (command, wanted) {
        (
            Command::Define {
                name,
                parent,
                slots,
            },
            Wanted::Define(class, above, count),
        ) => is(name, class) && is(parent, above) && slots.len() == *count,
        (Command::Method { class, source }, Wanted::Method(holder, text)) => {
            is(class, holder) && is(source, text)
        },
        (
            Command::Replace {
                class,
                over,
                source,
            },
            Wanted::Replace(holder, version, text),
        ) => is(class, holder) && over == version && is(source, text),
        (
            Command::Wait {
                actor,
                epoch,
                ms,
                turn,
            },
            Wanted::Wait(number, text, most, place),
        ) => actor.0 == *number && is(epoch, text) && ms == most && turn == place,
        (Command::Remove { class, selector }, Wanted::Remove(holder, name)) => {
            is(class, holder) && is(selector, name)
        },
        (Command::Reparent { class, parent }, Wanted::Reparent(moved, above)) => {
            is(class, moved) && is(parent, above)
        },
        (Command::Actor { class }, Wanted::Actor(name)) => is(class, name),
        (
            Command::Post {
                actor,
                args,
                selector,
                sender,
                seq,
            },
            Wanted::Post(number, count, name, client, place),
        ) => {
            actor.0 == *number
                && args.len() == *count
                && is(selector, name)
                && sender == client
                && seq == place
        },
        (Command::Close { actor }, Wanted::Close(number)) => actor.0 == *number,
        (Command::Run { quanta }, Wanted::Run(count)) => quanta == count,
        (Command::Outcome { actor, turn }, Wanted::Outcome(number, place)) => {
            actor.0 == *number && turn == place
        },
        (Command::Stats { class, selector }, Wanted::Stats(holder, name)) => {
            is(class, holder) && is(selector, name)
        },
        (Command::Checkpoint, Wanted::Checkpoint) => true,
        (Command::Save, Wanted::Save) => true,
        (Command::Query(Query::Fault { actor, turn }), Wanted::Fault(number, place)) => {
            actor.0 == *number && turn == place
        },
        (Command::Query(Query::Faults { after }), Wanted::Faults(steps)) => after == steps,
        (Command::Query(query), Wanted::Query(name, class, selector, first, second)) => {
            is_query(query, name, class, selector, *first, *second)
        },
        (Command::Post { args, .. }, Wanted::Arguments) => are_expected(args.as_slice()),
        (Command::Post { selector, .. }, Wanted::Letters(count)) => {
            selector.len() == *count && selector.as_slice().iter().all(|byte| *byte == b's')
        },
        _ => false,
    }
}

/// Whether a query has this name, names this class and this selector, and has these numbers.
fn is_query(query: &Query, name: &str, holder: &str, text: &str, first: u32, second: u32) -> bool {
    match query {
        Query::Classes => name == "classes",
        Query::Methods { class } => name == "methods" && is(class, holder),
        Query::Source { class, selector } => {
            name == "source" && is(class, holder) && is(selector, text)
        },
        Query::Versions { class, selector } => {
            name == "versions" && is(class, holder) && is(selector, text)
        },
        Query::Implementors { selector } => name == "implementors" && is(selector, text),
        Query::Senders { selector } => name == "senders" && is(selector, text),
        Query::Edits { from } => name == "edits" && *from == first,
        Query::Actors { from, most } => { name == "actors" && *from == first && *most == second },
        Query::Inspect { actor } => name == "inspect" && actor.0 == first,
        Query::Fault { .. } | Query::Faults { .. } => false,
        Query::Status => name == "status",
    }
}

fn are_expected(args: &[Argument]) -> bool {
    match args {
        [
            Argument::Int(i64::MIN),
            Argument::Int(i64::MAX),
            Argument::Bool(true),
            Argument::Nil,
            Argument::Actor(ActorId(2)),
            Argument::Symbol(symbol),
            Argument::Class(class),
        ] => is(symbol, "at:put:") && is(class, "C"),
        _ => false,
    }
}

/// A reader on the heap, so that no proof that lets it go pays for its parts.
pub(crate) fn new_reader(alloc: Global) -> Result<Box<LineReader>, AllocError> {
    Ok(Box::new(alloc, LineReader::new(alloc))?)
}

/// Whether an answer is the command that is wanted; or that a line is none, where none is.
fn is_answer(answer: &Result<Command, Refusal>, wanted: Option<&Wanted>) -> bool {
    match (answer, wanted) {
        (Ok(command), Some(wanted)) => is_wanted(command, wanted),
        (Err(Refusal::BadCommand), None) => true,
        _ => false,
    }
}

fn is_read_by_itself(alloc: Global, line: &[u8], wanted: Option<&Wanted>) -> bool {
    is_answer(&read_command(alloc, line), wanted)
}

fn is_read_by(
    alloc: Global,
    reader: &mut LineReader,
    line: &[u8],
    wanted: Option<&Wanted>,
) -> bool {
    is_answer(&reader.read(alloc, line), wanted)
}

/// Whether both readers read this of a line.
pub(crate) fn both_read(
    alloc: Global,
    reader: &mut LineReader,
    line: &[u8],
    wanted: Option<&Wanted>,
) -> bool {
    is_read_by_itself(alloc, line, wanted) && is_read_by(alloc, reader, line, wanted)
}

/// A line with a byte at a place that is in no text.
fn spoilt(alloc: Global, line: &[u8], place: usize) -> Result<Vec<u8>, AllocError> {
    let mut line = Vec::from_slice(alloc, line)?;
    if let Some(byte) = line.get_mut(place) {
        *byte = 255;
    }
    Ok(line)
}

/// Whether both readers refuse a line that is spoilt at any place.
fn refuse_spoilt(alloc: Global, reader: &mut LineReader, line: &[u8]) -> Result<bool, AllocError> {
    for place in 0..line.len() {
        let spoilt = spoilt(alloc, line, place)?;
        if !both_read(alloc, reader, &spoilt, None) {
            return Ok(false);
        }
    }
    Ok(true)
}

/// A reader reads on behind lines that are no text.
#[test]
fn both_readers_read_commands(rt: HostRuntime) -> Result<(), Fail> {
    let mut reader = new_reader(rt.alloc())?;
    for (line, wanted) in commands() {
        let line = line.as_bytes();
        let is_read = both_read(rt.alloc(), &mut reader, line, Some(wanted))
            && refuse_spoilt(rt.alloc(), &mut reader, line)?
            && both_read(rt.alloc(), &mut reader, line, Some(wanted));
        assert!(rt; is_read, "{line:?}");
    }
    Ok(())
}
