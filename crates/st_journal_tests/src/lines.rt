//! The lines of entries, by hand: what tells each entry, what is read of it, and what is done again of a text.
use crate::images::{
    Image, Worker, lengths, line, lines, new_image, new_worker, read, redone_text, text, told_since,
};
use crate::story::{COUNTER, FIRST, SECOND, told_whole};
use st_classes::refusals::{ImagePlace, Refusal};
use st_classes::seq::Seq;
use st_classes::values::{ClassId, Selector, Value};
use st_journal::entries::Entry;
use st_journal::redo_error::{LineError, RedoError, RefusedLine};
use st_mailbox::messages::{Message, Sender};
use std::alloc::{AllocError, Global};
use std::test::*;

const OTHER: ClassId = ClassId(9);

/// The first of the names of the user.
const TICK: Selector = Selector(22);

/// A line of each kind.
const SAID: &[&str] = &[
    "{\"name\":\"tock\"}",
    "{\"edit\":{\"define\":{\"name\":\"Third\",\"slots\":[\"a\",\"b\"],\"super\":\"Counter\"}}}",
    "{\"edit\":{\"install\":{\"class\":\"Counter\",\"source\":\"tick\\t^8\"}}}",
    "{\"edit\":{\"remove\":{\"class\":\"Counter\",\"selector\":\"tick\"}}}",
    "{\"edit\":{\"reparent\":{\"class\":\"Counter\",\"super\":\"Other\"}}}",
    "{\"actor\":\"Counter\"}",
    "{\"post\":{\"actor\":0,\"args\":[-5,true,null,{\"sym\":\"tick\"},{\"class\":\"Other\"},{\"ref\":1},{\"local\":2}],\"selector\":\"tick\",\"sender\":7,\"seq\":9}}",
    "{\"close\":1}",
    "{\"begun\":0}",
    "{\"ran\":[1,4294967295]}",
    "{\"checkpoint\":{}}",
];

fn said() -> &'static [&'static str] {
    SAID
}

/// The edits that the second to the fifth of these lines say behind a story.
fn edits(alloc: Global, entries: &mut Vec<Entry>) -> Result<(), AllocError> {
    let mut slots = Vec::new(alloc);
    slots.push(text(alloc, "a")?)?;
    slots.push(text(alloc, "b")?)?;
    entries.push(Entry::Define {
        name: text(alloc, "Third")?,
        parent: COUNTER,
        slots: Seq::from_vec(slots),
    })?;
    entries.push(Entry::Install {
        class: COUNTER,
        source: text(alloc, "tick\t^8")?,
    })?;
    entries.push(Entry::Remove {
        class: COUNTER,
        selector: TICK,
    })?;
    entries.push(Entry::Reparent {
        class: COUNTER,
        parent: OTHER,
    })?;
    Ok(())
}

/// A message with an argument of each kind.
fn message(alloc: Global) -> Result<Message, AllocError> {
    let args = [
        Value::Int(-5),
        Value::Bool(true),
        Value::Nil,
        Value::Sym(TICK),
        Value::Class(OTHER),
        Value::Actor(SECOND),
        Value::Local(2),
    ];
    Ok(Message {
        sender: Sender::Client(7),
        seq: 9,
        selector: TICK,
        args: Seq::from_vec(args.as_slice().to_vec(alloc)?),
    })
}

/// The entries that these lines say behind a story.
fn entries(alloc: Global) -> Result<Vec<Entry>, AllocError> {
    let mut entries = Vec::new(alloc);
    entries.push(Entry::Name(text(alloc, "tock")?))?;
    edits(alloc, &mut entries)?;
    entries.push(Entry::Created(COUNTER))?;
    entries.push(Entry::Posted {
        actor: FIRST,
        message: message(alloc)?,
    })?;
    entries.push(Entry::Closed(SECOND))?;
    entries.push(Entry::Begun(FIRST))?;
    entries.push(Entry::Ran {
        actor: SECOND,
        steps: 4_294_967_295,
    })?;
    entries.push(Entry::Checkpoint)?;
    Ok(entries)
}

/// A line with a newline.
fn with_newline(alloc: Global, line: &str) -> Result<Vec<u8>, AllocError> {
    let mut bytes = Vec::from_slice(alloc, line.as_bytes())?;
    bytes.push(b'\n')?;
    Ok(bytes)
}

/// Each entry is told by its line, and what is read of the line is told by it again.
#[test]
fn of_each_kind(rt: HostRuntime) -> Result<(), Fail> {
    let image = told_whole(rt.alloc())?;
    let entries = entries(rt.alloc())?;
    assert_eq!(rt; entries.len(), said().len());
    for (entry, said) in entries.iter().zip(said()) {
        let whole = with_newline(rt.alloc(), *said)?;
        let told = line(rt.alloc(), &image, entry)?;
        assert_eq!(rt; told.as_slice(), whole.as_slice());
        let again = read(rt.alloc(), &image, *said)?;
        let told_again = line(rt.alloc(), &image, &again)?;
        assert_eq!(rt; told_again.as_slice(), whole.as_slice());
    }
    Ok(())
}

/// Entries that are told at once have the lines of each, one after the other; and one whose text is not UTF-8 has none.
#[test]
fn of_many_entries(rt: HostRuntime) -> Result<(), Fail> {
    let image = told_whole(rt.alloc())?;
    let mut entries = entries(rt.alloc())?;
    let told = lines(rt.alloc(), &image, &entries).ok();
    let mut whole = Vec::new(rt.alloc());
    for said in said() {
        whole.extend_from_slice(&with_newline(rt.alloc(), *said)?)?;
    }
    assert_eq!(rt;
        told.as_ref().map(|it| it.as_slice()),
        Some(whole.as_slice())
    );
    entries.push(Entry::Name(Seq::from_vec(Vec::from_slice(rt.alloc(), b"a\xff")?)))?;
    assert!(rt; lines(rt.alloc(), &image, &entries).is_err());
    Ok(())
}

/// Lines that say no entry behind a story, each with the place of its refusal.
const WRONG: &[(&str, ImagePlace)] = &[
    ("", ImagePlace::Json),
    ("{\"close\":1", ImagePlace::Json),
    ("1", ImagePlace::Shape),
    ("[]", ImagePlace::Shape),
    ("{}", ImagePlace::Shape),
    ("{\"nam\":\"tock\"}", ImagePlace::Shape),
    ("{\"name\":1}", ImagePlace::Shape),
    ("{\"close\":1,\"name\":\"tock\"}", ImagePlace::Shape),
    ("{\"edit\":{}}", ImagePlace::Shape),
    (
        "{\"edit\":{\"remove\":{\"class\":\"Counter\"}}}",
        ImagePlace::Shape,
    ),
    ("{\"actor\":8}", ImagePlace::Shape),
    ("{\"actor\":\"Nobody\"}", ImagePlace::Actors),
    (
        "{\"edit\":{\"remove\":{\"class\":\"Counter\",\"selector\":\"tock\"}}}",
        ImagePlace::Actors,
    ),
    (
        "{\"edit\":{\"reparent\":{\"class\":\"Nobody\",\"super\":\"Other\"}}}",
        ImagePlace::Actors,
    ),
    (
        "{\"post\":{\"actor\":0,\"args\":[],\"selector\":\"tick\",\"sender\":7}}",
        ImagePlace::Shape,
    ),
    (
        "{\"post\":{\"actor\":0,\"args\":[],\"at\":1,\"selector\":\"tick\",\"sender\":7,\"seq\":9}}",
        ImagePlace::Shape,
    ),
    (
        "{\"post\":{\"actor\":0,\"args\":[],\"selector\":\"tick\",\"sender\":7,\"seq\":\"9\"}}",
        ImagePlace::Shape,
    ),
    (
        "{\"post\":{\"actor\":0,\"args\":[],\"selector\":\"tock\",\"sender\":7,\"seq\":9}}",
        ImagePlace::Actors,
    ),
    ("{\"close\":-1}", ImagePlace::Shape),
    ("{\"close\":4294967296}", ImagePlace::Shape),
    ("{\"begun\":1.5}", ImagePlace::Shape),
    ("{\"ran\":[0]}", ImagePlace::Shape),
    ("{\"ran\":[0,0]}", ImagePlace::Shape),
    ("{\"ran\":[0,4294967296]}", ImagePlace::Shape),
    ("{\"ran\":[0,1,2]}", ImagePlace::Shape),
    ("{\"checkpoint\":null}", ImagePlace::Shape),
    ("{\"checkpoint\":{\"a\":1}}", ImagePlace::Shape),
];

fn wrong() -> &'static [(&'static str, ImagePlace)] {
    WRONG
}

/// Why a line says no entry.
fn refusal(alloc: Global, image: &Image, line: &str) -> Option<Refusal> {
    match read(alloc, image, line) {
        Ok(_) => None,
        Err(refusal) => Some(refusal),
    }
}

#[test]
fn that_say_nothing(rt: HostRuntime) -> Result<(), Fail> {
    let image = told_whole(rt.alloc())?;
    for (line, place) in wrong() {
        assert_eq!(rt;
            refusal(rt.alloc(), &image, *line),
            Some(Refusal::BadImage { place: *place }),
            "{line}"
        );
    }
    Ok(())
}

/// The lines of entries, one behind the other.
fn text_of(alloc: Global, image: &Image, entries: &[Entry]) -> Result<Vec<u8>, AllocError> {
    let mut bytes = Vec::new(alloc);
    for entry in entries {
        let line = line(alloc, image, entry)?;
        bytes.extend_from_slice(&line)?;
    }
    Ok(bytes)
}

/// The text of a whole story, done again on a new image.
#[test]
fn of_a_story(rt: HostRuntime) -> Result<(), Fail> {
    let first = told_whole(rt.alloc())?;
    let entries = told_since(rt.alloc(), &first, 22, 0)?;
    let text = text_of(rt.alloc(), &first, &entries)?;
    let mut again = new_image(rt.alloc())?;
    let mut worker = new_worker(rt.alloc())?;
    assert_eq!(rt;
        redone_text(rt.alloc(), &mut again, &mut worker, &text),
        Ok(())
    );
    assert_eq!(rt; lengths(&again), (25, 17));
    Ok(())
}

/// Texts, each with what becomes of it behind a story.
const TEXTS: &[(&str, Result<(), RefusedLine>)] = &[
    ("", Ok(())),
    ("{\"checkpoint\":{}}\n{\"checkpoint\":{}}", Ok(())),
    (
        "\n",
        Err(RefusedLine {
            place: 0,
            error: LineError::NotJson,
        }),
    ),
    (
        "{\"checkpoint\":{}}\nnothing\n",
        Err(RefusedLine {
            place: 1,
            error: LineError::NotJson,
        }),
    ),
    (
        "{\"checkpoint\":{}}\n{\"name\":\"tock\"}\n{\"actor\":\"Nobody\"}",
        Err(RefusedLine {
            place: 2,
            error: LineError::NotEntry,
        }),
    ),
    (
        "{\"begun\":0}\n",
        Err(RefusedLine {
            place: 0,
            error: LineError::Redo(RedoError::Refused(Refusal::NothingToDo)),
        }),
    ),
    (
        "{\"name\":\"tock\"}\n{\"name\":\"tock\"}\n",
        Err(RefusedLine {
            place: 1,
            error: LineError::Redo(RedoError::KnownName),
        }),
    ),
];

fn texts() -> &'static [(&'static str, Result<(), RefusedLine>)] {
    TEXTS
}

fn redone_behind_a_story(alloc: Global, text: &str) -> Result<Result<(), RefusedLine>, Refusal> {
    let mut image = told_whole(alloc)?;
    let mut worker: Box<Worker> = new_worker(alloc)?;
    Ok(redone_text(alloc, &mut image, &mut worker, text.as_bytes()))
}

#[test]
fn that_are_refused(rt: HostRuntime) -> Result<(), Fail> {
    for (text, answer) in texts() {
        assert_eq!(rt;
            redone_behind_a_story(rt.alloc(), *text)?,
            *answer,
            "{text}"
        );
    }
    Ok(())
}

/// An install of a source of 4,096 bytes, most of which are blanks.
fn longest(alloc: Global) -> Result<Entry, AllocError> {
    let mut source = Vec::from_slice(alloc, "tick ^8".as_bytes())?;
    source.resize(4_096, b' ')?;
    Ok(Entry::Install {
        class: COUNTER,
        source: Seq::from_vec(source),
    })
}

/// A text with this line, and a thousand of actors that were made.
fn with_actors(alloc: Global, image: &Image, mut text: Vec<u8>) -> Result<Vec<u8>, AllocError> {
    let made = line(alloc, image, &Entry::Created(COUNTER))?;
    for _ in 0..1_000 {
        text.extend_from_slice(&made)?;
    }
    Ok(text)
}

/// The longest source has a line of 4,149 bytes: 48 before it, and 5 behind it. It is done again, and a thousand lines behind it, on the 17
/// items of a story.
#[test]
fn of_the_longest_source(rt: HostRuntime) -> Result<(), Fail> {
    let mut image = told_whole(rt.alloc())?;
    let mut worker = new_worker(rt.alloc())?;
    let entry = longest(rt.alloc())?;
    let told = line(rt.alloc(), &image, &entry)?;
    assert_eq!(rt; told.len(), 4_149);
    let text = with_actors(rt.alloc(), &image, told)?;
    assert_eq!(rt;
        redone_text(rt.alloc(), &mut image, &mut worker, &text),
        Ok(())
    );
    assert_eq!(rt; lengths(&image), (25, 1_018));
    Ok(())
}
