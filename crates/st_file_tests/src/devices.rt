//! Devices that fail while an image is loaded or saved, and such that do not.
use st_classes::refusals::Refusal;
use st_file::files::{image_of_bytes, load};
use st_file::saving::save;
use st_script::images::{Image, Mailbox};
use st_wire::streams::{Reader, Writer};
use std::alloc::Global;
use std::io::{self, ErrorKind, Read, Write};
use std::test::*;

/// An actor with a message pending.
const PENDING: &str =
    r#"{"actors":[{"body":{"objects":[{"class":"M","slots":[]}],"phase":"fresh"},"capacity":64,"class":"M","last":0,"open":true,"pending":[{"args":[],"selector":"a","sender":1,"seq":1}]}],"edits":[{"define":{"name":"M","slots":[],"super":"Object"}},{"install":{"class":"M","source":"a ^3 + 4 * 2"}}],"format":2,"names":["a"],"posts":1,"senders":[[1,1]],"steps":0}"#;

fn pending() -> &'static [u8] {
    PENDING.as_bytes()
}

/// How many bytes are moved at once.
const PIECE: usize = 100;

/// Gives a text piece by piece, and fails after this many reads.
#[derive(Drop)]
struct Giving<'a> {
    left: &'a [u8],
    reads: u32,
}

impl<'a> Read for Giving<'a> {
    fn read(&mut self, buffer: &mut [u8]) -> io::Result<usize> {
        if self.reads == 0 {
            return Err(io::Error::from(ErrorKind::BrokenPipe));
        }
        self.reads -= 1;
        let end = PIECE.min(buffer.len());
        self.left.read(&mut buffer[..end])
    }
}

/// Takes bytes piece by piece, and fails after this many writes.
#[derive(Drop)]
struct Taking<'a> {
    taken: &'a mut Vec<u8>,
    writes: u32,
}

impl<'a> Write for Taking<'a> {
    fn write(&mut self, bytes: &[u8]) -> io::Result<usize> {
        if self.writes == 0 {
            return Err(io::Error::from(ErrorKind::BrokenPipe));
        }
        self.writes -= 1;
        let end = PIECE.min(bytes.len());
        self.taken.write(&bytes[..end])
    }

    fn flush(&mut self) -> io::Result<()> {
        Ok(())
    }
}

/// Why the text is refused that a device gives with this many reads, if it is.
fn refused_after(alloc: Global, reads: u32) -> Option<Refusal> {
    let left = pending();
    let image: Result<Image, Refusal> = load::<Mailbox, _>(
        alloc,
        &mut Reader::new(Giving { left, reads }),
    );
    image.err()
}

/// Puts a value on the heap. It may be of any type, since the proof of a function that lets an image go pays for all its parts.
fn on_heap<T: Drop>(alloc: Global, value: T) -> Result<Box<T>, Refusal> {
    match Box::new(alloc, value) {
        Ok(value) => Ok(value),
        Err(_) => Err(Refusal::NoMemory),
    }
}

/// The image of the text, on the heap.
fn loaded(alloc: Global) -> Result<Box<Image>, Refusal> {
    match image_of_bytes(alloc, pending()) {
        Ok(image) => on_heap(alloc, image),
        Err(refusal) => Err(refusal),
    }
}

/// Whether a device that takes this many writes is left with as many pieces of the text.
fn holds_after(alloc: Global, writes: u32, wanted: Result<(), Refusal>) -> Result<bool, Refusal> {
    let image = loaded(alloc)?;
    let mut taken = Vec::new(alloc);
    let result = save(
        alloc,
        &image,
        &mut Writer::new(Taking {
            taken: &mut taken,
            writes,
        }),
    );
    let length = PIECE * writes as usize;
    let text = pending();
    let is_front = if length < text.len() + 1 {
        taken.as_slice() == &text[..length]
    } else {
        taken.strip_suffix(b"\n") == Some(text)
    };
    Ok(is_front && result == wanted)
}

#[test]
fn devices_fail(rt: HostRuntime) -> Result<(), Fail> {
    let alloc = rt.alloc();
    // The text has 360 bytes or so: four pieces, and a read that finds the end.
    for reads in 0..5 {
        assert!(rt; refused_after(alloc, reads) == Some(Refusal::ReadFault));
    }
    assert!(rt; refused_after(alloc, 5) == None);
    for writes in 0..4 {
        assert!(rt; holds_after(alloc, writes, Err(Refusal::WriteFault)) == Ok(true));
    }
    assert!(rt; holds_after(alloc, 4, Ok(())) == Ok(true));
    Ok(())
}
