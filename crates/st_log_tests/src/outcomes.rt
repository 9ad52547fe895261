//! What a crash may leave of bytes while steps are made on them: after each step, all of it. Of the values that a torn byte may have,
//! three stand for all: a brace, a newline and another one.
use crate::noted::Step;
use std::alloc::{AllocError, Global};

const TORN: [u8; 3] = *b"{\nx";

/// All texts that are one byte longer than one of these.
fn longer(alloc: Global, texts: &[Vec<u8>]) -> Result<Vec<Vec<u8>>, AllocError> {
    let mut more = Vec::new(alloc);
    for text in texts {
        for byte in TORN {
            let mut text = text.to_vec(alloc)?;
            text.push(byte)?;
            more.push(text)?;
        }
    }
    Ok(more)
}

/// All texts of up to so many bytes, by their lengths.
fn torn_texts(alloc: Global, most: usize) -> Result<Vec<Vec<Vec<u8>>>, AllocError> {
    let mut all = Vec::new(alloc);
    let mut last = Vec::new(alloc);
    last.push(Vec::new(alloc))?;
    for _ in 0..most {
        let next = longer(alloc, &last)?;
        all.push(last)?;
        last = next;
    }
    all.push(last)?;
    Ok(all)
}

/// The front of a file, a text and the rest of the file behind it.
fn joined(alloc: Global, file: &[u8], at: usize, text: &[u8]) -> Result<Vec<u8>, AllocError> {
    let mut bytes = Vec::new(alloc);
    for byte in file.iter().take(at).chain(text) {
        bytes.push(*byte)?;
    }
    for byte in file.iter().skip(at.saturating_add(text.len())) {
        bytes.push(*byte)?;
    }
    Ok(bytes)
}

/// What a write of so many bytes may leave of a file. A torn text is shorter only where the file ends in the range or before it.
fn torn_writes(
    alloc: Global,
    file: &[u8],
    at: usize,
    len: usize,
) -> Result<Vec<Vec<u8>>, AllocError> {
    let mut left = Vec::new(alloc);
    let end = at.saturating_add(len);
    for texts in torn_texts(alloc, len)? {
        for text in texts {
            let is_whole = text.len() == len;
            if is_whole || (file.len() <= at.saturating_add(text.len()) && file.len() < end) {
                left.push(joined(alloc, file, at, &text)?)?;
            }
        }
    }
    Ok(left)
}

/// What a truncation may leave of a file: each length between.
fn torn_truncations(alloc: Global, file: &[u8], len: usize) -> Result<Vec<Vec<u8>>, AllocError> {
    let mut left = Vec::new(alloc);
    for kept in len..=file.len() {
        left.push(joined(alloc, &[], 0, file.get(..kept).unwrap_or(file))?)?;
    }
    Ok(left)
}

/// A file as a read returns it, and all that a crash may leave of it.
#[derive(Drop)]
pub struct Disk {
    alloc: Global,
    contents: Vec<u8>,
    pub left: Vec<Vec<u8>>,
}

impl Disk {
    /// A file that is on the disk.
    pub fn new(alloc: Global, bytes: &[u8]) -> Result<Disk, AllocError> {
        let mut left = Vec::new(alloc);
        left.push(bytes.to_vec(alloc)?)?;
        Ok(Disk {
            alloc,
            contents: bytes.to_vec(alloc)?,
            left,
        })
    }

    /// The same after a step.
    pub fn after(self, step: &Step) -> Result<Disk, AllocError> {
        let Disk {
            alloc,
            contents,
            left,
        } = self;
        let mut next = Vec::new(alloc);
        let contents = match step {
            Step::Write { at, bytes } => {
                for file in &left {
                    next.append(&mut torn_writes(alloc, file, *at, bytes.len())?)?;
                }
                joined(alloc, &contents, *at, bytes)?
            }
            Step::Truncate { len } => {
                for file in &left {
                    next.append(&mut torn_truncations(alloc, file, *len)?)?;
                }
                joined(alloc, &[], 0, contents.get(..*len).unwrap_or(&contents))?
            }
            Step::Sync => {
                next.push(contents.to_vec(alloc)?)?;
                contents
            }
        };
        Ok(Disk {
            alloc,
            contents,
            left: next,
        })
    }
}
