//! The digest of an image file's text, by which a journal knows the image that it goes on from.
use sha2::{Digest, Sha256};
use std::alloc::{AllocError, Global};
use std::io::{self, Read, Write};

/// Bytes that are written, and the digest of all of them.
#[derive(Drop)]
pub struct WrittenDigest<W: Write> {
    to: W,
    hasher: Sha256,
}

impl<W: Write> WrittenDigest<W> {
    pub fn new(to: W) -> WrittenDigest<W> {
        WrittenDigest {
            to,
            hasher: Sha256::new(),
        }
    }

    /// What was written to, and the digest of all that was written, in hexadecimal digits.
    pub fn digest(self, alloc: Global) -> (W, Result<String, AllocError>) {
        let WrittenDigest { to, hasher } = self;
        (to, text(alloc, hasher))
    }
}

impl<W: Write> Write for WrittenDigest<W> {
    fn write(&mut self, bytes: &[u8]) -> io::Result<usize> {
        let count = self.to.write(bytes)?;
        self.hasher.update(&bytes[..count]);
        Ok(count)
    }

    fn flush(&mut self) -> io::Result<()> {
        self.to.flush()
    }
}

/// The digest of all that is left to read, in hexadecimal digits.
pub fn digest_of<R: Read>(alloc: Global, from: &mut R) -> io::Result<String> {
    let mut written = WrittenDigest::new(io::sink());
    io::copy(from, &mut written)?;
    let (_, digest) = written.digest(alloc);
    Ok(digest?)
}

/// A digest in hexadecimal digits.
fn text(alloc: Global, hasher: Sha256) -> Result<String, AllocError> {
    let digest: [u8; 32] = hasher.finalize();
    hex::encode(alloc, &digest)
}
