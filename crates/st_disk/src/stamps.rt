//! What the system says of a file, by which a change of it is seen.
use std::fs::{self, Files, Metadata};
use std::io::ErrorKind;
use std::os::unix::fs::MetadataExt;

/// Which file it is, its size, and when it was written last.
#[derive(Clone, Copy)]
pub struct Stamp {
    device: u64,
    number: u64,
    size: u64,
    seconds: i64,
    nanoseconds: i64,
}

impl Stamp {
    pub fn of(file: &Metadata) -> Stamp {
        Stamp {
            device: file.dev(),
            number: file.ino(),
            size: file.size(),
            seconds: file.mtime(),
            nanoseconds: file.mtime_nsec(),
        }
    }

    /// Whether both are of one file that was not written between them.
    fn is_same(self, other: Stamp) -> bool {
        self.device == other.device
            && self.number == other.number
            && self.size == other.size
            && self.seconds == other.seconds
            && self.nanoseconds == other.nanoseconds
    }
}

/// Whether something else is at a path than was seen there before. If nothing is there, that is no change.
pub fn has_changed<R: Files>(rt: &R, path: &str, seen: Option<Stamp>) -> bool {
    match fs::symlink_metadata(rt, path) {
        Ok(found) => match seen {
            Some(seen) => !seen.is_same(Stamp::of(&found)),
            None => true,
        },
        Err(error) => error.kind() != ErrorKind::NotFound,
    }
}
