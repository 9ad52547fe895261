//! A log of lines on a disk, and what a crash leaves of it.
//!
//! [`logs::Log`] adds batches of lines behind those that are there. A batch counts whole or not at all. A crash at any moment leaves the
//! lines of the batches that were acknowledged, and all or none of the batch that is being written. Recovery reads just these lines, and
//! may crash too.
//!
//! # The disk
//!
//! A [`device::Device`] is the file of the log. A write that no sync followed may be torn by a crash. Then its range of bytes may hold
//! anything, also a whole line that nobody wrote. So nothing is concluded from how the bytes in such a range look, and there are no
//! checksums.
//!
//! # The file
//!
//! A line begins with a brace, `{`, and ends with its first newline. Other bytes are free, so a line may be a JSON object. The file holds
//! whole lines, and behind them an empty line, which is a single newline:
//!
//! ```text
//! {"a":1}
//! {"b":2}
//!
//! ```
//!
//! Reading ends at the first line that does not begin with a brace or has no newline. So it ends at the empty line, whatever stands
//! behind it.
//!
//! A batch is some whole lines, and behind them an empty line. It is added in two writes, each with a sync:
//!
//! 1. All of the batch but its first byte is written behind the empty line. Reading still ends at the empty line. If a crash tears this
//!    write, the file has the lines from before.
//! 2. The first byte of the batch, its brace, is written over the newline of the empty line. That is one byte. If a crash tears this
//!    write, the byte is a brace or it is not. If it is, the lines of the batch count, for all of them are on the disk. If not, none of
//!    them counts.
//!
//! Between the two writes the file looks like this, where the batch is the line `{"c":3}`:
//!
//! ```text
//! {"a":1}
//! {"b":2}
//!
//! "c":3}
//!
//! ```
//!
//! What a crash left behind the whole lines is cut off by recovery, before it writes the empty line anew.
#![tactic(auto)]

pub mod device;
pub mod laws;
pub mod lines;
pub mod logs;
pub mod memory;
pub mod recovered;
mod repair;
mod synced;
