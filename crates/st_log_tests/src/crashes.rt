//! A crash at each step of a call, with each outcome.
use crate::logs::{NO_FAILURE, appending, log_on, texts};
use crate::noted::Step;
use crate::outcomes::Disk;
use std::alloc::{AllocError, Global};
use std::test::*;

/// Lines that are there, batches, and how many outcomes of a crash have none of the batches, the first, and so on. By hand: a first write of n
/// bytes past the end leaves 1 + 3 + .. + 3^n texts, each without the batch; its sync one; the write of the brace two without the batch
/// and one with it; its sync one.
const APPENDED: &[(&[u8], &[&[u8]], &[u32])] = &[
    (b"", &[b"{\n\n"], &[16, 2]),
    (b"{\n", &[b"{\n\n"], &[16, 2]),
    (b"", &[b"{1}\n\n"], &[124, 2]),
    (b"{0}\n", &[b"{1}\n\n"], &[124, 2]),
    (b"{0}\n{1}\n", &[b"{\n{\n\n"], &[124, 2]),
    (b"{0}\n", &[b"{\n\n", b"{1}\n\n"], &[16, 126, 2]),
    (b"{0}\n", &[b"{\n\n", b"{\n\n", b"{a\n\n"], &[16, 18, 45, 2]),
    (b"{0}\n", &[], &[0]),
];

fn appended() -> &'static [(&'static [u8], &'static [&'static [u8]], &'static [u32])] {
    APPENDED
}

/// A file, its whole lines, and how many outcomes a crash has while it is recovered. By hand: one after each of the three syncs; those of
/// the cut, one more than the bytes that are cut off; and four of a newline past the end, which is no byte or one of three.
const RECOVERED: &[(&[u8], &[u8], u32)] = &[
    (b"", b"", 8),
    (b"\n", b"", 9),
    (b"x", b"", 9),
    (b"{", b"", 9),
    (b"{\n", b"{\n", 8),
    (b"{1}\n\n", b"{1}\n", 9),
    (b"{1}\n{2", b"{1}\n", 10),
    (b"{1}\n\n3}\n", b"{1}\n", 12),
    (b"{1}\n\n{2}\n", b"{1}\n", 13),
    (b"x{1}\n", b"", 13),
    (b"{1}\n\n3}\n\n{\n{\n", b"{1}\n", 17),
];

fn recovered() -> &'static [(&'static [u8], &'static [u8], u32)] {
    RECOVERED
}

/// The lines that recovery reads of bytes on a disk, and the steps that it takes.
fn recovery(alloc: Global, bytes: &[u8]) -> Result<(Vec<u8>, Vec<Step>), Fail> {
    let mut log = log_on(alloc, bytes, NO_FAILURE)?;
    let lines = log.recover(alloc)?;
    let device = log.device;
    Ok((lines, device.steps))
}

/// The lines before, and those with each batch more.
fn fronts(alloc: Global, lines: &[u8], batches: &[Vec<u8>]) -> Result<Vec<Vec<u8>>, AllocError> {
    let mut fronts = Vec::new(alloc);
    let mut front = lines.to_vec(alloc)?;
    for batch in batches {
        fronts.push(front.to_vec(alloc)?)?;
        for byte in batch.iter().take(batch.len().saturating_sub(1)) {
            front.push(*byte)?;
        }
    }
    fronts.push(front)?;
    Ok(fronts)
}

/// Counts lines at the front that they are, or says that they are none.
fn count(fronts: &[Vec<u8>], counts: &mut [u32], lines: &[u8]) -> bool {
    for (front, count) in fronts.iter().zip(counts) {
        if front.as_slice() == lines {
            *count = count.saturating_add(1);
            return true;
        }
    }
    false
}

/// How many outcomes of a crash have the lines of none of the batches, of the first, and so on. There are none where one has other lines.
fn outcomes(alloc: Global, lines: &[u8], batches: &[Vec<u8>]) -> Result<Vec<u32>, Fail> {
    let fronts = fronts(alloc, lines, batches)?;
    let mut counts = vec![in alloc; 0u32; fronts.len()]?;
    let mut file = lines.to_vec(alloc)?;
    file.push(b'\n')?;
    let mut disk = Disk::new(alloc, &file)?;
    for step in appending(alloc, lines, batches)? {
        disk = disk.after(&step)?;
        for file in &disk.left {
            if !count(&fronts, &mut counts, &recovery(alloc, file)?.0) {
                return Ok(Vec::new(alloc));
            }
        }
    }
    Ok(counts)
}

#[test]
fn while_batches_are_appended(rt: HostRuntime) -> Result<(), Fail> {
    for (lines, batches, counts) in appended() {
        let batches = texts(rt.alloc(), batches)?;
        assert_eq!(rt; outcomes(rt.alloc(), lines, &batches)?.as_slice(), *counts);
    }
    Ok(())
}

/// How many outcomes a crash has while a file is recovered, each of which is recovered to the same lines; and how many have others.
fn recoveries(alloc: Global, file: &[u8], lines: &[u8]) -> Result<(u32, u32), Fail> {
    let (mut same, mut others) = (0u32, 0u32);
    let mut disk = Disk::new(alloc, file)?;
    for step in recovery(alloc, file)?.1 {
        disk = disk.after(&step)?;
        for file in &disk.left {
            if recovery(alloc, file)?.0.as_slice() == lines {
                same = same.saturating_add(1);
            } else {
                others = others.saturating_add(1);
            }
        }
    }
    Ok((same, others))
}

#[test]
fn while_a_file_is_recovered(rt: HostRuntime) -> Result<(), Fail> {
    for (file, lines, count) in recovered() {
        assert_eq!(rt; recovery(rt.alloc(), file)?.0.as_slice(), *lines);
        assert_eq!(rt; recoveries(rt.alloc(), file, lines)?, (*count, 0));
    }
    Ok(())
}
