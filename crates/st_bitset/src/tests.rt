//! Tests of flags.
use crate::bitset::BitSet;
use std::alloc::Global;

/// BitSet, of which those with the given numbers are raised. There are fewer if memory runs out.
fn flags_of(alloc: Global, count: u32, raised: &[u32]) -> BitSet {
    let mut flags = BitSet::new(alloc);
    for _ in 0..count {
        if flags.len() < 65536 {
            let _ = flags.push();
        }
    }
    for at in raised {
        if *at < flags.len() {
            flags.set(*at, true);
        }
    }
    flags
}

#[test]
fn next_in_few(rt: HostRuntime) {
    let flags = flags_of(rt.alloc(), 300, &[3, 63, 64, 130, 299]);
    assert_eq!(rt; flags.len(), 300);
    for (from, next) in [
        (0, 3),
        (3, 3),
        (4, 63),
        (63, 63),
        (64, 64),
        (65, 130),
        (131, 299),
        (299, 299),
        (300, 3),
        (u32::MAX, 3),
    ] {
        assert_eq!(rt; flags.next(from), Some(next), "from {from}");
    }
}

#[test]
fn next_in_most(rt: HostRuntime) {
    let flags = flags_of(rt.alloc(), 65536, &[4095, 4096, 65535]);
    assert_eq!(rt; flags.len(), 65536);
    for (from, next) in [
        (0, 4095),
        (4095, 4095),
        (4096, 4096),
        (4097, 65535),
        (65535, 65535),
        (65536, 4095),
        (u32::MAX, 4095),
    ] {
        assert_eq!(rt; flags.next(from), Some(next), "from {from}");
    }
}

#[test]
fn lowered(rt: HostRuntime) {
    let mut flags = flags_of(rt.alloc(), 5000, &[64, 4999]);
    for at in [64, 4999] {
        assert!(rt; flags.get(at));
        assert_eq!(rt; flags.next(at), Some(at));
        if at < flags.len() {
            flags.set(at, false);
        }
        assert!(rt; !flags.get(at));
    }
    assert!(rt; !flags.get(5000) && !flags.get(u32::MAX));
    assert!(rt; flags.next(0).is_none() && flags.next(65).is_none());
}
