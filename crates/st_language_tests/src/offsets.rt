//! Where the sends of sources stand: offsets that were counted by hand.
use st_compile::offsets::place_of;
use std::alloc::{AllocError, Global};
use std::test::*;

/// Sources, and for each instruction of their code the offset of the send, or of the send whose value a conditional jump tests. A - says
/// that there is none, or that it is not known which one. The last stands for what is behind the end.
const SAMPLES: &[(&str, &str)] = &[
    ("m", "- - -"),
    ("a ^3 + 4 * 2", "- - 5 - 9 - -"),
    ("of: amount ^amount * rate // 100", "- - 19 - 26 - -"),
    ("m ^3+4-5*self foo", "- - 4 - 6 - 14 8 - -"),
    ("m ^self at: 1 + 2 put: #a", "- - - 14 - 8 - -"),
    ("m ^1 foo: 2 bar + 3 baz: 4", "- - 12 - 16 - 5 - -"),
    ("m self foo. ^nil bar; baz", "- 7 - - - 17 - 22 - -"),
    (
        "c ^1 + 2; + 10; foo: 4 bar",
        "- - - 5 - - - 10 - - 23 16 - -",
    ),
    ("who ^super who + 10", "- 11 - 15 - -"),
    ("m: x ^(super m: x) m: super foo", "- - 13 - 28 19 - -"),
    (
        "m ^self isNil ifTrue: [1 foo] ifFalse: [2 bar]",
        "- 8 8 - 25 - - 42 - -",
    ),
    ("m: a ^a and: [a foo]", "- - - 16 - - - -"),
    (
        "m ^(self a ifTrue: [self b] ifFalse: [self c]) and: [nil]",
        "- 9 9 - 25 - - 43 - - - - - -",
    ),
    (
        "m (self foo; bar) ifTrue: [nil]",
        "- - 8 - 13 13 - - - - - - -",
    ),
    (
        "m | a | (a := self foo) ifTrue: [^1]",
        "- 19 - - - - - - - - - -",
    ),
    (
        "spin | i | i := 0. [i < 3] whileTrue: [i := i + 1]",
        "- - - - - 22 22 - - 46 - - - - - - - -",
    ),
    ("m ^1 whileTrue: 2", "- - 5 - -"),
    ("m \"a + b\" ^3 \"c\" - \"d\" -2", "- - 17 - -"),
    ("m\n\t^self\r\n\tfoo", "- 11 - -"),
    ("m ^zork foo", "- 8 - -"),
    ("m ^[3] foo", "- - - -"),
    ("m ^3 +", "- - - -"),
    ("", "- -"),
];

/// The table behind a function without a contract, so that the proof of the test carries none of it.
fn samples() -> &'static [(&'static str, &'static str)] {
    SAMPLES
}

/// Whether a source has these offsets.
fn has_offsets(alloc: Global, source: &str, offsets: &str) -> Result<bool, AllocError> {
    for (pc, offset) in offsets.split(' ').enumerate() {
        if place_of(alloc, source.as_bytes(), pc)? != offset.parse::<u16>().ok() {
            return Ok(false);
        }
    }
    Ok(true)
}

#[test]
fn sends_stand(rt: HostRuntime) -> Result<(), Fail> {
    for (source, offsets) in samples() {
        assert!(rt; has_offsets(rt.alloc(), source, offsets)?, "{source}");
    }
    Ok(())
}
