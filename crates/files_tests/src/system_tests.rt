// The reader of a system file.
use crate::hex::bytes_of;
use files::pattern::Pattern;
use files::refusal::Refusal;
use files::system::System;
use files::system_fault::SystemFault;
use files::transition::{Operation, Transition};
use std::alloc::{AllocError, Global};
use std::test::Fail;

const SMALL: &str = "000C0004 00100007 00170001 01010202 00000100010001 01";

const LARGE: &str =
    "000C0005 0011001C 002D0002 0202020303 00000200010001 00010101000002 01000201010001 01010100000002 0202";

// The refusal of a file, or None where it is read.
fn refusal_of(heap: Global, bytes: &[u8]) -> Option<Refusal> {
    System::read(heap, bytes).err().map(Refusal::from)
}

fn part_one(number: u8, place: usize) -> Option<Refusal> {
    Some(Refusal::new(number, 1, place))
}

// A system of one process with so many transitions and patterns.
fn system_of(heap: Global, transitions: u16, patterns: u16) -> Result<Vec<u8>, AllocError> {
    let width = transitions.wrapping_mul(7);
    let mut bytes = bytes_of(heap, "000C0004 0010")?;
    bytes.extend_from_slice(&width.to_be_bytes())?;
    bytes.extend_from_slice(&width.wrapping_add(16).to_be_bytes())?;
    bytes.extend_from_slice(&patterns.to_be_bytes())?;
    bytes.extend_from_slice(&[1, 1, 2, 2])?;
    for _ in 0..transitions {
        bytes.extend_from_slice(&[0, 0, 1, 0, 1, 0, 1])?;
    }
    for _ in 0..patterns {
        bytes.extend_from_slice(&[1])?;
    }
    Ok(bytes)
}

#[test]
fn parts_of_a_system(rt: HostRuntime) -> Result<(), Fail> {
    let bytes = bytes_of(rt.alloc(), LARGE)?;
    let system = System::read(rt.alloc(), bytes.as_slice())?;
    let sizes = system.sizes();
    assert!(rt; sizes.processes == 2 && sizes.variables == 2 && sizes.values == 2);
    assert!(rt; sizes.transitions == 4 && sizes.patterns == 1);
    assert_eq!(rt; system.state_count(1), Some(3));
    assert_eq!(rt; system.state_count(2), None);
    let read = Transition {
        process: 1,
        before: 1,
        operation: Operation::Read {
            variable: 0,
            value: 0,
        },
        after: 2,
    };
    assert_eq!(rt; system.transition(3), Some(read));
    assert_eq!(rt; system.transition(4), None);
    let both = Pattern {
        states: [Some(2), Some(2), None, None],
    };
    assert_eq!(rt; system.pattern(0), Some(both));
    assert_eq!(rt; system.pattern(1), None);
    Ok(())
}

#[test]
fn beginnings_are_refused(rt: HostRuntime) -> Result<(), Fail> {
    for text in [SMALL, LARGE] {
        let bytes = bytes_of(rt.alloc(), text)?;
        assert_eq!(rt; refusal_of(rt.alloc(), bytes.as_slice()), None);
        for n in 0..bytes.len() {
            assert_eq!(rt; refusal_of(rt.alloc(), &bytes[..n]), part_one(2, n));
        }
    }
    Ok(())
}

#[test]
fn most_transitions_and_patterns(rt: HostRuntime) -> Result<(), Fail> {
    let cases = [
        (0, 0, None),
        (64, 16, None),
        (65, 16, part_one(4, 16)),
        (64, 17, part_one(5, 464)),
    ];
    for (transitions, patterns, refusal) in cases {
        let bytes = system_of(rt.alloc(), transitions, patterns)?;
        assert_eq!(rt; refusal_of(rt.alloc(), bytes.as_slice()), refusal);
    }
    Ok(())
}

#[test]
fn largest_sizes(rt: HostRuntime) -> Result<(), Fail> {
    let cases = [
        ("000C0007 00130000 00130000 04040410101010", None),
        ("000C0004 00100000 00100000 01010101", None),
        (
            "000C0008 00140000 00140000 0504041010101010",
            part_one(3, 12),
        ),
        ("000C0004 00100000 00100000 00010101", part_one(3, 12)),
        ("000C0004 00100000 00100000 01050101", part_one(3, 13)),
        ("000C0004 00100000 00100000 01000101", part_one(3, 13)),
        ("000C0004 00100000 00100000 01010501", part_one(3, 14)),
        ("000C0004 00100000 00100000 01010001", part_one(3, 14)),
        ("000C0005 00110000 00110000 0101010101", part_one(3, 12)),
        ("000C0004 00100000 00100000 02010101", part_one(3, 12)),
        ("000C0004 00100000 00100000 01010111", part_one(3, 15)),
        ("000C0005 00110000 00110000 0201010100", part_one(3, 16)),
    ];
    for (text, refusal) in cases {
        let bytes = bytes_of(rt.alloc(), text)?;
        assert_eq!(rt;
            refusal_of(rt.alloc(), bytes.as_slice()),
            refusal,
            "{}",
            text
        );
    }
    Ok(())
}

// Each wrong file, with the number and the place of its refusal.
const REFUSALS: [(&str, u8, usize); 19] = [
    ("000D0004 00110000 00110000 01010101", 2, 0),
    ("000C0003 000F0000 000F0000 010101", 2, 0),
    ("000C0004 00110000 00100000 01010101", 2, 4),
    ("000C0004 00100000 00110000 01010101", 2, 8),
    ("000C0004 00100000 00100000 0101010101", 2, 17),
    // section two is no row of transitions
    ("000C0004 00100006 00160000 01010202 000001000100", 4, 16),
    // no such process, state before, operation, variable, value, state after
    ("000C0004 00100007 00170000 01010202 01000100010001", 4, 16),
    ("000C0004 00100007 00170000 01010202 00020100010001", 4, 16),
    ("000C0004 00100007 00170000 01010202 00000500010001", 4, 16),
    ("000C0004 00100007 00170000 01010202 00000101010001", 4, 16),
    ("000C0004 00100007 00170000 01010202 00000100020001", 4, 16),
    ("000C0004 00100007 00170000 01010202 00000100010002", 4, 16),
    // a field that is not used, of a nop, a read, a write, a fence
    ("000C0004 00100007 00170000 01010202 00000000010001", 4, 16),
    ("000C0004 00100007 00170000 01010202 00000100010101", 4, 16),
    ("000C0004 00100007 00170000 01010202 00000200010101", 4, 16),
    ("000C0004 00100007 00170000 01010202 00000300010001", 4, 16),
    // the second transition, before a wrong pattern
    (
        "000C0004 0010000E 001E0001 01010202 00000100010001 00000400010201 02",
        4,
        23,
    ),
    ("000C0005 00110000 00110003 0201020202 010101", 5, 17),
    ("000C0005 00110000 00110004 0201020202 FF010200", 5, 19),
];

#[test]
fn each_refusal(rt: HostRuntime) -> Result<(), Fail> {
    for (text, number, place) in REFUSALS {
        let bytes = bytes_of(rt.alloc(), text)?;
        assert_eq!(rt;
            refusal_of(rt.alloc(), bytes.as_slice()),
            part_one(number, place),
            "{}",
            text
        );
    }
    assert_eq!(rt; Some(Refusal::from(SystemFault::Memory)), part_one(0, 0));
    Ok(())
}
