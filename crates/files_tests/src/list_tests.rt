// The reader of a list file.
use crate::hex::bytes_of;
use files::list::ListReader;
use files::list_fault::{LineFault, ListFault};
use files::refusal::Refusal;
use std::alloc::{AllocError, Global};
use std::process::Abort;
use std::test::Fail;

// The refusal of a file, or None where it is opened.
fn refusal_of(bytes: &[u8]) -> Option<Refusal> {
    ListReader::open(bytes).err().map(Refusal::from)
}

fn directory(place: usize) -> Option<Refusal> {
    Some(Refusal::new(6, 2, place))
}

// A list of lines of one byte each.
fn list_of(heap: Global, count: u16) -> Result<Vec<u8>, AllocError> {
    let mut bytes = Vec::new(heap);
    bytes.extend_from_slice(&count.to_be_bytes())?;
    let mut offset = count.wrapping_mul(4).wrapping_add(2);
    for _ in 0..count {
        bytes.extend_from_slice(&offset.to_be_bytes())?;
        bytes.extend_from_slice(&[0, 1])?;
        offset = offset.wrapping_add(1);
    }
    for _ in 0..count {
        bytes.extend_from_slice(b"x")?;
    }
    Ok(bytes)
}

// Checks what a reader hands out under a number.
fn check_line(
    rt: &impl Abort,
    reader: &ListReader,
    number: usize,
    place: usize,
    bytes: &[u8],
) -> Result<(), Fail> {
    let Some(line) = reader.line(number) else {
        return Err(Fail::new("no line"));
    };
    assert!(rt; line.number == number);
    assert!(rt; line.place == place);
    assert!(rt; line.bytes == bytes);
    Ok(())
}

#[test]
fn lines_by_number(rt: HostRuntime) -> Result<(), Fail> {
    let bytes = bytes_of(rt.alloc(), "0003 000E0001 000F0000 000F0002 AA BBCC")?;
    let reader = ListReader::open(bytes.as_slice())?;
    assert_eq!(rt; reader.count(), 3);
    check_line(&rt, &reader, 0, 14, &[0xAA])?;
    check_line(&rt, &reader, 1, 15, &[])?;
    check_line(&rt, &reader, 2, 15, &[0xBB, 0xCC])?;
    assert!(rt; reader.line(3).is_none());
    assert!(rt; reader.line(usize::MAX).is_none());
    Ok(())
}

#[test]
fn beginnings_are_refused(rt: HostRuntime) -> Result<(), Fail> {
    let bytes = bytes_of(rt.alloc(), "0003 000E0001 000F0000 000F0002 AA BBCC")?;
    assert_eq!(rt; refusal_of(bytes.as_slice()), None);
    for n in 0..bytes.len() {
        let place = if n < 14 { 0 } else { n };
        assert_eq!(rt; refusal_of(&bytes[..n]), directory(place));
    }
    Ok(())
}

#[test]
fn at_most_1024_lines(rt: HostRuntime) -> Result<(), Fail> {
    assert_eq!(rt; refusal_of(&[0, 0]), None);
    assert_eq!(rt; refusal_of(list_of(rt.alloc(), 1024)?.as_slice()), None);
    assert_eq!(rt;
        refusal_of(list_of(rt.alloc(), 1025)?.as_slice()),
        directory(0)
    );
    Ok(())
}

#[test]
fn each_refusal(rt: HostRuntime) -> Result<(), Fail> {
    let cases = [
        ("", 0),
        ("00", 0),
        ("0401", 0),
        ("0001 0006", 0),
        ("0001 00070001 AA", 2),
        ("0002 000A0001 000C0002 AABBCC", 6),
        // the sum is taken whole, and not within two bytes
        ("0002 000AFFFF 00090000", 6),
        ("0001 00060002 AA", 7),
        ("0001 00060001 AABB", 8),
        ("0000 AA", 3),
    ];
    for (text, place) in cases {
        let bytes = bytes_of(rt.alloc(), text)?;
        assert_eq!(rt; refusal_of(bytes.as_slice()), directory(place), "{}", text);
    }
    let byte = Refusal::from(ListFault::Line(3, LineFault::Byte(5)));
    assert!(rt; byte.number == 7 && byte.part == 2 && byte.place == 3 && byte.inner == 5);
    let early = Refusal::from(ListFault::Line(4, LineFault::Early(2)));
    assert!(rt; early.number == 7 && early.part == 2 && early.place == 4 && early.inner == 2);
    Ok(())
}
