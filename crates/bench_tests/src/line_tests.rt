// What a line of a script says.
use script::{Command, parse};

#[test]
fn lines_that_are_read(rt: HostRuntime) {
    let lines: [(&[u8], Command); 12] = [
        (b"t 0", Command::Play(0)),
        (b"t 9", Command::Play(9)),
        (b"t 10", Command::Play(10)),
        (b"t 63", Command::Play(63)),
        (b"p 0 0", Command::Play(64)),
        (b"p 1 0", Command::Play(68)),
        (b"p 3 3", Command::Play(79)),
        (b"d 0", Command::Play(80)),
        (b"d 3", Command::Play(83)),
        (b"u 0", Command::Play(84)),
        (b"u 3", Command::Play(87)),
        (b"a 3", Command::Drain(3)),
    ];
    for (line, command) in lines {
        assert_eq!(rt; parse(line), Some(command));
    }
}

// Numbers too high, leading zeros, wanting or further spaces and bytes, other letters.
#[test]
fn damaged_lines(rt: HostRuntime) {
    let transitions: [&[u8]; 16] = [
        b"", b"t", b"t ", b"t3", b"t 64", b"t 70", b"t 03", b"t 00", b"t 100", b"t 3 ", b" t 3",
        b"t  3", b"t\t3", b"t 3\r", b"t -1", b"T 3",
    ];
    for line in transitions {
        assert_eq!(rt; parse(line), None);
    }
    let others: [&[u8]; 16] = [
        b"p 1", b"p 1 ", b"p 10", b"p 4 0", b"p 0 4", b"p 1,0", b"p 1  0", b"p 1 0 ", b"d 4",
        b"d 01", b"d x", b"u 4", b"u 1 0", b"a 4", b"a1", b"x 1",
    ];
    for line in others {
        assert_eq!(rt; parse(line), None);
    }
}
