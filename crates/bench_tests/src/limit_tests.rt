// A process that may write its variable again and again.
use bench::Bench;
use files::refusal::Refusal;
use files::system::System;
use queue::{LoadMessage, StoreMessage};
use rules::{LoadBuffers, Plain, StoreBuffers};
use script::run_script;
use std::alloc::Global;
use std::test::Fail;

// one process, variable and state, two values; transition 0 writes 1
const WRITER: [u8; 23] = [
    0, 12, 0, 4, 0, 16, 0, 7, 0, 23, 0, 0, 1, 1, 2, 1, 0, 0, 2, 0, 1, 0, 0,
];

const NINE: &[u8] = b"t 0\nt 0\nt 0\nt 0\nt 0\nt 0\nt 0\nt 0\nt 0\n";

fn writer(heap: Global) -> Result<System, Fail> {
    System::read(heap, &WRITER).map_err(|_| Fail::new("no system"))
}

fn part_four(number: u8, place: usize) -> Option<Refusal> {
    Some(Refusal::new(number, 4, place))
}

fn of_load(
    bench: &mut Bench<LoadBuffers>,
    records: &mut [LoadMessage],
    script: &[u8],
) -> Option<Refusal> {
    run_script(bench, records, script)
        .err()
        .map(|stop| Refusal::from(stop.fault))
}

const NONE: LoadMessage = LoadMessage {
    own: false,
    variable: 0,
    value: 0,
};

#[test]
fn nine_load_messages(rt: HostRuntime) -> Result<(), Fail> {
    let mut bench = Bench::new(LoadBuffers, writer(rt.alloc())?);
    let mut records = [NONE; 8];
    assert_eq!(rt; of_load(&mut bench, &mut records, &NINE[0..32]), None);
    assert!(rt; bench.look().lengths == [8].as_slice());
    assert_eq!(rt;
        of_load(&mut bench, &mut records, b"t 0\n"),
        part_four(15, 0)
    );
    assert_eq!(rt;
        of_load(&mut bench, &mut records, b"p 0 0\n"),
        part_four(15, 0)
    );
    assert!(rt; bench.look().lengths == [8].as_slice() && records[7].own);
    assert_eq!(rt; of_load(&mut bench, &mut records, b"d 0\nt 0\na 0\n"), None);
    assert!(rt; bench.look().lengths == [0].as_slice() && bench.look().memory == [1].as_slice());
    assert!(rt; !records[0].own && records[0].value == 0);
    Ok(())
}

#[test]
fn nine_stores(rt: HostRuntime) -> Result<(), Fail> {
    let mut bench = Bench::new(StoreBuffers, writer(rt.alloc())?);
    let none = StoreMessage {
        variable: 0,
        value: 0,
    };
    let mut records = [none; 9];
    let Err(stop) = run_script(&mut bench, &mut records, NINE) else {
        return Err(Fail::new("nine stores"));
    };
    assert!(rt; stop.line == 8);
    assert_eq!(rt; Some(Refusal::from(stop.fault)), part_four(15, 0));
    assert!(rt; bench.look().memory == [0].as_slice() && records[8].value == 0);
    assert!(rt; run_script(&mut bench, &mut records, b"u 0\na 0\n").is_ok());
    assert!(rt; bench.look().lengths == [0].as_slice() && bench.look().memory == [1].as_slice());
    Ok(())
}

#[test]
fn too_few_records(rt: HostRuntime) -> Result<(), Fail> {
    let mut bench = Bench::new(LoadBuffers, writer(rt.alloc())?);
    let mut records = [NONE; 7];
    assert_eq!(rt; of_load(&mut bench, &mut records, b""), part_four(1, 8));
    assert_eq!(rt;
        of_load(&mut bench, &mut records, b"no line"),
        part_four(1, 8)
    );
    assert!(rt; bench.begin(&mut records).is_err());
    assert!(rt; bench.play(&mut records, 0).is_err());
    assert!(rt; bench.drain(&mut records, 0).is_err());
    Ok(())
}

#[test]
fn wrong_records(rt: HostRuntime) -> Result<(), Fail> {
    let mut bench = Bench::new(LoadBuffers, writer(rt.alloc())?);
    let mut records = [NONE; 8];
    assert_eq!(rt; of_load(&mut bench, &mut records, b"t 0\nt 0\n"), None);
    records[7].value = 9;
    assert_eq!(rt; of_load(&mut bench, &mut records, b""), None);
    records[1].value = 2;
    assert_eq!(rt;
        of_load(&mut bench, &mut records, b"t 99\n"),
        part_four(9, 1)
    );
    records[0].variable = 1;
    assert_eq!(rt; of_load(&mut bench, &mut records, b""), part_four(9, 0));
    assert!(rt; bench.begin(&mut records).is_ok() && records[0].variable == 0);
    assert_eq!(rt; of_load(&mut bench, &mut records, b"t 0\n"), None);
    Ok(())
}

// The refusal of a script on a new bench.
fn refused(heap: Global, script: &[u8]) -> Result<Option<Refusal>, Fail> {
    let mut bench = Bench::new(LoadBuffers, writer(heap)?);
    let mut records = [NONE; 8];
    Ok(of_load(&mut bench, &mut records, script))
}

#[test]
fn moves_that_are_not_possible(rt: HostRuntime) -> Result<(), Fail> {
    assert_eq!(rt; refused(rt.alloc(), b"t 1\n")?, part_four(14, 1));
    assert_eq!(rt; refused(rt.alloc(), b"p 0 1\n")?, part_four(14, 65));
    assert_eq!(rt; refused(rt.alloc(), b"p 1 0\n")?, part_four(14, 68));
    assert_eq!(rt; refused(rt.alloc(), b"d 0\n")?, part_four(14, 80));
    assert_eq!(rt; refused(rt.alloc(), b"u 0\n")?, part_four(14, 84));
    assert_eq!(rt; refused(rt.alloc(), b"a 1\n")?, part_four(14, 89));
    Ok(())
}

#[test]
fn unreadable_lines(rt: HostRuntime) -> Result<(), Fail> {
    let mut bench = Bench::new(LoadBuffers, writer(rt.alloc())?);
    let mut records = [NONE; 8];
    assert_eq!(rt;
        of_load(&mut bench, &mut records, b"t 0\n\n"),
        part_four(13, 1)
    );
    assert!(rt; bench.look().lengths == [1].as_slice());
    assert_eq!(rt;
        of_load(&mut bench, &mut records, b"t 0\nt 0"),
        part_four(13, 1)
    );
    assert!(rt; bench.look().lengths == [2].as_slice());
    assert_eq!(rt;
        of_load(&mut bench, &mut records, b"t 0 \n"),
        part_four(13, 0)
    );
    Ok(())
}

#[test]
fn plain_needs_no_records(rt: HostRuntime) -> Result<(), Fail> {
    let mut bench = Bench::new(Plain, writer(rt.alloc())?);
    let mut records = [NONE; 0];
    assert!(rt; run_script(&mut bench, &mut records, b"t 0\na 0\n").is_ok());
    assert!(rt; bench.look().lengths == [0].as_slice() && bench.look().memory == [1].as_slice());
    let Err(stop) = run_script(&mut bench, &mut records, b"a 1\n") else {
        return Err(Fail::new("a process too many"));
    };
    assert_eq!(rt; Some(Refusal::from(stop.fault)), part_four(14, 89));
    Ok(())
}
