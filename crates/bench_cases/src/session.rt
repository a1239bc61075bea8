// Calls on one bench over 64 records, and what they print.
ghost use Rattle.std.specs.Prelude.{◌≤◌, IfOk};

use anyhow::anyhow;
use bench::{Bench, BenchFault, Look};
use board::{Held, Queues, Record};
use console::{Words, decode};
use files::refusal::Refusal;
use files::system::System;
use rules::Rules;
use script::run_script;
use std::alloc::{AllocError, Global};

// `ok`, or the refusal.
fn show_answer(out: &mut String, answer: Result<(), BenchFault>) -> Result<(), AllocError> {
    match answer {
        Ok(()) => out.push_str("ok\n"),
        Err(fault) => writeln!(out, "{}", Refusal::from(fault)),
    }
}

// Each record that is not zero: place, own mark, variable and value.
fn show_records<M: Record>(out: &mut String, records: &[M]) -> Result<(), AllocError> {
    out.push_str("records")?;
    for (place, record) in records.iter().enumerate() {
        let (own, variable, value) = (record.mark(), record.variable(), record.value());
        if own || variable > 0 || value > 0 {
            write!(out, " {place}:{},{variable},{value}", u8::from(own))?;
        }
    }
    out.push_str("\n")
}

// The count of records that are lent to a call, of so many: all that is left of its line.
fn count_of(words: &Words, most: usize) -> anyhow::Result<usize>
    ensures { IfOk result (λ count. count ≤ most) }
{
    Ok(words.rest.parse::<usize>()?.min(most))
}

// Puts a record into its place.
fn poke<M: Record + Copy>(records: &mut [M], words: &mut Words) -> anyhow::Result<()> {
    let place = words.number()?;
    let own = words.word() == "1";
    let record = M::of(own, words.word().parse::<u8>()?, words.rest.parse::<u8>()?);
    if let Some(at) = records.get_mut(place) {
        *at = record;
    }
    Ok(())
}

// Plays a script; only its refusal is wanted.
fn script_on<M: Record + Copy, R: Rules<Record = M>>(
    bench: &mut Bench<R>,
    records: &mut [M],
    script: &[u8],
) -> Result<(), BenchFault> {
    run_script(bench, records, script).map_err(|stop| stop.fault)?;
    Ok(())
}

// Makes one call that lends the first records, and gives its answer.
fn call<M: Record + Copy, R: Rules<Record = M>>(
    heap: Global,
    bench: &mut Bench<R>,
    records: &mut [M],
    verb: &str,
    words: &mut Words,
) -> anyhow::Result<Result<(), BenchFault>> {
    let most = records.len();
    match verb {
        "begin" => {
            let count = count_of(words, most)?;
            Ok(bench.begin(&mut records[0..count]))
        }
        "play" => {
            let number = words.number()?;
            let count = count_of(words, most)?;
            Ok(bench.play(&mut records[0..count], number))
        }
        "script" => {
            let script = decode(heap, words.word())?;
            let count = count_of(words, most)?;
            Ok(script_on(bench, &mut records[0..count], script.as_slice()))
        }
        "poke" => {
            poke(records, words)?;
            Ok(Ok(()))
        }
        "look" => Ok(Ok(())),
        _ => Err(anyhow!("an unknown call")),
    }
}

// All that the bench holds.
fn show_all<M: Record>(out: &mut String, look: Look, records: &[M]) -> Result<(), AllocError> {
    let queues = Queues {
        look,
        records,
        in_words: false,
    };
    write!(out, "{}{queues}", Held(look))
}

// Plays one script from the start: the refusal, if there is one, and all that is held.
fn whole<M: Record + Copy, R: Rules<Record = M>>(
    out: &mut String,
    bench: &mut Bench<R>,
    records: &mut [M],
    script: &[u8],
) -> Result<(), AllocError> {
    let _ = bench.begin(records);
    if let Err(fault) = script_on(bench, records, script) {
        writeln!(out, "{}", Refusal::from(fault))?;
    }
    show_all(out, bench.look(), records)
}

// What the calls print, over the records.
pub fn session<M: Record + Copy, R: Rules<Record = M> + Drop>(
    heap: Global,
    rules: R,
    system: System,
    records: &mut [M],
    calls: &str,
) -> anyhow::Result<String> {
    let mut out = String::new(heap);
    let mut bench = Bench::new(rules, system);
    let mut begun = false;
    for line in calls.lines() {
        let mut words = Words { rest: line };
        let verb = words.word();
        if verb == "whole" {
            let script = decode(heap, words.rest)?;
            whole(&mut out, &mut bench, records, script.as_slice())?;
            continue;
        }
        let answer = call(heap, &mut bench, records, verb, &mut words)?;
        show_answer(&mut out, answer)?;
        begun = begun || verb == "begin";
        if begun {
            write!(out, "{}", Held(bench.look()))?;
        }
        show_records(&mut out, records)?;
    }
    Ok(out)
}
