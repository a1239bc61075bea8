// Judges the cases of cases.txt, and says where an answer is not the expected one.
#![tactic(auto)]

mod case;

use case::CheckCase;
use console::run_cases;
use std::fs;

fn run(rt: &HostRuntime) -> anyhow::Result<()> {
    let text = fs::read_to_string(rt, "cases.txt")?;
    let tally = run_cases::<CheckCase>(rt, text.as_str())?;
    println!(rt; "{tally}")?;
    Ok(())
}

fn main(rt: HostRuntime) -> anyhow::Result<()> {
    run(&rt)
}
