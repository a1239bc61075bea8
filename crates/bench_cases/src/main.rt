// Plays the cases of cases.txt, and says where what is printed is not what is expected.
#![tactic(auto)]

mod case;
mod session;

use case::BenchCase;
use console::run_cases;
use std::fs;

fn run(rt: &HostRuntime) -> anyhow::Result<()> {
    let text = fs::read_to_string(rt, "cases.txt")?;
    let tally = run_cases::<BenchCase>(rt, text.as_str())?;
    println!(rt; "{tally}")?;
    Ok(())
}

fn main(rt: HostRuntime) -> anyhow::Result<()> {
    run(&rt)
}
