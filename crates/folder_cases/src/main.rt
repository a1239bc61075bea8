// Runs the cases of each text, and says where an answer is not the expected one.
#![tactic(auto)]

mod case;
mod kind;
mod reply;
mod request;
mod run;
mod session;

use case::FolderCase;
use console::run_cases;
use std::fs;

const TEXTS: [&str; 6] = [
    "check_load",
    "check_plain",
    "grow_load",
    "grow_plain",
    "session_load",
    "session_plain",
];

fn run_texts(rt: &HostRuntime) -> anyhow::Result<()> {
    for name in TEXTS {
        let path = format!(in rt.alloc(); "{name}.txt")?;
        let text = fs::read_to_string(rt, path.as_str())?;
        let tally = run_cases::<FolderCase>(rt, text.as_str())?;
        println!(rt; "{name}: {tally}")?;
    }
    Ok(())
}

fn main(rt: HostRuntime) -> anyhow::Result<()> {
    run_texts(&rt)
}
