// Judges list.bin against system.bin, in this folder or in the one that is named.
#![tactic(auto)]

use console::{folder_named, read};
use report::check;

fn run(rt: &HostRuntime) -> anyhow::Result<()> {
    let folder = folder_named(rt, 1)?;
    let system = read(rt, folder.as_str(), "system.bin")?;
    let list = read(rt, folder.as_str(), "list.bin")?;
    let outcome = check(rt.alloc(), system.as_slice(), list.as_slice())?;
    println!(rt; "{outcome}")?;
    Ok(())
}

fn main(rt: HostRuntime) -> anyhow::Result<()> {
    run(&rt)
}
