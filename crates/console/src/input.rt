// The folder that a program is to work in, and its files.
use std::{env, fs};

// The folder that word `number` of the call names, counted from 0 for the program; this one if there is no such word.
pub fn folder_named(rt: &HostRuntime, number: usize) -> anyhow::Result<String> {
    match env::args(rt)?.nth(number) {
        Some(folder) => Ok(folder),
        None => Ok(String::from_str(rt.alloc(), ".")?),
    }
}

// A file of the folder; one that cannot be read is named on standard error.
pub fn read(rt: &HostRuntime, folder: &str, name: &str) -> anyhow::Result<Vec<u8>> {
    let path = format!(in rt.alloc(); "{folder}/{name}")?;
    match fs::read(rt, path.as_str()) {
        Ok(bytes) => Ok(bytes),
        Err(error) => {
            eprintln!(rt; "cannot read {path}: {error}")?;
            Err(error.into())
        }
    }
}
