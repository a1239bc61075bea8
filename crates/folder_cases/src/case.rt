// A case: what it asks for, and the lines that it expects.
use crate::kind::{Kind, Over};
use crate::request::Request;
use crate::run::run_case;
use anyhow::anyhow;
use console::{Case, decode};
use std::alloc::Global;

#[derive(Drop)]
pub struct FolderCase {
    pub name: String,
    pub kind: Kind,
    pub over: Over,
    // grown lines and witnesses may be others than the expected ones
    pub free: bool,
    pub system: Vec<u8>,
    pub list: Vec<u8>,
    pub grows: usize,
    pub requests: Vec<Request>,
    pub expected: Vec<String>,
}

impl FolderCase {
    // The expected line of a number; the empty one past the last.
    pub fn expected_line(&self, number: usize) -> &str {
        self.expected.get(number).map_or("", |line| line.as_str())
    }

    // Whether the lines are the expected ones.
    fn expects(&self, lines: &[String]) -> bool {
        lines.len() == self.expected.len()
            && lines.iter().zip(self.expected.iter()).all(|(line, expected)| line_agrees(
                self.free,
                line.as_str(),
                expected.as_str(),
            ))
    }
}

// A free witness is only as long as the expected one.
fn line_agrees(free: bool, line: &str, expected: &str) -> bool {
    if free && line.starts_with("witness ") && expected.starts_with("witness ") {
        return line.len() == expected.len();
    }
    line == expected
}

fn print_lines(rt: &HostRuntime, lines: &[String]) -> anyhow::Result<()> {
    for line in lines {
        println!(rt; "{line}")?;
    }
    Ok(())
}

impl Case for FolderCase {
    // A check over load buffers, until its lines say otherwise.
    fn new(heap: Global) -> FolderCase {
        FolderCase {
            name: String::new(heap),
            kind: Kind::Check,
            over: Over::LoadBuffers,
            free: false,
            system: Vec::new(heap),
            list: Vec::new(heap),
            grows: 0,
            requests: Vec::new(heap),
            expected: Vec::new(heap),
        }
    }

    fn add(&mut self, heap: Global, line: &str) -> anyhow::Result<()> {
        let (word, rest) = line.split_once(' ').unwrap_or((line, ""));
        match word {
            "case" => self.name = String::from_str(heap, rest)?,
            "kind" => self.kind = rest
                .parse::<Kind>()
                .map_err(|_| anyhow!("an unknown kind"))?,
            "machine" => self.over = rest
                .parse::<Over>()
                .map_err(|_| anyhow!("an unknown machine"))?,
            "free" => self.free = true,
            "system" => self.system = decode(heap, rest)?,
            "list" => self.list = decode(heap, rest)?,
            "grows" => self.grows = rest.parse::<usize>()?,
            "call" => self.requests.push(Request::read(heap, rest)?)?,
            ">" => self.expected.push(String::from_str(heap, rest)?)?,
            _ => return Err(anyhow!("an unknown word")),
        }
        Ok(())
    }

    fn agrees(&self, rt: &HostRuntime) -> anyhow::Result<bool> {
        let lines = run_case(rt.alloc(), self)?;
        if self.expects(lines.as_slice()) {
            return Ok(true);
        }
        println!(rt; "{} differs:", self.name)?;
        print_lines(rt, lines.as_slice())?;
        println!(rt; "expected:")?;
        print_lines(rt, self.expected.as_slice())?;
        Ok(false)
    }
}
