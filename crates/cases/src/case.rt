// A case: its two files, and what the check is expected to print.
use anyhow::anyhow;
use console::{Case, decode};
use report::check;
use std::alloc::Global;

#[derive(Drop)]
pub struct CheckCase {
    name: String,
    system: Vec<u8>,
    list: Vec<u8>,
    expected: String,
}

// The bytes of two digits each, in lower case alone; here a dash is half a byte like any other.
fn bytes_of(heap: Global, text: &str) -> anyhow::Result<Vec<u8>> {
    let mut pairs = text.as_bytes().chunks_exact(2);
    if pairs.any(|pair| pair.iter().any(|byte| byte.is_ascii_uppercase())) {
        return Err(anyhow!("no hexadecimal digit"));
    }
    if text == "-" {
        return Err(anyhow!("half a byte"));
    }
    decode(heap, text)
}

impl Case for CheckCase {
    fn new(heap: Global) -> CheckCase {
        CheckCase {
            name: String::new(heap),
            system: Vec::new(heap),
            list: Vec::new(heap),
            expected: String::new(heap),
        }
    }

    fn add(&mut self, heap: Global, line: &str) -> anyhow::Result<()> {
        let Some((word, rest)) = line.split_once(' ') else {
            return Err(anyhow!("a line with no word and no rest"));
        };
        match word {
            "case" => self.name = String::from_str(heap, rest)?,
            "system" => self.system = bytes_of(heap, rest)?,
            "list" => self.list = bytes_of(heap, rest)?,
            ">" => writeln!(self.expected, "{rest}")?,
            _ => return Err(anyhow!("an unknown word")),
        }
        Ok(())
    }

    fn agrees(&self, rt: &HostRuntime) -> anyhow::Result<bool> {
        let outcome = check(rt.alloc(), self.system.as_slice(), self.list.as_slice())?;
        let printed = format!(in rt.alloc(); "{outcome}\n")?;
        if printed.as_str() == self.expected.as_str() {
            return Ok(true);
        }
        println!(rt; "{} differs:\n{printed}", self.name)?;
        Ok(false)
    }
}
