// What a session is asked, one request a line.
use anyhow::anyhow;
use console::{Words, decode};
use std::alloc::Global;

// A request, with the counts of bytes that are lent to it.
#[derive(Drop)]
pub enum Request {
    Enter {
        line: Vec<u8>,
        memory: usize,
    },
    TakeIn {
        file: Vec<u8>,
        memory: usize,
    },
    Strike {
        number: usize,
        memory: usize,
    },
    Grow {
        memory: usize,
        strip: usize,
    },
    Judge {
        memory: usize,
        strip: usize,
        witness: usize,
    },
    // show the row of a line
    Show {
        number: usize,
        memory: usize,
        place: usize,
    },
    // write all lines out
    WriteOut {
        memory: usize,
        place: usize,
    },
    // write to memory
    Poke {
        at: usize,
        bytes: Vec<u8>,
    },
    // read from memory
    Dump {
        at: usize,
        len: usize,
    },
}

// A request that changes the lines.
fn read_change(heap: Global, verb: &str, words: &mut Words) -> anyhow::Result<Request> {
    match verb {
        "enter" => Ok(Request::Enter {
            line: decode(heap, words.word())?,
            memory: words.number()?,
        }),
        "takein" => Ok(Request::TakeIn {
            file: decode(heap, words.word())?,
            memory: words.number()?,
        }),
        "strike" => Ok(Request::Strike {
            number: words.number()?,
            memory: words.number()?,
        }),
        "grow" => Ok(Request::Grow {
            memory: words.number()?,
            strip: words.number()?,
        }),
        _ => Err(anyhow!("an unknown request")),
    }
}

impl Request {
    // The request of a line, which is a word and what goes with it.
    pub fn read(heap: Global, line: &str) -> anyhow::Result<Request> {
        let mut words = Words { rest: line };
        match words.word() {
            "judge" => Ok(Request::Judge {
                memory: words.number()?,
                strip: words.number()?,
                witness: words.number()?,
            }),
            "show" => Ok(Request::Show {
                number: words.number()?,
                memory: words.number()?,
                place: words.number()?,
            }),
            "writeout" => Ok(Request::WriteOut {
                memory: words.number()?,
                place: words.number()?,
            }),
            "poke" => Ok(Request::Poke {
                at: words.number()?,
                bytes: decode(heap, words.word())?,
            }),
            "dump" => Ok(Request::Dump {
                at: words.number()?,
                len: words.number()?,
            }),
            verb => read_change(heap, verb, &mut words),
        }
    }
}
