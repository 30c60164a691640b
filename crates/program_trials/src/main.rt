// Stored cases: each line of standard input is a call, and a line of standard output is its answer.
//   load HEX           what loading bytes as a program comes to: its weight, or the refusal
//   types TEXT         the types of a program's parameter and result, and its weight
//   value TYPE HEX     whether bytes are the text of a value of a type with at most 1,024 cells; its size, if it is printed as the same bytes
//   # TEXT             nothing
#![tactic(auto)]

use program::memory::Memory;
use std::io::{BufRead, BufReader};

mod programs;
mod value_texts;

fn main(rt: HostRuntime) -> anyhow::Result<()> {
    let mut memory = Memory::new(rt.alloc())?;
    for line in BufReader::new(rt.alloc(), rt.stdin())?.lines(rt.alloc()) {
        let line = line?;
        match line.as_str().split_once(' ') {
            Some(("load", digits)) => memory = programs::try_load(&rt, memory, digits.as_bytes())?,
            Some(("types", text)) => memory = programs::try_types(&rt, memory, text.as_bytes())?,
            Some(("value", rest)) => value_texts::try_line(&rt, rest)?,
            Some(("#", _)) => {}
            _ => println!(rt; "bad line")?,
        }
    }
    Ok(())
}
