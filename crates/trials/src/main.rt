// Stored cases: each line of standard input is a call, and a line of standard output is its answer.
//   totals TEXT        totals of rows, by a sequential engine and an output of 64 bytes
//   read HEX           whether bytes are a program
//   occurrences TEXT   what a program does, in the order of evaluation, each with its place
//   nested N           whether a program with N nested groups is read
//   # TEXT             nothing
#![tactic(auto)]

use reader::table::Table;
use std::io::{BufRead, BufReader};

mod rows;
mod texts;

fn main(rt: HostRuntime) -> anyhow::Result<()> {
    let mut table = Table::new(rt.alloc())?;
    for line in BufReader::new(rt.alloc(), rt.stdin())?.lines(rt.alloc()) {
        let line = line?;
        match line.as_str().split_once(' ') {
            Some(("totals", text)) => rows::try_totals(&rt, text.as_bytes())?,
            Some(("read", digits)) => texts::try_hex(&rt, &mut table, digits.as_bytes())?,
            Some(("occurrences", text)) => texts::try_text(&rt, &mut table, text.as_bytes())?,
            Some(("nested", count)) => texts::try_nested(&rt, &mut table, count.parse()?)?,
            Some(("#", _)) => {}
            _ => println!(rt; "bad line")?,
        }
    }
    Ok(())
}
