// The command line.
#![tactic(auto)]

use anyhow::anyhow;
use reader::table::Table;
use refusal::Refusal;
use scan::sequential::Sequential;
use std::env;
use std::io::{Read, Write};
use totals::report::Report;
use totals::totals;

mod show;

const USAGE: &str = "usage:
  tislavum check     reads a program from standard input, and says whether it is one
  tislavum totals    reads a list of rows of ints from standard input, as [[1,2],[],[3]],
                     and prints the total of each row, as [3,0,3]
  tislavum --help    prints this text";

fn read_input(rt: &HostRuntime) -> anyhow::Result<Vec<u8>> {
    let mut text = Vec::new(rt.alloc());
    rt.stdin().read_to_end(&mut text)?;
    Ok(text)
}

fn show_refusal(
    rt: &HostRuntime,
    text: &[u8],
    refusal: Refusal,
    meaning: &str,
) -> anyhow::Result<()> {
    let Refusal { number, place } = refusal;
    eprintln!(rt; "refused: {number} at {place}: {meaning}")?;
    eprintln!(rt; "{}", show::caret(rt.alloc(), text, place)?)?;
    Err(anyhow!("refused"))
}

fn check(rt: &HostRuntime) -> anyhow::Result<()> {
    let text = read_input(rt)?;
    let mut table = Table::new(rt.alloc())?;
    match table.read(text.as_slice()) {
        Ok(()) => {
            println!(rt; "reads: {} occurrences", table.occurrences().len())?;
            Ok(())
        }
        Err(fault) => show_refusal(
            rt,
            text.as_slice(),
            Refusal::from(fault),
            show::why_not_read(fault),
        ),
    }
}

fn show_report(rt: &HostRuntime, printed: &[u8], report: Report) -> anyhow::Result<()> {
    let Report {
        players,
        games,
        operations,
        ..
    } = report;
    rt.stdout().write_all(printed)?;
    println!(rt; "\n{players} players, {games} games, {operations} monoid operations")?;
    Ok(())
}

// The line break that ends the input is no part of the value. The text of the totals is never longer than twelve bytes a row
// and two brackets, and a row takes two bytes at least.
fn run_totals(rt: &HostRuntime) -> anyhow::Result<()> {
    let heap = rt.alloc();
    let input = read_input(rt)?;
    let text = input.as_slice();
    let text = text.strip_suffix(b"\n").unwrap_or(text);
    let room = text.len().saturating_mul(6).saturating_add(12);
    let mut output = vec![in heap; 0u8; room]?;
    match totals(&mut Sequential::new(), heap, text, output.as_mut_slice()) {
        Ok(report) => {
            output.truncate(report.length);
            show_report(rt, output.as_slice(), report)
        }
        Err(fault) => {
            let meaning = show::why_not_totalled(fault);
            match fault.refusal() {
                Some(refusal) => show_refusal(rt, text, refusal, meaning),
                None => Err(anyhow!("{meaning}")),
            }
        }
    }
}

fn main(rt: HostRuntime) -> anyhow::Result<()> {
    let mut args = env::args(&rt)?;
    let _ = args.next();
    let Some(command) = args.next() else {
        eprintln!(rt; "{USAGE}")?;
        return Err(anyhow!("no command"));
    };
    match command.as_str() {
        "check" => check(&rt),
        "totals" => run_totals(&rt),
        "--help" => {
            println!(rt; "{USAGE}")?;
            Ok(())
        }
        _ => {
            eprintln!(rt; "{USAGE}")?;
            Err(anyhow!("unknown command"))
        }
    }
}
