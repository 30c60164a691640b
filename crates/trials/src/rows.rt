// Totals of rows.
use scan::sequential::Sequential;
use std::io::Write;
use totals::report::Report;
use totals::totals;

fn show_report(rt: &HostRuntime, printed: &[u8], report: Report) -> anyhow::Result<()> {
    let Report {
        players,
        games,
        operations,
        ..
    } = report;
    rt.stdout().write_all(printed)?;
    println!(rt; " players {players} games {games} operations {operations}")?;
    Ok(())
}

pub fn try_totals(rt: &HostRuntime, text: &[u8]) -> anyhow::Result<()> {
    let heap = rt.alloc();
    let mut output = vec![in heap; b'.'; 64]?;
    match totals(&mut Sequential::new(), heap, text, output.as_mut_slice()) {
        Ok(report) => {
            output.truncate(report.length);
            show_report(rt, output.as_slice(), report)?;
        }
        Err(fault) => match fault.refusal() {
            Some(refusal) => println!(rt; "{refusal}")?,
            None => println!(rt; "out of memory")?,
        },
    }
    Ok(())
}
