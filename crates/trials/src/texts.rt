// Texts of programs.
use grammar::occurrence::Occurrence;
use reader::fault::ReadFault;
use reader::table::Table;
use refusal::Refusal;

fn show_refusal(rt: &HostRuntime, fault: ReadFault) -> anyhow::Result<()> {
    println!(rt; "{}", Refusal::from(fault))?;
    Ok(())
}

pub fn try_hex(rt: &HostRuntime, table: &mut Table, digits: &[u8]) -> anyhow::Result<()> {
    let text = hexadecimal::decode(rt.alloc(), digits)?;
    match table.read(text.as_slice()) {
        Ok(()) => println!(rt; "reads")?,
        Err(fault) => show_refusal(rt, fault)?,
    }
    Ok(())
}

pub fn try_text(rt: &HostRuntime, table: &mut Table, text: &[u8]) -> anyhow::Result<()> {
    match table.read(text) {
        Ok(()) => {
            for Occurrence { what, place } in table.occurrences() {
                print!(rt; "{what}@{place} ")?;
            }
            println!(rt; "end")?;
        }
        Err(fault) => show_refusal(rt, fault)?,
    }
    Ok(())
}

pub fn try_nested(rt: &HostRuntime, table: &mut Table, count: usize) -> anyhow::Result<()> {
    let mut text = Vec::from_slice(rt.alloc(), b"main(s:int):int=")?;
    text.resize(text.len().saturating_add(count), b'(')?;
    text.push(b's')?;
    text.resize(text.len().saturating_add(count), b')')?;
    match table.read(text.as_slice()) {
        Ok(()) => println!(rt; "reads {}", table.occurrences().len())?,
        Err(fault) => show_refusal(rt, fault)?,
    }
    Ok(())
}
