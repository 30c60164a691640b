// Programs that are loaded, each in the memory of the one before.
use program::checked::CheckedProgram;
use program::memory::{Memory, Rejected};
use refusal::Refusal;

// Shows the program that a text is, or why it is refused.
fn load_and_show<F: FnOnce(&CheckedProgram) -> anyhow::Result<()>>(
    rt: &HostRuntime,
    memory: Memory,
    text: &[u8],
    show: F,
) -> anyhow::Result<Memory>
    requires { F.IsAlwaysCallable show }
{
    match memory.load(text) {
        Ok(program) => {
            show(&program)?;
            Ok(program.release())
        }
        Err(Rejected { fault, memory }) => {
            println!(rt; "{}", Refusal::from(fault))?;
            Ok(memory)
        }
    }
}

pub fn try_load(rt: &HostRuntime, memory: Memory, digits: &[u8]) -> anyhow::Result<Memory> {
    let text = hexadecimal::decode(rt.alloc(), digits)?;
    load_and_show(rt, memory, text.as_slice(), |program| {
        println!(rt; "weight {}", program.weight())?;
        Ok(())
    })
}

pub fn try_types(rt: &HostRuntime, memory: Memory, text: &[u8]) -> anyhow::Result<Memory> {
    load_and_show(rt, memory, text, |program| {
        let parameter = program.parameter_text(rt.alloc())?;
        let result = program.result_text(rt.alloc())?;
        let weight = program.weight();
        println!(rt; "{parameter} -> {result} weight {weight}")?;
        Ok(())
    })
}
