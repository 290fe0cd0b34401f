// Reads a circuit file, reduces it, and prints the reduced circuit or why it is refused.
#![tactic(auto)]

use command_line::files::file_bytes;
use command_line::names::circuit_name;
use command_line::program::Program;
use reduction::pressed::printed;

fn press(rt: &HostRuntime, path: &str) -> anyhow::Result<()> {
    use std::io::Write;
    let bytes = file_bytes(rt, path)?;
    let text = printed(rt.alloc(), bytes.as_slice())?;
    rt.stdout().write_all(text.as_slice())?;
    Ok(())
}

fn main(rt: HostRuntime) -> anyhow::Result<()> {
    let Some(names) = Program::Press.arguments(&rt)? else {
        return Ok(());
    };
    press(&rt, circuit_name(names.as_slice()))
}
