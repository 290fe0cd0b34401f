// Simulates a circuit file on a file of test frames, and prints the outputs under each frame or what is wrong.
#![tactic(auto)]

use command_line::files::file_bytes;
use command_line::names::{circuit_name, frames_name};
use command_line::program::Program;
use simulation::sized::printed;

fn simulate(rt: &HostRuntime, circuit: &str, frames: &str) -> anyhow::Result<()> {
    use std::io::Write;
    let circuit = file_bytes(rt, circuit)?;
    let frames = file_bytes(rt, frames)?;
    let text = printed(rt.alloc(), circuit.as_slice(), frames.as_slice())?;
    rt.stdout().write_all(text.as_slice())?;
    Ok(())
}

fn main(rt: HostRuntime) -> anyhow::Result<()> {
    let Some(names) = Program::Simulate.arguments(&rt)? else {
        return Ok(());
    };
    let names = names.as_slice();
    simulate(&rt, circuit_name(names), frames_name(names))
}
