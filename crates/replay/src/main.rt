// Runs the requests that standard input has, one to a line, and prints one answer to a line.
#![tactic(auto)]

mod script;

use answer_lines::short::misread_line;
use command_line::program::Program;
use request_lines::sections::{Section, Sections, in_sections};
use request_scripts::played::played;
use script::script;
use std::io;

fn print(rt: &HostRuntime, text: &[u8]) -> io::Result<()> {
    use std::io::Write;
    rt.stdout().write_all(text)
}

// Runs a graph's requests, and prints the answers.
fn play(rt: &HostRuntime, section: Section) -> anyhow::Result<()> {
    let script = script(rt, section)?;
    let text = played(rt.alloc(), &script)?;
    print(rt, text.as_slice())?;
    Ok(())
}

// No graph is there that the lines before the first one could be asked of.
fn replay(rt: &HostRuntime, input: &[u8]) -> anyhow::Result<()> {
    let Sections { before, graphs } = in_sections(rt.alloc(), input)?;
    for (number, _) in before {
        print(rt, misread_line(rt.alloc(), number)?.as_slice())?;
    }
    for section in graphs {
        play(rt, section)?;
    }
    Ok(())
}

fn main(rt: HostRuntime) -> anyhow::Result<()> {
    use std::io::Read;
    let Some(_none) = Program::Replay.arguments(&rt)? else {
        return Ok(());
    };
    let mut input = Vec::new(rt.alloc());
    rt.stdin().read_to_end(&mut input)?;
    replay(&rt, input.as_slice())
}
