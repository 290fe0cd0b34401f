// The requests of a graph's lines, and the files that they name.
ghost use Rattle.std.specs.Prelude.{◌≡◌, IfOk};
ghost use Rattle.replay.specs.Steps.{StepFor, StepsFor};

use command_line::files::file_bytes;
use request_lines::line::Line;
use request_lines::sections::Section;
use request_scripts::script::Script;
use request_scripts::step::Step;

// What a line asks of the graph; a line that says nothing is kept by its number.
fn step(rt: &HostRuntime, number: usize, line: Option<Line>) -> anyhow::Result<Step>
    ensures { IfOk result (StepFor number line) }
{
    match line {
        Some(Line::Ask(ask)) => Ok(Step::Ask(ask)),
        Some(Line::Read(path)) => Ok(Step::File(file_bytes(rt, path.as_str())?)),
        _ => Ok(Step::Misread(number)),
    }
}

// What a graph's lines ask, in order.
pub(crate) fn script(rt: &HostRuntime, section: Section) -> anyhow::Result<Script>
    ensures { IfOk result (λ s. (s.opening ≡ section.opening) × StepsFor section.lines.items s.steps.items) }
{
    let mut script = Script::new(rt.alloc(), section.opening);
    for (number, line) in section.lines {
        script.push(step(rt, number, line)?)?;
    }
    Ok(script)
}
