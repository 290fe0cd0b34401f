// How the answer to a circuit file is told.
ghost use Rattle.std.specs.Prelude.{◌≡◌, IfOk, string_bytes};
ghost use Rattle.sample_readings.specs.Answers.{added, refused, answered};

use aiger_check::faults::CircuitFault;
use rules::edge::Edge;
use std::alloc::{AllocError, Global};

// How many nodes were added, and the outputs' edges.
fn added_text(heap: Global, count: u32, outputs: &[Edge]) -> Result<String, AllocError>
    ensures { IfOk result (λ s. string_bytes s ≡ added count outputs.now) }
{
    use std::fmt::Write;
    let mut text = format!(in heap; "added {count} outputs")?;
    for output in outputs {
        let edge = output.0;
        write!(text, " {edge}")?;
    }
    Ok(text)
}

// The refusal's number and line, and the digit fault where there is one.
fn refused_text(heap: Global, fault: CircuitFault) -> Result<String, AllocError>
    ensures { IfOk result (λ s. string_bytes s ≡ refused fault) }
{
    let number = fault.number();
    let line = fault.line();
    match fault.digit_fault() {
        Some(digit) => {
            let digit = digit.number();
            format!(in heap; "refused {number} line {line} fault {digit}")
        }
        None => format!(in heap; "refused {number} line {line}"),
    }
}

// A refused file has no outputs to tell.
pub(crate) fn answer_text(
    heap: Global,
    answer: Result<u32, CircuitFault>,
    outputs: &[Edge],
) -> Result<String, AllocError>
    ensures { IfOk result (λ s. string_bytes s ≡ answered answer outputs.now) }
{
    match answer {
        Ok(count) => added_text(heap, count, outputs),
        Err(fault) => refused_text(heap, fault),
    }
}
