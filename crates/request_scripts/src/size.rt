// How many nodes there are by the answers.
ghost use Rattle.std.specs.Prelude.{◌≡◌};
ghost use Rattle.history_model.specs.Histories.{told};
ghost use Rattle.request_scripts.specs.Sizes.{is_full, is_full_file, size_after};

use aiger_check::faults::{CircuitFault, LineFault};
use graph_model::refusal::Refusal;
use history_model::request::Answer;
use values::value::Value;

// No graph keeps more nodes.
pub(crate) const MOST_NODES: usize = 1_000_000;

fn is_full(refusal: Refusal) -> bool
    ensures { result ≡ is_full refusal }
{
    refusal == Refusal::Full
}

fn is_full_file(fault: CircuitFault) -> bool
    ensures { result ≡ is_full_file fault }
{
    match fault {
        CircuitFault::Line(at) => at.fault == LineFault::Full,
        _ => false,
    }
}

// How many nodes there are after an answer: a full store is at its limit, and other refusals add nothing.
pub fn size_after<W: Value>(limit: usize, size: usize, answer: &Answer<W>) -> usize
    ensures answer { result ≡ size_after limit size (told answer.now) }
{
    match answer {
        Answer::And(Ok((_, added))) => size.saturating_add(usize::from(*added)).min(limit),
        Answer::Apply(Ok((_, added))) => size.saturating_add(*added as usize).min(limit),
        Answer::Read {
            added: Ok(added),
            ..
        } => size.saturating_add(*added as usize).min(limit),
        Answer::And(Err(refusal)) if is_full(*refusal) => limit,
        Answer::Apply(Err(refusal)) if is_full(*refusal) => limit,
        Answer::Read {
            added: Err(fault),
            ..
        } if is_full_file(*fault) => limit,
        _ => size,
    }
}
