// Answers of one or two numbers.
ghost use Rattle.std.specs.Prelude.{IfOk, ◌≡◌};
ghost use Rattle.graph_model.specs.Refusals.{refusal_number};
ghost use Rattle.aiger_check.specs.Refusals.{fault_number, fault_line as line_of};
ghost use Rattle.answer_lines.specs.Answers.{edge_text, refused_text, fault_text, comparison_text, misread_text};

use aiger_check::faults::CircuitFault;
use graph_model::refusal::Refusal;
use rules::edge::Edge;
use std::alloc::{AllocError, Global};

pub(crate) fn edge_line(heap: Global, edge: Edge, added: u32) -> Result<Vec<u8>, AllocError>
    ensures { IfOk result (λ v. v.items ≡ edge_text edge added) }
{
    Ok(format!(in heap; "edge {} added {added}\n", edge.0)?.into_bytes())
}

pub(crate) fn refused_line(heap: Global, refusal: Refusal) -> Result<Vec<u8>, AllocError>
    ensures { IfOk result (λ v. v.items ≡ refused_text (refusal_number refusal)) }
{
    Ok(format!(in heap; "refused {}\n", refusal.number())?.into_bytes())
}

pub(crate) fn fault_line(heap: Global, fault: CircuitFault) -> Result<Vec<u8>, AllocError>
    ensures { IfOk result (λ v. v.items ≡ fault_text (fault_number fault) (line_of fault)) }
{
    Ok(format!(in heap; "refused {} line {}\n", fault.number(), fault.line())?.into_bytes())
}

// Without a difference the edges mean the same.
pub(crate) fn comparison_line(heap: Global, difference: Option<u32>) -> Result<Vec<u8>, AllocError>
    ensures { IfOk result (λ v. v.items ≡ comparison_text difference) }
{
    match difference {
        Some(assignment) => Ok(format!(in heap; "differ {assignment}\n")?.into_bytes()),
        None => Vec::from_slice(heap, b"same\n"),
    }
}

// What a line that says nothing is answered, by its number, the first being 1.
pub fn misread_line(heap: Global, number: usize) -> Result<Vec<u8>, AllocError>
    ensures text { IfOk result (λ v. v.items ≡ misread_text number) }
{
    Ok(format!(in heap; "line {number} not understood\n")?.into_bytes())
}
