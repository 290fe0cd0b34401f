// How the counts of a job are told: lines without their times and ends.
ghost use Rattle.std.specs.Prelude.{◌≡◌, IfOk, string_bytes};
ghost use Rattle.workloads.specs.Told.{circuit_told, growth_told, evaluation_told, difference_told, comparison_told, told};

use crate::kind::Kind;
use crate::question::Question;
use std::alloc::{AllocError, Global};

// What a job came to.
#[derive(Clone, Copy)]
pub enum Counts {
    // the gates and bytes of a circuit, the nodes of its graph, and the bytes of what was written
    Circuit {
        gates: u32,
        len: usize,
        nodes: u32,
        written: usize,
    },
    Growth {
        calls: u64,
        nodes: u32,
    },
    // the XOR of the values of all nodes
    Evaluation {
        nodes: u32,
        xor: u64,
    },
    // the smallest assignment under which the two edges differ, if any
    Comparison {
        question: Question,
        nodes: u32,
        difference: Option<u32>,
    },
}

fn circuit_line(
    heap: Global,
    kind: Kind,
    gates: u32,
    len: usize,
    nodes: u32,
    written: usize,
) -> Result<String, AllocError>
    ensures { IfOk result (λ s. string_bytes s ≡ circuit_told kind gates len nodes written) }
{
    let store = kind.name();
    format!(in heap;
        "{store}, circuit of {gates} gates: {len} bytes, {nodes} nodes, {written} bytes written"
    )
}

fn growth_line(heap: Global, kind: Kind, calls: u64, nodes: u32) -> Result<String, AllocError>
    ensures { IfOk result (λ s. string_bytes s ≡ growth_told kind calls nodes) }
{
    let store = kind.name();
    format!(in heap; "{store}, ANDs of random edges: {calls} calls, {nodes} nodes")
}

fn evaluation_line(heap: Global, kind: Kind, nodes: u32, xor: u64) -> Result<String, AllocError>
    ensures { IfOk result (λ s. string_bytes s ≡ evaluation_told kind nodes xor) }
{
    let store = kind.name();
    format!(in heap; "{store}, evaluation by blocks: {nodes} nodes, XOR of all words {xor}")
}

fn difference_text(heap: Global, difference: Option<u32>) -> Result<String, AllocError>
    ensures { IfOk result (λ s. string_bytes s ≡ difference_told difference) }
{
    match difference {
        None => format!(in heap; "same"),
        Some(assignment) => format!(in heap; "differ {assignment}"),
    }
}

fn comparison_line(
    heap: Global,
    kind: Kind,
    question: Question,
    nodes: u32,
    difference: Option<u32>,
) -> Result<String, AllocError>
    ensures { IfOk result (λ s. string_bytes s ≡ comparison_told kind question nodes difference) }
{
    let store = kind.name();
    let edges = question.name();
    let found = difference_text(heap, difference)?;
    format!(in heap; "{store}, comparison of {edges}: {nodes} nodes, {found}")
}

impl Counts {
    pub fn line(self, heap: Global, kind: Kind) -> Result<String, AllocError>
        ensures { IfOk result (λ s. string_bytes s ≡ told kind self) }
    {
        match self {
            Counts::Circuit {
                gates,
                len,
                nodes,
                written,
            } => circuit_line(heap, kind, gates, len, nodes, written),
            Counts::Growth { calls, nodes } => growth_line(heap, kind, calls, nodes),
            Counts::Evaluation { nodes, xor } => evaluation_line(heap, kind, nodes, xor),
            Counts::Comparison {
                question,
                nodes,
                difference,
            } => comparison_line(heap, kind, question, nodes, difference),
        }
    }
}
