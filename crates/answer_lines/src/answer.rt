// The line of an answer, with its end.
ghost use Rattle.std.specs.Prelude.{IfOk, ◌≡◌};
ghost use Rattle.history_model.specs.Histories.{told};
ghost use Rattle.answer_lines.specs.Answers.{answer_text};

use super::listed::{bits, pairs_line, read_line, values_line};
use super::short::{comparison_line, edge_line, fault_line, refused_line};
use super::table::table_line;
use history_model::request::Answer;
use std::alloc::{AllocError, Global};
use values::value::Value;

// Of an evaluation's values it tells those of so many nodes.
pub fn answer_line<W: Value>(
    heap: Global,
    nodes: usize,
    answer: &Answer<W>,
) -> Result<Vec<u8>, AllocError>
    ensures text { IfOk result (λ v. v.items ≡ answer_text nodes (told answer.now)) }
{
    match answer {
        Answer::And(Ok((edge, added))) => edge_line(heap, *edge, u32::from(*added)),
        Answer::And(Err(refusal)) => refused_line(heap, *refusal),
        Answer::Apply(Ok((edge, added))) => edge_line(heap, *edge, *added),
        Answer::Apply(Err(refusal)) => refused_line(heap, *refusal),
        Answer::Read { added, outputs, .. } => match added {
            Ok(added) => read_line(heap, *added, outputs.as_slice()),
            Err(fault) => fault_line(heap, *fault),
        },
        Answer::Write { length, buffer } => match length {
            Ok(length) => Vec::from_slice(heap, &buffer.as_slice()[..(*length).min(buffer.len())]),
            Err(refusal) => refused_line(heap, *refusal),
        },
        Answer::Evaluate { done, values } => match done {
            Ok(()) => values_line(heap, nodes, bits(values)),
            Err(refusal) => refused_line(heap, *refusal),
        },
        Answer::Compare { comparison, .. } => match comparison {
            Ok(difference) => comparison_line(heap, *difference),
            Err(refusal) => refused_line(heap, *refusal),
        },
        Answer::Tabulate { done, table, .. } => match done {
            Ok(()) => table_line(heap, *table),
            Err(refusal) => refused_line(heap, *refusal),
        },
        Answer::Pairs(pairs) => pairs_line(heap, pairs.as_slice()),
    }
}
