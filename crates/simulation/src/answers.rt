// What a graph's outputs are under test frames, as text.
ghost use Rattle.std.specs.Prelude.{◌≡◌, ◌≤◌, ◌++◌, map, length, IfOk, OnOk};
ghost use Rattle.values.specs.Blocks.{row as the_row};
ghost use Rattle.graph.specs.States.{state};
ghost use Rattle.simulation.specs.Columns.{shown};
ghost use Rattle.simulation.specs.Answers.{answer_line, row_lines, output_values, answer_text};

use crate::columns::fill_columns;
use graph::graph::Graph;
use questions::evaluate::evaluate;
use questions::value::edge_value;
use rules::edge::Edge;
use rulesets::ruleset::RuleSet;
use std::alloc::{AllocError, Global};
use stores::store::NodeStore;
use values::block::Block;

// The frames that are evaluated at once: one for each bit of a block.
const GROUP: usize = 64;

// The line that answers a frame, with one bit of each output's block.
fn push_line(
    text: &mut Vec<u8>,
    frame: &[u8],
    outputs: &[Block],
    row: u32,
) -> Result<(), AllocError>
    ensures { OnOk result (text.new.items ≡ text.old.items ++ answer_line frame.now (map (the_row row) outputs.now)) }
{
    text.extend_from_slice(frame)?;
    text.push(b' ')?;
    for output in outputs {
        text.push(if output.bit(row) { b'1' } else { b'0' })?;
    }
    text.push(b'\n')?;
    Ok(())
}

fn push_lines(text: &mut Vec<u8>, frames: &[&[u8]], outputs: &[Block]) -> Result<(), AllocError>
    requires { length frames.now ≤ 64 }
    ensures { OnOk result (text.new.items ≡ text.old.items ++ row_lines outputs.now 0 (shown frames.now)) }
{
    for (i, frame) in frames.iter().enumerate() {
        push_line(text, frame, outputs, i as u32)?;
    }
    Ok(())
}

fn output_blocks(heap: Global, outputs: &[Edge], values: &[Block]) -> Result<Vec<Block>, AllocError>
    ensures { IfOk result (λ v. v.items ≡ output_values values.now outputs.now) }
{
    outputs
        .iter()
        .map(|output| edge_value(values, *output))
        .collect(heap)
}

// The lines that answer all frames.
pub(crate) fn answer_frames<R: RuleSet, S: NodeStore>(
    heap: Global,
    graph: &Graph<R, S>,
    outputs: &[Edge],
    frames: &[&[u8]],
) -> Result<Vec<u8>, AllocError>
    ensures { IfOk result (λ text. text.items ≡ answer_text (state graph.now) outputs.now (shown frames.now)) }
{
    let mut columns = vec![in heap; Block::new(0); graph.inputs() as usize]?;
    let mut values = vec![in heap; Block::new(0); graph.nodes() as usize]?;
    let mut text = Vec::new(heap);
    for group in frames.chunks(GROUP) {
        fill_columns(group, columns.as_mut_slice());
        // There is a column for each input and a place for each node, so that nothing is refused.
        evaluate(graph, columns.as_slice(), values.as_mut_slice()).unwrap();
        let answers = output_blocks(heap, outputs, values.as_slice())?;
        push_lines(&mut text, group, answers.as_slice())?;
    }
    Ok(text)
}
