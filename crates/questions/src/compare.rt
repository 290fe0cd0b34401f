// Whether two edges mean the same, tried under every assignment of at most sixteen inputs.
ghost use Rattle.std.specs.Prelude.{◌≡◌, ◌≤◌, ◌++◌, map, length, drop, IfOk};
ghost use Rattle.std.specs.List.{range_with_len};
ghost use Rattle.values.specs.Columns.{block_column};
ghost use Rattle.graph_model.specs.Graphs.{nodes};
ghost use Rattle.graph.specs.States.{state};
ghost use Rattle.questions.specs.Comparison.{Compares, comparison, compared, block_values, last_block, blocks_after};

use crate::evaluate::evaluate;
use crate::value::edge_value;
use graph::graph::Graph;
use graph_model::refusal::Refusal;
use rules::edge::Edge;
use rulesets::ruleset::RuleSet;
use std::array;
use stores::store::NodeStore;
use values::block::Block;
use values::columns::input_block;

const MOST_INPUTS: u32 = 16;

// Each of the sixteen inputs under the 64 assignments of one block, the first one first.
fn input_blocks(block: u32) -> [Block; 16]
    ensures { result ≡ map (block_column block) (range_with_len 0 16) }
{
    // By value: nothing ties a number that is captured by reference to the one outside.
    array::from_fn(move |j| input_block(block, j as u32))
}

// The values of the nodes under the 64 assignments of one block. The room is known within one comparison only.
fn fill_block<R: RuleSet, S: NodeStore>(graph: &Graph<R, S>, block: u32, blocks: &mut [Block])
    requires limit { (state graph.now).inputs ≤ 16 }
    requires blocks { nodes (state graph.now) ≤ length blocks.old }
    ensures { blocks.new ≡ block_values (state graph.now) block ++ drop (nodes (state graph.now)) blocks.old }
{
    let inputs = graph.inputs() as usize;
    evaluate(graph, &input_blocks(block)[..inputs], blocks).unwrap();
}

// The smallest assignment under which the edges differ, looked for in blocks of 64.
fn scan<R: RuleSet, S: NodeStore>(
    graph: &Graph<R, S>,
    x: Edge,
    y: Edge,
    blocks: &mut [Block],
) -> Option<u32>
    requires limit { (state graph.now).inputs ≤ 16 }
    requires blocks { nodes (state graph.now) ≤ length blocks.old }
    ensures answer { result ≡ comparison (state graph.now) x y }
    ensures blocks { blocks.new ≡ block_values (state graph.now) (last_block (state graph.now) result) ++ drop (nodes (state graph.now)) blocks.old }
    ensures cases { Compares (state graph.now) x y result }
{
    let nodes = graph.nodes() as usize;
    let total: u32 = 1 << graph.inputs();
    let count = total.div_ceil(64);
    let width = total.min(64);
    let mut found = None;
    // Loops over blocks and bits, left from inside, are the form that the project fixes here.
    'search: for b in 0..count {
        fill_block(graph, b, blocks);
        let left = edge_value(&blocks[..nodes], x);
        let right = edge_value(&blocks[..nodes], y);
        'bits: for i in 0..width {
            if left.bit(i) != right.bit(i) {
                found = Some(64 * b + i);
                break 'search;
            }
        }
    }
    found
}

// The smallest assignment under which two edges differ, or none where they mean the same: bit `j` of an assignment is input `j + 1`.
pub fn compare<R: RuleSet, S: NodeStore>(
    graph: &Graph<R, S>,
    x: Edge,
    y: Edge,
    blocks: &mut [Block],
) -> Result<Option<u32>, Refusal>
    ensures answer { result ≡ compared (state graph.now) x y (length blocks.old) }
    ensures blocks { blocks.new ≡ blocks_after result (state graph.now) blocks.old }
    ensures cases { IfOk result (Compares (state graph.now) x y) }
{
    if !graph.contains(x) || !graph.contains(y) {
        return Err(Refusal::NoNode);
    }
    if graph.inputs() > MOST_INPUTS {
        return Err(Refusal::TooManyInputs);
    }
    if blocks.len() < graph.nodes() as usize {
        return Err(Refusal::Values);
    }
    Ok(scan(graph, x, y, blocks))
}
