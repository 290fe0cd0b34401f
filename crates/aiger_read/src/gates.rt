// The AND requests of a file, line by line: the file was checked, so no line can fail.
ghost use Rattle.std.specs.Prelude.{◌≡◌, ◌+◌, ◌/◌, ◌<◌, List, length, drop};
ghost use Rattle.graph.specs.States.{state, replies};
ghost use Rattle.aiger_check.specs.Circuits.{Item, Begins, total};
ghost use Rattle.aiger_check.specs.Checks.{Small};
ghost use Rattle.aiger_check.specs.Reading.{all};
ghost use Rattle.aiger_read.specs.Requests.{through as the_edge, Requested};

use aiger_check::faults::{AtLine, LineFault};
use aiger_check::reader::Reader;
use aiger_lines::fields::{Header, and_line};
use graph::graph::Graph;
use rules::edge::Edge;
use rulesets::ruleset::RuleSet;
use stores::store::NodeStore;

// The graph's edge of a literal.
pub(crate) fn edge_of(map: &[Edge], literal: u32) -> Edge
    requires { literal / 2 < length map.now }
    ensures { result ≡ the_edge map.now literal }
{
    let edge = map[(literal / 2) as usize];
    if literal % 2 == 0 {
        edge
    } else {
        edge.complement()
    }
}

// One AND request for each gate: how many nodes were added, or the line at which the graph is full. What is required
// holds once the check is done, and the clause on the rules is of two moments, so that neither is a fact of a type.
pub(crate) fn request_gates<R: RuleSet, S: NodeStore>(
    graph: &mut Graph<R, S>,
    reader: &mut Reader<'_>,
    header: Header,
    map: &mut [Edge],
) -> Result<u32, AtLine>
    requires small { Small header }
    requires room { header.max < length map.old }
    requires place { reader.old.number ≡ header.inputs + header.outputs + 1 }
    requires good { (is : List Item) × (length is ≡ total header) × Begins header (all reader.old) is }
    ensures answer { (is : List Item) → length is ≡ total header → Begins header (all reader.old) is → Requested (replies graph.old) (header.inputs + header.outputs) (drop (header.inputs + header.outputs) is) (state graph.old) map.old result (state graph.new) map.new }
    ensures kept { drop (header.max + 1) map.new ≡ drop (header.max + 1) map.old }
    ensures rules { graph.new.rules ≡ graph.old.rules }
{
    let mut added = 0;
    // The range counts lines, for a fault's number, and indexes nothing: the reader keeps its own place.
    for j in 0..header.ands {
        let line = (header.inputs + header.outputs + j) as usize + 2;
        let bytes = reader.next_bytes().unwrap();
        let gate = and_line(bytes).unwrap();
        let x = edge_of(map, gate.left);
        let y = edge_of(map, gate.right);
        let (edge, is_new) = graph.and(x, y).map_err(|_| AtLine {
            line,
            fault: LineFault::Full,
        })?;
        map[(gate.lhs / 2) as usize] = edge;
        added += u32::from(is_new);
    }
    Ok(added)
}
