// The truth table of an edge, over at most eight inputs.
ghost use Rattle.std.specs.Prelude.{◌≡◌, ℕ, ◌<◌, map, length, Ok};
ghost use Rattle.std.specs.List.{range_with_len};
ghost use Rattle.values.specs.Rows.{table_rows};
ghost use Rattle.values.specs.Columns.{table_column};
ghost use Rattle.graph.specs.States.{state};
ghost use Rattle.questions.specs.Assignments.{edge_bit};
ghost use Rattle.questions.specs.Tabulation.{tabulation, tables_after, table_after};

use crate::evaluate::evaluate;
use crate::value::edge_value;
use graph::graph::Graph;
use graph_model::refusal::Refusal;
use rules::edge::Edge;
use rulesets::ruleset::RuleSet;
use std::array;
use stores::store::NodeStore;
use values::cofactors::Table;
use values::columns::input_table;

const MOST_INPUTS: u32 = 8;

// Each input as a function of eight inputs, the first one first. The blocks of a comparison differ in width and columns.
fn input_tables() -> [Table; 8]
    ensures { result ≡ map table_column (range_with_len 0 8) }
{
    array::from_fn(|j| input_table(j as u32))
}

// The truth table of an edge: row k for assignment k; bits of k above the inputs are ignored.
pub fn tabulate<R: RuleSet, S: NodeStore>(
    graph: &Graph<R, S>,
    edge: Edge,
    tables: &mut [Table],
    table: &mut Table,
) -> Result<(), Refusal>
    ensures answer { result ≡ tabulation (state graph.now) edge (length tables.old) }
    ensures tables { tables.new ≡ tables_after result (state graph.now) tables.old }
    ensures table { table.new ≡ table_after result (state graph.now) edge table.old }
    ensures cases { result ≡ Ok tt → (k : ℕ) → k < 256 → table_rows.row k table.new ≡ edge_bit (state graph.now) k edge }
{
    if !graph.contains(edge) {
        return Err(Refusal::NoNode);
    }
    let inputs = graph.inputs();
    if inputs > MOST_INPUTS {
        return Err(Refusal::TooManyInputs);
    }
    // A list of tables that is too short is refused here.
    evaluate(graph, &input_tables()[..inputs as usize], tables)?;
    *table = edge_value(tables, edge);
    Ok(())
}
