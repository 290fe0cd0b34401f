// A circuit file, reduced: read into a new graph, written, and read back.
ghost use Rattle.std.specs.Prelude.{◌≡◌, ℕ, List, [], ◌∷◌, map as each_of, IfOk, IfErr, Err as refused, Result as Answered};
ghost use Rattle.rules.specs.declared.edge.Edge.{Edge as an_edge};
ghost use Rattle.graph_model.specs.declared.refusal.Refusal.{Refusal as a_refusal};
ghost use Rattle.aiger_check.specs.declared.faults.CircuitFault.{CircuitFault as a_fault};
ghost use Rattle.graph.specs.States.{state};
ghost use Rattle.history_model.specs.Histories.{told, read as a_file, written as a_text};
ghost use Rattle.reduction.specs.Meaning.{SaysSame};
ghost use Rattle.reduction.specs.Reductions.{Wrote, Reduces};
ghost use Rattle.reduction.specs.Rereads.{Tells, of_parts};

use super::compare::{begins_with, same_pairs};
use super::error::ReduceError;
use super::limits::Limits;
use aiger_check::faults::CircuitFault;
use aiger_room::room::Room;
use graph::graph::Graph;
use graph_model::refusal::Refusal;
use history::history::run;
use history_model::request::{Answer, Outputs, Request};
use rules::edge::Edge;
use rulesets::ruleset::RuleSet;
use std::alloc::{AllocError, Global};
use stores::store::NodeStore;
use values::value::Value;

// The answer to a file that is read, and its outputs.
fn only_read<W: Value>(mut answers: Vec<Answer<W>>) -> (Result<u32, CircuitFault>, Vec<Edge>)
    requires { (r : Answered ℕ a_fault) × (m : List an_edge) × (o : List an_edge) × (each_of told answers.items ≡ a_file r m o ∷ []) }
    ensures { (m : List an_edge) × (each_of told answers.items ≡ a_file result.0 m result.1.items ∷ []) }
{
    let Some(Answer::Read { added, outputs, .. }) = answers.pop() else {
        unreachable!()
    };
    (added, outputs)
}

// The answers to a file that is read and a text that is written.
#[derive(Drop)]
pub struct Parts {
    added: Result<u32, CircuitFault>,
    outputs: Vec<Edge>,
    length: Result<usize, Refusal>,
    buffer: Vec<u8>,
}

fn take_apart<W: Value>(mut answers: Vec<Answer<W>>) -> Parts
    requires { (r : Answered ℕ a_fault) × (m : List an_edge) × (o : List an_edge) × (w : Answered ℕ a_refusal) × (t : List ℕ) × (each_of told answers.items ≡ a_file r m o ∷ a_text w t ∷ []) }
    ensures { (m : List an_edge) × (each_of told answers.items ≡ of_parts result m) }
{
    let Some(Answer::Write { length, buffer }) = answers.pop() else {
        unreachable!()
    };
    let (added, outputs) = only_read(answers);
    Parts {
        added,
        outputs,
        length,
        buffer,
    }
}

// The graph that a circuit file builds, its outputs, and its text.
fn build<V: Value, R: RuleSet + Drop, S: NodeStore + Drop>(
    heap: Global,
    bytes: &[u8],
    rules: R,
    store: S,
    limits: Limits,
) -> Result<(Graph<R, S>, Vec<Edge>, Vec<u8>), ReduceError>
    ensures wrote { IfOk result (λ o. Wrote (R.replies rules) bytes.now limits (S.model.limit store) (S.model.max_edge store) (state o.0) o.1.items o.2.items) }
    ensures refused { IfErr result (λ e. (spare spare_max : ℕ) → Reduces (R.replies rules) bytes.now limits (S.model.limit store) (S.model.max_edge store) spare spare_max (refused e)) }
{
    if bytes.len() > limits.file {
        return Err(CircuitFault::TooLarge.into());
    }
    let room = Room::of(bytes);
    let requests = [
        Request::Read {
            bytes,
            places: limits.places,
            outputs: limits.outputs,
        },
        Request::Write {
            outputs: Outputs::LastFile,
            room: limits.text,
        },
    ];
    let (graph, answers) = run::<V, V, R, S>(heap, room.inputs, rules, store, &requests)?;
    let Parts {
        added,
        mut outputs,
        length,
        buffer: mut text,
    } = take_apart(answers);
    added?;
    let length = length?;
    outputs.truncate(room.outputs);
    text.truncate(length);
    // What is left of the room asked for is given back, since a caller may keep the text.
    text.shrink_to_fit();
    Ok((graph, outputs, text))
}

// Whether the text, read into a new graph, gives the graph's pairs and outputs again. A struct of the rules, the spare
// store and the limits would be made for this one call.
fn reread<V: Value, R: RuleSet + Drop, S: NodeStore + Drop>(
    heap: Global,
    graph: &Graph<R, S>,
    outputs: &[Edge],
    text: &[u8],
    rules: R,
    spare: S,
    limits: Limits,
) -> Result<bool, AllocError>
    ensures { IfOk result (λ same. Tells (R.replies rules) (state graph.now) outputs.now text.now limits (S.model.limit spare) (S.model.max_edge spare) same) }
{
    let requests = [Request::Read {
        bytes: text,
        places: limits.places,
        outputs: limits.outputs,
    }];
    let (again, answers) = run::<V, V, R, S>(heap, graph.inputs(), rules, spare, &requests)?;
    let (added, found) = only_read(answers);
    Ok(added.is_ok() && same_pairs(graph, &again) && begins_with(found.as_slice(), outputs))
}

// Reads a circuit file into a new graph, writes the graph, and reads what it wrote back into another one:
// the text, where it reads back as the same pairs and outputs. It says the same as the file, in any Boolean algebra V.
pub fn reduce<V: Value, R: RuleSet + Copy + Drop, S: NodeStore + Drop>(
    heap: Global,
    bytes: &[u8],
    rules: R,
    store: S,
    spare: S,
    limits: Limits,
) -> Result<Vec<u8>, ReduceError>
    ensures answer { Reduces (R.replies rules) bytes.now limits (S.model.limit store) (S.model.max_edge store) (S.model.limit spare) (S.model.max_edge spare) result }
    ensures cases { IfOk result (λ text. SaysSame V.Value.algebra bytes.now text.items) }
{
    let (graph, outputs, text) = build::<V, R, S>(heap, bytes, rules, store, limits)?;
    let same = reread::<V, R, S>(
        heap,
        &graph,
        outputs.as_slice(),
        text.as_slice(),
        rules,
        spare,
        limits,
    )?;
    if same {
        Ok(text)
    } else {
        Err(ReduceError::ReadsBackOtherwise(text))
    }
}
