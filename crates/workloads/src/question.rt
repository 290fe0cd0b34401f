// Two edges over sixteen inputs, the most that a comparison takes: both pairs are decided by the last assignment only.
ghost use Rattle.std.specs.Prelude.{◌≡◌, IfOk};
ghost use Rattle.graph.specs.States.{state};
ghost use Rattle.graph_model.specs.WellFormed.{Extends};
ghost use Rattle.workloads.specs.Questions.{compared, Means, parity, all_true, Asks};

use graph::graph::Graph;
use graph_model::refusal::Refusal;
use rules::edge::Edge;
use rulesets::ruleset::RuleSet;
use stores::store::NodeStore;

pub const INPUTS: u32 = 16;

// Which two edges are compared.
#[derive(Clone, Copy, PartialEq, Eq, Debug)]
pub enum Question {
    Parities,
    Conjunction,
}

// The XOR of all inputs, made from the first on.
fn xor_up<R: RuleSet, S: NodeStore>(graph: &mut Graph<R, S>) -> Result<Edge, Refusal>
    requires { (state graph.old).inputs ≡ 16 }
    ensures graph { Extends (state graph.old) (state graph.new) }
    ensures answer { IfOk result (λ e. Means (state graph.new) e (λ ρ. parity ρ 16)) }
{
    let mut edge = Edge(2);
    for input in 1..INPUTS {
        let (next, _added) = graph.xor(edge, Edge(2 * (input + 1)))?;
        edge = next;
    }
    Ok(edge)
}

// The same made from the last input on.
fn xor_down<R: RuleSet, S: NodeStore>(graph: &mut Graph<R, S>) -> Result<Edge, Refusal>
    requires { (state graph.old).inputs ≡ 16 }
    ensures graph { Extends (state graph.old) (state graph.new) }
    ensures answer { IfOk result (λ e. Means (state graph.new) e (λ ρ. parity ρ 16)) }
{
    let mut edge = Edge(2 * INPUTS);
    for done in 1..INPUTS {
        let (next, _added) = graph.xor(Edge(2 * (INPUTS - done)), edge)?;
        edge = next;
    }
    Ok(edge)
}

// The AND of all inputs, which only the last assignment makes true.
fn and_up<R: RuleSet, S: NodeStore>(graph: &mut Graph<R, S>) -> Result<Edge, Refusal>
    requires { (state graph.old).inputs ≡ 16 }
    ensures graph { Extends (state graph.old) (state graph.new) }
    ensures answer { IfOk result (λ e. Means (state graph.new) e (λ ρ. all_true ρ 16)) }
{
    let mut edge = Edge(2);
    for input in 1..INPUTS {
        let (next, _added) = graph.and(edge, Edge(2 * (input + 1)))?;
        edge = next;
    }
    Ok(edge)
}

impl Question {
    pub fn name(self) -> &'static str
        ensures { result.now ≡ compared self }
    {
        match self {
            Question::Parities => "the XOR of 16 inputs from the left with that from the right",
            Question::Conjunction => "the AND of 16 inputs with false",
        }
    }

    // A new graph with the two edges.
    pub fn ask<R: RuleSet + Drop, S: NodeStore + Drop>(
        self,
        rules: R,
        store: S,
    ) -> Result<(Graph<R, S>, Edge, Edge), Refusal>
        ensures answer { IfOk result (λ o. Asks self (state o.0) o.1 o.2) }
    {
        let mut graph = Graph::new(INPUTS, rules, store);
        match self {
            Question::Parities => {
                let left = xor_up(&mut graph)?;
                let right = xor_down(&mut graph)?;
                Ok((graph, left, right))
            }
            Question::Conjunction => {
                let all = and_up(&mut graph)?;
                Ok((graph, all, Edge::FALSE))
            }
        }
    }
}
