// What a line says.
use graph_model::operation::Operation;
use rules::edge::Edge;
use rulesets::levels::OptLevel;

// The graph that the requests after it are made of.
#[derive(Clone, Copy, PartialEq, Eq, Debug)]
pub struct Opening {
    pub inputs: u32,
    pub level: OptLevel,
    pub records: u32,
}

// What a graph is asked in a line that is whole without a file.
#[derive(Drop)]
pub enum Ask {
    And(Edge, Edge),
    Apply(Operation, Edge, Edge),
    // one bit for each input
    Evaluate(Vec<bool>),
    Compare(Edge, Edge),
    Table(Edge),
    Write(Vec<Edge>),
    Pairs,
}

#[derive(Drop)]
pub enum Line {
    Graph(Opening),
    // the circuit file at this path
    Read(String),
    Ask(Ask),
}
