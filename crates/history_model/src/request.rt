// What a graph is asked, and what it answers.
use aiger_check::faults::CircuitFault;
use graph_model::operation::Operation;
use graph_model::refusal::Refusal;
use rules::edge::Edge;
use rules::pair::Pair;
use values::block::Block;
use values::cofactors::Table;

// Which edges a written file names as its outputs. The second case is named, since `None` would not say which edges are meant.
#[derive(Clone, Copy, PartialEq, Eq, Debug)]
pub enum Outputs<'a> {
    Edges(&'a [Edge]),
    // those of the file that was taken last; none before the first
    LastFile,
}

// One value for each input: bits, blocks, tables, or the values of any other algebra.
#[derive(Clone, Copy)]
pub enum Inputs<'a, W> {
    Bits(&'a [bool]),
    Blocks(&'a [Block]),
    Tables(&'a [Table]),
    Others(&'a [W]),
}

// A request that fills a list says how many places the list has.
#[derive(Clone, Copy)]
pub enum Request<'a, W> {
    And(Edge, Edge),
    Apply(Operation, Edge, Edge),
    // a circuit file, with so many places for its map and for its outputs
    Read {
        bytes: &'a [u8],
        places: usize,
        outputs: usize,
    },
    // the graph as a circuit file, in at most so many bytes
    Write {
        outputs: Outputs<'a>,
        room: usize,
    },
    // the value of every node
    Evaluate {
        inputs: Inputs<'a, W>,
        places: usize,
    },
    // whether two edges mean the same
    Compare {
        x: Edge,
        y: Edge,
        places: usize,
    },
    // the truth table of an edge
    Tabulate {
        edge: Edge,
        places: usize,
    },
    // the stored pairs
    Pairs,
}

// The values of an evaluation, in the algebra of its inputs.
#[derive(Drop)]
pub enum NodeValues<W> {
    Bits(Vec<bool>),
    Blocks(Vec<Block>),
    Tables(Vec<Table>),
    Others(Vec<W>),
}

#[derive(Drop)]
pub enum Answer<W> {
    // the edge, and whether a node was added: the tuple that AND itself answers
    And(Result<(Edge, bool), Refusal>),
    // the edge, and how many nodes were added: the tuple that the operation itself answers
    Apply(Result<(Edge, u32), Refusal>),
    Read {
        // how many nodes were added
        added: Result<u32, CircuitFault>,
        map: Vec<Edge>,
        outputs: Vec<Edge>,
    },
    Write {
        length: Result<usize, Refusal>,
        // begins with the text
        buffer: Vec<u8>,
    },
    Evaluate {
        done: Result<(), Refusal>,
        // begins with the values of the nodes
        values: NodeValues<W>,
    },
    Compare {
        comparison: Result<Option<u32>, Refusal>,
        // begins with the values of the last block looked at
        blocks: Vec<Block>,
    },
    Tabulate {
        done: Result<(), Refusal>,
        // the edge's
        table: Table,
        // begins with the tables of the nodes
        tables: Vec<Table>,
    },
    // the pairs in the order stored
    Pairs(Vec<Pair>),
}
