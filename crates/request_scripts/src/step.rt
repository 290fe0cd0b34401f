// What a script holds for a line after its first.
ghost use Rattle.std.specs.Prelude.{◌≡◌};
ghost use Rattle.request_lines.specs.Lines.{asked};
ghost use Rattle.request_scripts.specs.Steps.{AskRequest, ask_adds, Requests, Adds};

use aiger_room::room::Room;
use graph_model::operation::Operation;
use history_model::request::{Inputs, Outputs, Request};
use request_lines::line::Ask;
use values::value::Value;

// The bytes of a written circuit.
const TEXT_ROOM: usize = 1_048_576;

#[derive(Drop)]
pub enum Step {
    Ask(Ask),
    // the bytes of a circuit file that is read
    File(Vec<u8>),
    // a line that says nothing, by its number
    Misread(usize),
}

// The request, with so many places for a list of values.
fn ask_request<W: Value>(ask: &Ask, places: usize) -> Request<'_, W>
    ensures { AskRequest ask.now places result }
{
    match ask {
        Ask::And(x, y) => Request::And(*x, *y),
        Ask::Apply(operation, x, y) => Request::Apply(*operation, *x, *y),
        Ask::Evaluate(bits) => Request::Evaluate {
            inputs: Inputs::Bits(bits.as_slice()),
            places,
        },
        Ask::Compare(x, y) => Request::Compare {
            x: *x,
            y: *y,
            places,
        },
        Ask::Table(edge) => Request::Tabulate {
            edge: *edge,
            places,
        },
        Ask::Write(edges) => Request::Write {
            outputs: Outputs::Edges(edges.as_slice()),
            room: TEXT_ROOM,
        },
        Ask::Pairs => Request::Pairs,
    }
}

// The most nodes that a request can add.
fn ask_most(ask: &Ask) -> usize
    ensures { result ≡ ask_adds (asked ask.now) }
{
    match ask {
        Ask::And(..) => 1,
        Ask::Apply(Operation::Or, ..) => 1,
        Ask::Apply(Operation::Implies, ..) => 1,
        Ask::Apply(..) => 3,
        _ => 0,
    }
}

impl Step {
    // The request that is made, with so many places for a list of values.
    pub(crate) fn request<W: Value>(&self, places: usize) -> Option<Request<'_, W>>
        ensures { Requests self.now places result }
    {
        match self {
            Step::Ask(ask) => Some(ask_request(ask, places)),
            Step::File(bytes) => {
                let room = Room::of(bytes.as_slice());
                Some(Request::Read {
                    bytes: bytes.as_slice(),
                    places: room.places,
                    outputs: room.outputs,
                })
            }
            Step::Misread(_) => None,
        }
    }

    // The most nodes that it can add.
    pub(crate) fn most(&self) -> usize
        ensures { Adds self.now result }
    {
        match self {
            Step::Ask(ask) => ask_most(ask),
            Step::File(bytes) => Room::of(bytes.as_slice()).gates,
            Step::Misread(_) => 0,
        }
    }
}
