// A circuit as a record, and that every file that is taken holds one.
#![tactic(auto)]

ghost use Rattle.aiger_circuit.specs.Records.{IsCircuit, Worked};

// What a taken file says is a circuit: its inputs, then its outputs, then its gates.
pub fn taken_is_circuit()
    ensures { IsCircuit }
{}

// A worked circuit, with its header and its items.
pub fn worked_circuit()
    ensures { Worked }
{}
