// Reads the bundled circuits, and prints for each what it is answered with and how many nodes are stored.
#![tactic(auto)]

use chained_store::chained::ChainedStore;
use chained_store::record::ChainRecord;
use command_line::program::Program;
use sample_readings::sample::{Told, read_sample};
use std::fs;

// Few, so that one of the circuits needs more.
const RECORDS: usize = 100;

const HEADS: usize = 128;

// The circuits, each in a file of its name: first the published ones, then others that are taken, then refused ones.
const NAMES: [&str; 31] = [
    "empty",
    "false",
    "true",
    "buffer",
    "inverter",
    "and",
    "or",
    "half_adder",
    "half_adder_in_order",
    "toggle",
    "toggle_with_reset",
    "full_adder",
    "adder_of_four_bits",
    "majority",
    "parity_of_eight",
    "multiplexer",
    "every_rule",
    "trivial_cases",
    "repeated_gate",
    "header_too_short",
    "too_few_variables",
    "no_room_for_the_map",
    "no_digit",
    "leading_zero",
    "eight_digits",
    "no_newline",
    "odd_input",
    "input_twice",
    "operand_not_defined",
    "output_not_defined",
    "parity_of_forty",
];

// Reads one circuit over an empty store, and prints its line.
fn print_sample(rt: &HostRuntime, name: &str) -> anyhow::Result<()> {
    let heap = rt.alloc();
    let path = format!(in heap; "{name}.aag")?;
    let bytes = fs::read(rt, path.as_str())?;
    let mut records = vec![in heap; ChainRecord::EMPTY; RECORDS]?;
    let mut heads = vec![in heap; 0u32; HEADS]?;
    let store = ChainedStore::new(records.as_mut_slice(), heads.as_mut_slice());
    let Told { answer, nodes } = read_sample(heap, bytes.as_slice(), store)?;
    println!(rt; "{name:<20} {answer:<40} {nodes:>5}")?;
    Ok(())
}

fn samples(rt: &HostRuntime) -> anyhow::Result<()> {
    println!(rt; "{:<20} {:<40} {:>5}", "name", "answer", "nodes")?;
    for name in NAMES {
        print_sample(rt, name)?;
    }
    Ok(())
}

fn main(rt: HostRuntime) -> anyhow::Result<()> {
    match Program::Samples.arguments(&rt)? {
        Some(_none) => samples(&rt),
        None => Ok(()),
    }
}
