// A simulation in a store with a record for each gate of the circuit file, and how it is told.
ghost use Rattle.std.specs.Prelude.{min};
ghost use Rattle.std.specs.Int.{IsNextPowerOfTwo};
ghost use Rattle.simulation.specs.Printed.{Sized, Printed};

use crate::error::SimulateError;
use crate::simulate::simulate;
use aiger_room::room::Room;
use chained_store::chained::ChainedStore;
use chained_store::record::ChainRecord;
use rulesets::levels::OptLevel;
use std::alloc::Global;

const MOST_HEADS: usize = 65_536;

// About one chain for each record.
fn head_count(records: usize) -> usize
    ensures { IsNextPowerOfTwo (min records 65536) result }
{
    records.min(MOST_HEADS).next_power_of_two()
}

fn simulate_sized(heap: Global, circuit: &[u8], frames: &[u8]) -> Result<Vec<u8>, SimulateError>
    ensures { Sized circuit.now frames.now result }
{
    let count = Room::of(circuit).gates;
    let mut records = vec![in heap; ChainRecord::EMPTY; count]?;
    let mut heads = vec![in heap; 0u32; head_count(count)]?;
    simulate::<OptLevel, ChainedStore<'_>>(
        heap,
        circuit,
        frames,
        OptLevel::Three,
        ChainedStore::new(records.as_mut_slice(), heads.as_mut_slice()),
    )
}

// The lines of the frames, or the line that tells what is wrong.
pub fn printed(heap: Global, circuit: &[u8], frames: &[u8]) -> Result<Vec<u8>, SimulateError>
    ensures { Printed circuit.now frames.now result }
{
    match simulate_sized(heap, circuit, frames) {
        Ok(text) => Ok(text),
        Err(SimulateError::Memory(error)) => Err(SimulateError::Memory(error)),
        Err(error) => Ok(format!(in heap; "{error}\n")?.into_bytes()),
    }
}
