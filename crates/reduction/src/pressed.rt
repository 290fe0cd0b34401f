// A circuit file, reduced in stores of a fixed size, and how that is told.
ghost use Rattle.std.specs.Prelude.{◌≡◌, length, IfOk};
ghost use Rattle.reduction.specs.Printed.{Pressed, Told, Printed};

use super::error::ReduceError;
use super::level::reduce_at;
use super::limits::Limits;
use super::message::refusal_line;
use chained_store::chained::ChainedStore;
use chained_store::record::ChainRecord;
use rulesets::levels::OptLevel;
use std::alloc::{AllocError, Global};

const RECORDS: usize = 4_000;

// One for each record, so that a chain has about one.
const HEADS: usize = 4_096;

const LIMITS: Limits = Limits {
    file: 65_536,
    places: 8_192,
    outputs: 4_096,
    text: 65_536,
};

fn records(heap: Global) -> Result<Vec<ChainRecord>, AllocError>
    ensures { IfOk result (λ v. length v.items ≡ 4000) }
{
    Ok(vec![in heap; ChainRecord::EMPTY; RECORDS]?)
}

fn heads(heap: Global) -> Result<Vec<u32>, AllocError>
    ensures { IfOk result (λ v. length v.items ≡ 4096) }
{
    Ok(vec![in heap; 0u32; HEADS]?)
}

fn pressed(heap: Global, bytes: &[u8]) -> Result<Vec<u8>, ReduceError>
    ensures { Pressed bytes.now result }
{
    let mut first_records = records(heap)?;
    let mut first_heads = heads(heap)?;
    let mut spare_records = records(heap)?;
    let mut spare_heads = heads(heap)?;
    reduce_at::<bool, ChainedStore<'_>>(
        heap,
        bytes,
        OptLevel::Three,
        ChainedStore::new(first_records.as_mut_slice(), first_heads.as_mut_slice()),
        ChainedStore::new(spare_records.as_mut_slice(), spare_heads.as_mut_slice()),
        LIMITS,
    )
}

// The written circuit, or the line that tells its refusal.
pub fn printed(heap: Global, bytes: &[u8]) -> Result<Vec<u8>, ReduceError>
    ensures { Printed bytes.now result }
{
    match pressed(heap, bytes) {
        Err(ReduceError::Refused(refused)) => {
            Ok(refusal_line(heap, refused.number(), refused.line())?.into_bytes())
        }
        reduced => reduced,
    }
}
