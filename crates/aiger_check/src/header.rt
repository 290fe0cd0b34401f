// The header, on the first line: `aag`, then the numbers M, I, L, O and A.
ghost use Rattle.std.specs.Prelude.{◌≡◌, ℕ, ◌+◌, ◌<◌, List, [], ◌++◌, codes, MatchOption, OnSome, ◌≢◌, slice_index_or};
ghost use Rattle.aiger_check.specs.Text.{lines};
ghost use Rattle.aiger_check.specs.Reading.{all};
ghost use Rattle.aiger_check.specs.Calls.{HeaderOf, Tested};

use super::faults::CircuitFault;
use super::line::Line;
use super::reader::Reader;
use aiger_lines::fields::{Header, header_numbers};

// The largest numbers of a header that is taken. A graph's most inputs and a written file's most outputs are limits of
// their crates, which this one does not use.
const MAX_VARIABLES: u32 = 1_004_096;

const MAX_INPUTS: u32 = 4_096;

const MAX_OUTPUTS: u32 = 4_096;

const MAX_GATES: u32 = 1_000_000;

// What follows `aag` and a space: a slice pattern is the form that the project fixes here.
fn after_magic(line: &[u8]) -> Option<&[u8]>
    ensures { MatchOption result ((rest : List ℕ) → line.now ≢ codes "aag " ++ rest) (λ x. line.now ≡ codes "aag " ++ x.now) }
{
    match line {
        [b'a', b'a', b'g', b' ', rest @ ..] => Some(rest),
        _ => None,
    }
}

// The header that a line holds.
fn header_of(line: &[u8]) -> Option<Header>
    ensures { HeaderOf line.now result }
{
    let rest = after_magic(line)?;
    header_numbers(rest).ok()
}

// The header, with the reader before the second line.
pub(crate) fn read_header(reader: &mut Reader<'_>) -> Option<Header>
    requires { reader.old.number ≡ 0 }
    ensures answer { HeaderOf (slice_index_or (all reader.old) 0 []) result }
    ensures kept { OnSome result ((reader.new.bytes ≡ reader.old.bytes) × (reader.new.number ≡ 1)) }
{
    match reader.next_line()?.line {
        Line::Header(line) => header_of(line),
        _ => None,
    }
}

// The header of a file, or none where its first line is not of a header's form.
pub fn file_header(bytes: &[u8]) -> Option<Header>
    ensures { HeaderOf (slice_index_or (lines bytes.now) 0 []) result }
{
    read_header(&mut Reader::new(bytes))
}

// The tests on the header, in order: latches, limits, inputs, room.
pub(crate) fn test_header(
    header: Header,
    graph_inputs: u32,
    places: usize,
    outs: usize,
) -> Result<(), CircuitFault>
    ensures { Tested header graph_inputs places outs result }
{
    if header.latches != 0 {
        return Err(CircuitFault::Latches);
    }
    if header.max > MAX_VARIABLES || header.inputs > MAX_INPUTS {
        return Err(CircuitFault::Limits);
    }
    if header.outputs > MAX_OUTPUTS || header.ands > MAX_GATES {
        return Err(CircuitFault::Limits);
    }
    if header.max < header.inputs + header.ands {
        return Err(CircuitFault::Limits);
    }
    if header.inputs != graph_inputs {
        return Err(CircuitFault::Inputs);
    }
    if places <= header.max as usize || outs < header.outputs as usize {
        return Err(CircuitFault::Room);
    }
    Ok(())
}
