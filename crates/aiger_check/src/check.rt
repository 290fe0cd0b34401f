// The check of a whole circuit file: no graph is touched, and only the buffers are written.
ghost use Rattle.aiger_check.specs.Once.{OneAnswer};
ghost use Rattle.aiger_check.specs.Calls.{Checked};

use super::checker::Checker;
use super::faults::CircuitFault;
use super::header::{read_header, test_header};
use super::reader::Reader;
use super::section::Section;
use aiger_lines::fields::Header;
use rules::edge::Edge;

// The longest file that is taken.
pub const MAX_BYTES: usize = 1_048_576;

// The whole file: its header if it is taken, or why it is refused. Of a taken file the map has each input's edge,
// FALSE at every gate and at the constant and UNDEFINED at other variables, and the outputs have their literals.
pub fn check(
    bytes: &[u8],
    graph_inputs: u32,
    map: &mut [Edge],
    outputs: &mut [Edge],
) -> Result<Header, CircuitFault>
    ensures { Checked bytes.now graph_inputs map.old outputs.old result map.new outputs.new }
{
    if bytes.len() > MAX_BYTES {
        return Err(CircuitFault::TooLarge);
    }
    let mut reader = Reader::new(bytes);
    let header = read_header(&mut reader).ok_or(CircuitFault::NoHeader)?;
    test_header(header, graph_inputs, map.len(), outputs.len())?;
    let mut checker = Checker {
        header,
        section: Section::first(header),
        map,
        outputs,
    };
    let checked = checker.check_sections(&mut reader);
    if checked.is_err() {
        checker.clear();
    }
    checked?;
    Ok(header)
}

// A file is taken in one way or refused for one cause, and never both.
pub fn answers_once()
    ensures { OneAnswer }
{}
