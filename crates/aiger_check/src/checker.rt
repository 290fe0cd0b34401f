// A circuit file under check: its header, which lines are due, and the caller's buffers.
ghost use Rattle.std.specs.Prelude.{◌<◌, ◌≤◌, length};
ghost use Rattle.aiger_check.specs.Checks.{Small};

use super::section::Section;
use aiger_lines::fields::Header;
use rules::edge::Edge;

mod number_line;
mod pass;
mod step;

// The header is within its limits, and the buffers have room for what it counts.
#[derive(Drop)]
pub(crate) struct Checker<'a> {
    pub(crate) header: Header,
    pub(crate) section: Section,
    pub(crate) map: &'a mut [Edge],
    pub(crate) outputs: &'a mut [Edge],
    ghost small: { Small header },
    ghost places: { header.max < length map.now },
    ghost outs: { header.outputs ≤ length outputs.now },
}
