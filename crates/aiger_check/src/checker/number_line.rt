// The number lines, each against what the map notes of the lines before it.
ghost use Rattle.std.specs.Prelude.{◌≡◌, ◌+◌, ◌*◌, ◌/◌, ◌≤◌, MatchBool, slice_index_or};
ghost use Rattle.rules.specs.Edges.{false_edge, undefined_edge};
ghost use Rattle.aiger_check.specs.Circuits.{input as an_input, output as an_output, Plain};
ghost use Rattle.aiger_check.specs.Checks.{One, Three, Noted};

use super::Checker;
use crate::faults::LineFault;
use aiger_lines::fields::{AndLine, and_line, fields};
use rules::edge::Edge;

impl Checker<'_> {
    // Whether the map notes that the literal's variable is defined.
    pub(super) fn is_defined(&self, literal: u32) -> bool
        requires { literal / 2 ≤ self.now.header.max }
        ensures { MatchBool result (Noted self.now.map.now (literal / 2)) (slice_index_or self.now.map.now (literal / 2) false_edge ≡ undefined_edge) }
    {
        let noted = self.map[(literal / 2) as usize];
        noted != Edge::UNDEFINED
    }

    // The largest literal.
    fn top(&self) -> u32
        ensures { result ≡ 2 * self.now.header.max + 1 }
    {
        2 * self.header.max + 1
    }

    // Whether a line may define the literal.
    fn is_plain(&self, literal: u32) -> bool
        ensures { MatchBool result (Plain self.now.header.max literal) (Plain self.now.header.max literal → ⊥) }
    {
        literal > 0 && literal % 2 == 0 && literal <= self.top()
    }

    // The literal of a line that defines an input.
    pub(super) fn input_line(&self, line: &[u8]) -> Result<u32, LineFault>
        ensures { One self.now.header.max (Noted self.now.map.now) line.now an_input result }
    {
        let [v] = fields(line, *b"\n")?;
        if !self.is_plain(v) {
            return Err(LineFault::Literal);
        }
        if self.is_defined(v) {
            return Err(LineFault::Twice);
        }
        Ok(v)
    }

    // The literal of a line that names an output, whether it is defined yet or not.
    pub(super) fn output_line(&self, line: &[u8]) -> Result<u32, LineFault>
        ensures { One self.now.header.max (λ _. Unit {0}) line.now an_output result }
    {
        let [v] = fields(line, *b"\n")?;
        if v > self.top() {
            return Err(LineFault::Literal);
        }
        Ok(v)
    }

    // The literals of a line that defines a gate.
    pub(super) fn gate_line(&self, line: &[u8]) -> Result<AndLine, LineFault>
        ensures { Three self.now.header.max (Noted self.now.map.now) line.now result }
    {
        let gate = and_line(line)?;
        if !self.is_plain(gate.lhs) || gate.left > self.top() || gate.right > self.top() {
            return Err(LineFault::Literal);
        }
        if self.is_defined(gate.lhs) {
            return Err(LineFault::Twice);
        }
        if !self.is_defined(gate.left) || !self.is_defined(gate.right) {
            return Err(LineFault::Undefined);
        }
        Ok(gate)
    }
}
