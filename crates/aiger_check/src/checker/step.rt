// One line below the header.
ghost use Rattle.std.specs.Prelude.{ℕ};
ghost use Rattle.aiger_check.specs.Kinds.{Kind, bytes};
ghost use Rattle.aiger_check.specs.Checkers.{SameFile};
ghost use Rattle.aiger_check.specs.Sections.{At, StepChecked};

use super::Checker;
use crate::faults::LineFault;
use crate::line::Line;
use crate::name::name_line;
use crate::section::Section;
use aiger_lines::number::DigitFault;
use rules::edge::Edge;

impl Checker<'_> {
    // One line, of the kind that is due or not. What is required holds at this line and not of every checker.
    pub(super) fn step(&mut self, line: Line<'_>) -> Result<(), LineFault>
        requires due { (k : ℕ) × At self.old.header k self.old.section }
        requires kind { Kind line }
        ensures same { SameFile self.old self.new }
        ensures answer { (k : ℕ) → At self.old.header k self.old.section → StepChecked self.old.header k (bytes line.entry) self.old.map.now self.old.outputs.now result self.new.section self.new.map.now self.new.outputs.now }
    {
        // The section and the line's kind, matched together, are the form that the project fixes here.
        match (self.section, line) {
            (Section::Inputs(left), Line::Numbers(line)) => {
                let v = self.input_line(line)?;
                self.map[(v / 2) as usize] = Edge(2 * (self.header.inputs - left + 1));
                self.section = self.section.next(self.header);
                Ok(())
            }
            (Section::Outputs(left), Line::Numbers(line)) => {
                let v = self.output_line(line)?;
                self.outputs[(self.header.outputs - left) as usize] = Edge(v);
                self.section = self.section.next(self.header);
                Ok(())
            }
            (Section::Gates(_), Line::Numbers(line)) => {
                let gate = self.gate_line(line)?;
                self.map[(gate.lhs / 2) as usize] = Edge::FALSE;
                self.section = self.section.next(self.header);
                Ok(())
            }
            (Section::Names, Line::Name(line)) => Ok(name_line(line, self.header)?),
            (Section::Names, Line::Comment(_)) => {
                self.section = Section::Comments;
                Ok(())
            }
            // two arms, since of one with `|` nothing is known of the line, and it is not proved
            (Section::Names, Line::Header(_)) => Err(LineFault::Form(DigitFault::Other)),
            (Section::Names, Line::Numbers(_)) => Err(LineFault::Form(DigitFault::Other)),
            (Section::Comments, _) => Ok(()),
            // a letter where a number is due
            _ => Err(LineFault::Form(DigitFault::NoDigit)),
        }
    }
}
