// The pass over the lines below the header, and the outputs after it.
ghost use Rattle.std.specs.Prelude.{◌≡◌, ℕ, ◌+◌, ◌/◌, ◌<◌, ◌≤◌, length, slice_index_or};
ghost use Rattle.rules.specs.Edges.{false_edge};
ghost use Rattle.aiger_check.specs.Reading.{all};
ghost use Rattle.aiger_check.specs.Checks.{Start};
ghost use Rattle.aiger_check.specs.Sections.{At};
ghost use Rattle.aiger_check.specs.Files.{marked};
ghost use Rattle.aiger_check.specs.Checkers.{SameFile};
ghost use Rattle.aiger_check.specs.Calls.{LinesRead, OutputsChecked, SectionsChecked};

use super::Checker;
use crate::buffers::{clear, mark};
use crate::faults::{AtLine, LineFault};
use crate::line::NumberedLine;
use crate::reader::Reader;
use crate::section::Section;
use aiger_lines::number::DigitFault;
use rules::edge::Edge;

impl Checker<'_> {
    // Every line below the header, to the file's end or to the comments.
    fn check_lines(&mut self, reader: &mut Reader<'_>) -> Result<(), AtLine>
        requires one { reader.old.number ≡ 1 }
        requires first { At self.old.header 0 self.old.section }
        requires start { Start self.old.header.max self.old.map.now }
        ensures same { SameFile self.old self.new }
        ensures answer { LinesRead self.old.header (all reader.old) self.old.map.now self.old.outputs.now result self.new.map.now self.new.outputs.now }
    {
        // A loop that asks the reader for one line after another is the form that the project fixes here.
        while let Some(NumberedLine { number, line }) = reader.next_line() {
            self.step(line).map_err(|fault| AtLine {
                line: number,
                fault,
            })?;
            if let Section::Comments = self.section {
                return Ok(());
            }
        }
        match self.section {
            Section::Names => Ok(()),
            _ => {
                let line = reader.line_number() + 1;
                let fault = LineFault::Form(DigitFault::Other);
                Err(AtLine { line, fault })
            }
        }
    }

    // The outputs, once every line is known; left at the first fault, which needs the output's index for its line.
    fn check_outputs(&self) -> Result<(), AtLine>
        requires { (j : ℕ) → j < self.now.header.outputs → (slice_index_or self.now.outputs.now j false_edge).0 / 2 ≤ self.now.header.max }
        ensures { OutputsChecked self.now.header self.now.map.now self.now.outputs.now result }
    {
        let outputs = &self.outputs[..self.header.outputs as usize];
        for (j, edge) in outputs.iter().enumerate() {
            if !self.is_defined(edge.0) {
                let line = self.header.inputs as usize + j + 2;
                let fault = LineFault::Undefined;
                return Err(AtLine { line, fault });
            }
        }
        Ok(())
    }

    // Everything below the header, with the buffers as they then are.
    pub(crate) fn check_sections(&mut self, reader: &mut Reader<'_>) -> Result<(), AtLine>
        requires one { reader.old.number ≡ 1 }
        requires first { At self.old.header 0 self.old.section }
        ensures same { SameFile self.old self.new }
        ensures answer { SectionsChecked self.old.header (all reader.old) self.old.map.now self.old.outputs.now result self.new.map.now self.new.outputs.now }
    {
        mark(self.map, self.header.max as usize + 1);
        self.map[0] = Edge::FALSE;
        self.check_lines(reader)?;
        self.check_outputs()
    }

    // After a fault below the header nothing is defined.
    pub(crate) fn clear(&mut self)
        ensures same { SameFile self.old self.new }
        ensures map { self.new.map.now ≡ marked (self.old.header.max + 1) self.old.map.now }
        ensures outputs { self.new.outputs.now ≡ marked self.old.header.outputs self.old.outputs.now }
    {
        clear(self.header, self.map, self.outputs);
    }
}
