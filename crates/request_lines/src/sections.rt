// The lines of a text, graph by graph.
ghost use Rattle.std.specs.Prelude.{◌≡◌, ◌++◌, ◌∷◌, [], IfOk, OnOk};
ghost use Rattle.request_lines.specs.Sections.{all_lines, Inside, Sectioned};

use super::line::{Line, Opening};
use super::lines::numbered_lines;
use super::parse::parse;
use std::alloc::{AllocError, Global};

// A graph's lines, by their numbers.
#[derive(Drop)]
pub struct Section {
    // of the line that begins it
    pub number: usize,
    pub opening: Opening,
    // the lines after it; none where a line says nothing
    pub lines: Vec<(usize, Option<Line>)>,
}

#[derive(Drop)]
pub struct Sections {
    // the lines before the first graph
    pub before: Vec<(usize, Option<Line>)>,
    pub graphs: Vec<Section>,
}

impl Sections {
    // One line more.
    fn push(&mut self, heap: Global, number: usize, line: Option<Line>) -> Result<(), AllocError>
        ensures lines { OnOk result (all_lines self.new ≡ all_lines self.old ++ ((number, line) ∷ [])) }
        ensures inside { OnOk result (Inside self.old → Inside self.new) }
    {
        if let Some(Line::Graph(opening)) = line {
            let lines = Vec::new(heap);
            self.graphs.push(Section {
                number,
                opening,
                lines,
            })?;
        } else if let Some(graph) = self.graphs.last_mut() {
            graph.lines.push((number, line))?;
        } else {
            self.before.push((number, line))?;
        }
        Ok(())
    }
}

// A line that says `graph` begins a graph's section.
pub fn in_sections(heap: Global, text: &[u8]) -> Result<Sections, AllocError>
    ensures answer { IfOk result (Sectioned text.now) }
{
    let mut sections = Sections {
        before: Vec::new(heap),
        graphs: Vec::new(heap),
    };
    for (number, bytes) in numbered_lines(heap, text)? {
        sections.push(heap, number, parse(heap, bytes)?)?;
    }
    Ok(sections)
}
