// Circuit files, read into a session's graph and written from it.
ghost use Rattle.std.specs.Prelude.{◌≡◌, replicate, IfOk, OnOk};
ghost use Rattle.aiger_write.specs.Writing.{write_of, written as text_written};
ghost use Rattle.graph.specs.States.{state, replies};
ghost use Rattle.history_model.specs.Histories.{told, undefined as undefined_places, written, named, Headed, LastOutputs, Happens};
ghost use Rattle.history_model.specs.declared.request.Request.TheVariants.{Read as a_read};
ghost use Rattle.history.specs.Worlds.{world};

use super::Session;
use aiger_check::faults::CircuitFault;
use aiger_check::header::file_header;
use aiger_read::read::read_circuit;
use aiger_write::write::write_circuit;
use history_model::request::{Answer, Outputs};
use rules::edge::Edge;
use rulesets::ruleset::RuleSet;
use std::alloc::{AllocError, Global};
use stores::store::NodeStore;
use values::value::Value;

// So many places, each undefined.
fn undefined(heap: Global, places: usize) -> Result<Vec<Edge>, AllocError>
    ensures { IfOk result (λ v. v.items ≡ undefined_places places) }
{
    vec![in heap; Edge::UNDEFINED; places]
}

impl<R: RuleSet, S: NodeStore> Session<R, S> {
    // The outputs of a file that is taken become the last ones.
    fn note_outputs(
        &mut self,
        bytes: &[u8],
        added: Result<u32, CircuitFault>,
        outputs: &[Edge],
    ) -> Result<(), AllocError>
        ensures graph { OnOk result (self.new.graph ≡ self.old.graph) }
        ensures last { OnOk result (Headed bytes.now added → LastOutputs bytes.now added outputs.now self.old.last.items self.new.last.items) }
    {
        if added.is_err() {
            return Ok(());
        }
        let Some(header) = file_header(bytes) else {
            return Ok(());
        };
        let count = outputs.len().min(header.outputs as usize);
        self.last = Vec::from_slice(self.heap, &outputs[..count])?;
        Ok(())
    }

    // A circuit file, on a map and outputs of so many places.
    pub(crate) fn read<W: Value>(
        &mut self,
        bytes: &[u8],
        places: usize,
        outputs: usize,
    ) -> Result<Answer<W>, AllocError>
        ensures rules { OnOk result (self.new.graph.rules ≡ self.old.graph.rules) }
        ensures cases { IfOk result (λ a. Happens W.Value.algebra (replies self.old.graph) (world self.old) (a_read bytes.entry places outputs) (told a) (world self.new)) }
    {
        let mut map = undefined(self.heap, places)?;
        let mut found = undefined(self.heap, outputs)?;
        let added = read_circuit(
            &mut self.graph,
            bytes,
            map.as_mut_slice(),
            found.as_mut_slice(),
        );
        self.note_outputs(bytes, added, found.as_slice())?;
        Ok(Answer::Read {
            added,
            map,
            outputs: found,
        })
    }

    // The graph as a circuit file, with the outputs that are asked for, in a buffer of so many bytes.
    pub(crate) fn write<W: Value>(
        &self,
        outputs: Outputs<'_>,
        room: usize,
    ) -> Result<Answer<W>, AllocError>
        ensures { IfOk result (λ a. told a ≡ written (write_of (state self.now.graph) (named self.now.last.items outputs.entry) (replicate room 0)) (text_written (state self.now.graph) (named self.now.last.items outputs.entry) (replicate room 0))) }
    {
        let edges = match outputs {
            Outputs::Edges(edges) => edges,
            Outputs::LastFile => self.last.as_slice(),
        };
        let mut buffer = vec![in self.heap; 0u8; room]?;
        let length = write_circuit(&self.graph, edges, buffer.as_mut_slice());
        Ok(Answer::Write { length, buffer })
    }
}
