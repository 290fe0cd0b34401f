// A graph's lines, run as one history, and the text that they are answered.
ghost use Rattle.std.specs.Prelude.{◌≡◌, ◌≤◌, [], ◌∷◌, ◌++◌, map as each_of, IfOk, OnOk};
ghost use Rattle.history_model.specs.Histories.{told};
ghost use Rattle.request_scripts.specs.Steps.{places_for, Asks};
ghost use Rattle.request_scripts.specs.Scripts.{script_text, Played};

use super::size::{MOST_NODES, size_after};
use super::step::Step;
use answer_lines::answer::answer_line;
use answer_lines::short::misread_line;
use history::history::run;
use history_model::request::{Answer, Request};
use request_lines::line::Opening;
use rulesets::levels::OptLevel;
use std::alloc::{AllocError, Global};
use stores::store::NodeStore;
use values::value::Value;

// A graph has no more inputs.
const MOST_INPUTS: u32 = 4_096;

#[derive(Drop)]
pub struct Script {
    pub opening: Opening,
    steps: Vec<Step>,
}

// How long a list of values is, where so many nodes can have been added.
fn places(opening: &Opening, most: usize) -> usize
    ensures { result ≡ places_for opening.now most }
{
    let records = (opening.records as usize).min(MOST_NODES);
    opening.inputs.min(MOST_INPUTS) as usize + 1 + records.min(most)
}

fn requests<'a, W: Value>(
    heap: Global,
    opening: &Opening,
    steps: &'a [Step],
) -> Result<Vec<Request<'a, W>>, AllocError>
    ensures { IfOk result (λ v. Asks opening.now 0 steps.now v.items) }
{
    let mut requests = Vec::new(heap);
    let mut most = 0;
    for step in steps {
        if let Some(request) = step.request(places(opening, most)) {
            requests.push(request)?;
        }
        most = (most + step.most()).min(MOST_NODES);
    }
    Ok(requests)
}

// The answers' lines, and those of lines that say nothing in their places.
fn script_lines<W: Value>(
    heap: Global,
    inputs: usize,
    limit: usize,
    steps: &[Step],
    answers: &[Answer<W>],
) -> Result<Vec<u8>, AllocError>
    requires few { inputs ≤ 4096 }
    requires limit { limit ≤ 1000000 }
    ensures { IfOk result (λ v. v.items ≡ script_text inputs limit 0 steps.now (each_of told answers.now)) }
{
    let mut text = Vec::new(heap);
    let mut size = 0;
    let mut left = answers;
    for step in steps {
        if let Step::Misread(number) = step {
            text.extend_from_slice(misread_line(heap, *number)?.as_slice())?;
        } else if let [answer, rest @ ..] = left {
            let line = answer_line(heap, inputs + 1 + size, answer)?;
            text.extend_from_slice(line.as_slice())?;
            size = size_after(limit, size, answer);
            left = rest;
        }
    }
    Ok(text)
}

impl Script {
    pub fn new(heap: Global, opening: Opening) -> Script
        ensures answer { (result.opening ≡ opening) × (result.steps.items ≡ []) }
    {
        let steps = Vec::new(heap);
        Script { opening, steps }
    }

    pub fn push(&mut self, step: Step) -> Result<(), AllocError>
        ensures list { OnOk result (self.new.steps.items ≡ self.old.steps.items ++ step ∷ []) }
        ensures kept { OnOk result (self.new.opening ≡ self.old.opening) }
    {
        self.steps.push(step)?;
        Ok(())
    }

    // The text of all answers, of a new graph over this store.
    pub fn run<V: Value, W: Value, S: NodeStore + Drop>(
        &self,
        heap: Global,
        store: S,
    ) -> Result<Vec<u8>, AllocError>
        ensures text { IfOk result (λ v. Played V.Value.algebra W.Value.algebra self.now.opening self.now.steps.items (S.model.limit store) (S.model.max_edge store) v.items) }
    {
        let requests = requests::<W>(heap, &self.opening, self.steps.as_slice())?;
        let limit = store.limit();
        let (_graph, answers) = run::<V, W, OptLevel, S>(
            heap,
            self.opening.inputs,
            self.opening.level,
            store,
            requests.as_slice(),
        )?;
        script_lines(
            heap,
            self.opening.inputs.min(MOST_INPUTS) as usize,
            limit,
            self.steps.as_slice(),
            answers.as_slice(),
        )
    }
}
