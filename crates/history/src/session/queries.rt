// Questions to a session's graph, on memory of the call's own.
ghost use Rattle.std.specs.Prelude.{◌≡◌, replicate, IfOk, Result as Answered, Vec};
ghost use Rattle.std.specs.declared.alloc.Global.{Global};
ghost use Rattle.graph_model.specs.declared.refusal.Refusal.{Refusal as Refused};
ghost use Rattle.history_model.specs.declared.request.NodeValues.{NodeValues as Valued};
ghost use Rattle.history_model.specs.declared.request.Answer.TheVariants.{Evaluate as an_answer};
ghost use Rattle.graph.specs.States.{state, replies};
ghost use Rattle.history_model.specs.Histories.{told, EvaluatesIn};
ghost use Rattle.history_model.specs.declared.request.Request.TheVariants.{Evaluate as an_evaluation, Compare as a_comparison, Tabulate as a_tabulation, Pairs as all_pairs};
ghost use Rattle.history.specs.Worlds.{Questioned};

use super::Session;
use graph_model::refusal::Refusal;
use history_model::request::{Answer, Inputs, NodeValues};
use questions::compare::compare;
use questions::evaluate::evaluate;
use questions::tabulate::tabulate;
use rules::edge::Edge;
use rules::pair::Pair;
use rulesets::ruleset::RuleSet;
use std::alloc::{AllocError, Global};
use stores::store::NodeStore;
use values::block::Block;
use values::cofactors::Table;
use values::value::Value;

// So many places, each false. Not by `vec!`: of any algebra's values nothing says that clones are equal.
fn bottoms<K: Value>(heap: Global, places: usize) -> Result<Vec<K>, AllocError>
    ensures { IfOk result (λ v. v.items ≡ replicate places K.algebra.bottom) }
{
    (0..places).map(|_| K::bottom()).collect(heap)
}

impl<R: RuleSet, S: NodeStore> Session<R, S> {
    // The values of the nodes in one algebra, in a list of so many places.
    fn evaluate_in<K: Value, W: Value, F: FnOnce(Vec<K>) -> NodeValues<W>>(
        &self,
        inputs: &[K],
        places: usize,
        values_in: F,
    ) -> Result<Answer<W>, AllocError>
        requires { (vs : Vec K Global) → F.pre values_in vs }
        ensures { IfOk result (λ a. (r : Answered (Unit {0}) Refused) × (vs : Vec K Global) × (n : Valued W) × EvaluatesIn K.Value.algebra (state self.now.graph) inputs.now places r vs.items × F.post values_in vs n × (a ≡ an_answer r n)) }
    {
        let mut values = bottoms::<K>(self.heap, places)?;
        let done = evaluate(&self.graph, inputs, values.as_mut_slice());
        Ok(Answer::Evaluate {
            done,
            values: values_in(values),
        })
    }

    // The same in the algebra of the inputs.
    pub(crate) fn evaluate<W: Value>(
        &self,
        inputs: Inputs<'_, W>,
        places: usize,
    ) -> Result<Answer<W>, AllocError>
        ensures { IfOk result (λ a. Questioned W.Value.algebra (replies self.now.graph) (state self.now.graph) (an_evaluation inputs.entry places) (told a)) }
    {
        match inputs {
            Inputs::Bits(bits) => self.evaluate_in(bits, places, |v| NodeValues::Bits(v)),
            Inputs::Blocks(blocks) => self.evaluate_in(blocks, places, |v| NodeValues::Blocks(v)),
            Inputs::Tables(tables) => self.evaluate_in(tables, places, |v| NodeValues::Tables(v)),
            Inputs::Others(others) => self.evaluate_in(others, places, |v| NodeValues::Others(v)),
        }
    }

    // Whether two edges mean the same, with a list of so many blocks.
    pub(crate) fn compare<W: Value>(
        &self,
        x: Edge,
        y: Edge,
        places: usize,
    ) -> Result<Answer<W>, AllocError>
        ensures { IfOk result (λ a. Questioned W.Value.algebra (replies self.now.graph) (state self.now.graph) (a_comparison x y places) (told a)) }
    {
        let mut blocks = bottoms::<Block>(self.heap, places)?;
        let comparison = compare(&self.graph, x, y, blocks.as_mut_slice());
        Ok(Answer::Compare { comparison, blocks })
    }

    // The truth table of an edge, with a list of so many tables.
    pub(crate) fn tabulate<W: Value>(
        &self,
        edge: Edge,
        places: usize,
    ) -> Result<Answer<W>, AllocError>
        ensures { IfOk result (λ a. Questioned W.Value.algebra (replies self.now.graph) (state self.now.graph) (a_tabulation edge places) (told a)) }
    {
        let mut tables = bottoms::<Table>(self.heap, places)?;
        let mut table = Table::bottom();
        let done = tabulate(&self.graph, edge, tables.as_mut_slice(), &mut table);
        Ok(Answer::Tabulate {
            done,
            table,
            tables,
        })
    }

    fn stored_pairs(&self) -> Result<Vec<Pair>, AllocError>
        ensures { IfOk result (λ v. v.items ≡ (state self.now.graph).pairs) }
    {
        self.graph.pairs().collect(self.heap)
    }

    // The stored pairs.
    pub(crate) fn list_pairs<W: Value>(&self) -> Result<Answer<W>, AllocError>
        ensures { IfOk result (λ a. Questioned W.Value.algebra (replies self.now.graph) (state self.now.graph) all_pairs (told a)) }
    {
        Ok(Answer::Pairs(self.stored_pairs()?))
    }
}
