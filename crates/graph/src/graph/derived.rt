// OR, IMPLIES, EQUIV and XOR, each made of AND requests of its own: four functions, since nothing but `nand` is common.
ghost use Rattle.std.specs.Prelude.{◌≡◌, ◌≤◌, IfOk};
ghost use Rattle.graph_model.specs.declared.operation.Operation.TheVariants.{Or, Implies, Equiv, Xor};
ghost use Rattle.graph_model.specs.Operations.{nand_of, apply_of};
ghost use Rattle.graph.specs.States.{state, replies};

use super::Graph;
use graph_model::operation::Operation;
use graph_model::refusal::Refusal;
use rules::edge::Edge;
use rulesets::ruleset::RuleSet;
use stores::store::NodeStore;

impl<R: RuleSet, S: NodeStore> Graph<R, S> {
    // The complement of an AND, and how many nodes were added.
    fn nand(&mut self, x: Edge, y: Edge) -> Result<(Edge, u32), Refusal>
        ensures answer { result ≡ (nand_of (replies self.old) (state self.old) x y).answer }
        ensures graph { state self.new ≡ (nand_of (replies self.old) (state self.old) x y).after }
        ensures rules { self.new.rules ≡ self.old.rules }
        ensures limit { IfOk result (λ a. a.1 ≤ 1) }
    {
        let (edge, added) = self.and(x, y)?;
        Ok((edge.complement(), u32::from(added)))
    }

    // The edge, and how many nodes were added; so for each of these. A tuple is the form that the project fixes here.
    // The clauses on the rules are of two moments, so that no invariant of the graph states them.
    pub fn or(&mut self, x: Edge, y: Edge) -> Result<(Edge, u32), Refusal>
        ensures answer { result ≡ (apply_of (replies self.old) (state self.old) Or x y).answer }
        ensures graph { state self.new ≡ (apply_of (replies self.old) (state self.old) Or x y).after }
        ensures rules { self.new.rules ≡ self.old.rules }
    {
        self.nand(x.complement(), y.complement())
    }

    pub fn implies(&mut self, x: Edge, y: Edge) -> Result<(Edge, u32), Refusal>
        ensures answer { result ≡ (apply_of (replies self.old) (state self.old) Implies x y).answer }
        ensures graph { state self.new ≡ (apply_of (replies self.old) (state self.old) Implies x y).after }
        ensures rules { self.new.rules ≡ self.old.rules }
    {
        self.nand(x, y.complement())
    }

    // After a refusal the nodes of the steps before it stay.
    pub fn equiv(&mut self, x: Edge, y: Edge) -> Result<(Edge, u32), Refusal>
        ensures answer { result ≡ (apply_of (replies self.old) (state self.old) Equiv x y).answer }
        ensures graph { state self.new ≡ (apply_of (replies self.old) (state self.old) Equiv x y).after }
        ensures rules { self.new.rules ≡ self.old.rules }
    {
        let not_x = x.complement();
        let not_y = y.complement();
        let (p, first) = self.nand(x, not_y)?;
        let (q, second) = self.nand(not_x, y)?;
        let (edge, third) = self.and(p, q)?;
        Ok((edge, first + second + u32::from(third)))
    }

    pub fn xor(&mut self, x: Edge, y: Edge) -> Result<(Edge, u32), Refusal>
        ensures answer { result ≡ (apply_of (replies self.old) (state self.old) Xor x y).answer }
        ensures graph { state self.new ≡ (apply_of (replies self.old) (state self.old) Xor x y).after }
        ensures rules { self.new.rules ≡ self.old.rules }
    {
        let (edge, added) = self.equiv(x, y)?;
        Ok((edge.complement(), added))
    }

    // Which operation it is comes as a request's data, so that a `match` and no closure tells it.
    pub fn apply(&mut self, operation: Operation, x: Edge, y: Edge) -> Result<(Edge, u32), Refusal>
        ensures answer { result ≡ (apply_of (replies self.old) (state self.old) operation x y).answer }
        ensures graph { state self.new ≡ (apply_of (replies self.old) (state self.old) operation x y).after }
        ensures rules { self.new.rules ≡ self.old.rules }
    {
        match operation {
            Operation::Or => self.or(x, y),
            Operation::Implies => self.implies(x, y),
            Operation::Equiv => self.equiv(x, y),
            Operation::Xor => self.xor(x, y),
        }
    }
}
