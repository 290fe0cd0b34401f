// The two-level rules for the AND of u and v, each with its operands in this order.
ghost use Rattle.std.specs.Prelude.{◌≡◌};
ghost use Rattle.rules.specs.RuleLists.{tried};
ghost use Rattle.rules.specs.Rules.{clash, contradiction, shared_contradiction, subsumption, shared_subsumption, idempotence, resolve, resolution, substitution, common, shared_substitution, shared_idempotence, rule_reply};

use crate::edge::Edge;
use crate::pair::Pair;
use crate::window::{Operand, Reply, Window};

// A rule looks below u, its asymmetric form only there; the shared form is the symmetric one and looks below v too.
// An enum and no closures: the table in specs/ names each rule, and a list of rules is a constant.
// Each has a function of its own, since each row of that table has other children, another test and another reply.
#[derive(Clone, Copy, PartialEq, Eq, Debug)]
pub enum Rule {
    Contradiction,
    SharedContradiction,
    Subsumption,
    SharedSubsumption,
    Idempotence,
    Resolution,
    Substitution,
    SharedSubstitution,
    SharedIdempotence,
}

impl Rule {
    // What the rule replies to the operands in this order, where it fits.
    pub fn reply(self, u: Operand, v: Operand) -> Option<Reply>
        ensures { result ≡ rule_reply self u v }
    {
        match self {
            Rule::Contradiction => contradiction(u, v),
            Rule::SharedContradiction => shared_contradiction(u, v),
            Rule::Subsumption => subsumption(u, v),
            Rule::SharedSubsumption => shared_subsumption(u, v),
            Rule::Idempotence => idempotence(u, v),
            Rule::Resolution => resolution(u, v),
            Rule::Substitution => substitution(u, v),
            Rule::SharedSubstitution => shared_substitution(u, v),
            Rule::SharedIdempotence => shared_idempotence(u, v),
        }
    }

    // What the rule replies to a window, where it fits in either order.
    pub fn apply(self, w: Window) -> Option<Reply>
        ensures { result ≡ tried self w }
    {
        self.reply(w.larger, w.smaller)
            .or_else(|| self.reply(w.smaller, w.larger))
    }
}

// A child in the first pair is the complement of one in the second.
fn clashes(c: Pair, d: Pair) -> bool
    ensures { result ≡ clash c d }
{
    d.has(c.larger.complement()) || d.has(c.smaller.complement())
}

// (a AND b) AND NOT a is false.
fn contradiction(u: Operand, v: Operand) -> Option<Reply>
    ensures { result ≡ contradiction u v }
{
    let fits = u.plain_children()?.has(v.edge.complement());
    fits.then_some(Reply::Edge(Edge::FALSE))
}

// (NOT a AND b) AND (a AND c) is false.
fn shared_contradiction(u: Operand, v: Operand) -> Option<Reply>
    ensures { result ≡ shared_contradiction u v }
{
    let fits = clashes(u.plain_children()?, v.plain_children()?);
    fits.then_some(Reply::Edge(Edge::FALSE))
}

// NOT (a AND b) AND NOT a is NOT a.
fn subsumption(u: Operand, v: Operand) -> Option<Reply>
    ensures { result ≡ subsumption u v }
{
    let fits = u.complemented_children()?.has(v.edge.complement());
    fits.then_some(Reply::Edge(v.edge))
}

// NOT (NOT a AND b) AND (a AND c) is a AND c.
fn shared_subsumption(u: Operand, v: Operand) -> Option<Reply>
    ensures { result ≡ shared_subsumption u v }
{
    let fits = clashes(u.complemented_children()?, v.plain_children()?);
    fits.then_some(Reply::Edge(v.edge))
}

// (a AND b) AND a is a AND b.
fn idempotence(u: Operand, v: Operand) -> Option<Reply>
    ensures { result ≡ idempotence u v }
{
    let fits = u.plain_children()?.has(v.edge);
    fits.then_some(Reply::Edge(u.edge))
}

// Resolution on the child s of u, whose other child is a.
fn resolve_on(s: Edge, a: Edge, d: Pair) -> Option<Reply>
    ensures { result ≡ resolve s a d }
{
    let b = d.other(s)?;
    (b == a.complement()).then_some(Reply::Edge(s.complement()))
}

// NOT (s AND a) AND NOT (s AND NOT a) is NOT s.
fn resolution(u: Operand, v: Operand) -> Option<Reply>
    ensures { result ≡ resolution u v }
{
    let c = u.complemented_children()?;
    let d = v.complemented_children()?;
    resolve_on(c.larger, c.smaller, d).or_else(|| resolve_on(c.smaller, c.larger, d))
}

// NOT (a AND w) AND a is NOT w AND a.
fn substitution(u: Operand, v: Operand) -> Option<Reply>
    ensures { result ≡ substitution u v }
{
    let w = u.complemented_children()?.other(v.edge)?;
    Some(Reply::Pair(Pair::new(w.complement(), v.edge)))
}

// The edge of the first pair that is in the second too; where both are, the larger.
fn common(c: Pair, d: Pair) -> Option<Edge>
    ensures { result ≡ common c d }
{
    if d.has(c.larger) {
        Some(c.larger)
    } else {
        d.has(c.smaller).then_some(c.smaller)
    }
}

// NOT (a AND w) AND (a AND b) is NOT w AND (a AND b).
fn shared_substitution(u: Operand, v: Operand) -> Option<Reply>
    ensures { result ≡ shared_substitution u v }
{
    let c = u.complemented_children()?;
    let d = v.plain_children()?;
    let w = c.other(common(c, d)?)?;
    Some(Reply::Pair(Pair::new(w.complement(), v.edge)))
}

// (a AND b) AND (a AND w) is (a AND b) AND w.
fn shared_idempotence(u: Operand, v: Operand) -> Option<Reply>
    ensures { result ≡ shared_idempotence u v }
{
    let c = u.plain_children()?;
    let d = v.plain_children()?;
    let w = d.other(common(c, d)?)?;
    Some(Reply::Pair(Pair::new(u.edge, w)))
}
