// Why a call on a graph is refused.
ghost use Rattle.std.specs.Prelude.{◌≡◌};
ghost use Rattle.graph_model.specs.declared.refusal.Refusal.TheVariants.{Full};
ghost use Rattle.graph_model.specs.Refusals.{refusal_number};

use stores::store::AppendRefused;

// Each is told by the number that it stands for, and by no text of its own, so that there is no `Display`.
#[derive(Clone, Copy, PartialEq, Eq, Debug)]
pub enum Refusal {
    // more than 4,096 outputs to write
    TooManyOutputs = 4,
    // the pair to store is not found, and the store is at its limit
    Full = 11,
    // an edge's node is not in the graph
    NoNode = 12,
    // too many inputs to compare or to tabulate
    TooManyInputs = 13,
    // a list of values is too short, or there is not one value for each input
    Values = 14,
    // a written text is longer than its buffer
    TextTooLong = 15,
}

impl Refusal {
    // The number by which the refusal is told.
    pub fn number(self) -> u8
        ensures { result ≡ refusal_number self }
    {
        self as u8
    }
}

impl From<AppendRefused> for Refusal {
    ghost from_gives = { λ _ r. r ≡ Full };

    fn from(_refused: AppendRefused) -> Refusal {
        Refusal::Full
    }
}
