// Lists of rules: the first rule that fits decides.
ghost use Rattle.std.specs.Prelude.{◌≡◌};
ghost use Rattle.rules.specs.RuleLists.{by_rules};
ghost use Rattle.rules.specs.Table.{Decided};

use crate::rule::Rule;
use crate::window::{Reply, Window};

// What the first rule that fits replies, or `Store` where none fits.
pub fn first_match(rules: &[Rule], w: Window) -> Reply
    ensures answer { result ≡ by_rules rules.now w }
    ensures rules { Decided rules.now w result }
{
    // Most pairs have nothing in common, and then no rule fits.
    if !w.is_related() {
        return Reply::Store;
    }
    rules
        .iter()
        .find_map(|rule| rule.apply(w))
        .unwrap_or(Reply::Store)
}
