// The interface of a rule set.
ghost use Rattle.std.specs.Prelude.{◌≡◌};
ghost use Rattle.rules.specs.declared.window.Window.{Window as Seen};
ghost use Rattle.rules.specs.declared.window.Reply.{Reply as Said};
ghost use Rattle.rules.specs.Lawful.{Lawful};

use rules::window::{Reply, Window};

pub trait RuleSet {
    // What the rule set replies to each window.
    ghost replies: { Self → Seen → Said };

    // It is sound in every value algebra, local, and its rewritings fall.
    ghost lawful: { (r : Self) → Lawful (replies r) };

    fn reply(&self, window: Window) -> Reply
        ensures { result ≡ replies self.now window };
}
