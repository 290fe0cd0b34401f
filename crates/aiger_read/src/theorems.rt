// What files mean in a graph, for every value algebra and every rule set.
ghost use Rattle.aiger_read.specs.Meaning.{FilesMean};
ghost use Rattle.aiger_read.specs.RoundTrip.{RoundTrips, WritesBack};
ghost use Rattle.aiger_read.specs.Reads.{FilesRepeat, OneReading};

use rulesets::ruleset::RuleSet;
use values::value::Value;

// What a reading answers, and what it leaves, is determined by the file, the graph and the buffers.
pub fn one_reading<R: RuleSet>()
    ensures { (r : R) → OneReading (R.RuleSet.replies r) }
{}

// A taken file that is read again, whatever was stored since, gives the same map and outputs, and adds nothing.
pub fn files_repeat<R: RuleSet>()
    ensures { (r : R) → FilesRepeat (R.RuleSet.replies r) }
{}

// Whatever file is read into a well-formed graph, its variables and outputs stand there for what the file says.
pub fn files_mean<V: Value, R: RuleSet>()
    ensures { (r : R) → FilesMean V.Value.algebra (R.RuleSet.replies r) }
{}

// A well-formed graph's text, read into a new graph with room for it, gives the same pairs and outputs again.
pub fn round_trips<R: RuleSet>()
    ensures text { (r : R) → RoundTrips (R.RuleSet.replies r) }
    ensures calls { (r : R) → WritesBack (R.RuleSet.replies r) }
{}
