// What writing a graph gives, as one would do it on paper.
ghost use Rattle.aiger_write.specs.Worked.{WorkedWrites};

// A worked text, and the order and the limits of the refusals.
pub fn worked_writes()
    ensures { WorkedWrites }
{}
