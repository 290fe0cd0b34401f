// A worked script: what it asks, and what it is answered.
ghost use Rattle.request_scripts.specs.Worked.{Worked};

// The worked script is as defined.
pub fn worked_script()
    ensures { Worked }
{}
