// Worked lines: what requests are as text.
ghost use Rattle.request_lines.specs.Worked.{Worked};

// Every worked line holds.
pub fn worked_lines()
    ensures { Worked }
{}
