// Worked frames: which texts are files of them, and how frames and errors are told.
ghost use Rattle.simulation.specs.Worked.{Worked};

// Every worked example holds.
pub fn worked_frames()
    ensures { Worked }
{}
