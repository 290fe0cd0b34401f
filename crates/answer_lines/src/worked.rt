// Worked answers: what they are as text.
ghost use Rattle.answer_lines.specs.Worked.{Worked};

// Every worked answer holds.
pub fn worked_answers()
    ensures { Worked }
{}
