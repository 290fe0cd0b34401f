// The sections of a circuit file below its header, in their order.
ghost use Rattle.std.specs.Prelude.{ℕ, ◌+◌};
ghost use Rattle.aiger_check.specs.Sections.{At, Reached};

use aiger_lines::fields::Header;

// Which lines are due, and how many of them are left.
#[derive(Clone, Copy, PartialEq, Eq, Debug)]
pub enum Section {
    Inputs(u32),
    Outputs(u32),
    Gates(u32),
    Names,
    // after the line that begins the comments nothing is looked at
    Comments,
}

impl Section {
    // This section if a line of it is left, else the next one that has lines.
    fn skip_empty(self, header: Header) -> Section
        ensures { (k : ℕ) → Reached header k self → At header k result }
    {
        match self {
            Section::Inputs(0) => Section::Outputs(header.outputs).skip_empty(header),
            Section::Outputs(0) => Section::Gates(header.ands).skip_empty(header),
            Section::Gates(0) => Section::Names,
            section => section,
        }
    }

    // What is due after the header.
    pub(crate) fn first(header: Header) -> Section
        ensures { At header 0 result }
    {
        Section::Inputs(header.inputs).skip_empty(header)
    }

    // What is due one line later.
    pub(crate) fn next(self, header: Header) -> Section
        ensures { (k : ℕ) → At header k self → At header (k + 1) result }
    {
        match self {
            Section::Inputs(left) => Section::Inputs(left.saturating_sub(1)).skip_empty(header),
            Section::Outputs(left) => Section::Outputs(left.saturating_sub(1)).skip_empty(header),
            Section::Gates(left) => Section::Gates(left.saturating_sub(1)).skip_empty(header),
            section => section,
        }
    }
}
