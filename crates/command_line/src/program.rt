// The programs: what `--help` tells of each, and how many arguments each takes.
ghost use Rattle.std.specs.Prelude.{◌≡◌, true, map as each_of, string_bytes, IfOk, IfSome};
ghost use Rattle.command_line.specs.Arguments.{are_names};
ghost use Rattle.command_line.specs.Programs.{usage, most};

use crate::arguments::arguments;

#[derive(Clone, Copy, PartialEq, Eq, Debug)]
pub enum Program {
    Press,
    Simulate,
    Replay,
    Samples,
    Bench,
}

const PRESS: &str = "usage: press [FILE]
Reads a circuit file (ASCII AIGER), simplifies the circuit, and prints it, or `refused N line L`.
Without FILE it reads circuit.aag in the working folder; a missing file counts as empty.
";

const SIMULATE: &str = "usage: simulate [CIRCUIT [FRAMES]]
Reads a circuit file (ASCII AIGER) and test frames, one line of as many digits 0 or 1 as the circuit has inputs for each
frame, and prints for each frame its digits, a space, and the digits of the outputs; or why a file is refused.
Without names it reads circuit.aag and frames.txt in the working folder; a missing file counts as empty.
";

const REPLAY: &str = "usage: replay < REQUESTS
Reads requests to graphs from standard input, one to a line, and prints one answer to a line:
    graph INPUTS LEVEL RECORDS    begins a new graph of level 1 to 4, and answers nothing
    and X Y, or X Y, implies X Y, equiv X Y, xor X Y
                                  edge E added N
    read PATH                     added N outputs E ..
    evaluate DIGITS               values DIGITS
    compare X Y                   same, or differ K
    table E                       64 hexadecimal digits, row 255 first
    write E ..                    the graph as a circuit file with these outputs
    pairs                         L,S for each pair
A refusal is answered by `refused N`, that of a file by `refused N line L`, and a line of another form by
`line K not understood`.
";

const SAMPLES: &str = "usage: samples
Reads the circuits NAME.aag of the working folder that it has the names of, and prints a table: the name, the answer to
reading the circuit into a new graph at level three, and how many nodes are stored.
";

const BENCH: &str = "usage: bench [time]
Measures the library on generated circuits and graphs: small ones and counts only, with `time` large ones and times too.
";

impl Program {
    pub fn usage(self) -> &'static str
        ensures { result.now ≡ usage self }
    {
        match self {
            Program::Press => PRESS,
            Program::Simulate => SIMULATE,
            Program::Replay => REPLAY,
            Program::Samples => SAMPLES,
            Program::Bench => BENCH,
        }
    }

    // How many arguments it takes at most.
    pub fn most(self) -> usize
        ensures { result ≡ most self }
    {
        match self {
            Program::Press => 1,
            Program::Simulate => 2,
            Program::Replay => 0,
            Program::Samples => 0,
            Program::Bench => 1,
        }
    }

    // The arguments; none where they ask for the usage text, which is then printed.
    pub fn arguments(self, rt: &HostRuntime) -> anyhow::Result<Option<Vec<String>>>
        ensures answer { IfOk result (λ o. IfSome o (λ words. are_names (each_of string_bytes words.items) (most self) ≡ true)) }
    {
        arguments(rt, self.most(), self.usage())
    }
}
