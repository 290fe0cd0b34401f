// What can be wrong with a circuit file, and where.
ghost use Rattle.std.specs.Prelude.{◌≡◌};
ghost use Rattle.aiger_check.specs.declared.faults.LineFault.TheVariants.{Form};
ghost use Rattle.aiger_check.specs.declared.faults.CircuitFault.TheVariants.{Line};
ghost use Rattle.aiger_check.specs.Refusals.{line_fault_number, line_digit_fault, fault_number, fault_line, circuit_digit_fault, number_if_any, fault_digit};

use aiger_lines::number::DigitFault;

// Programs tell a fault by its number and its line, so that neither kind has a `Display`.
#[derive(Clone, Copy, PartialEq, Eq, Debug)]
pub enum LineFault {
    // the line is missing or not of its form, with the first cause from the left
    Form(DigitFault),
    // a literal over 2M + 1, or one to define that is odd or 0
    Literal,
    // a variable that is defined on an earlier line
    Twice,
    // an operand or an output that is not
    Undefined,
    // a gate for which the node store has no place; the checks never say so
    Full,
}

impl From<DigitFault> for LineFault {
    ghost from_gives = { λ d r. r ≡ Form d };

    fn from(d: DigitFault) -> LineFault {
        LineFault::Form(d)
    }
}

#[derive(Clone, Copy, PartialEq, Eq, Debug)]
pub struct AtLine {
    pub line: usize,
    pub fault: LineFault,
}

// Why a circuit file is refused. The causes but the last are tested in this order.
#[derive(Clone, Copy, PartialEq, Eq, Debug)]
pub enum CircuitFault {
    // over 1,048,576 bytes
    TooLarge,
    // the first line is no header
    NoHeader,
    // L is not 0
    Latches,
    // a number of the header is over its limit, or M is below I + A
    Limits,
    // I is not the graph's number of inputs
    Inputs,
    // the map or the outputs have too few places
    Room,
    // the first fault below the header
    Line(AtLine),
}

impl From<AtLine> for CircuitFault {
    ghost from_gives = { λ f r. r ≡ Line f };

    fn from(f: AtLine) -> CircuitFault {
        CircuitFault::Line(f)
    }
}

impl LineFault {
    fn number(self) -> u8
        ensures answer { result ≡ line_fault_number self }
    {
        // a match, since a case that holds data has no number of its own
        match self {
            LineFault::Form(_) => 7,
            LineFault::Literal => 8,
            LineFault::Twice => 9,
            LineFault::Undefined => 10,
            LineFault::Full => 11,
        }
    }

    fn digit_fault(self) -> Option<DigitFault>
        ensures answer { result ≡ line_digit_fault self }
    {
        match self {
            LineFault::Form(fault) => Some(fault),
            _ => None,
        }
    }
}

impl CircuitFault {
    // The refusal's number.
    pub fn number(self) -> u8
        ensures answer { result ≡ fault_number self }
    {
        // a match, since a case that holds data has no number of its own
        match self {
            CircuitFault::TooLarge => 1,
            CircuitFault::NoHeader => 2,
            CircuitFault::Latches => 3,
            CircuitFault::Limits => 4,
            CircuitFault::Inputs => 5,
            CircuitFault::Room => 6,
            CircuitFault::Line(at) => at.fault.number(),
        }
    }

    // The line at fault, the first being 1, or 0 where the file as a whole is too large, as refusals are told.
    pub fn line(self) -> usize
        ensures answer { result ≡ fault_line self }
    {
        match self {
            CircuitFault::TooLarge => 0,
            CircuitFault::Line(at) => at.line,
            _ => 1,
        }
    }

    // The digit fault, where the cause is one.
    pub fn digit_fault(self) -> Option<DigitFault>
        ensures answer { result ≡ circuit_digit_fault self }
        ensures number { number_if_any result ≡ fault_digit self }
    {
        match self {
            CircuitFault::Line(at) => at.fault.digit_fault(),
            _ => None,
        }
    }
}
