// Why a circuit file is not reduced.
ghost use Rattle.std.specs.Prelude.{◌≡◌, Some};
ghost use Rattle.reduction.specs.Refusals.{refused_number, refused_line, refused_text, error_text, Worked};
ghost use Rattle.reduction.specs.declared.error.Refused.TheVariants.{File, Write};
ghost use Rattle.reduction.specs.declared.error.ReduceError.TheVariants.{Refused as a_refusal, Memory};

use aiger_check::faults::CircuitFault;
use graph_model::refusal::Refusal;
use std::alloc::AllocError;
use std::error::Error;
use std::fmt;

#[derive(Clone, Copy, PartialEq, Eq, Debug)]
pub enum Refused {
    // the file itself
    File(CircuitFault),
    // the graph that was built, when it is to be written
    Write(Refusal),
}

impl Refused {
    // The number by which the refusal is told.
    pub fn number(self) -> u8
        ensures { result ≡ refused_number self }
    {
        match self {
            Refused::File(fault) => fault.number(),
            Refused::Write(refusal) => refusal.number(),
        }
    }

    // The line at fault, or 0 where no line is: so a refusal without a line is told.
    pub fn line(self) -> usize
        ensures { result ≡ refused_line self }
    {
        match self {
            Refused::File(fault) => fault.line(),
            Refused::Write(_) => 0,
        }
    }
}

impl fmt::Display for Refused {
    ghost output = { λ r. Some (refused_text r) };

    fn fmt<W: fmt::Write>(&self, f: &mut fmt::Formatter<W>) -> fmt::Result {
        write!(f, "refused {} line {}", self.number(), self.line())
    }
}

impl Error for Refused {}

#[derive(Debug, Drop)]
pub enum ReduceError {
    Refused(Refused),
    // the text that was written, which gives other pairs or outputs
    ReadsBackOtherwise(Vec<u8>),
    Memory(AllocError),
}

impl fmt::Display for ReduceError {
    ghost output = { error_text };

    fn fmt<W: fmt::Write>(&self, f: &mut fmt::Formatter<W>) -> fmt::Result {
        match self {
            ReduceError::Refused(refused) => write!(f, "{refused}"),
            ReduceError::ReadsBackOtherwise(_) => write!(
                f,
                "the written circuit reads back otherwise"
            ),
            ReduceError::Memory(error) => write!(f, "{error}"),
        }
    }
}

impl Error for ReduceError {}

impl From<CircuitFault> for ReduceError {
    ghost from_gives = { λ fault e. e ≡ a_refusal (File fault) };

    fn from(fault: CircuitFault) -> ReduceError {
        ReduceError::Refused(Refused::File(fault))
    }
}

impl From<Refusal> for ReduceError {
    ghost from_gives = { λ refusal e. e ≡ a_refusal (Write refusal) };

    fn from(refusal: Refusal) -> ReduceError {
        ReduceError::Refused(Refused::Write(refusal))
    }
}

impl From<AllocError> for ReduceError {
    ghost from_gives = { λ error e. e ≡ Memory error };

    fn from(error: AllocError) -> ReduceError {
        ReduceError::Memory(error)
    }
}

// Some refusals, by how they are told.
pub fn worked_refusals()
    ensures { Worked }
{}
