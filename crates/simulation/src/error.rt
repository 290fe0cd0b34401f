// Why a circuit file is not simulated.
ghost use Rattle.std.specs.Prelude.{◌≡◌};
ghost use Rattle.std.specs.declared.alloc.AllocError.{AllocError as no_memory};
ghost use Rattle.simulation.specs.Refusals.{error_text};
ghost use Rattle.simulation.specs.declared.error.SimulateError.TheVariants.{Refused as a_refusal, Memory};

use aiger_check::faults::CircuitFault;
use std::alloc::{AllocError, AllocFailed};
use std::error::Error;
use std::fmt;

#[derive(Clone, Copy, PartialEq, Eq, Debug)]
pub enum SimulateError {
    // the circuit file
    Refused(CircuitFault),
    // the line of the frames file, the first being 1, that is no frame's
    Frame(usize),
    Memory(AllocError),
}

impl fmt::Display for SimulateError {
    ghost output = { error_text };

    fn fmt<W: fmt::Write>(&self, f: &mut fmt::Formatter<W>) -> fmt::Result {
        match self {
            SimulateError::Refused(cause) => write!(
                f,
                "refused {} line {}",
                cause.number(),
                cause.line()
            ),
            SimulateError::Frame(line) => write!(f, "frame line {line} not understood"),
            SimulateError::Memory(error) => write!(f, "{error}"),
        }
    }
}

impl Error for SimulateError {}

impl From<CircuitFault> for SimulateError {
    ghost from_gives = { λ fault e. e ≡ a_refusal fault };

    fn from(fault: CircuitFault) -> SimulateError {
        SimulateError::Refused(fault)
    }
}

impl From<AllocError> for SimulateError {
    ghost from_gives = { λ error e. e ≡ Memory error };

    fn from(error: AllocError) -> SimulateError {
        SimulateError::Memory(error)
    }
}

impl<T: Drop> From<AllocFailed<T>> for SimulateError {
    ghost from_gives = { λ failed e. (error : no_memory) × (e ≡ Memory error) };

    fn from(failed: AllocFailed<T>) -> SimulateError {
        SimulateError::Memory(failed.into())
    }
}
