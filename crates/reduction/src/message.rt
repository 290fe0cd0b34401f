// How a refusal is told.
ghost use Rattle.std.specs.Prelude.{◌≡◌, ◌++◌, IfOk, string_bytes, codes, decimal};

use std::alloc::{AllocError, Global};

// The line that tells a refusal, with its end. It takes any number and line, also where no `Refused` holds them.
pub fn refusal_line(heap: Global, number: u8, line: usize) -> Result<String, AllocError>
    ensures { IfOk result (λ s. string_bytes s ≡ codes "refused " ++ (decimal number ++ (codes " line " ++ (decimal line ++ codes "\n")))) }
{
    format!(in heap; "refused {number} line {line}\n")
}
