// The text of a random circuit.
ghost use Rattle.std.specs.Prelude.{◌≡◌, ◌≤◌, IfOk, OnOk, string_bytes};
ghost use Rattle.workloads.specs.Circuits.{draft, with_inputs, with_outputs, with_gates, circuit_text};

use crate::random::Random;
use std::alloc::{AllocError, Global};

// The inputs of every circuit and graph that is measured, but where edges are compared.
pub const INPUTS: u32 = 100;

pub const OUTPUTS: u32 = 100;

pub const MOST_GATES: u32 = 100_000;

fn put_inputs(text: &mut String) -> Result<(), AllocError>
    ensures { OnOk result (string_bytes text.new ≡ with_inputs 100 (string_bytes text.old)) }
{
    use std::fmt::Write;
    for input in 0..INPUTS {
        let literal = 2 * (input + 1);
        writeln!(text, "{literal}")?;
    }
    Ok(())
}

// The outputs are any literals below a number.
fn put_outputs(text: &mut String, random: &mut Random, literals: u32) -> Result<(), AllocError>
    ensures { OnOk result (draft text.new random.new ≡ with_outputs literals 100 (draft text.old random.old)) }
{
    use std::fmt::Write;
    for _output in 0..OUTPUTS {
        let literal = random.below(literals);
        writeln!(text, "{literal}")?;
    }
    Ok(())
}

// Each gate's operands are any literals below its own.
fn put_gates(text: &mut String, random: &mut Random, gates: u32) -> Result<(), AllocError>
    requires { gates ≤ 100000 }
    ensures { OnOk result (draft text.new random.new ≡ with_gates gates (draft text.old random.old)) }
{
    use std::fmt::Write;
    for gate in 0..gates {
        let literal = 2 * (INPUTS + 1 + gate);
        let first = random.below(literal);
        let second = random.below(literal);
        writeln!(text, "{literal} {first} {second}")?;
    }
    Ok(())
}

// A circuit file of so many gates, 100,000 at most.
pub fn circuit(heap: Global, gates: u32) -> Result<String, AllocError>
    ensures { IfOk result (λ s. string_bytes s ≡ circuit_text gates) }
{
    let gates = gates.min(MOST_GATES);
    let last = INPUTS + gates;
    let mut random = Random::new();
    let mut text = format!(in heap; "aag {last} {INPUTS} 0 {OUTPUTS} {gates}\n")?;
    put_inputs(&mut text)?;
    put_outputs(&mut text, &mut random, 2 * last + 2)?;
    put_gates(&mut text, &mut random, gates)?;
    Ok(text)
}
