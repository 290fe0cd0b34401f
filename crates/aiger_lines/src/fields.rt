// Lines made of numbers, each followed by its own byte.
// Inlined, with the numbers, into the two passes over a file's gates: reading takes a tenth less time.
ghost use Rattle.std.specs.Prelude.{◌≡◌, ℕ, List, MatchResult};
ghost use Rattle.aiger_lines.specs.declared.number.DigitFault.TheVariants.{Other};
ghost use Rattle.aiger_lines.specs.Forms.{Starts};
ghost use Rattle.aiger_lines.specs.Shapes.{FieldsRead, HeaderRead, AndRead};

use super::number::{DigitFault, number};

// What follows the byte `b` at the front of `s`.
#[inline(always)]
pub fn after(s: &[u8], b: u8) -> Result<&[u8], DigitFault>
    ensures { MatchResult result (λ rest. Starts b s.now rest.now) (λ e. (e ≡ Other) × ((rest : List ℕ) → Starts b s.now rest → ⊥)) }
{
    match s {
        [first, rest @ ..] if *first == b => Ok(rest),
        _ => Err(DigitFault::Other),
    }
}

// The numbers of a line, each followed by its byte of `ends`, and nothing after the last.
#[inline(always)]
pub fn fields<const N: usize>(line: &[u8], ends: [u8; N]) -> Result<[u32; N], DigitFault>
    ensures { FieldsRead line.now ends.entry result }
{
    let mut values = [0; N];
    let mut rest = line;
    // With an index: nothing is known of elements that are written through an adapter of `iter_mut`.
    for (i, end) in ends.iter().enumerate() {
        let (v, more) = number(rest)?;
        rest = after(more, *end)?;
        values[i] = v;
    }
    match rest {
        [] => Ok(values),
        _ => Err(DigitFault::Other),
    }
}

// The numbers of a header: the largest variable, and how many inputs, latches, outputs and AND gates there are.
#[derive(Clone, Copy, PartialEq, Eq, Debug)]
pub struct Header {
    pub max: u32,
    pub inputs: u32,
    pub latches: u32,
    pub outputs: u32,
    pub ands: u32,
}

// The header whose numbers these are, with one space between them and a newline at the end.
pub fn header_numbers(rest: &[u8]) -> Result<Header, DigitFault>
    ensures { HeaderRead rest.now result }
{
    let [max, inputs, latches, outputs, ands] = fields(rest, *b"    \n")?;
    Ok(Header {
        max,
        inputs,
        latches,
        outputs,
        ands,
    })
}

// The literals of a line that defines an AND gate: its own and its operands'.
#[derive(Clone, Copy, PartialEq, Eq, Debug)]
pub struct AndLine {
    pub lhs: u32,
    pub left: u32,
    pub right: u32,
}

// The line of an AND gate: three numbers.
#[inline(always)]
pub fn and_line(line: &[u8]) -> Result<AndLine, DigitFault>
    ensures { AndRead line.now result }
{
    let [lhs, left, right] = fields(line, *b"  \n")?;
    Ok(AndLine { lhs, left, right })
}
