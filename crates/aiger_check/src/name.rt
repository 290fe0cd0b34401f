// The lines that name inputs and outputs.
ghost use Rattle.std.specs.Prelude.{MatchBool};
ghost use Rattle.aiger_check.specs.Names.{Named};
ghost use Rattle.aiger_check.specs.Calls.{NameChecked, Lettered};

use aiger_lines::fields::Header;
use aiger_lines::number::{DigitFault, number};

// How many things the line's first letter can name, and what follows it.
fn letter(line: &[u8], header: Header) -> Option<(u32, &[u8])>
    ensures { Lettered header line.now result }
{
    match line {
        [b'i', rest @ ..] => Some((header.inputs, rest)),
        [b'o', rest @ ..] => Some((header.outputs, rest)),
        _ => None,
    }
}

// Whether this is a space, a name of a byte or more, and the line's end.
fn is_named(rest: &[u8]) -> bool
    ensures { MatchBool result (Named rest.now) (Named rest.now → ⊥) }
{
    matches!(rest, [b' ', _, .., b'\n'])
}

// A letter, an index below the count of what it names, and a name.
pub(crate) fn name_line(line: &[u8], header: Header) -> Result<(), DigitFault>
    ensures { NameChecked header line.now result }
{
    let (count, rest) = letter(line, header).ok_or(DigitFault::Other)?;
    let (index, name) = number(rest)?;
    if index < count && is_named(name) {
        return Ok(());
    }
    Err(DigitFault::Other)
}
