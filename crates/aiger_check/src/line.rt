// A line of a circuit file by its kind, which its first bytes decide.
ghost use Rattle.aiger_check.specs.Kinds.{Kinded};

// Each kind has the whole line, with its end.
#[derive(Clone, Copy, PartialEq, Eq, Debug)]
pub enum Line<'a> {
    Header(&'a [u8]),
    Numbers(&'a [u8]),
    Name(&'a [u8]),
    Comment(&'a [u8]),
}

// A line and its number, the first line's being 1.
#[derive(Clone, Copy, PartialEq, Eq, Debug)]
pub struct NumberedLine<'a> {
    pub number: usize,
    pub line: Line<'a>,
}

pub(crate) fn kind_of(line: &[u8]) -> Line<'_>
    ensures { Kinded line.now result }
{
    match line {
        [b'a', b'a', b'g', b' ', ..] => Line::Header(line),
        [b'i' | b'o', ..] => Line::Name(line),
        [b'c', b'\n'] => Line::Comment(line),
        _ => Line::Numbers(line),
    }
}
