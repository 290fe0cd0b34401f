// The reader's calls: each hands out the next line.
ghost use Rattle.std.specs.Prelude.{◌≡◌, ◌^◌, ◌<◌};
ghost use Rattle.aiger_check.specs.Text.{IsLine};
ghost use Rattle.aiger_check.specs.Reading.{Stepped, Handed};

use super::super::line::{NumberedLine, kind_of};
use super::Reader;
use memchr::memchr;

// How many bytes the line at the front of `s` has, with its end.
fn line_len(s: &[u8]) -> usize
    ensures { IsLine s.now result }
{
    memchr(b'\n', s).map_or(s.len(), |i| i + 1)
}

impl<'a> Reader<'a> {
    pub fn new(bytes: &'a [u8]) -> Reader<'a>
        ensures { (result.bytes.now ≡ bytes.now) × (result.number ≡ 0) }
    {
        Reader {
            bytes,
            place: 0,
            number: 0,
        }
    }

    // How many lines were handed out.
    pub(crate) fn line_number(&self) -> usize
        ensures answer { result ≡ self.now.number }
        ensures limit { result < 2 ^ 63 }
    {
        self.number
    }

    // The next line's bytes with their end, or none at the file's end.
    pub fn next_bytes(&mut self) -> Option<&'a [u8]>
        ensures { Stepped self.old result self.new }
    {
        let rest = &self.bytes[self.place..];
        if rest.is_empty() {
            return None;
        }
        let n = line_len(rest);
        let line = &rest[0..n];
        self.place += n;
        self.number += 1;
        Some(line)
    }

    // The next line with its kind and number.
    pub fn next_line(&mut self) -> Option<NumberedLine<'a>>
        ensures { Handed self.old result self.new }
    {
        let line = self.next_bytes()?;
        Some(NumberedLine {
            number: self.number,
            line: kind_of(line),
        })
    }
}
