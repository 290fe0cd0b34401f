// A decimal number at the front of bytes: one to seven digits, no leading zero.
ghost use Rattle.std.specs.Prelude.{◌≡◌};
ghost use Rattle.aiger_lines.specs.Numbers.{digit_number, DigitRun, NumberRead};

// Each is told by the number that it stands for.
#[derive(Clone, Copy, PartialEq, Eq, Debug)]
pub enum DigitFault {
    // no digit where a number is due
    NoDigit = 1,
    // a zero before another digit
    LeadingZero = 2,
    // eight digits or more
    TooLong = 3,
    // any other wrong byte, or the end of the bytes
    Other = 4,
}

impl DigitFault {
    // The fault's number.
    pub fn number(self) -> u8
        ensures answer { result ≡ digit_number self }
    {
        self as u8
    }
}

// How many digits stand at the front of `s`, and the number that they write where they are at most seven.
fn digits(s: &[u8]) -> (usize, u32)
    ensures { DigitRun s.now result.0 result.1 }
{
    let mut v = 0;
    for (i, b) in s.iter().enumerate() {
        if !b.is_ascii_digit() {
            return (i, v);
        }
        if i < 7 {
            v = v * 10 + u32::from(*b - b'0');
        }
    }
    (s.len(), v)
}

// The number at the front of `s`, and what follows it.
#[inline(always)]
pub fn number(s: &[u8]) -> Result<(u32, &[u8]), DigitFault>
    ensures { NumberRead s.now result }
{
    let [first, ..] = s else {
        return Err(DigitFault::Other);
    };
    let (n, v) = digits(s);
    if n == 0 {
        return Err(DigitFault::NoDigit);
    }
    if *first == b'0' && n > 1 {
        return Err(DigitFault::LeadingZero);
    }
    if n > 7 {
        return Err(DigitFault::TooLong);
    }
    Ok((v, &s[n..]))
}
