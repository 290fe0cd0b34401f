// A lent buffer that text goes into, as far as it goes: into an empty one the text is only measured.
ghost use Rattle.std.specs.Prelude.{◌+◌, ◌*◌, ◌^◌, ◌<◌, ◌≤◌, [], ◌∷◌, length, decimal};
ghost use Rattle.aiger_write.specs.Sinks.{HasTaken};
ghost use Rattle.aiger_write.specs.Texts.{line_text};

use itoa::Buffer;

// `at` counts the bytes that were put, also those past the buffer's end.
// It is no `fmt::Write`, since `write!` promises its text only where it returns `Ok`, and nothing here can fail.
#[derive(Drop)]
pub(crate) struct Sink<'a> {
    pub(crate) text: &'a mut [u8],
    pub(crate) at: usize,
}

impl Sink<'_> {
    #[tactic(auto, unfolding(crate::specs::Buffers::put))]
    fn put_byte(&mut self, byte: u8)
        requires { self.old.at + 1 < 2 ^ 64 }
        ensures { HasTaken (byte ∷ []) self.old self.new }
    {
        if self.at < self.text.len() {
            self.text[self.at] = byte;
        }
        self.at += 1;
    }

    pub(crate) fn put_bytes(&mut self, bytes: &[u8])
        requires { self.old.at + length bytes.now < 2 ^ 64 }
        ensures { HasTaken bytes.now self.old self.new }
    {
        for byte in bytes {
            self.put_byte(*byte);
        }
    }

    // A number's digits. Out of line, so that the lines of small numbers are written without the formatter's work.
    #[inline(never)]
    fn put_digits(&mut self, n: u32)
        requires { self.old.at + length (decimal n) < 2 ^ 64 }
        ensures { HasTaken (decimal n) self.old self.new }
    {
        self.put_bytes(Buffer::new().format(n).as_bytes());
    }

    // The same; a single digit, as most numbers of a small graph have, is put at once.
    #[inline(always)]
    fn put_number(&mut self, n: u32)
        requires { self.old.at + length (decimal n) < 2 ^ 64 }
        ensures { HasTaken (decimal n) self.old self.new }
    {
        if n < 10 {
            self.put_byte(b'0' + n as u8);
        } else {
            self.put_digits(n);
        }
    }

    // Numbers with a space between them, and the line's end.
    pub(crate) fn put_line(&mut self, numbers: &[u32])
        requires { self.old.at + length (line_text numbers.now) < 2 ^ 64 }
        ensures taken { HasTaken (line_text numbers.now) self.old self.new }
        ensures limit { self.new.at ≤ self.old.at + 11 * length numbers.now }
    {
        for (i, n) in numbers.iter().enumerate() {
            self.put_number(*n);
            let end = if i + 1 < numbers.len() { b' ' } else { b'\n' };
            self.put_byte(end);
        }
    }
}
