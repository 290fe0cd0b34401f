// The file's bytes, the place that the reader has come to, and how many lines stand before it.
ghost use Rattle.std.specs.Prelude.{◌≡◌, ◌≤◌, length, drop};
ghost use Rattle.aiger_check.specs.Text.{lines};

mod calls;

// Bytes with a place beside it, which methods step line by line, are the form that the project fixes here.
#[derive(Drop)]
pub struct Reader<'a> {
    pub(crate) bytes: &'a [u8],
    pub(crate) place: usize,
    pub(crate) number: usize,
    ghost inside: { place ≤ length bytes.now },
    ghost counted: { number ≤ place },
    ghost whole: { lines (drop place bytes.now) ≡ drop number (lines bytes.now) },
}
