// Sixty-four bits at once.
ghost use Rattle.std.specs.Prelude.{◌^◌, ◌<◌};

mod calls;
pub mod value;

// The logic reads a `u64` as a natural number, so the type says that it fits.
#[derive(Clone, Copy, PartialEq, Eq, Debug)]
pub struct Block {
    bits: u64,
    ghost fits: { bits < 2 ^ 64 },
}
