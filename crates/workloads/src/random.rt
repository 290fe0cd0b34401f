// Pseudo-random numbers, the same in every run.
ghost use Rattle.std.specs.Prelude.{◌≡◌};
ghost use Rattle.workloads.specs.Randoms.{seed, step, below, after};

#[derive(Drop)]
pub struct Random {
    pub(crate) state: u64,
}

impl Random {
    pub fn new() -> Random
        ensures { result.state ≡ seed }
    {
        Random {
            state: 0x2545_F491_4F6C_DD1D,
        }
    }

    // Marsaglia's xorshift.
    pub fn next(&mut self) -> u64
        ensures state { self.new.state ≡ step self.old.state }
        ensures answer { result ≡ self.new.state }
    {
        let mut x = self.state;
        x ^= x << 13;
        x ^= x >> 7;
        x ^= x << 17;
        self.state = x;
        x
    }

    // A number below n, or 0 where n is 0.
    pub fn below(&mut self, n: u32) -> u32
        ensures answer { result ≡ below self.old.state n }
        ensures state { self.new.state ≡ after self.old.state n }
    {
        if n == 0 {
            return 0;
        }
        ((self.next() >> 32) % u64::from(n)) as u32
    }
}
