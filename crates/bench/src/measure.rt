// How a job is measured: once for its counts, or in so many rounds for its shortest times.

#[derive(Clone, Copy, PartialEq, Eq, Debug)]
pub enum Measure {
    Counts,
    Times { rounds: u32 },
}

// What a run of a job came to. Two runs of one job differ only in their times.
pub(crate) trait Outcome: Copy {
    // The same counts, with the shorter time of each step.
    fn best(self, other: Self) -> Self;
}

impl Measure {
    pub(crate) fn best_of<T: Outcome, F: FnMut() -> anyhow::Result<T>>(
        self,
        mut run: F,
    ) -> anyhow::Result<T>
        requires { (f : _) → F.pre f }
    {
        let mut best = run()?;
        if let Measure::Times { rounds } = self {
            for _round in 1..rounds {
                best = best.best(run()?);
            }
        }
        Ok(best)
    }
}
