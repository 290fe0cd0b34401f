// The node stores that are measured side by side.
ghost use Rattle.std.specs.Prelude.{◌≡◌};
ghost use Rattle.workloads.specs.Kinds.{name};

#[derive(Clone, Copy, PartialEq, Eq, Debug)]
pub enum Kind {
    Scan,
    Chained,
}

impl Kind {
    pub fn name(self) -> &'static str
        ensures { result.now ≡ name self }
    {
        match self {
            Kind::Scan => "scan store",
            Kind::Chained => "chained store",
        }
    }
}
