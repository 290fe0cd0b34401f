// A node store that looks through its records from the first on.
ghost use Rattle.std.specs.Prelude.{◌≤◌, length};

use rules::pair::Pair;

mod calls;

// The records lie in lent memory, of which the first `len` are stored: the form that the project fixes for records.
#[derive(Drop)]
pub struct ScanStore<'a> {
    records: &'a mut [Pair],
    len: usize,
    ghost held: { len ≤ length records.now },
    ghost few: { len ≤ 1000000 },
}
