// What runs over either of the node stores that are measured side by side.
use crate::measure::Outcome;
use chained_store::chained::ChainedStore;
use chained_store::record::ChainRecord;
use rules::edge::Edge;
use rules::pair::Pair;
use stores::scan::ScanStore;
use stores::store::NodeStore;
use workloads::kind::Kind;

const HEADS: usize = 65_536;

pub(crate) trait Job {
    type Out: Outcome;

    fn run<S: NodeStore + Drop>(&self, rt: &HostRuntime, store: S) -> anyhow::Result<Self::Out>;
}

// The job once, over an empty store with room for so many nodes.
pub(crate) fn run_over<J: Job>(
    rt: &HostRuntime,
    kind: Kind,
    nodes: usize,
    job: &J,
) -> anyhow::Result<J::Out> {
    let heap = rt.alloc();
    match kind {
        Kind::Scan => {
            let blank = Pair::new(Edge::FALSE, Edge::FALSE);
            let mut records = vec![in heap; blank; nodes]?;
            job.run(rt, ScanStore::new(records.as_mut_slice()))
        }
        Kind::Chained => {
            let mut records = vec![in heap; ChainRecord::EMPTY; nodes]?;
            let mut heads = vec![in heap; 0u32; HEADS]?;
            job.run(
                rt,
                ChainedStore::new(records.as_mut_slice(), heads.as_mut_slice()),
            )
        }
    }
}
