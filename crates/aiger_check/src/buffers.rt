// The caller's buffers: the map, a place for each variable, and the outputs.
ghost use Rattle.std.specs.Prelude.{◌≡◌, ◌+◌, ◌<◌, ◌≤◌, min, length};
ghost use Rattle.aiger_check.specs.Files.{marked};

use aiger_lines::fields::Header;
use rules::edge::Edge;

// The first `n` places become undefined, or all where there are fewer.
pub fn mark(places: &mut [Edge], n: usize)
    ensures all { places.new ≡ marked (min n (length places.old)) places.old }
    ensures within { n ≤ length places.old → places.new ≡ marked n places.old }
{
    let count = n.min(places.len());
    places[..count].fill(Edge::UNDEFINED);
}

// The map's place of each variable becomes undefined, and so does the place of each output.
pub fn clear(header: Header, map: &mut [Edge], outputs: &mut [Edge])
    ensures map_all { map.new ≡ marked (min (header.max + 1) (length map.old)) map.old }
    ensures outputs_all { outputs.new ≡ marked (min header.outputs (length outputs.old)) outputs.old }
    ensures map_within { header.max < length map.old → map.new ≡ marked (header.max + 1) map.old }
    ensures outputs_within { header.outputs ≤ length outputs.old → outputs.new ≡ marked header.outputs outputs.old }
{
    mark(map, header.max as usize + 1);
    mark(outputs, header.outputs as usize);
}
