// How large a graph and its buffers have to be for a circuit file.
ghost use Rattle.aiger_room.specs.Rooms.{RoomFor, LeastRoom};

use aiger_check::header::file_header;

// The most that the header of a file which is taken asks for: a header that asks for more is refused before the room is
// looked at.
const MOST_PLACES: usize = 1_004_097;

const MOST_OUTPUTS: usize = 4_096;

const MOST_GATES: usize = 1_000_000;

#[derive(Clone, Copy, PartialEq, Eq, Debug)]
pub struct Room {
    // the graph's
    pub inputs: u32,
    // of the map
    pub places: usize,
    // of the outputs
    pub outputs: usize,
    // the most nodes that the file can add
    pub gates: usize,
}

impl Room {
    const NONE: Room = Room {
        inputs: 0,
        places: 0,
        outputs: 0,
        gates: 0,
    };

    // None where there is no header, since such a file is refused whatever the room.
    pub fn of(bytes: &[u8]) -> Room
        ensures answer { RoomFor bytes.now result }
        ensures laws { LeastRoom bytes.now result }
    {
        file_header(bytes).map_or(
            Room::NONE,
            |header| Room {
                inputs: header.inputs,
                places: (header.max as usize + 1).min(MOST_PLACES),
                outputs: (header.outputs as usize).min(MOST_OUTPUTS),
                gates: (header.ands as usize).min(MOST_GATES),
            },
        )
    }
}
