// The digits of many frames at once: for each input a block of bits, one bit for each frame.
ghost use Rattle.std.specs.Prelude.{◌≡◌, ◌≤◌, length};
ghost use Rattle.simulation.specs.Columns.{set_at, shown, frame_column, frame_columns};

use values::block::Block;

fn is_set(frame: &[u8], input: usize) -> bool
    ensures { result ≡ set_at frame.now input }
{
    frame.get(input) == Some(&b'1')
}

// An input of each frame, the first frame in the lowest bit.
fn column(frames: &[&[u8]], input: usize) -> Block
    requires { length frames.now ≤ 64 }
    ensures { result ≡ frame_column (shown frames.now) input }
{
    let mut bits = 0;
    for (i, frame) in frames.iter().enumerate() {
        if is_set(frame, input) {
            bits += 1u64 << i;
        }
    }
    Block::new(bits)
}

// Every input of these frames.
pub(crate) fn fill_columns(frames: &[&[u8]], columns: &mut [Block])
    requires { length frames.now ≤ 64 }
    ensures { columns.new ≡ frame_columns (shown frames.now) (length columns.old) }
{
    for (input, place) in columns.iter_mut().enumerate() {
        *place = column(frames, input);
    }
}
