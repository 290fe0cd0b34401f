// The inputs as blocks and tables: each bit under its own assignment.
ghost use Rattle.std.specs.Prelude.{◌≡◌};
ghost use Rattle.values.specs.Columns.{block_column, table_column};

use crate::block::Block;
use crate::cofactors::{Cofactors, Table};

// Bit `i` of word `j` is bit `j` of `i`.
const LOW_COLUMNS: [u64; 6] = [
    0xaaaa_aaaa_aaaa_aaaa,
    0xcccc_cccc_cccc_cccc,
    0xf0f0_f0f0_f0f0_f0f0,
    0xff00_ff00_ff00_ff00,
    0xffff_0000_ffff_0000,
    0xffff_ffff_0000_0000,
];

// An input, counted from 0, under the 64 assignments from `64 * block` on.
pub fn input_block(block: u32, input: u32) -> Block
    ensures { result ≡ block_column block input }
{
    if let Some(column) = LOW_COLUMNS.get(input as usize) {
        return Block::new(*column);
    }
    // The other inputs are the bits of the block's number, each the same under all 64.
    if Block::new(u64::from(block)).bit(input - 6) {
        Block::new(u64::MAX)
    } else {
        Block::new(0)
    }
}

// An input, counted from 0, as a function of eight inputs; false from the eighth on.
pub fn input_table(input: u32) -> Table
    ensures { result ≡ table_column input }
{
    Cofactors {
        low: Cofactors {
            low: input_block(0, input),
            high: input_block(1, input),
        },
        high: Cofactors {
            low: input_block(2, input),
            high: input_block(3, input),
        },
    }
}
