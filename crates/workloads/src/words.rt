// Words of random bits as blocks, and their XOR, which pins a list of blocks well enough.
ghost use Rattle.std.specs.Prelude.{◌≡◌, IfOk};
ghost use Rattle.workloads.specs.Words.{words_of, words, xor_from};

use crate::random::Random;
use std::alloc::{AllocError, Global};
use values::block::Block;

pub fn random_blocks(
    heap: Global,
    random: &mut Random,
    count: u32,
) -> Result<Vec<Block>, AllocError>
    ensures { IfOk result (λ v. words_of v.items ≡ words count random.old.state) }
{
    let mut blocks = Vec::new(heap);
    for _block in 0..count {
        blocks.push(Block::new(random.next()))?;
    }
    Ok(blocks)
}

pub fn xor_of(blocks: &[Block]) -> u64
    ensures { result ≡ xor_from 0 (words_of blocks.now) }
{
    let mut xor = 0;
    for block in blocks {
        xor ^= block.bits();
    }
    xor
}
