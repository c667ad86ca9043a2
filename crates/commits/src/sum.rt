// The sum of shared memory's words at even addresses.
ghost use Rattle.std.specs.Prelude.{◌≡◌, length};
ghost use Rattle.protocol.specs.Calls.{memory_length};
ghost use Rattle.protocol.specs.Sum.{sum_of};
ghost use Rattle.commits.specs.Blocks.{block_size, BlockSummed};

// A stretch of a page whose words are summed at once.
#[derive(Clone, Copy)]
pub struct Block;

impl Block {
    pub const SIZE: usize = 64;

    // of two bytes each
    pub const WORDS: usize = Block::SIZE / 2;
}

// The sum of a block's words. 32 bits throughout, so that the loop becomes vector code of four lanes.
pub fn block_sum(block: &[u8]) -> u32
    requires { length block.now ≡ block_size }
    ensures { BlockSummed block.now result }
{
    let (words, _) = block.as_chunks::<2>();
    let mut sum = 0u32;
    for word in words {
        sum += u32::from(u16::from_le_bytes(*word));
    }
    sum
}

// The sum of all words.
pub fn whole_sum(memory: &[u8]) -> u32
    requires { length memory.now ≡ memory_length }
    ensures { result ≡ sum_of memory.now }
{
    let mut sum = 0u32;
    for block in memory.as_chunks::<{ Block::SIZE }>().0 {
        sum += block_sum(block);
    }
    sum
}
