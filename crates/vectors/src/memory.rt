// A number that shows any change of one byte of the memory.
ghost use Rattle.std.specs.Prelude.{◌≡◌};
ghost use Rattle.protocol.specs.Calls.{memory_length};
ghost use Rattle.vectors.specs.Sum.{weighed};

use pages::MEMORY_LENGTH;

// The sum of (address + 1) × byte.
pub fn memory_sum(memory: &[u8; MEMORY_LENGTH]) -> u64
    ensures { result ≡ weighed memory.now memory_length }
{
    let mut sum = 0;
    for (address, &byte) in memory.iter().enumerate() {
        sum += (address as u64 + 1) * u64::from(byte);
    }
    sum
}
