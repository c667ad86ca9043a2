// Bytes in lent slices, and numbers of two and four of them, low byte first.
#![tactic(auto)]

ghost use Rattle.std.specs.Prelude.{◌≡◌, ◌+◌, ◌≤◌, length, replicate};
ghost use Rattle.protocol.specs.Format.{long_at, word as Format·word};
ghost use Rattle.words.specs.Bytes.{word_at};

// Two bytes as a number.
pub fn word(low: u8, high: u8) -> u16
    ensures { result ≡ Format·word low high }
{
    u16::from_le_bytes([low, high])
}

// The two-byte number at a place.
// By a place and no array: a number of a log or a report stands at a place in it.
pub fn word_at(bytes: &[u8], at: usize) -> u16
    requires { at + 2 ≤ length bytes.now }
    ensures { result ≡ word_at bytes.now at }
{
    word(bytes[at], bytes[at + 1])
}

// The last of four bytes.
const LAST: usize = 3;

// The four-byte number at a place.
// Apart from word_at: one for both sizes would need a trait of ours over u16 and u32, for two bodies of one line.
pub fn long_at(bytes: &[u8], at: usize) -> u32
    requires { at + 4 ≤ length bytes.now }
    ensures { result ≡ long_at bytes.now at }
{
    u32::from_le_bytes([bytes[at], bytes[at + 1], bytes[at + 2], bytes[at + LAST]])
}

// Sets every byte to 0.
pub fn clear(bytes: &mut [u8])
    ensures { bytes.new ≡ replicate (length bytes.old) 0 }
{
    bytes.fill(0);
}
