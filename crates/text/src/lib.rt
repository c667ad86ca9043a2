// Text in a lent slice: numbers, lines, and the lines of a listing.
#![tactic(auto)]

pub mod lines;

ghost use Rattle.std.specs.Prelude.{◌≡◌, [], ◌∷◌, ◌+◌, ◌≤◌, ◌<◌, length, drop};
ghost use Rattle.protocol.specs.Listing.{decimal, line, separator as separator_before};

// What is written stands at the start of the slice. `end` is the place behind it.
// A lent slice and no String: no heap.
#[derive(Drop)]
pub struct Text<'a> {
    bytes: &'a mut [u8],
    end: usize,
    ghost fits: { end ≤ length bytes.now },
}

impl<'a> Text<'a> {
    ghost use Rattle.text.specs.Text.{written, rest, room, Wrote};

    pub fn new(bytes: &'a mut [u8]) -> Text<'a>
        ensures nothing_written { written result ≡ [] }
        ensures all_left { rest result ≡ bytes.old }
        ensures same_slice { result.bytes.ghost_name ≡ bytes.entry.ghost_name }
    {
        Text { bytes, end: 0 }
    }

    pub fn as_bytes(&self) -> &[u8]
        ensures { result.now ≡ written self.now }
    {
        &self.bytes[..self.end]
    }

    // Wrote says what each method leaves, of the text before and behind it: no fact of one value that the type could hold.
    fn write_byte(&mut self, byte: u8)
        requires { 0 < room self.old }
        ensures { Wrote self.old (byte ∷ []) self.new }
    {
        self.bytes[self.end] = byte;
        self.end += 1;
    }

    pub fn write_bytes(&mut self, bytes: &[u8])
        requires { length bytes.now ≤ room self.old }
        ensures { Wrote self.old bytes.now self.new }
    {
        let end = self.end + bytes.len();
        self.bytes[self.end..end].copy_from_slice(bytes);
        self.end = end;
    }

    // The digits of a number, the most significant first. By a recursion: std's Display has no clause that says it succeeds.
    fn write_decimal(&mut self, n: u64)
        requires { length (decimal n) ≤ room self.old }
        ensures { Wrote self.old (decimal n) self.new }
    {
        if 10 <= n {
            self.write_decimal(n / 10);
        }
        self.write_byte(b'0' + (n % 10) as u8);
    }

    // Numbers with a space between them and a newline behind the last.
    pub fn write_line(&mut self, numbers: &[u64])
        requires { length (line numbers.now) ≤ room self.old }
        ensures { Wrote self.old (line numbers.now) self.new }
    {
        for (i, &number) in numbers.iter().enumerate() {
            self.write_decimal(number);
            self.write_byte(separator(numbers, i + 1));
        }
    }
}

// What stands behind a number, the next one being at an index.
fn separator(numbers: &[u64], next: usize) -> u8
    ensures { result ≡ separator_before (drop next numbers.now) }
{
    if next < numbers.len() { b' ' } else { b'\n' }
}
