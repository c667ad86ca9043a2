// Lists each plan of the file plans.data, and sums up the memory that it leaves. The file is the count of plans and then, for each,
// the length of its plan file and its bytes; count and lengths are two bytes, low byte first.
#![tactic(auto)]

mod memory;

ghost use Rattle.std.specs.Prelude.{◌≤◌, length};

use crate::memory::memory_sum;
use listed::list;
use pages::MEMORY_LENGTH;
use std::io::Read;
use std::{fs, io};
use text::Text;

// Room for a word with a space behind it, and any number.
const LINE_ROOM: usize = 32;

// Room for any length that two bytes hold.
const FILE_ROOM: usize = 65536;

// What cannot be printed is left out.
fn print(rt: &impl Print, text: &[u8]) {
    let _ = rt.write_all(text);
}

fn print_line(rt: &impl Print, word: &[u8], number: u64)
    requires { length word.now ≤ 11 }
{
    let mut bytes = [0u8; LINE_ROOM];
    let mut text = Text::new(&mut bytes);
    text.write_bytes(word);
    text.write_line(&[number]);
    print(rt, text.as_bytes());
}

fn list_plan(rt: &impl Print, file: &[u8]) {
    let mut memory = [0u8; MEMORY_LENGTH];
    let code = list(rt, file, &mut memory);
    if code == 0 {
        print_line(rt, b"memory ", memory_sum(&memory));
    }
}

fn read_number(from: &mut impl Read) -> io::Result<u16> {
    let mut bytes = [0u8; 2];
    from.read_exact(&mut bytes)?;
    Ok(u16::from_le_bytes(bytes))
}

fn list_next(rt: &impl Print, from: &mut impl Read, number: u16) -> io::Result<()> {
    let length = read_number(from)?;
    let mut room = [0u8; FILE_ROOM];
    let file = &mut room[..usize::from(length)];
    from.read_exact(file)?;
    print_line(rt, b"plan ", u64::from(number));
    list_plan(rt, file);
    Ok(())
}

fn list_file(rt: &impl Print, from: &mut impl Read) -> io::Result<()> {
    let count = read_number(from)?;
    for number in 0..count {
        list_next(rt, from, number)?;
    }
    Ok(())
}

fn main(rt: HostRuntime) {
    let Ok(mut file) = fs::open(&rt, "plans.data") else {
        print(&rt, b"plans.data cannot be opened\n");
        return;
    };
    if list_file(&rt, &mut file).is_err() {
        print(&rt, b"plans.data is cut short\n");
    }
    if file.read_exact(&mut [0u8]).is_ok() {
        print(&rt, b"plans.data goes on behind its last plan\n");
    }
}
