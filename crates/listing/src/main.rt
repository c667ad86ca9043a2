// Lists the plan file on standard input.
#![tactic(auto)]

use format::limits::FILE_LIMIT;
use listed::input::read_full;
use listed::list;
use pages::MEMORY_LENGTH;

// What is longer than the longest plan file may be cut off here: it is too long still.
const FILE_ROOM: usize = FILE_LIMIT + 1;

fn main(rt: HostRuntime) {
    let mut file = [0u8; FILE_ROOM];
    let length = read_full(&mut rt.stdin(), &mut file);
    let mut memory = [0u8; MEMORY_LENGTH];
    list(&rt, &file[..length], &mut memory);
}
