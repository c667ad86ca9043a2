// Page copies with their twins, in bytes that the caller lends. `work` holds, for each worker and each page, a working copy and
// then its twin. A slot is a worker's place for one page, Page::COUNT × worker + page, and `copied` marks the slots in use.
// The three stay parameters: lent in one struct, they took 6 % more instructions and 7 % more time in a trial of the loop over own steps.
#![tactic(auto)]

ghost use Rattle.std.specs.Prelude.{◌≡◌, List, ℕ, ◌+◌, ◌<◌, ◌≤◌, length, drop};
ghost use Rattle.std.proofs.Math.Seq.{paste};
ghost use Rattle.protocol.specs.Format.{workers_limit, address_limit};
ghost use Rattle.protocol.specs.Calls.{memory_length};
ghost use Rattle.protocol.specs.Pages.{page_size, page_count, page, no_copies, opened, load_byte, load_word, store_byte, store_word};
ghost use Rattle.pages.specs.Copies.{Lent, slot_count, slot_copy, copies_in, SlotHolds, WorkerHolds};

use format::limits::WORKERS_LIMIT;

#[derive(Clone, Copy)]
pub struct Page;

impl Page {
    pub const SIZE: usize = 256;

    pub const COUNT: usize = 8;
    // a working copy and its twin
    pub const PAIR: usize = 2 * Page::SIZE;
}

// One array of marks: a worker's eight stand side by side and are read at once (`commits::any_copy`).
pub const SLOTS: usize = WORKERS_LIMIT * Page::COUNT;

pub const MEMORY_LENGTH: usize = Page::COUNT * Page::SIZE;

pub const WORK_LENGTH: usize = SLOTS * Page::PAIR;

// Copies a page's worth of bytes. With copy_from_slice "private arithmetic", the loop that this is put into, takes 2.4 % more instructions.
fn copy_page(from: &[u8], start: usize, into: &mut [u8], at: usize)
    requires { (start + page_size ≤ length from.now) × (at + page_size ≤ length into.old) }
    ensures { into.new ≡ paste into.old at (drop start from.now) page_size }
{
    for i in 0..Page::SIZE {
        into[at + i] = from[start + i];
    }
}

// Both bytes are read before the choice: no branch waits for the mark.
fn load_byte(memory: &[u8], work: &[u8], copied: &[bool; SLOTS], w: usize, address: usize) -> u8
    requires { Lent memory.now work.now × (w < workers_limit) × (address < memory_length) }
    ensures { result ≡ load_byte memory.now (copies_in copied.now work.now w) address }
{
    let slot = Page::COUNT * w + address / Page::SIZE;
    let own = work[Page::PAIR * slot + address % Page::SIZE];
    let shared = memory[address];
    if copied[slot] { own } else { shared }
}

// A worker's load of two bytes.
pub fn load(memory: &[u8], work: &[u8], copied: &[bool; SLOTS], w: usize, address: usize) -> u16
    requires { Lent memory.now work.now × (w < workers_limit) × (address ≤ address_limit) }
    ensures { result ≡ load_word memory.now (copies_in copied.now work.now w) address }
{
    u16::from_le_bytes([
        load_byte(memory, work, copied, w, address),
        load_byte(memory, work, copied, w, address + 1),
    ])
}

// Copies a page into its slot twice, unless the slot is in use.
fn open_page(memory: &[u8], work: &mut [u8], copied: &mut [bool; SLOTS], p: usize, slot: usize)
    requires { Lent memory.now work.old × (p < page_count) × (slot < slot_count) }
    ensures { SlotHolds slot (opened (page memory.now p) (slot_copy copied.old work.old slot))
        copied.old work.old copied.new work.new }
{
    if copied[slot] {
        return;
    }
    let at = Page::PAIR * slot;
    copy_page(memory, Page::SIZE * p, work, at);
    copy_page(memory, Page::SIZE * p, work, at + Page::SIZE);
    copied[slot] = true;
}

// Lent and WorkerHolds stay in clauses: Lent is of two slices that no struct holds, WorkerHolds says what a function did.
fn store_byte(
    memory: &[u8],
    work: &mut [u8],
    copied: &mut [bool; SLOTS],
    w: usize,
    address: usize,
    byte: u8,
)
    requires { Lent memory.now work.old × (w < workers_limit) × (address < memory_length) }
    ensures { WorkerHolds w (store_byte memory.now (copies_in copied.old work.old w) address byte)
        copied.old work.old copied.new work.new }
{
    let p = address / Page::SIZE;
    let slot = Page::COUNT * w + p;
    open_page(memory, work, copied, p, slot);
    work[Page::PAIR * slot + address % Page::SIZE] = byte;
}

// A worker's store of two bytes, which may touch two pages.
pub fn store(
    memory: &[u8],
    work: &mut [u8],
    copied: &mut [bool; SLOTS],
    w: usize,
    address: usize,
    number: u16,
)
    requires { Lent memory.now work.old × (w < workers_limit) × (address ≤ address_limit) }
    ensures { WorkerHolds w (store_word memory.now (copies_in copied.old work.old w) address number)
        copied.old work.old copied.new work.new }
{
    let [low, high] = number.to_le_bytes();
    store_byte(memory, work, copied, w, address, low);
    store_byte(memory, work, copied, w, address + 1, high);
}

// A worker's copies are dropped.
pub fn discard(copied: &mut [bool; SLOTS], w: usize)
    requires { w < workers_limit }
    ensures { (work : List ℕ) → WorkerHolds w no_copies copied.old work copied.new work }
{
    copied[Page::COUNT * w..Page::COUNT * (w + 1)].fill(false);
}
