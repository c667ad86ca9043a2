// A worker's commit: shared memory gets what the worker changed, and the sum of shared memory's words is moved by as much. A page is
// committed block by block, and where no byte of a block differs from its twin neither memory nor the sum is looked at.
// Memory, work and copied stay parameters, as in crate pages: in one struct own steps took 6 % more instructions.
#![tactic(auto)]

pub mod sum;

ghost use Rattle.std.specs.Prelude.{◌≡◌, ◌+◌, ◌<◌, ◌≤◌, length, set};
ghost use Rattle.protocol.specs.Format.{workers_limit};
ghost use Rattle.protocol.specs.Pages.{page_count, no_copies, commit};
ghost use Rattle.protocol.specs.Sum.{sum_of};
ghost use Rattle.pages.specs.Copies.{Lent, slot_count, slot_copy, copies_in};
ghost use Rattle.commits.specs.Blocks.{block_size, BlockWritten, BlockMoved, BlockCounted, Summed};
ghost use Rattle.commits.specs.Committing.{half_count, any_copied, PagesDone, Committed};

use crate::sum::{Block, block_sum};
use pages::{Page, SLOTS, discard};

const HALF_COUNT: usize = Page::COUNT / 2;

// Writes the bytes of a block that differ from their twins. Each byte is written, changed or not, so that the loop becomes vector code.
fn write_block(shared: &mut [u8], mine: &[u8; Block::SIZE], twin: &[u8; Block::SIZE])
    requires { length shared.old ≡ block_size }
    ensures { BlockWritten mine.now twin.now shared.old shared.new }
{
    for (i, byte) in shared.iter_mut().enumerate() {
        *byte = if mine[i] != twin[i] { mine[i] } else { *byte };
    }
}

// Commits a block of shared memory. The sum rises by the block's words as they stand there now, and falls by those that stood there before.
fn commit_block(
    shared: &mut [u8],
    mine: &[u8; Block::SIZE],
    twin: &[u8; Block::SIZE],
    sum: u32,
) -> u32
    requires { BlockCounted shared.old sum }
    ensures { BlockWritten mine.now twin.now shared.old shared.new × BlockMoved shared.old shared.new sum result }
{
    if mine == twin {
        return sum;
    }
    let before = block_sum(shared);
    write_block(shared, mine, twin);
    let after = block_sum(shared);
    sum + after - before
}

// Commits the page of a slot, unless the slot is unused.
// Memory and sum are no struct with a ghost field that says they agree: it would have to hold between the write and the new sum.
fn commit_page(
    memory: &mut [u8],
    work: &[u8],
    copied: &[bool; SLOTS],
    p: usize,
    slot: usize,
    sum: u32,
) -> u32
    requires { Lent memory.old work.now × (p < page_count) × (slot < slot_count) × Summed memory.old sum }
    ensures { (memory.new ≡ commit (set no_copies p (slot_copy copied.now work.now slot)) memory.old)
        × Summed memory.new result }
{
    if !copied[slot] {
        return sum;
    }
    let first = Page::SIZE * p;
    let at = Page::PAIR * slot;
    let (copy, twin) = work[at..at + Page::PAIR].split_at(Page::SIZE);
    let (copies, _) = copy.as_chunks::<{ Block::SIZE }>();
    let (twins, _) = twin.as_chunks::<{ Block::SIZE }>();
    let mut total = sum;
    // stepped by bytes: with `enumerate` over the blocks "commits of eight pages" take 1.6 % more instructions
    for offset in (0..Page::SIZE).step_by(Block::SIZE) {
        let from = first + offset;
        let block = offset / Block::SIZE;
        total = commit_block(
            &mut memory[from..from + Block::SIZE],
            &copies[block],
            &twins[block],
            total,
        );
    }
    total
}

// Whether a worker has a copy of one of so many pages, from a page on. Each mark is read, so that all are read at once.
fn any_copy(copied: &[bool; SLOTS], w: usize, from: usize, count: usize) -> bool
    requires { (w < workers_limit) × (from + count ≤ page_count) }
    ensures { result ≡ any_copied copied.now w from count }
{
    let first = Page::COUNT * w + from;
    let mut any = false;
    for mark in &copied[first..first + count] {
        any = any | *mark;
    }
    any
}

// Goes on with a commit that has done the pages before `from`, by half of all pages.
fn commit_pages(
    memory: &mut [u8],
    work: &[u8],
    copied: &[bool; SLOTS],
    w: usize,
    from: usize,
    sum: u32,
) -> u32
    requires { Lent memory.old work.now × (w < workers_limit) × (from + half_count ≤ page_count) × Summed memory.old sum }
    ensures { PagesDone (copies_in copied.now work.now w) from (from + half_count) memory.old memory.new
        × Summed memory.new result }
{
    if !any_copy(copied, w, from, HALF_COUNT) {
        return sum;
    }
    let mut total = sum;
    for p in from..from + HALF_COUNT {
        total = commit_page(memory, work, copied, p, Page::COUNT * w + p, total);
    }
    total
}

// A worker's commit: shared memory gets what it changed, and its copies are dropped. The sum of shared memory's words goes in, and comes
// back moved by as much. The pages are done in two calls: a function that is called twice stays apart from the steps that commit nothing,
// which take fewer instructions for it.
pub fn commit(memory: &mut [u8], work: &[u8], copied: &mut [bool; SLOTS], w: usize, sum: u32) -> u32
    requires { Lent memory.old work.now × (w < workers_limit) × (sum ≡ sum_of memory.old) }
    ensures { Committed w sum copied.old work.now memory.old result copied.new memory.new }
{
    if !any_copy(copied, w, 0, Page::COUNT) {
        return sum;
    }
    let half = commit_pages(memory, work, copied, w, 0, sum);
    let moved = commit_pages(memory, work, copied, w, HALF_COUNT, half);
    discard(copied, w);
    moved
}
