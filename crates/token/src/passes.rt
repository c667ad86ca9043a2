// Turns that pass, many at a time.
ghost use Rattle.std.specs.Prelude.{◌≡◌, ◌+◌, ◌-◌, ◌≤◌, ◌<◌, not, take, drop};
ghost use Rattle.std.specs.List.{list_all};
ghost use Rattle.protocol.specs.Format.{workers_limit};
ghost use Rattle.token.specs.Passes.{Passing, Passed, NamesWorkers, Spanned};

use format::limits::WORKERS_LIMIT;

// A block of turns names no worker below the least and none above the most. Whether it names these two is left open: a wider
// range would cost time, and no turn that moves would be passed over.
#[derive(Clone, Copy)]
pub struct Range {
    pub least: u8,
    pub most: u8,
}

// Turns looked at together.
const BLOCK: usize = 64;

// Turns looked at one by one before the first block.
const NEAR: usize = 12;

// All turns are looked at, without a branch, so that the loop becomes vector code.
fn span(block: &[u8; BLOCK]) -> Range
    requires { NamesWorkers block.now }
    ensures { Spanned block.now 0 64 result.least result.most }
{
    let mut least: u8 = 255;
    let mut most: u8 = 0;
    for t in block {
        least = least.min(*t);
        most = most.max(*t);
    }
    Range { least, most }
}

// Whether none of these workers can move.
fn idle(can: &[bool; WORKERS_LIMIT], workers: Range) -> bool
    requires { (workers.least ≤ workers.most) × (workers.most < workers_limit) }
    ensures { result ≡ list_all not (take (workers.most + 1 - workers.least) (drop workers.least can.now)) }
{
    let marks = &can[workers.least as usize..=workers.most as usize];
    marks.iter().all(|able| !*able)
}

// Steps over whole blocks.
fn blocks(turns: &[u8], from: usize, can: &[bool; WORKERS_LIMIT]) -> usize
    requires { Passing turns.now from }
    ensures { Passed turns.now can.now from result }
{
    let mut at = from;
    // No `for`: the place where the blocks end is the answer.
    while let Some(block) = turns[at..].first_chunk::<BLOCK>() {
        if !idle(can, span(block)) {
            return at;
        }
        at += BLOCK;
    }
    at
}

// The next turn that may move, or one before it. How far before is left open, since each turn from there on is looked at again.
// Blocks pay only where none of the nearest turns moves.
pub fn pass_over(turns: &[u8], from: usize, can: &[bool; WORKERS_LIMIT]) -> usize
    requires { Passing turns.now from }
    ensures { Passed turns.now can.now from result }
{
    if turns.len() < from + NEAR {
        return from;
    }
    for k in 0..NEAR {
        if can[turns[from + k] as usize] {
            return from + k;
        }
    }
    blocks(turns, from + NEAR, can)
}
