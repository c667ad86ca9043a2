// The turns that a plan is listed with: 2 × (steps + n) cycles of 0 .. n − 1.
ghost use Rattle.std.specs.Prelude.{◌≡◌, ℕ, ◌*◌, ◌%◌, ◌≤◌, ◌<◌, length, get_or, take};
ghost use Rattle.protocol.specs.Format.{workers_limit, steps_limit};
ghost use Rattle.protocol.specs.Refusals as protocol;
ghost use Rattle.protocol.specs.Listing.{turns_by};
ghost use Rattle.listed.specs.Listed.{turn_count, ending_turns};

use format::limits::{STEPS_LIMIT, WORKERS_LIMIT};
use plan::check::check;

// The most turns: those of WORKERS_LIMIT workers with STEPS_LIMIT steps each.
pub const ENDING_TURNS: usize = 2 * (STEPS_LIMIT + 1) * WORKERS_LIMIT * WORKERS_LIMIT;

// How many turns there are.
fn turn_count(steps: usize, n: usize) -> usize
    requires n_le_workers_limit { n ≤ workers_limit }
    requires steps_bound { steps ≤ steps_limit * n }
    ensures value { result ≡ turn_count steps n }
    ensures upper_bound { result ≤ ending_turns }
{
    2 * (steps + n) * n
}

// Turns that name 0 .. n − 1 again and again.
// Apart from fill_stretches of crate tampermauve: what the two share is a loop of one line.
fn fill(turns: &mut [u8], n: usize)
    requires n_nonzero { 0 < n }
    requires n_le_workers_limit { n ≤ workers_limit }
    ensures turns_len_unchanged { length turns.new ≡ length turns.old }
    ensures by_index { (i : ℕ) → i < length turns.new → get_or turns.new i 0 ≡ i % n }
{
    for (i, turn) in turns.iter_mut().enumerate() {
        *turn = (i % n) as u8;
    }
}

// Writes a plan's turns and returns how many they are. A file that is refused has none.
// 0 is a count and no refusal: the turns of a refused file are none (`turns_by`, which docs/PROMISES.md names).
pub fn write_turns(file: &[u8], turns: &mut [u8]) -> usize
    requires { ending_turns ≤ length turns.old }
    ensures kept { length turns.new ≡ length turns.old }
    ensures within { result ≤ ending_turns }
    ensures listed { take result turns.new ≡ turns_by (protocol.check file.now) file.now }
{
    let Ok(layout) = check(file) else {
        return 0;
    };
    let n = layout.workers as usize;
    let count = turn_count(layout.firsts[n] - layout.firsts[0], n);
    fill(&mut turns[..count], n);
    count
}
