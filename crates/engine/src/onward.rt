// The turn that is next.
ghost use Rattle.std.specs.Prelude.{◌<◌};
ghost use Rattle.protocol.specs.Format.{workers_limit};
ghost use Rattle.engine.specs.Turning.{Onward, Again};

use format::limits::WORKERS_LIMIT;
use token::first_able;

// A run to the end chooses from cycles of all workers, for those who run up to the fence, and behind them from a stretch of turns of each
// worker, for the holder. They are short, since they are written once a call; whoever has more steps comes again.
pub const STRETCH: usize = 32;

pub const CYCLES: usize = STRETCH * WORKERS_LIMIT;

// `whole` stays a bool: a trait for the two ways is no plainer, with two types and four methods for these two tests, and it makes the
// engine's loop, 9 of the archive's 16 kB, twice.

// Behind a synchronising move: the next turn of a list; in a run to the end the holder's stretch or, as long as some are away, the cycles,
// no matter where. No worker is looked for here: which one it would be cannot be foretold by the processor, and costs more than turns that pass.
pub fn onward(whole: bool, away: u64, first: u64, next: usize) -> usize
    requires { first < workers_limit }
    ensures { Onward whole next result }
{
    if whole {
        if away == 0 {
            return CYCLES + STRETCH * (first as usize);
        }
        return next % CYCLES;
    }
    next
}

// Behind the last turn: a list is over; a run to the end goes on with the first worker that can move, or is over if there is none.
pub fn again(whole: bool, next: usize, can: &[bool; WORKERS_LIMIT]) -> usize
    ensures { Again whole next can.now result }
{
    if whole {
        return CYCLES + STRETCH * first_able(can).unwrap_or(WORKERS_LIMIT);
    }
    next
}
