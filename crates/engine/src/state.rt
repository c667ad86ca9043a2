// What a run keeps: beside the lent bytes the engine's values for each worker, and a schedule.
ghost use Rattle.std.specs.Prelude.{◌≡◌, ◌<◌};
ghost use Rattle.protocol.specs.Format.{workers_limit};
ghost use Rattle.engine.specs.Kept.{private_in};

use decisions::lists::Lists;
use format::limits::WORKERS_LIMIT;
use journal::report::Counts;
use pages::SLOTS;
use plan::decode::Record;
use worker::Worker;
use worker::registers::Registers;

// An entry for each worker, and the marks of the copied pages. The fates stand by their codes; `can` says who can move. The lent bytes are no
// fields here: behind one reference the borrow checker does not lend one buffer as `&` while another is lent as `&mut`, as each store has it.
// Parallel arrays: an array of records took 1.4 to 2 times as long in the loop over own steps (docs/DECISIONS.md, 129).
#[derive(Drop)]
pub struct Engine {
    pub places: [usize; WORKERS_LIMIT],
    pub held: [u64; WORKERS_LIMIT],
    pub registers: [Registers; WORKERS_LIMIT],
    pub fates: [u64; WORKERS_LIMIT],
    pub can: [bool; WORKERS_LIMIT],
    pub copied: [bool; SLOTS],
}

impl Engine {
    // Worker w's private record.
    pub(crate) fn worker(&self, w: usize) -> Worker
        requires { w < workers_limit }
        ensures { result ≡ private_in self.now w }
    {
        Worker {
            place: self.places[w],
            held: self.held[w],
            registers: self.registers[w],
        }
    }
}

// The lists, how many of the round's list are still away from the fence, what is counted, and the sum of shared memory's words.
#[derive(Clone, Copy)]
pub struct Schedule {
    pub lists: Lists,
    pub away: u64,
    pub counts: Counts,
    pub sum: u32,
}

// The turn at which a list of turns stands, the moves made up to it, and the step of the worker that it names; none behind the last turn.
#[derive(Clone, Copy)]
pub struct Reached {
    pub turn: usize,
    pub moves: u64,
    pub step: Option<Record>,
}

// What a list of turns leaves beside the bytes: the schedule, and the fates by their codes.
#[derive(Clone, Copy)]
pub struct Played {
    pub schedule: Schedule,
    pub fates: [u64; WORKERS_LIMIT],
}
