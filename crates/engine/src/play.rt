// A list of turns, or a run to the end.
ghost use Rattle.std.specs.Prelude.{◌≡◌, ◌≤◌, length};
ghost use Rattle.protocol.specs.Format.{workers_limit};
ghost use Rattle.protocol.specs.Calls.{memory_length};
ghost use Rattle.engine.specs.Turning.{RoundBegun, Playing, PlayedOut};

use crate::onward::{again, onward};
use crate::state::{Engine, Played, Schedule};
use commits::sum::whole_sum;
use decisions::lists::Lists;
use format::fates::GOING;
use format::limits::WORKERS_LIMIT;
use journal::report::Counts;
use pages::SLOTS;
use plan::check::Layout;
use queue::Queue;
use worker::registers::Registers;

impl Engine {
    // Round 1 of n workers: all of them who are awake are in its list, and can move. The sum of shared memory's words is worked out here and
    // nowhere else.
    #[tactic(auto, unfolding(token::specs::Token::raised))]
    fn first_round(&mut self, n: u64, memory: &[u8]) -> Schedule
        requires { (n ≤ workers_limit) × (length memory.now ≡ memory_length) }
        ensures begun { RoundBegun n self.old.fates self.old.can memory.now result self.new.can }
        ensures others { self.new ≡ record self.old { can = self.new.can } }
    {
        let list = Queue::among(n, &self.fates, GOING);
        list.set_all(&mut self.can, true);
        Schedule {
            lists: Lists {
                list,
                next: Queue::empty(),
                waiting: Queue::empty(),
            },
            away: list.count(),
            counts: Counts {
                moves: 0,
                rounds: 0,
                records: 0,
            },
            sum: whole_sum(memory),
        }
    }
}

// Plays the turns from the start of round 1, at which the fates have the layout's codes. A turn by a worker that cannot move passes.
// A run to the end plays turns of its own choice, as long as a worker can move.
// `whole` stays a bool, and the lent buffers stay parameters, for the reasons in onward.rt and state.rt.
pub fn play(
    file: &[u8],
    layout: &Layout,
    turns: &[u8],
    whole: bool,
    memory: &mut [u8],
    log: &mut [u8],
    work: &mut [u8],
) -> Played
    requires { Playing file.now layout.now.workers layout.now.sizes layout.now.firsts layout.now.fates turns.now whole memory.old log.old work.old }
    ensures { PlayedOut file.now turns.now whole memory.old result memory.new log.new work.new }
{
    let mut engine = Engine {
        places: [0; WORKERS_LIMIT],
        held: [0; WORKERS_LIMIT],
        registers: [Registers::zero(); WORKERS_LIMIT],
        fates: layout.fates,
        can: [false; WORKERS_LIMIT],
        copied: [false; SLOTS],
    };
    let mut t = engine.first_round(layout.workers as u64, memory);
    let mut i = 0;
    // No `for`: `own`, `onward` and `again` say which turn is next.
    while i < turns.len() {
        let own = engine.own(file, &layout.firsts, turns, i, t.counts.moves, memory, work);
        i = own.turn;
        t.counts.moves = own.moves;
        match own.step {
            Some(r) => {
                let w = turns[i] as usize;
                t = engine.sync(r, w, t, &layout.sizes, memory, log, work);
                // After the end every turn passes.
                let lists = t.lists;
                if lists.list.is_empty() {
                    return Played {
                        schedule: t,
                        fates: engine.fates,
                    };
                }
                i = onward(whole, t.away, lists.list.first(), i + 1);
            }
            None => {
                i = again(whole, i, &engine.can);
            }
        }
    }
    Played {
        schedule: t,
        fates: engine.fates,
    }
}
