// One synchronising move of a worker that can move.
ghost use Rattle.std.specs.Prelude.{◌≡◌};
ghost use Rattle.engine.specs.Kept.{kept_of};
ghost use Rattle.engine.specs.Moving.{Syncing, Synced};

use crate::state::{Engine, Schedule};
use format::limits::BARRIER_COUNT;
use journal::report::Counts;
use plan::decode::Record;
use token::arrive;

impl Engine {
    // Its arrival at the fence, or, with the token, its step.
    // The lent buffers stay parameters, for the reason in state.rt.
    pub fn sync(
        &mut self,
        r: Record,
        w: usize,
        t: Schedule,
        sizes: &[u8; BARRIER_COUNT],
        memory: &mut [u8],
        log: &mut [u8],
        work: &[u8],
    ) -> Schedule
        requires { Syncing r w t sizes.now (kept_of self.old memory.old log.old work.now) }
        ensures synced { Synced r w t sizes.now (kept_of self.old memory.old log.old work.now) result (kept_of self.new memory.new log.new work.now) }
        ensures same_registers { self.new.registers ≡ self.old.registers }
    {
        if 0 < t.away {
            let lists = t.lists;
            let away = arrive(lists.list.first(), t.away, w, &mut self.can);
            return Schedule {
                away,
                counts: Counts {
                    moves: t.counts.moves + 1,
                    ..t.counts
                },
                ..t
            };
        }
        self.hold(r, w, t, sizes, memory, log, work)
    }
}
