// The turns up to the next one that synchronises.
ghost use Rattle.std.specs.Prelude.{◌≡◌};
ghost use Rattle.engine.specs.Kept.{kept_own};
ghost use Rattle.engine.specs.Turning.{Turning, Turned};

use crate::state::{Engine, Reached};
use format::limits::WORKERS_LIMIT;
use format::points::synchronises;
use moves::{fetch, own_move};
use token::passes::pass_over;

impl Engine {
    // Plays turns from `from` on, before which so many moves were made, as long as they pass or make an own step.
    // The lent buffers stay parameters, for the reason in state.rt.
    pub fn own(
        &mut self,
        file: &[u8],
        firsts: &[usize; WORKERS_LIMIT + 1],
        turns: &[u8],
        from: usize,
        made: u64,
        memory: &[u8],
        work: &mut [u8],
    ) -> Reached
        requires { Turning file.now firsts.now turns.now from made (kept_own self.old memory.now work.old) }
        ensures turned { Turned file.now firsts.now turns.now from made (kept_own self.old memory.now work.old) result (kept_own self.new memory.now work.new) }
        ensures same_fates { self.new.fates ≡ self.old.fates }
        ensures same_can { self.new.can ≡ self.old.can }
        ensures same_held { self.new.held ≡ self.old.held }
    {
        let mut i = from;
        let mut moves = made;
        // No `for`: the index jumps over many turns that pass.
        while i < turns.len() {
            let w = turns[i] as usize;
            if self.can[w] {
                let r = fetch(file, firsts[w], firsts[w + 1], self.places[w]);
                if synchronises(r.op) {
                    return Reached {
                        turn: i,
                        moves,
                        step: Some(r),
                    };
                }
                let after = own_move(self.worker(w), r, w, memory, work, &mut self.copied);
                self.places[w] = after.place;
                self.registers[w] = after.registers;
                moves += 1;
                i += 1;
            } else {
                i = pass_over(turns, i + 1, &self.can);
            }
        }
        Reached {
            turn: i,
            moves,
            step: None,
        }
    }
}
