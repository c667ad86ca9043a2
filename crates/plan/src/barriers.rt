// The barrier records.
ghost use Rattle.std.specs.Prelude.{◌≡◌, ◌≤◌, length, MatchResult};
ghost use Rattle.plan.specs.Reading.{file_of, RulesHold, refuses_barrier, BarriersRefused, BarriersRead};

use crate::answer::{Refusal, Refused};
use crate::decode::{Record, decode};
use format::limits::{BARRIER_COUNT, RECORD_LENGTH, SIZE_LIMIT};
use format::ops;

// The sizes that the barrier records give, and the index of the first record behind them.
#[derive(Clone, Copy)]
pub struct Barriers {
    // 0 where no record gives one, as in the definitions (`Format.size_in`)
    pub sizes: [u8; BARRIER_COUNT],
    pub next: usize,
}

// Whether a barrier record is refused, where the next barrier's number is at least `low`.
// Apart from bad_plan and bad_sleep: three rules of the paper, each with a definition of its own in crates/protocol/specs.
fn bad_barrier(low: u8, r: Record) -> bool
    ensures { result ≡ refuses_barrier low r }
{
    r.register < low
        || r.worker != 0
        || BARRIER_COUNT <= r.register as usize
        || r.number < 1
        || SIZE_LIMIT < r.number
}

// Reads the records behind the plan record as long as they are barrier records.
// Apart from read_sleepers: one loop for both would take the op, the refusal, the test and what is noted as parameters.
pub fn read_barriers(records: &[[u8; RECORD_LENGTH]]) -> Result<Barriers, Refused>
    requires some_records { 1 ≤ length records.now }
    requires rules_hold { RulesHold (file_of records.now) 1 }
    ensures { MatchResult result (λ b. BarriersRead (file_of records.now) (length records.now) b)
        (λ e. BarriersRefused (file_of records.now) (length records.now) e) }
{
    let mut sizes = [0u8; BARRIER_COUNT];
    let mut low = 0u8;
    // By index: with enumerate and skip the loop's facts do not name the index, and its invariant stayed open.
    for i in 1..records.len() {
        let Some(r) = decode(&records[i]) else {
            return Err(Refusal::BadMark.at(i));
        };
        if r.op != ops::BARRIER_RECORD {
            return Ok(Barriers { sizes, next: i });
        }
        if bad_barrier(low, r) {
            return Err(Refusal::BadBarrier.at(i));
        }
        // By the remainder: `as` alone would ask for the bound that `bad_barrier` has just tested.
        sizes[r.register as usize] = (r.number % 256) as u8;
        low = r.register + 1;
    }
    Ok(Barriers {
        sizes,
        next: records.len(),
    })
}
