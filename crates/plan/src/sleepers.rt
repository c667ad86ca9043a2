// The sleep records.
ghost use Rattle.std.specs.Prelude.{◌≡◌, length, replicate, MatchResult};
ghost use Rattle.protocol.specs.Format.{workers_limit};
ghost use Rattle.format.specs.Fates.{code_going};
ghost use Rattle.plan.specs.Reading.{file_of};
ghost use Rattle.plan.specs.Sleeping.{refuses_sleep, SleepersComing, SleepersRefused, SleepersRead};

use crate::answer::{Refusal, Refused};
use crate::decode::{Record, decode};
use format::fates::ASLEEP;
use format::limits::{RECORD_LENGTH, WORKERS_LIMIT};
use format::ops;

// Whether a sleep record is refused, where the next sleeper is at least `low` and there are n workers.
// Apart from bad_plan and bad_barrier: see barriers.rt.
fn bad_sleep(low: u8, n: u8, r: Record) -> bool
    ensures { result ≡ refuses_sleep low n r }
{
    r.worker < low || r.worker == 0 || n <= r.worker || r.register != 0 || r.number != 0
}

// Reads the records from `start` on, behind the barrier records, as long as they are sleep records, and notes who is asleep at first. Answers
// the index of the first record behind them.
// Apart from read_barriers: see barriers.rt.
pub fn read_sleepers(
    records: &[[u8; RECORD_LENGTH]],
    n: u8,
    start: usize,
    fates: &mut [u64; WORKERS_LIMIT],
) -> Result<usize, Refused>
    requires sleepers_coming { SleepersComing (file_of records.now) (length records.now) n start }
    requires fates_value { fates.old ≡ replicate workers_limit code_going }
    ensures { MatchResult result (λ next. SleepersRead (file_of records.now) (length records.now) start next fates.new)
        (λ e. SleepersRefused (file_of records.now) (length records.now) start e) }
{
    let mut low = 0u8;
    // By index: with enumerate and skip the loop's facts do not name the index, and its invariant stayed open.
    for i in start..records.len() {
        let Some(r) = decode(&records[i]) else {
            return Err(Refusal::BadMark.at(i));
        };
        if r.op != ops::SLEEP_RECORD {
            return Ok(i);
        }
        if bad_sleep(low, n, r) {
            return Err(Refusal::BadSleep.at(i));
        }
        fates[r.worker as usize] = ASLEEP;
        low = r.worker + 1;
    }
    Ok(records.len())
}
