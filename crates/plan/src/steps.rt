// The step records, and where each worker's steps begin.
ghost use Rattle.std.specs.Prelude.{◌≡◌, ℕ, ◌+◌, ◌≤◌, ◌<◌, length, get_or, Some};
ghost use Rattle.protocol.specs.Format.{workers_limit};
ghost use Rattle.format.specs.Table.{limits_for};
ghost use Rattle.plan.specs.Answer.{refusal_of, rule_as};
ghost use Rattle.plan.specs.Reading.{file_of};
ghost use Rattle.plan.specs.Stepping.{outside_of, refuses_worker, read_steps, no_step, kept_operand_rule, kept_rule, StepsSoFar, StretchRead, StepsRead};

use crate::answer::{Refusal, Refused};
use crate::decode::{Record, decode};
use format::limits::{BARRIER_COUNT, RECORD_LENGTH, STEPS_LIMIT, WORKERS_LIMIT};
use format::ops;
use format::table::{Row, row_of};

// Whether an operand is out of its row's ranges.
fn outside(row: &Row, register: u8, number: u16) -> bool
    ensures { result ≡ outside_of row.now register number }
{
    row.registers < register as u16 || number < row.least || row.most < number
}

// Whether a worker is not below n, or falls. The last opened, whose steps most records are, is tested first.
fn bad_worker(worker: usize, n: usize, opened: usize) -> bool
    requires worker_bound { worker < 256 }
    requires opened_le_n { opened ≤ n }
    ensures { result ≡ refuses_worker n opened worker }
{
    worker + 1 != opened && (n <= worker || worker < opened)
}

// How many steps of a worker that does not fall have been read, at record i: the last worker's steps reach up to it.
fn steps_read(firsts: &[usize; WORKERS_LIMIT + 1], opened: usize, worker: usize, i: usize) -> usize
    requires worker_le_workers_limit { worker ≤ workers_limit }
    requires opened_bound { opened ≤ worker + 1 }
    requires worker_bound { worker < opened → get_or firsts.now worker 0 ≤ i }
    ensures { result ≡ read_steps firsts.now opened worker i }
{
    if worker + 1 == opened {
        i - firsts[worker]
    } else {
        0
    }
}

// The refusal of a record behind the sleep records whose op has no row.
fn no_step(op: u8) -> Refusal
    ensures { refusal_of result ≡ no_step op }
{
    match op {
        ops::PLAN_RECORD => Refusal::BadPlan,
        ops::BARRIER_RECORD => Refusal::BadBarrier,
        ops::SLEEP_RECORD => Refusal::BadSleep,
        _ => Refusal::BadOp,
    }
}

// The rule of a step's operands, whose op has the row: what the row says, and what the plan says, with n workers and these barriers.
fn operand_rule(row: &Row, r: Record, n: usize, sizes: &[u8; BARRIER_COUNT]) -> Result<(), Refusal>
    requires { limits_for r.op ≡ Some row.now }
    ensures { rule_as result ≡ kept_operand_rule n sizes.now r }
{
    if outside(row, r.register, r.number) {
        return Err(Refusal::BadOperand);
    }
    // Most steps are told by this test alone.
    if r.op < ops::BARRIER {
        return Ok(());
    }
    let at = r.number as usize;
    match r.op {
        ops::BARRIER if sizes[at] == 0 => Err(Refusal::NoSize),
        ops::START if n <= at => Err(Refusal::BadOperand),
        _ => Ok(()),
    }
}

// The rule of a step, whose op has the row.
// One caller has these seven, and no other function takes them together: a struct would be made for this call alone.
fn step_rule(
    row: &Row,
    r: Record,
    n: usize,
    opened: usize,
    sizes: &[u8; BARRIER_COUNT],
    firsts: &[usize; WORKERS_LIMIT + 1],
    i: usize,
) -> Result<(), Refusal>
    requires op_value { limits_for r.op ≡ Some row.now }
    requires n_le_workers_limit { n ≤ workers_limit }
    requires opened_le_n { opened ≤ n }
    requires by_index { (w : ℕ) → w < opened → get_or firsts.now w 0 ≤ i }
    ensures { rule_as result ≡ kept_rule n opened sizes.now firsts.now i r }
{
    let worker = r.worker as usize;
    if bad_worker(worker, n, opened) {
        return Err(Refusal::BadWorker);
    }
    if STEPS_LIMIT <= steps_read(firsts, opened, worker, i) {
        return Err(Refusal::TooManySteps);
    }
    operand_rule(row, r, n, sizes)
}

// Reads on from record `from` over steps of this worker whose operands are right, up to `end`: the record behind them. Most records are read
// here; what stops the reading is left to the general rule.
//
// Within `read_steps` its loop would keep its numbers in memory: the check of the longest file takes 47,332 instructions in place of 39,799.
// One caller has these six: a struct would be made for this call alone.
#[inline(never)]
fn read_stretch(
    records: &[[u8; RECORD_LENGTH]],
    from: usize,
    end: usize,
    worker: u8,
    n: usize,
    sizes: &[u8; BARRIER_COUNT],
) -> usize
    requires from_le_end { from ≤ end }
    requires end_in_bounds { end ≤ length records.now }
    ensures { StretchRead (file_of records.now) n sizes.now worker from end result }
{
    for i in from..end {
        let Some(r) = decode(&records[i]) else {
            return i;
        };
        if r.worker != worker {
            return i;
        }
        let Some(row) = row_of(r.op) else {
            return i;
        };
        let Ok(()) = operand_rule(row, r, n, sizes) else {
            return i;
        };
    }
    end
}

// Reads the records from `start` on, which are the steps, and notes where each worker's begin; from worker n on that is behind the last.
#[inline(always)]
pub fn read_steps(
    records: &[[u8; RECORD_LENGTH]],
    n: u8,
    sizes: &[u8; BARRIER_COUNT],
    start: usize,
    firsts: &mut [usize; WORKERS_LIMIT + 1],
) -> Result<(), Refused>
    requires steps_so_far { StepsSoFar (file_of records.now) (length records.now) n sizes.now start }
    requires firsts_len { length firsts.old ≡ workers_limit + 1 }
    ensures { StepsRead (file_of records.now) (length records.now) sizes.now start result firsts.new }
{
    let n = n as usize;
    let mut opened = 0usize;
    let mut i = start;
    // No `for`: the next record is the one behind the stretch that was read.
    while i < records.len() {
        let Some(r) = decode(&records[i]) else {
            return Err(Refusal::BadMark.at(i));
        };
        let Some(row) = row_of(r.op) else {
            return Err(no_step(r.op).at(i));
        };
        if let Err(refusal) = step_rule(row, r, n, opened, sizes, firsts, i) {
            return Err(refusal.at(i));
        }
        let worker = r.worker as usize;
        firsts[opened..=worker].fill(i);
        opened = worker + 1;
        let end = records.len().min(firsts[worker] + STEPS_LIMIT);
        i = read_stretch(records, i + 1, end, r.worker, n, sizes);
    }
    firsts[opened..].fill(records.len());
    Ok(())
}
