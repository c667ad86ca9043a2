// The skips: none may land further than just behind its worker's last step.
ghost use Rattle.std.specs.Prelude.{◌≡◌, true, ◌≤◌, ◌<◌, length};
ghost use Rattle.plan.specs.Answer.{verdict_of};
ghost use Rattle.plan.specs.Reading.{file_of, before};
ghost use Rattle.plan.specs.Skipping.{too_far, SkipChecking};
ghost use Rattle.protocol.specs.Format.{records_limit, workers_limit, is_skip};
ghost use Rattle.protocol.specs.Refusals.{check_skips};

use crate::answer::{Refusal, Refused};
use crate::decode::{Record, body};
use format::limits::{RECORD_LENGTH, WORKERS_LIMIT};
use format::ops;

fn is_skip(op: u8) -> bool
    ensures { result ≡ is_skip op }
{
    op == ops::SKIP_ZERO || op == ops::SKIP_NONZERO
}

// Whether record i is a skip that leaves its worker's steps.
fn too_far(r: Record, i: usize, firsts: &[usize; WORKERS_LIMIT + 1]) -> bool
    requires worker_lt_workers_limit { is_skip r.op ≡ true → r.worker < workers_limit }
    requires i_lt_records_limit { i < records_limit }
    ensures { result ≡ too_far firsts.now i r }
{
    is_skip(r.op) && firsts[r.worker as usize + 1] < i + 1 + r.number as usize
}

// The first skip too far, if there is one.
// As a function of its own, and `read_steps` likewise, the check of a small file takes 1,501 instructions in place of 1,467.
#[inline(always)]
pub fn check_skips(
    records: &[[u8; RECORD_LENGTH]],
    firsts: &[usize; WORKERS_LIMIT + 1],
) -> Result<(), Refused>
    requires few_records { length records.now ≤ records_limit }
    requires skip_checking { SkipChecking (file_of records.now) (length records.now) firsts.now }
    ensures { verdict_of result ≡ check_skips 0 (before (file_of records.now) (length records.now)) }
{
    for (i, record) in records.iter().enumerate() {
        if too_far(body(record, 0), i, firsts) {
            return Err(Refusal::SkipTooFar.at(i));
        }
    }
    Ok(())
}
