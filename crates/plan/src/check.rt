// The check of a plan file.
ghost use Rattle.std.specs.Prelude.{◌≡◌, replicate};
ghost use Rattle.protocol.specs.Format.{workers_limit};
ghost use Rattle.protocol.specs.Refusals.{wrong_length, wrong_plan};
ghost use Rattle.plan.specs.Answer.{record_of};
ghost use Rattle.format.specs.Fates.{code_going};
ghost use Rattle.plan.specs.Checking.{whole, CheckedAs};

use crate::answer::{Refusal, Refused};
use crate::barriers::read_barriers;
use crate::decode::{Record, decode};
use crate::skips::check_skips;
use crate::sleepers::read_sleepers;
use crate::steps::read_steps;
use format::fates::GOING;
use format::limits::{BARRIER_COUNT, FILE_LIMIT, RECORD_LENGTH, WORKERS_LIMIT};
use format::ops;

// What a run needs of an accepted file: the number of workers, the barriers' sizes, where each worker's steps begin, and the codes of the fates
// at first.
#[derive(Clone, Copy)]
pub struct Layout {
    pub firsts: [usize; WORKERS_LIMIT + 1],
    // Between the arrays: side by side the compiler copies the two as one, by memcpy.
    pub workers: u8,
    pub sizes: [u8; BARRIER_COUNT],
    pub fates: [u64; WORKERS_LIMIT],
}

// The short parts of a layout.
#[derive(Clone, Copy)]
struct Head {
    workers: u8,
    sizes: [u8; BARRIER_COUNT],
}

fn bad_length(bytes: usize) -> bool
    ensures { result ≡ wrong_length bytes }
{
    bytes == 0 || bytes % RECORD_LENGTH != 0 || FILE_LIMIT < bytes
}

// Apart from bad_barrier and bad_sleep: see barriers.rt.
fn bad_plan(r: Record) -> bool
    ensures { result ≡ wrong_plan (record_of r) }
{
    r.op != ops::PLAN_RECORD
        || r.worker < 1
        || WORKERS_LIMIT < r.worker as usize
        || r.register != 0
        || r.number != 0
}

// Reads a file: where each worker's steps begin and the codes of the fates at first go into the two arrays, the rest is the answer.
fn read_parts(
    file: &[u8],
    firsts: &mut [usize; WORKERS_LIMIT + 1],
    fates: &mut [u64; WORKERS_LIMIT],
) -> Result<Head, Refused>
    requires { fates.old ≡ replicate workers_limit code_going }
    ensures { CheckedAs file.now (whole result firsts.new fates.new) }
{
    let bytes = file.len();
    if bad_length(bytes) {
        return Err(Refusal::BadLength.at(0));
    }
    let (records, _) = file.as_chunks::<RECORD_LENGTH>();
    let Some(first) = decode(&records[0]) else {
        return Err(Refusal::BadMark.at(0));
    };
    if bad_plan(first) {
        return Err(Refusal::BadPlan.at(0));
    }
    let barriers = read_barriers(records)?;
    let sizes = barriers.sizes;
    let next = read_sleepers(records, first.worker, barriers.next, fates)?;
    read_steps(records, first.worker, &sizes, next, firsts)?;
    check_skips(records, firsts)?;
    Ok(Head {
        workers: first.worker,
        sizes,
    })
}

// The layout of a file that is accepted. It is put into its callers, and its arrays go into the layout one by one: a layout that a call
// hands back whole is so long that the compiler copies it by memcpy, which the archive would need besides.
#[inline(always)]
pub fn check(file: &[u8]) -> Result<Layout, Refused>
    ensures { CheckedAs file.now result }
{
    let mut firsts = [0usize; WORKERS_LIMIT + 1];
    let mut fates = [GOING; WORKERS_LIMIT];
    let Head { workers, sizes } = read_parts(file, &mut firsts, &mut fates)?;
    Ok(Layout {
        firsts,
        workers,
        sizes,
        fates,
    })
}
