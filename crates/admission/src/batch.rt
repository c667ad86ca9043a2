// Whether a call with many plans is admitted.
ghost use Rattle.std.specs.Prelude.{◌≡◌, ◌*◌, ◌/◌, ◌≤◌, length};
ghost use Rattle.protocol.specs.Batch.{plans_limit, length_bytes, begins_at};
ghost use Rattle.protocol.specs.Refusals.{ruled, accepted};
ghost use Rattle.plan.specs.Answer.{rule_as};
ghost use Rattle.admission.specs.Plans.{unevenly, batch_for};

use journal::log::LOG_LENGTH;
use journal::report::REPORT_LENGTH;
use pages::{MEMORY_LENGTH, WORK_LENGTH};
use plan::answer::Refusal;

pub const PLANS_LIMIT: usize = 40;

// The bytes of one length.
pub const LENGTH_BYTES: usize = 4;

// The lengths of the buffers.
#[derive(Clone, Copy)]
pub struct BatchLengths {
    pub files: usize,
    pub lengths: usize,
    pub memories: usize,
    pub logs: usize,
    pub reports: usize,
    pub answers: usize,
    pub work: usize,
}

// Whether the count is out of range, or a buffer is not count times its unit. The files' bytes and work are not looked at.
fn uneven(count: usize, l: BatchLengths) -> bool
    ensures { result ≡ unevenly count l }
{
    count < 1
        || PLANS_LIMIT < count
        || l.lengths != LENGTH_BYTES * count
        || l.memories != MEMORY_LENGTH * count
        || l.logs != LOG_LENGTH * count
        || l.reports != REPORT_LENGTH * count
        || l.answers != count
}

// The bytes of all files: no sum of 40 lengths wraps.
fn add_up(lengths: &[u8]) -> usize
    requires { length lengths.now ≤ length_bytes * plans_limit }
    ensures { result ≡ begins_at lengths.now (length lengths.now / length_bytes) }
{
    let mut sum = 0;
    for bytes in lengths.as_chunks::<LENGTH_BYTES>().0 {
        sum += u32::from_le_bytes(*bytes) as usize;
    }
    sum
}

// The tests in the paper's order: 11, then 15.
// The count is C's number, and need not fit the lengths: whether it does is what is tested.
pub fn admit_batch(count: usize, lengths: &[u8], lent: BatchLengths) -> Result<(), Refusal>
    requires { lent.lengths ≡ length lengths.now }
    ensures { ruled (rule_as result) 0 accepted ≡ batch_for count lengths.now lent }
{
    if lent.work != WORK_LENGTH {
        return Err(Refusal::BadBuffer);
    }
    if uneven(count, lent) || add_up(lengths) != lent.files {
        return Err(Refusal::BadBatch);
    }
    Ok(())
}
