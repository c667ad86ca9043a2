// Whether a run is admitted.
ghost use Rattle.std.specs.Prelude.{◌≡◌};
ghost use Rattle.protocol.specs.Calls as calls;
ghost use Rattle.admission.specs.Run.{unfit, Admits};

use journal::log::LOG_LENGTH;
use journal::report::REPORT_LENGTH;
use pages::{MEMORY_LENGTH, WORK_LENGTH};
use plan::answer::{Refusal, Refused};
use plan::check::{Layout, check};

pub const TURNS_LIMIT: usize = 65535;

// The lengths of the lent buffers.
#[derive(Clone, Copy, PartialEq, Eq)]
pub struct Lengths {
    pub memory: usize,
    pub log: usize,
    pub report: usize,
    pub work: usize,
}

const FITTING: Lengths = Lengths {
    memory: MEMORY_LENGTH,
    log: LOG_LENGTH,
    report: REPORT_LENGTH,
    work: WORK_LENGTH,
};

fn misfit(lent: Lengths) -> bool
    ensures { result ≡ unfit lent }
{
    lent != FITTING
}

// Whether a turn names no worker below n: the greatest tells. All are looked at: a loop without an early end is several times as fast.
fn names_nobody(turns: &[u8], n: u8) -> bool
    ensures { result ≡ calls.names_nobody n turns.now }
{
    match turns.iter().copied().max() {
        Some(most) => n <= most,
        None => false,
    }
}

// The tests in the paper's order: 11, 12, the file, 13. The layout of a file that is admitted.
pub fn admit(file: &[u8], turns: &[u8], lent: Lengths) -> Result<Layout, Refused>
    ensures { Admits file.now turns.now lent result }
{
    if misfit(lent) {
        return Err(Refusal::BadBuffer.at(0));
    }
    if TURNS_LIMIT < turns.len() {
        return Err(Refusal::TooManyTurns.at(0));
    }
    let layout = check(file)?;
    if names_nobody(turns, layout.workers) {
        return Err(Refusal::BadTurn.at(0));
    }
    Ok(layout)
}
