// The end of a run: what it leaves in the lent buffers.
#![tactic(auto)]

ghost use Rattle.std.specs.Prelude.{◌≡◌, ◌≤◌, ℕ, List};
ghost use Rattle.protocol.specs.Format.{workers_limit};
ghost use Rattle.protocol.specs.Turns.{none_left};
ghost use Rattle.journal.specs.Ends.{end_as};
ghost use Rattle.ending.specs.Ending.{all_over, end_when, Closing, Closed};

use format::fates;
use format::limits::WORKERS_LIMIT;
use journal::ends::End;
use journal::log::clear_behind;
use journal::report::{Counts, write_report};

// Whether each of the workers has exited, failed or never been started, by the codes of fates.
fn all_over(fates: &[u64; WORKERS_LIMIT], workers: u8) -> bool
    requires { workers ≤ workers_limit }
    ensures { result ≡ all_over fates.now workers 0 }
{
    fates[..workers as usize]
        .iter()
        .all(|code| matches!(*code, fates::EXITED..=fates::ASLEEP))
}

// The plan has ended where nobody is left in this round's list.
// `ended` is a fact of the round's list, of which an End is made here, and no switch on which step to run.
fn end_of(ended: bool, fates: &[u64; WORKERS_LIMIT], workers: u8) -> End
    requires { workers ≤ workers_limit }
    ensures { end_as result ≡ end_when ended fates.now workers }
{
    if !ended {
        End::UnderWay
    } else if all_over(fates, workers) {
        End::Finished
    } else {
        End::Stuck
    }
}

// The log's rest is cleared, and the report is written. Of this round's list nothing is asked but whether nobody is left in it.
// Each is a part of the report and comes from another place: a struct of them would be made for this call alone.
pub fn close_buffers(
    ended: bool,
    c: Counts,
    fates: &[u64; WORKERS_LIMIT],
    workers: u8,
    sum: u32,
    log: &mut [u8],
    report: &mut [u8],
)
    requires { Closing c workers log.old report.old }
    ensures { (list : List ℕ) → ended ≡ none_left list → Closed list c fates.now workers sum log.old log.new report.new }
{
    let end = end_of(ended, fates, workers);
    clear_behind(log, c.records);
    write_report(report, u8::from(end), workers, c, fates, sum);
}
