// The host calls, which crate `tampermauve_c` exports to C.
// Answers as numbers, a count, and buffers one by one are C's interface: the exports hand them on with the same clauses.
#![tactic(auto)]

mod each;
mod perform;

ghost use Rattle.std.specs.Prelude.{◌≡◌};
ghost use Rattle.protocol.specs.Calls.{check_code};
ghost use Rattle.tampermauve.specs.Run.{lent, Ran};
ghost use Rattle.tampermauve.specs.All.{batch, RanAll};

use crate::each::run_plans;
use crate::perform::perform;
use admission::ACCEPTED;
use admission::batch::{BatchLengths, admit_batch};
use admission::run::{Lengths, admit};
use plan::answer::code;
use plan::check::check;

// ACCEPTED for a plan file that is accepted, else the refusal + 256 × the index of its record.
pub fn tampermauve_check(file: &[u8]) -> u32
    ensures { result ≡ check_code file.now }
{
    code(&check(file))
}

// Plays the turns. ACCEPTED for a run that is accepted, else as tampermauve_check, with no byte changed.
pub fn tampermauve_run(
    file: &[u8],
    turns: &[u8],
    memory: &mut [u8],
    log: &mut [u8],
    report: &mut [u8],
    work: &mut [u8],
) -> u32
    ensures { Ran file.now turns.now
        (lent memory.old log.old report.old work.old) result
        (lent memory.new log.new report.new work.new) }
{
    let lengths = Lengths {
        memory: memory.len(),
        log: log.len(),
        report: report.len(),
        work: work.len(),
    };
    let admitted = admit(file, turns, lengths);
    let Ok(layout) = &admitted else {
        return code(&admitted);
    };
    perform(file, layout, turns, false, memory, log, report, work);
    words::clear(work);
    ACCEPTED
}

// Runs so many plans, each to its end, and gives an answer for each. ACCEPTED, or the refusal of the whole call, with no byte changed.
pub fn tampermauve_run_all(
    count: usize,
    files: &[u8],
    lengths: &[u8],
    memories: &mut [u8],
    logs: &mut [u8],
    reports: &mut [u8],
    answers: &mut [u8],
    work: &mut [u8],
) -> u32
    ensures { RanAll count files.now lengths.now
        (batch memories.old logs.old reports.old answers.old work.old) result
        (batch memories.new logs.new reports.new answers.new work.new) }
{
    let lent = BatchLengths {
        files: files.len(),
        lengths: lengths.len(),
        memories: memories.len(),
        logs: logs.len(),
        reports: reports.len(),
        answers: answers.len(),
        work: work.len(),
    };
    if let Err(refusal) = admit_batch(count, lengths, lent) {
        return u32::from(refusal);
    }
    let accepted = run_plans(
        count, files, lengths, memories, logs, reports, answers, work,
    );
    if accepted {
        words::clear(work);
    }
    ACCEPTED
}
