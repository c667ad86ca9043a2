// Plan after plan, each to its end.
ghost use Rattle.std.specs.Prelude.{◌≡◌, length, ◌*◌, ◌<◌};
ghost use Rattle.protocol.specs.Calls.{work_length};
ghost use Rattle.engine.specs.Turning.{cycle_turns};
ghost use Rattle.protocol.specs.WellFormed.{Fitting, EvenlyLent};
ghost use Rattle.tampermauve.specs.Run.{lent};
ghost use Rattle.tampermauve.specs.All.{batch, turn_at, Stretched, answer_for, RanAlone, RanPlans};

use crate::perform::perform;
use admission::batch::LENGTH_BYTES;
use engine::onward::{CYCLES, STRETCH};
use format::limits::WORKERS_LIMIT;
use journal::log::LOG_LENGTH;
use journal::report::REPORT_LENGTH;
use pages::MEMORY_LENGTH;
use plan::answer::Refused;
use plan::check::check;
use words::long_at;

// The turns from which a run to the end chooses: cycles of all workers, then a stretch of each worker.
fn turn_at(i: usize) -> u8
    requires { i < 2 * cycle_turns }
    ensures { result ≡ turn_at i }
{
    if i < CYCLES {
        (i % WORKERS_LIMIT) as u8
    } else {
        ((i - CYCLES) / STRETCH) as u8
    }
}

fn fill_stretches(turns: &mut [u8])
    requires { length turns.old ≡ 2 * cycle_turns }
    ensures { Stretched turns.new }
{
    for (i, turn) in turns.iter_mut().enumerate() {
        *turn = turn_at(i);
    }
}

// Runs one plan to its end. A refused plan changes no byte.
// The buffers go one by one, as C lends them and as `perform` takes them.
fn run_plan(
    file: &[u8],
    turns: &[u8],
    memory: &mut [u8],
    log: &mut [u8],
    report: &mut [u8],
    work: &mut [u8],
) -> Result<(), Refused>
    requires { Stretched turns.now × Fitting (lent memory.old log.old report.old work.old) }
    ensures { RanAlone file.now (lent memory.old log.old report.old work.old) (answer_for result)
        memory.new log.new report.new work.new }
{
    let layout = check(file)?;
    perform(file, &layout, turns, true, memory, log, report, work);
    Ok(())
}

// A plan's byte: 0, or the number of its refusal without the index.
// A byte and no Result: it goes into the buffer of answers, which is C's.
fn answer(ran: Result<(), Refused>) -> u8
    ensures { result ≡ answer_for ran }
{
    match ran {
        Ok(()) => 0,
        Err(refused) => refused.refusal as u8,
    }
}

// Runs all plans, in order. Whether one of them was accepted, so that work is to be cleared.
// The count and the flat buffers are C's; docs/PROMISES.md names this function.
pub fn run_plans(
    count: usize,
    files: &[u8],
    lengths: &[u8],
    memories: &mut [u8],
    logs: &mut [u8],
    reports: &mut [u8],
    answers: &mut [u8],
    work: &mut [u8],
) -> bool
    requires evenly_lent { EvenlyLent count files.now lengths.now (batch memories.old logs.old reports.old answers.old work.old) }
    requires work_len { length work.old ≡ work_length }
    ensures { RanPlans files.now lengths.now count
        (batch memories.old logs.old reports.old answers.old work.old) result
        (batch memories.new logs.new reports.new answers.new work.new) }
{
    let mut turns = [0u8; 2 * CYCLES];
    fill_stretches(&mut turns);
    let mut accepted = false;
    let mut at = 0;
    for k in 0..count {
        let end = at + long_at(lengths, LENGTH_BYTES * k) as usize;
        // The parts are cut by index: after a loan of chunks_exact_mut nothing is known of the elements.
        let memory = MEMORY_LENGTH * k;
        let log = LOG_LENGTH * k;
        let report = REPORT_LENGTH * k;
        let memory_end = memory + MEMORY_LENGTH;
        let log_end = log + LOG_LENGTH;
        let report_end = report + REPORT_LENGTH;
        let ran = run_plan(
            &files[at..end],
            &turns,
            &mut memories[memory..memory_end],
            &mut logs[log..log_end],
            &mut reports[report..report_end],
            work,
        );
        answers[k] = answer(ran);
        accepted |= ran.is_ok();
        at = end;
    }
    accepted
}
