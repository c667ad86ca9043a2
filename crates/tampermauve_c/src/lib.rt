// The static library that C programs link: the three calls of `tampermauve` under the names of include/tampermauve.h, each with the same
// clauses. To C a slice is a pointer and a length.
// Answers as numbers, the count, and the buffers one by one are C's interface.
#![tactic(auto)]

ghost use Rattle.std.specs.Prelude.{◌≡◌};
ghost use Rattle.protocol.specs.Calls.{check_code};
ghost use Rattle.tampermauve.specs.Run.{lent, Ran};
ghost use Rattle.tampermauve.specs.All.{batch, RanAll};

// ACCEPTED for a plan file that is accepted, else the refusal + 256 × the index of its record.
#[unsafe(no_mangle)]
pub extern "C" fn tampermauve_check(file: &[u8]) -> u32
    ensures { result ≡ check_code file.now }
{
    tampermauve::tampermauve_check(file)
}

// Plays the turns. ACCEPTED for a run that is accepted, else as tampermauve_check, with no byte changed.
#[unsafe(no_mangle)]
pub extern "C" fn tampermauve_run(
    file: &[u8],
    turns: &[u8],
    memory: &mut [u8],
    log: &mut [u8],
    report: &mut [u8],
    work: &mut [u8],
) -> u32
    ensures { Ran file.now turns.now
        (lent memory.old log.old report.old work.old) result
        (lent memory.new log.new report.new work.new) }
{
    tampermauve::tampermauve_run(file, turns, memory, log, report, work)
}

// Runs so many plans, each to its end, and gives an answer for each. ACCEPTED, or the refusal of the whole call, with no byte changed.
#[unsafe(no_mangle)]
pub extern "C" fn tampermauve_run_all(
    count: usize,
    files: &[u8],
    lengths: &[u8],
    memories: &mut [u8],
    logs: &mut [u8],
    reports: &mut [u8],
    answers: &mut [u8],
    work: &mut [u8],
) -> u32
    ensures { RanAll count files.now lengths.now
        (batch memories.old logs.old reports.old answers.old work.old) result
        (batch memories.new logs.new reports.new answers.new work.new) }
{
    tampermauve::tampermauve_run_all(
        count, files, lengths, memories, logs, reports, answers, work,
    )
}
