// The run that is listed.
ghost use Rattle.std.specs.Prelude.{◌≡◌, length, replicate};
ghost use Rattle.protocol.specs.Calls.{memory_length, log_length, report_length};
ghost use Rattle.listed.specs.Listed.{RanToEnd};

use crate::turns::{ENDING_TURNS, write_turns};
use pages::WORK_LENGTH;
use tampermauve::tampermauve_run;

// Runs a plan from zero memory. Returns what tampermauve_run does.
// A number and no Result: docs/PROMISES.md says of it that it returns `check_code`.
pub fn run_listed(file: &[u8], memory: &mut [u8], log: &mut [u8], report: &mut [u8]) -> u32
    requires zero_memory { memory.old ≡ replicate memory_length 0 }
    requires whole_log { length log.old ≡ log_length }
    requires whole_report { length report.old ≡ report_length }
    ensures { RanToEnd file.now result memory.new log.new report.new }
{
    let mut turns = [0u8; ENDING_TURNS];
    let count = write_turns(file, &mut turns);
    let mut work = [0u8; WORK_LENGTH];
    tampermauve_run(file, &turns[..count], memory, log, report, &mut work)
}
