// A plan's listing: its run from zero memory, as lines of text.
#![tactic(auto)]

pub mod input;
mod run;
mod turns;

ghost use Rattle.std.specs.Prelude.{◌≡◌, ◌≤◌, length, replicate};
ghost use Rattle.protocol.specs.Calls.{check_code, memory_length};
ghost use Rattle.listed.specs.Listed.{listed_run};
ghost use Rattle.listed.specs.Text.{text_room, WroteListing};

use crate::run::run_listed;
use admission::ACCEPTED;
use journal::log::{ENTRIES_LIMIT, LOG_LENGTH};
use journal::report::{REPORT_LENGTH, REPORT_RECORDS};
use text::Text;
use text::lines::{END_LINE_LIMIT, RECORD_LINE_LIMIT};
use words::word_at;

// Room for any listing: a line for each record, and the last line.
pub const TEXT_ROOM: usize = RECORD_LINE_LIMIT * ENTRIES_LIMIT + END_LINE_LIMIT;

// What tampermauve_check returns, and how long the text is. Both for every file, since a refused one has a line too: a Result would say
// the length twice.
#[derive(Clone, Copy)]
pub struct Written {
    pub code: u32,
    pub length: usize,
}

// Writes a line for each record of the log, then how the plan ended and the moving turns. A file that is refused gives one line.
// Leaves an accepted plan's memory.
pub fn write_listing(file: &[u8], memory: &mut [u8], text: &mut [u8]) -> Written
    requires zero_memory { memory.old ≡ replicate memory_length 0 }
    requires enough_room { text_room ≤ length text.old }
    ensures { WroteListing file.now result memory.new text.old text.new }
{
    let mut log = [0u8; LOG_LENGTH];
    let mut report = [0u8; REPORT_LENGTH];
    let code = run_listed(file, memory, &mut log, &mut report);
    let mut lines = Text::new(text);
    if code != ACCEPTED {
        lines.write_refusal(code);
        let length = lines.as_bytes().len();
        return Written { code, length };
    }
    lines.write_log(&log, usize::from(word_at(&report, REPORT_RECORDS)));
    lines.write_end(&report);
    let length = lines.as_bytes().len();
    Written { code, length }
}

// Prints a listing. Returns what tampermauve_check does, and leaves an accepted plan's memory, whether or not all of it could be printed.
// A number and no Result: its clause says check_code.
pub fn list(rt: &impl Print, file: &[u8], memory: &mut [u8]) -> u32
    requires { memory.old ≡ replicate memory_length 0 }
    ensures code { result ≡ check_code file.now }
    ensures same_memory { result ≡ 0 → memory.new ≡ (listed_run file.now).memory }
{
    let mut text = [0u8; TEXT_ROOM];
    let Written { code, length } = write_listing(file, memory, &mut text);
    let _ = rt.write_all(&text[..length]);
    code
}
