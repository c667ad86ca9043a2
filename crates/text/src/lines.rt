// The lines of a listing.
ghost use Rattle.std.specs.Prelude.{[], ◌∷◌, ◌++◌, ◌*◌, ◌/◌, ◌%◌, ◌≤◌, length};
ghost use Rattle.protocol.specs.Report.{entry_length};
ghost use Rattle.protocol.specs.Listing.{space, record_line, log_lines, end_word, refusal_line};
ghost use Rattle.text.specs.Text.{record_line_limit, end_word_limit, end_line_limit, refusal_line_limit, room, WroteWithin, entry_at, entries_from, end_numbered, last_line};

use crate::Text;
use journal::ends::End;
use journal::log::{
    ENTRY_LENGTH, ENTRY_NUMBER, ENTRY_OP, ENTRY_OUTCOME, ENTRY_ROUND, ENTRY_WORKER,
};
use journal::report::{REPORT_END, REPORT_LENGTH, REPORT_MOVES};
use words::word_at;

// The most bytes of a record's line, and of the last line.
pub const RECORD_LINE_LIMIT: usize = 22;

pub const END_LINE_LIMIT: usize = 15;

impl<'a> Text<'a> {
    // A record's round, worker, op, number and outcome.
    fn write_record(&mut self, entry: &[u8; ENTRY_LENGTH])
        requires { record_line_limit ≤ room self.old }
        ensures { WroteWithin record_line_limit self.old (record_line (entry_at entry.now 0)) self.new }
    {
        self.write_line(&[
            u64::from(word_at(entry, ENTRY_ROUND)),
            u64::from(entry[ENTRY_WORKER]),
            u64::from(entry[ENTRY_OP]),
            u64::from(entry[ENTRY_NUMBER]),
            u64::from(entry[ENTRY_OUTCOME]),
        ]);
    }

    // A line for each of so many records.
    // The whole log and its count of records, as the call left them.
    pub fn write_log(&mut self, log: &[u8], records: usize)
        requires records_in_bounds { entry_length * records ≤ length log.now }
        requires enough_room { record_line_limit * records ≤ room self.old }
        ensures { WroteWithin (record_line_limit * records) self.old (log_lines (entries_from log.now records 0)) self.new }
    {
        for entry in log[..ENTRY_LENGTH * records].as_chunks::<ENTRY_LENGTH>().0 {
            self.write_record(entry);
        }
    }

    // How a plan that has ended did so.
    // By the byte and no End: a TryFrom would have one answer more, for bytes that no report has, and this is the only test.
    fn write_end_word(&mut self, end: u8)
        requires { end_word_limit ≤ room self.old }
        ensures { WroteWithin end_word_limit self.old (end_word (end_numbered end) ++ (space ∷ [])) self.new }
    {
        if end == End::Finished as u8 {
            self.write_bytes(b"finished ");
        } else {
            self.write_bytes(b"stuck ");
        }
    }

    // The end and the moving turns.
    pub fn write_end(&mut self, report: &[u8; REPORT_LENGTH])
        requires { end_line_limit ≤ room self.old }
        ensures { WroteWithin end_line_limit self.old (last_line report.now) self.new }
    {
        self.write_end_word(report[REPORT_END]);
        self.write_line(&[u64::from(word_at(report, REPORT_MOVES))]);
    }

    // The code is refusal + 256 × index.
    // The number is C's: the listing hands on what tampermauve_run returned.
    pub fn write_refusal(&mut self, code: u32)
        requires { refusal_line_limit ≤ room self.old }
        ensures { WroteWithin refusal_line_limit self.old (refusal_line (code % 256) (code / 256)) self.new }
    {
        self.write_bytes(b"refused ");
        self.write_line(&[u64::from(code % 256), u64::from(code / 256)]);
    }
}
