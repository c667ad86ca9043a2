// The log writer: it carries the lent log and its fill mark, the number of records that the log has.
#![tactic(auto)]

ghost use Rattle.std.specs.Prelude.{◌≡◌, ◌+◌};
ghost use Rattle.writer.specs.Appended.{Appending, Appended};

use journal::log::ENTRY_LENGTH;

// No ghost field for Appending: it is room for one record more, which a writer has not behind the log's last.
#[derive(Drop)]
pub struct LogWriter<'a> {
    pub log: &'a mut [u8],
    pub records: usize,
}

// Writes a record behind those that the log has.
// The log with its fill mark beside it: the paper's form, a covered function under the writer's append.
fn append_at(log: &mut [u8], records: usize, entry: &[u8; ENTRY_LENGTH])
    requires { Appending log.old records }
    ensures { Appended log.old records entry.now (records + 1) log.new }
{
    let at = ENTRY_LENGTH * records;
    log[at..at + ENTRY_LENGTH].copy_from_slice(entry);
}

impl<'a> LogWriter<'a> {
    // One record more in the same log.
    pub fn append(&mut self, entry: &[u8; ENTRY_LENGTH])
        requires { Appending self.old.log.now self.old.records }
        ensures appended { Appended self.old.log.now self.old.records entry.now self.new.records self.new.log.now }
        ensures same_log { self.new.log.ghost_name ≡ self.old.log.ghost_name }
    {
        append_at(self.log, self.records, entry);
        self.records += 1;
    }
}
