// The log: records of eight bytes each.
ghost use Rattle.std.specs.Prelude.{◌≡◌, ◌++◌, ◌-◌, ◌*◌, ◌≤◌, length, take, replicate};
ghost use Rattle.protocol.specs.Report.{entry_length, entry_bytes};
ghost use Rattle.journal.specs.Bytes.{entry_as};

use format::limits::{STEPS_LIMIT, WORKERS_LIMIT};

// The mark 4D 4C as one number, as wide as a record.
pub const LOG_MARK: u64 = 0x4C4D;

pub const ENTRY_LENGTH: usize = 8;

// Where a record's parts stand behind its mark.
pub const ENTRY_ROUND: usize = 2;

pub const ENTRY_WORKER: usize = 4;

pub const ENTRY_OP: usize = 5;

pub const ENTRY_NUMBER: usize = 6;

pub const ENTRY_OUTCOME: usize = 7;

// A worker synchronises with each of its steps at most, and once behind the last.
pub const ENTRIES_LIMIT: usize = WORKERS_LIMIT * (STEPS_LIMIT + 1);

pub const LOG_LENGTH: usize = ENTRY_LENGTH * ENTRIES_LIMIT;

// A record of the log but for its mark.
// Apart from plan::decode::Record: other parts, a round and an outcome, and no register.
#[derive(Clone, Copy)]
pub struct Entry {
    pub round: u16,
    pub worker: u8,
    pub op: u8,
    pub number: u8,
    pub outcome: u8,
}

impl Entry {
    pub fn to_bytes(self) -> [u8; ENTRY_LENGTH]
        ensures { result ≡ entry_bytes (entry_as self.round self.worker self.op self.number self.outcome) }
    {
        let mark = LOG_MARK.to_le_bytes();
        let round = self.round.to_le_bytes();
        [
            mark[0],
            mark[1],
            round[0],
            round[1],
            self.worker,
            self.op,
            self.number,
            self.outcome,
        ]
    }
}

// Clears what is behind the records.
// The log with its fill mark beside it: the paper's form, and docs/PROMISES.md names this function.
pub fn clear_behind(log: &mut [u8], records: usize)
    requires { entry_length * records ≤ length log.old }
    ensures { log.new ≡ take (entry_length * records) log.old ++ replicate (length log.old - entry_length * records) 0 }
{
    let at = ENTRY_LENGTH * records;
    words::clear(&mut log[at..]);
}
