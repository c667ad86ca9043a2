// The report's 20 bytes.
ghost use Rattle.std.specs.Prelude.{◌≡◌, length};
ghost use Rattle.protocol.specs.Format.{workers_limit};
ghost use Rattle.protocol.specs.Calls.{report_length};
ghost use Rattle.journal.specs.Bytes.{shown_by, fates_from, Narrowing, report_of};

use format::fates;
use format::limits::WORKERS_LIMIT;

// The bytes of its numbers up to the fates, and those of the sum.
const TALLIES_LENGTH: usize = 8;

const SUM_LENGTH: usize = 4;

// Where the report's parts stand.
pub const REPORT_END: usize = 0;

pub const REPORT_MOVES: usize = 2;

pub const REPORT_RECORDS: usize = 6;

pub const REPORT_FATES: usize = TALLIES_LENGTH;

pub const REPORT_SUM: usize = REPORT_FATES + WORKERS_LIMIT;

pub const REPORT_LENGTH: usize = REPORT_SUM + SUM_LENGTH;

// The bytes of fates that are not their codes (format::fates): one for any condition, one for any barrier, one for a sleeper, one for no worker.
// Bytes and no enum: they are C's (TAMPERMAUVE_FATE_.. of the header), written in one place and read nowhere here.
const SHOWN_ON_CONDITION: u8 = 3;

const SHOWN_AT_BARRIER: u8 = 4;

const SHOWN_ASLEEP: u8 = 5;

const NO_WORKER: u8 = 255;

// What a run counts: the turns that moved, the rounds that are completed, the records of the log.
#[derive(Clone, Copy)]
pub struct Counts {
    pub moves: u64,
    pub rounds: u64,
    pub records: usize,
}

// The byte of a worker's fate, by its code. The codes on conditions are even, those at barriers odd.
// By the code and no Fate: docs/PROMISES.md names this function, and it takes any number.
fn fate_byte(code: u64) -> u8
    ensures { result ≡ shown_by code }
{
    match code {
        0..=fates::FAILED => code as u8,
        fates::ASLEEP => SHOWN_ASLEEP,
        _ if code % 2 == 0 => SHOWN_ON_CONDITION,
        _ => SHOWN_AT_BARRIER,
    }
}

// The bytes of the workers' fates, and of those that there are not.
fn fate_bytes(fates: &[u64; WORKERS_LIMIT], workers: u8) -> [u8; WORKERS_LIMIT]
    ensures { result ≡ fates_from workers fates.now workers_limit 0 }
{
    let mut bytes = [NO_WORKER; WORKERS_LIMIT];
    for (w, byte) in bytes.iter_mut().enumerate() {
        if w < workers as usize {
            *byte = fate_byte(fates[w]);
        }
    }
    bytes
}

// Writes the report: end, number of workers, moving turns, rounds, log records, the eight fates, and the sum of shared memory's words.
// `end` is a byte and no End: docs/PROMISES.md names this function, and `report_of` says what any byte gives.
// Its six are the report's parts, each from another place: see ending::close_buffers.
pub fn write_report(
    report: &mut [u8],
    end: u8,
    workers: u8,
    c: Counts,
    fates: &[u64; WORKERS_LIMIT],
    sum: u32,
)
    requires narrowing { Narrowing c }
    requires report_len { length report.old ≡ report_length }
    ensures { report.new ≡ report_of end workers c fates.now sum }
{
    let moves = (c.moves as u16).to_le_bytes();
    let rounds = (c.rounds as u16).to_le_bytes();
    let records = (c.records as u16).to_le_bytes();
    report[..REPORT_FATES].copy_from_slice(&[
        end, workers, moves[0], moves[1], rounds[0], rounds[1], records[0], records[1],
    ]);
    report[REPORT_FATES..REPORT_SUM].copy_from_slice(&fate_bytes(fates, workers));
    report[REPORT_SUM..].copy_from_slice(&sum.to_le_bytes());
}
