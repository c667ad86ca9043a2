// A record of the file.
ghost use Rattle.std.specs.Prelude.{◌≡◌, ◌+◌, ◌≤◌, length};
ghost use Rattle.protocol.specs.Format.{record_length, record_from};
ghost use Rattle.plan.specs.Answer.{body_of, decoded_of};

use format::limits::{
    PLAN_MARK, RECORD_LENGTH, RECORD_NUMBER, RECORD_OP, RECORD_REGISTER, RECORD_WORKER,
};
use words::word;

#[derive(Clone, Copy, PartialEq, Eq)]
pub struct Record {
    pub worker: u8,
    pub op: u8,
    pub register: u8,
    pub number: u16,
}

// The high byte of a record's number.
const NUMBER_HIGH: usize = RECORD_NUMBER + 1;

// What stands behind the mark of the record whose first byte is at a position.
// By a place and no array: the engine fetches a step by its place in the file, and docs/PROMISES.md names it.
pub fn body(file: &[u8], at: usize) -> Record
    requires { at + record_length ≤ length file.now }
    ensures { result ≡ body_of (record_from file.now at) }
{
    Record {
        worker: file[at + RECORD_WORKER],
        op: file[at + RECORD_OP],
        register: file[at + RECORD_REGISTER],
        number: word(file[at + RECORD_NUMBER], file[at + NUMBER_HIGH]),
    }
}

// The record of these bytes, if it has the mark.
// Each caller opens the answer by `let .. else`: the paper's form of a record that ends the reading.
pub fn decode(bytes: &[u8; RECORD_LENGTH]) -> Option<Record>
    ensures { result ≡ decoded_of (record_from bytes.now 0) }
{
    if word(bytes[0], bytes[1]) != PLAN_MARK {
        return None;
    }
    Some(body(bytes, 0))
}
