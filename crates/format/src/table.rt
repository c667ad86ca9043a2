// The operand ranges: one row per op.
ghost use Rattle.std.specs.Prelude.{◌≡◌, option_copied};
ghost use Rattle.protocol.specs.Format.{table};
ghost use Rattle.format.specs.Table.{limits, limits_for, place_in};

use crate::{limits, ops};

// An op, the largest register, and the smallest and the largest number. All are of one width: a row is eight bytes.
#[derive(Clone, Copy, PartialEq, Eq)]
pub struct Row {
    pub op: u16,
    pub registers: u16,
    pub least: u16,
    pub most: u16,
}

pub const ROW_COUNT: usize = 15;

// Where the rows of the ops that synchronise begin.
const FIRST_SYNC: usize = 7;

const LAST_REGISTER: u16 = limits::REGISTER_COUNT - 1;

// A static: as a constant it would be made anew at each use.
static ROWS: [Row; ROW_COUNT] = [
    Row {
        op: ops::SET as u16,
        registers: LAST_REGISTER,
        least: 0,
        most: limits::VALUE_LIMIT,
    },
    Row {
        op: ops::LOAD as u16,
        registers: LAST_REGISTER,
        least: 0,
        most: limits::ADDRESS_LIMIT,
    },
    Row {
        op: ops::STORE as u16,
        registers: LAST_REGISTER,
        least: 0,
        most: limits::ADDRESS_LIMIT,
    },
    Row {
        op: ops::ADD as u16,
        registers: LAST_REGISTER,
        least: 0,
        most: LAST_REGISTER,
    },
    Row {
        op: ops::SUBTRACT as u16,
        registers: LAST_REGISTER,
        least: 0,
        most: LAST_REGISTER,
    },
    Row {
        op: ops::SKIP_ZERO as u16,
        registers: LAST_REGISTER,
        least: 1,
        most: limits::SKIP_LIMIT,
    },
    Row {
        op: ops::SKIP_NONZERO as u16,
        registers: LAST_REGISTER,
        least: 1,
        most: limits::SKIP_LIMIT,
    },
    Row {
        op: ops::LOCK as u16,
        registers: 0,
        least: 0,
        most: limits::LOCK_LIMIT,
    },
    Row {
        op: ops::UNLOCK as u16,
        registers: 0,
        least: 0,
        most: limits::LOCK_LIMIT,
    },
    Row {
        op: ops::WAIT as u16,
        registers: 0,
        least: 0,
        most: limits::CONDITION_LIMIT,
    },
    Row {
        op: ops::SIGNAL as u16,
        registers: 0,
        least: 0,
        most: limits::CONDITION_LIMIT,
    },
    Row {
        op: ops::BROADCAST as u16,
        registers: 0,
        least: 0,
        most: limits::CONDITION_LIMIT,
    },
    Row {
        op: ops::BARRIER as u16,
        registers: 0,
        least: 0,
        most: limits::BARRIER_COUNT as u16 - 1,
    },
    Row {
        op: ops::EXIT as u16,
        registers: 0,
        least: 0,
        most: 0,
    },
    Row {
        op: ops::START as u16,
        registers: 0,
        least: 0,
        most: limits::WORKERS_LIMIT as u16 - 1,
    },
];

// The rows, in the order of the definitions' table. They are lent, so that `row_of` can lend one of them.
pub fn rows() -> &'static [Row; ROW_COUNT]
    ensures { result.now ≡ limits }
{
    &ROWS
}

// The place of an op's row, if the op has one.
pub fn place(op: u8) -> Option<usize>
    ensures { result ≡ place_in table op }
{
    match op {
        ops::SET..=ops::SKIP_NONZERO => Some((op - ops::SET) as usize),
        ops::LOCK..=ops::START => Some((op - ops::LOCK) as usize + FIRST_SYNC),
        _ => None,
    }
}

// An op's row, if the op has one. Called, it would double the instructions of the check.
#[inline(always)]
pub fn row_of(op: u8) -> Option<&'static Row>
    ensures { option_copied result ≡ limits_for op }
{
    let at = place(op)?;
    Some(&rows()[at])
}
