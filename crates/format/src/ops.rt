// The ops: those of the records that are no steps, and those of the paper's table, in its order.
// Bytes and no enum: code, header and definitions have one table, and an enum's TryFrom took 2.0 ns a byte against 0.39.
pub const PLAN_RECORD: u8 = 0;

pub const BARRIER_RECORD: u8 = 1;

pub const SLEEP_RECORD: u8 = 2;

pub const SET: u8 = 16;

pub const LOAD: u8 = 17;

pub const STORE: u8 = 18;

pub const ADD: u8 = 19;

pub const SUBTRACT: u8 = 20;

pub const SKIP_ZERO: u8 = 21;

pub const SKIP_NONZERO: u8 = 22;

// Those of the steps that synchronise: the list is in points.rt.
pub const LOCK: u8 = 32;

pub const UNLOCK: u8 = 33;

pub const WAIT: u8 = 34;

pub const SIGNAL: u8 = 35;

pub const BROADCAST: u8 = 36;

pub const BARRIER: u8 = 37;

pub const EXIT: u8 = 38;

pub const START: u8 = 39;
