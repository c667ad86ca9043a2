// The limits of a plan and of its file.
pub const WORKERS_LIMIT: usize = 8;

pub const BARRIER_COUNT: usize = 8;

pub const SIZE_LIMIT: u16 = 8;

pub const STEPS_LIMIT: usize = 128;

pub const REGISTER_COUNT: u16 = 4;

// The greatest numbers of the operand table.
pub const VALUE_LIMIT: u16 = 65535;

pub const ADDRESS_LIMIT: u16 = 2046;

pub const LOCK_LIMIT: u16 = 15;

pub const CONDITION_LIMIT: u16 = 7;

pub const SKIP_LIMIT: u16 = 127;

// A record of the file: its length, where its parts stand behind the mark, and its mark as one number; and the longest file.
pub const RECORD_LENGTH: usize = 7;

pub const RECORD_WORKER: usize = 2;

pub const RECORD_OP: usize = 3;

pub const RECORD_REGISTER: usize = 4;

pub const RECORD_NUMBER: usize = 5;

pub const PLAN_MARK: u16 = 0x504D;

pub const FILE_LIMIT: usize = 7280;
