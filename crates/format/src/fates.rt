// The codes by which the engine keeps fates: 0 going, 1 exited, 2 failed, 3 asleep, 4 + 2c on condition c, 5 + 2b at barrier b.
// The report shows other bytes for the last three (journal::report).
// Codes and no enum: what docs/PROMISES.md names takes any number, and `==` on an array of an enum took 1.9 times as long.
pub const GOING: u64 = 0;

pub const EXITED: u64 = 1;

pub const FAILED: u64 = 2;

pub const ASLEEP: u64 = 3;

pub const ON_CONDITION: u64 = 4;

pub const AT_BARRIER: u64 = 5;
