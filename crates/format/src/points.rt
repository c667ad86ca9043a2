// Which ops synchronise.
ghost use Rattle.std.specs.Prelude.{◌≡◌};
ghost use Rattle.protocol.specs.Format.{synchronises};

use crate::ops;

// The first byte above the last op.
const ABOVE: u8 = ops::START + 1;

// A case for each op of the table, in its order. Beside one that synchronises stands the source's name of the point (document 003, section 2:
// "DTHREADS updates shared state only at synchronization points"). Bytes that name no op have two cases, the first and the last. The first
// stands apart, by an `if`: as a range among the others it leaves the compiler three comparisons in place of one.
pub fn synchronises(op: u8) -> bool
    ensures { result ≡ synchronises op }
{
    if ABOVE <= op {
        return true; // from 32 up, with no name
    }
    match op {
        ops::SET => false,
        ops::LOAD => false,
        ops::STORE => false,
        ops::ADD => false,
        ops::SUBTRACT => false,
        ops::SKIP_ZERO => false,
        ops::SKIP_NONZERO => false,
        ops::LOCK => true, // mutex lock
        ops::UNLOCK => true, // mutex unlock
        ops::WAIT => true, // condition variable wait
        ops::SIGNAL => true, // condition variable signal
        ops::BROADCAST => true, // the signal to all, cond_broadcast (2.4.2)
        ops::BARRIER => true, // barrier wait
        ops::EXIT => true, // thread exit
        ops::START => true, // thread create
        _ => false, // below 32, with no name
    }
}
