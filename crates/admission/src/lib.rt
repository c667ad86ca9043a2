// Whether a call is admitted: a run, and a call with many plans.
#![tactic(auto)]

pub mod batch;
pub mod run;

// What a call that is not refused returns.
pub const ACCEPTED: u32 = 0;
