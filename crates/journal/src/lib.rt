// The log and the report as bytes.
#![tactic(auto)]

pub mod ends;
pub mod log;
pub mod report;
