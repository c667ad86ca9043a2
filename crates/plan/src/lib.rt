// The plan file: its decoder, the check, and where each worker's steps begin.
#![tactic(auto)]

pub mod answer;
pub mod barriers;
pub mod check;
pub mod decode;
pub mod skips;
pub mod sleepers;
pub mod steps;
