// The plan file's format: its numbers, each under the name that it has in the definitions and in the header, and the table of operand
// ranges; and the codes of fates.
#![tactic(auto)]

pub mod fates;
pub mod limits;
pub mod ops;
pub mod points;
pub mod table;
