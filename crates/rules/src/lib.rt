// The rules of the synchronising steps as data, but for the broadcast's, and the fates that they give.
#![tactic(auto)]

pub mod fate;
pub mod ruling;
