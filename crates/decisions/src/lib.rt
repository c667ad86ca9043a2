// The holder's step, decided by its rule: what that does to the lists and the fates, and the broadcast, which is decided by itself.
#![tactic(auto)]

pub mod broadcast;
pub mod decision;
pub mod fates;
pub mod lists;
