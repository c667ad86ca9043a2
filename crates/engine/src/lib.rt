// The engine: the moves of the workers, and a list of turns or a run to the end.
#![tactic(auto)]

pub mod hold;
pub mod onward;
pub mod own;
pub mod play;
pub mod state;
pub mod sync;
