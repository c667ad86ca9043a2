// What a ruling makes of the fates' codes.
ghost use Rattle.std.specs.Prelude.{◌≡◌, List, ℕ, ◌<◌};
ghost use Rattle.protocol.specs.Format.{workers_limit};
ghost use Rattle.protocol.specs.Rounds.{fate_after};
ghost use Rattle.queue.specs.List.{Below, set_all};
ghost use Rattle.rules.specs.Codes.{fate_code, goes_of};
ghost use Rattle.rules.specs.Rules.{moved_of, ruling_of, Coded};
ghost use Rattle.decisions.specs.Fates.{FatesSettled};

use format::fates::GOING;
use format::limits::WORKERS_LIMIT;
use rules::ruling::{Goes, Moves, Ruling};

// The code of the holder's fate after its step.
pub fn code_after(goes: Goes) -> u64
    requires { Coded goes }
    ensures { result ≡ fate_code (fate_after (goes_of goes)) }
{
    match goes {
        Goes::Keeps | Goes::Gives => GOING,
        Goes::Leaves(fate) => fate.code(),
    }
}

// Those whom a ruling moves wait or sleep no more.
fn free_moved(fates: &mut [u64; WORKERS_LIMIT], moves: Moves)
    requires { Below workers_limit (moved_of moves) }
    ensures { fates.new ≡ set_all 0 (moved_of moves) fates.old }
{
    match moves {
        Moves::Nobody => {}
        Moves::Wakes(w) | Moves::Starts(w) => fates[w as usize] = GOING,
        Moves::Joins(queued) => queued.set_all(fates, GOING),
    }
}

// Those whom the step moves wait or sleep no more, and the holder h has its new fate.
pub fn settle_fates(fates: &mut [u64; WORKERS_LIMIT], r: &Ruling, h: usize)
    requires { (h < workers_limit) × Coded r.now.goes × Below workers_limit (moved_of r.now.moves) }
    ensures { (locks : List ℕ) → FatesSettled fates.old (ruling_of r.now locks) h fates.new }
{
    free_moved(fates, r.moves);
    fates[h] = code_after(r.goes);
}
