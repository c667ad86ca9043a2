// Where a ruling moves workers between the three lists.
ghost use Rattle.std.specs.Prelude.{◌≡◌, List, ◌++◌, ℕ, ◌+◌, ◌<◌, length, drop};
ghost use Rattle.protocol.specs.Format.{workers_limit};
ghost use Rattle.protocol.specs.Rounds.{stays_in, joins_next, joins_waiting, without};
ghost use Rattle.rules.specs.Codes.{goes_of};
ghost use Rattle.rules.specs.declared.ruling.Moves.TheVariants.{Starts};
ghost use Rattle.rules.specs.Rules.{woken_of, joined_of, moved_of, ruling_of};
ghost use Rattle.decisions.specs.Moves.{Relisting, Parting, ListsMoving, ListsMoved};

use format::limits::WORKERS_LIMIT;
use queue::Queue;
use rules::fate::Fate;
use rules::ruling::{Goes, Moves, Ruling};

// This round's list, the next one's, and those who wait.
#[derive(Clone, Copy)]
pub struct Lists {
    pub list: Queue,
    pub next: Queue,
    pub waiting: Queue,
}

// This round's list after the step: the woken worker in front, and before it the holder, if it keeps the token.
pub fn list_after(list: Queue, moves: Moves, goes: Goes, h: u64) -> Queue
    requires { Relisting list moves h }
    ensures { result ≡ stays_in (goes_of goes) h ++ (woken_of moves ++ drop 1 list) }
{
    let rest = list.rest();
    let behind = match moves {
        Moves::Wakes(w) => rest.cons(w),
        Moves::Nobody | Moves::Joins(_) | Moves::Starts(_) => rest,
    };
    match goes {
        Goes::Keeps => behind.cons(h),
        Goes::Gives | Goes::Leaves(_) => behind,
    }
}

// The next round's list after the step: those who join it behind, and last the holder, if it gives up the token.
pub fn next_after(next: Queue, moves: Moves, goes: Goes, h: u64) -> Queue
    requires { (length next + length (joined_of moves) < workers_limit) × ((w : ℕ) → moves ≡ Starts w → w < 16) × (h < 16) }
    ensures { result ≡ next ++ (joined_of moves ++ joins_next (goes_of goes) h) }
{
    let joined = match moves {
        Moves::Joins(queued) => next.append(queued),
        Moves::Starts(w) => next.push(w),
        Moves::Nobody | Moves::Wakes(_) => next,
    };
    match goes {
        Goes::Gives => joined.push(h),
        Goes::Keeps | Goes::Leaves(_) => joined,
    }
}

// Those who go on waiting. Where some join the next list, they are those whose fate's code is the key.
fn stay(waiting: Queue, moves: Moves, fates: &[u64; WORKERS_LIMIT], code: u64) -> Queue
    requires { Parting waiting moves fates.now code }
    ensures { result ≡ without (moved_of moves) waiting }
{
    match moves {
        Moves::Wakes(w) => waiting.remove(w),
        Moves::Joins(_) => waiting.reject(fates, code),
        Moves::Nobody | Moves::Starts(_) => waiting,
    }
}

// A holder that leaves to wait is the last to wait. An arm for each case: with those of one answer together, a barrier took 2.3 % more
// instructions and a broadcast 3.3 %.
fn wait_last(waiting: Queue, goes: Goes, h: u64) -> Queue
    requires { (length waiting < workers_limit) × (h < 16) }
    ensures { result ≡ waiting ++ joins_waiting (goes_of goes) h }
{
    match goes {
        Goes::Keeps => waiting,
        Goes::Gives => waiting,
        Goes::Leaves(Fate::Going) => waiting,
        Goes::Leaves(Fate::Exited) => waiting,
        Goes::Leaves(Fate::Failed) => waiting,
        Goes::Leaves(Fate::Asleep) => waiting,
        Goes::Leaves(Fate::OnCondition(_)) => waiting.push(h),
        Goes::Leaves(Fate::AtBarrier(_)) => waiting.push(h),
    }
}

impl Lists {
    // The lists after the step of the holder h by this ruling. The key is the code of those who wait at the step's barrier.
    pub fn carry_out(self, r: &Ruling, h: u64, fates: &[u64; WORKERS_LIMIT], code: u64) -> Lists
        requires { ListsMoving self r.now.moves h fates.now code }
        ensures { (locks : List ℕ) → ListsMoved self (ruling_of r.now locks) h result }
    {
        Lists {
            list: list_after(self.list, r.moves, r.goes, h),
            next: next_after(self.next, r.moves, r.goes, h),
            waiting: wait_last(stay(self.waiting, r.moves, fates, code), r.goes, h),
        }
    }
}
