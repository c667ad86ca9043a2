// The holder's synchronising step, decided: what becomes of its bytes and its locks, the lists and the fates after it, and its outcome.
ghost use Rattle.std.specs.Prelude.{ℕ, List};
ghost use Rattle.locks.specs.Set.{Shows};
ghost use Rattle.decisions.specs.Deciding.{Deciding, Decided};

use crate::broadcast::broadcast;
use crate::fates::settle_fates;
use crate::lists::Lists;
use format::limits::{BARRIER_COUNT, WORKERS_LIMIT};
use format::ops;
use rules::fate::Fate;
use rules::ruling::{Uncommitted, rule};

#[derive(Clone, Copy)]
pub struct Decision {
    pub bytes: Uncommitted,
    pub held: u64,
    pub outcome: u8,
    pub lists: Lists,
}

// Decides the step of the holder h with this op and number: a broadcast by itself, every other one by its ruling.
// The op and its number, and no Record: that is a type of crate plan, which this crate does not use.
pub fn decide(
    op: u8,
    number: u16,
    h: usize,
    held: u64,
    sizes: &[u8; BARRIER_COUNT],
    lists: Lists,
    fates: &mut [u64; WORKERS_LIMIT],
) -> Decision
    requires { Deciding op number h held lists fates.old }
    ensures { (locks : List ℕ) → Shows held locks → Decided op number h locks sizes.now lists fates.old result fates.new }
{
    if op == ops::BROADCAST {
        return broadcast(number, h, held, lists, fates);
    }
    let ruling = rule(op, number, held, sizes, lists.waiting, fates);
    let code = Fate::AtBarrier(u64::from(number)).code();
    let after = lists.carry_out(&ruling, h as u64, fates, code);
    settle_fates(fates, &ruling, h);
    // Three of the ruling's five parts: a struct of the three would be taken apart here and built anew by the broadcast.
    Decision {
        bytes: ruling.bytes,
        held: ruling.held,
        outcome: ruling.outcome,
        lists: after,
    }
}
