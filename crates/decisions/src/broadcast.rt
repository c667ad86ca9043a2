// A broadcast. It is decided by itself and not by a ruling that is carried out: with a mark for it in the ruling, every other step took up to
// a third more instructions.
ghost use Rattle.std.specs.Prelude.{ℕ, List};
ghost use Rattle.protocol.specs.Rounds.{broadcast_rule};
ghost use Rattle.locks.specs.Set.{Shows};
ghost use Rattle.rules.specs.Codes.{condition_code};
ghost use Rattle.rules.specs.Rules.{found};
ghost use Rattle.decisions.specs.Waking.{Rousing, HolderLists, AllWoken};
ghost use Rattle.decisions.specs.Deciding.{CarriedOut};

use crate::decision::Decision;
use crate::lists::Lists;
use format::fates::GOING;
use format::limits::WORKERS_LIMIT;
use queue::Queue;
use rules::fate::Fate;
use rules::ruling::Uncommitted;

// Of those who wait: those who are woken, and those who wait on.
#[derive(Clone, Copy)]
pub struct Roused {
    pub woken: Queue,
    pub left: Queue,
}

// Wakes all whose fate's code is this one.
fn rouse(waiting: Queue, fates: &mut [u64; WORKERS_LIMIT], code: u64) -> Roused
    requires { Rousing waiting }
    ensures { AllWoken waiting fates.old code result fates.new }
{
    let mut woken = Queue::empty();
    let mut left = Queue::empty();
    for v in waiting {
        if fates[v as usize] == code {
            fates[v as usize] = GOING;
            woken = woken.push(v);
        } else {
            left = left.push(v);
        }
    }
    Roused { woken, left }
}

// The holder h's broadcast to a condition. It keeps the token or gives it up, and is going in either case.
pub fn broadcast(
    condition: u16,
    h: usize,
    held: u64,
    lists: Lists,
    fates: &mut [u64; WORKERS_LIMIT],
) -> Decision
    requires { HolderLists h lists fates.old }
    ensures { (locks : List ℕ) → Shows held locks
        → CarriedOut lists fates.old (broadcast_rule (found fates.old lists.waiting (condition_code condition)) locks) h result fates.new }
{
    let code = Fate::OnCondition(u64::from(condition)).code();
    let roused = rouse(lists.waiting, fates, code);
    fates[h] = GOING;
    let woken = roused.woken;
    let waiting = roused.left;
    let behind = woken.append(lists.list.rest());
    let outcome = woken.count() as u8;
    let after = if held == 0 {
        Lists {
            list: behind,
            next: lists.next.push(h as u64),
            waiting,
        }
    } else {
        Lists {
            list: behind.cons(h as u64),
            next: lists.next,
            waiting,
        }
    };
    Decision {
        bytes: Uncommitted::Committed,
        held,
        outcome,
        lists: after,
    }
}
