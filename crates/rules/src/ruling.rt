// The rule of each synchronising step.
ghost use Rattle.std.specs.Prelude.{◌≡◌, List, ℕ, ◌≤◌};
ghost use Rattle.protocol.specs.Ops.{op_broadcast};
ghost use Rattle.protocol.specs.Format.{workers_limit, lock_limit, by_name};
ghost use Rattle.protocol.specs.Rounds.{failure, lock_rule, unlock_rule, wait_rule, signal_rule, barrier_rule, exit_rule};
ghost use Rattle.locks.specs.Set.{Shows, Held};
ghost use Rattle.queue.specs.List.{Below};
ghost use Rattle.rules.specs.Codes.{condition_code, barrier_code};
ghost use Rattle.rules.specs.declared.ruling.Moves.TheVariants.{Nobody};
ghost use Rattle.rules.specs.Rules.{commit_alone, found, AtZero, Commits, Coherent, Met, Starting, Started, Asking, Means, Ruled};

use crate::fate::Fate;
use format::fates::ASLEEP;
use format::limits::{BARRIER_COUNT, WORKERS_LIMIT};
use format::ops;
use locks::{count, holds, with, without};
use queue::Queue;

// Outcomes that name neither a worker nor a count.
// Bytes and no enum: an outcome is the log's byte, a count or a worker as well, and an enum would only be turned into it.
pub const OUTCOME_QUEUED: u8 = 0;

pub const OUTCOME_STARTED: u8 = 1;

pub const OUTCOME_AWAKE: u8 = 253;

pub const OUTCOME_FAILED: u8 = 254;

pub const OUTCOME_NONE: u8 = 255;

// What becomes of the holder's copies.
#[derive(Clone, Copy)]
pub enum Uncommitted {
    Kept,
    Committed,
    Lost,
}

// Where the holder goes.
#[derive(Clone, Copy)]
pub enum Goes {
    Keeps,
    Gives,
    Leaves(Fate),
}

// Whom the step moves, but for the holder: the worker that it wakes goes directly behind the holder, those of a full barrier and a sleeper that
// is started join the next list.
#[derive(Clone, Copy)]
pub enum Moves {
    Nobody,
    Wakes(u64),
    Joins(Queue),
    Starts(u64),
}

#[derive(Clone, Copy)]
pub struct Ruling {
    pub bytes: Uncommitted,
    pub held: u64,
    pub goes: Goes,
    pub moves: Moves,
    pub outcome: u8,
}

// A commit, and nothing else.
fn committed(held: u64) -> Ruling
    ensures { result ≡ commit_alone held }
{
    Ruling {
        bytes: Uncommitted::Committed,
        held,
        goes: Goes::Keeps,
        moves: Moves::Nobody,
        outcome: OUTCOME_NONE,
    }
}

// Means and `calm` are the promise of each rule, on what it answers: no fact of a value that a type could hold.
fn failed(held: u64) -> Ruling
    ensures means { Means held result failure }
    ensures calm { result.moves ≡ Nobody }
{
    Ruling {
        bytes: Uncommitted::Lost,
        goes: Goes::Leaves(Fate::Failed),
        outcome: OUTCOME_FAILED,
        ..committed(held)
    }
}

// With count 0 give up the token, else run on; and commit, else keep the copies. Two functions, as the definitions have two (Rounds.antt).
#[tactic(auto, using(crate::proofs::Rulings::held_some))]
fn gives_at_zero(held: u64) -> Goes
    ensures { AtZero held result }
{
    if held == 0 { Goes::Gives } else { Goes::Keeps }
}

#[tactic(auto, using(crate::proofs::Rulings::held_some))]
fn commits_at_zero(held: u64) -> Uncommitted
    ensures { Commits held result }
{
    if held == 0 {
        Uncommitted::Committed
    } else {
        Uncommitted::Kept
    }
}

// Apart from unlock: two rules of the paper, each with its definition (lock_rule, unlock_rule).
fn lock(k: u64, held: u64) -> Ruling
    requires { (k ≤ lock_limit) × Held held }
    ensures means { Means held result (lock_rule by_name k) }
    ensures calm { result.moves ≡ Nobody }
{
    if holds(held, k) {
        return failed(held);
    }
    let after = with(held, k);
    Ruling {
        bytes: commits_at_zero(held),
        outcome: count(after) as u8,
        ..committed(after)
    }
}

fn unlock(k: u64, held: u64) -> Ruling
    requires { (k ≤ lock_limit) × Held held }
    ensures means { Means held result (unlock_rule by_name k) }
    ensures calm { result.moves ≡ Nobody }
{
    if !holds(held, k) {
        return failed(held);
    }
    let left = without(held, k);
    Ruling {
        bytes: commits_at_zero(left),
        goes: gives_at_zero(left),
        outcome: count(left) as u8,
        ..committed(left)
    }
}

// Apart from exit: two rules of the paper, each with its definition (wait_rule, exit_rule).
#[tactic(auto, using(crate::proofs::Rulings::held_some))]
fn wait(condition: u16, held: u64) -> Ruling
    ensures means { Means held result (wait_rule condition) }
    ensures calm { result.moves ≡ Nobody }
{
    if held == 0 {
        return failed(held);
    }
    Ruling {
        goes: Goes::Leaves(Fate::OnCondition(u64::from(condition))),
        ..committed(held)
    }
}

// `waiting` and `fates` stay two: the list goes by value in a Schedule, the fates are a field of Engine that is lent.
fn signal(condition: u16, held: u64, waiting: Queue, fates: &[u64; WORKERS_LIMIT]) -> Ruling
    requires { Below workers_limit waiting }
    ensures means { Means held result (signal_rule (found fates.now waiting (condition_code condition))) }
    ensures sound { Coherent condition 0 waiting fates.now result.moves }
{
    let goes = gives_at_zero(held);
    let queued = waiting.select(fates, Fate::OnCondition(u64::from(condition)).code());
    if queued.is_empty() {
        return Ruling {
            goes,
            ..committed(held)
        };
    }
    let first = queued.first();
    Ruling {
        goes,
        moves: Moves::Wakes(first),
        outcome: first as u8,
        ..committed(held)
    }
}

// Those who wait at barrier b; nobody, where all who wait are too few for it.
fn met(b: u16, size: u8, waiting: Queue, fates: &[u64; WORKERS_LIMIT]) -> Queue
    requires { Below workers_limit waiting }
    ensures { Met fates.now waiting (barrier_code b) size result }
{
    if waiting.count() + 1 < size as u64 {
        return Queue::empty();
    }
    waiting.select(fates, Fate::AtBarrier(u64::from(b)).code())
}

fn barrier(b: u16, size: u8, held: u64, waiting: Queue, fates: &[u64; WORKERS_LIMIT]) -> Ruling
    requires { Below workers_limit waiting }
    ensures means { Means held result (barrier_rule b size (found fates.now waiting (barrier_code b))) }
    ensures sound { Coherent b 0 waiting fates.now result.moves }
{
    if held != 0 {
        return failed(held);
    }
    let queued = met(b, size, waiting, fates);
    if queued.count() + 1 < size as u64 {
        return Ruling {
            goes: Goes::Leaves(Fate::AtBarrier(u64::from(b))),
            outcome: OUTCOME_QUEUED,
            ..committed(held)
        };
    }
    Ruling {
        goes: Goes::Gives,
        moves: Moves::Joins(queued),
        outcome: size,
        ..committed(held)
    }
}

#[tactic(auto, using(crate::proofs::Rulings::held_some))]
fn exit(held: u64) -> Ruling
    ensures means { Means held result exit_rule }
    ensures calm { result.moves ≡ Nobody }
{
    if held != 0 {
        return failed(held);
    }
    Ruling {
        goes: Goes::Leaves(Fate::Exited),
        ..committed(held)
    }
}

// A start of the target, asleep or not.
fn start(target: usize, held: u64, waiting: Queue, fates: &[u64; WORKERS_LIMIT]) -> Ruling
    requires { Starting target waiting fates.now }
    ensures { Started target held waiting fates.now result }
{
    if fates[target] != ASLEEP {
        return Ruling {
            outcome: OUTCOME_AWAKE,
            ..committed(held)
        };
    }
    Ruling {
        moves: Moves::Starts(target as u64),
        outcome: OUTCOME_STARTED,
        ..committed(held)
    }
}

// The rule of the step with this op and number, no broadcast, where these wait, each where its fate's code says.
// The op and its number, and no Record: that is a type of crate plan, which this crate does not use.
#[inline(always)]
pub fn rule(
    op: u8,
    number: u16,
    held: u64,
    sizes: &[u8; BARRIER_COUNT],
    waiting: Queue,
    fates: &[u64; WORKERS_LIMIT],
) -> Ruling
    requires { Asking op number held waiting fates.now × (op ≡ op_broadcast → ⊥) }
    ensures { (locks : List ℕ) → Shows held locks → Ruled op number locks sizes.now waiting fates.now result }
{
    let n = number as u64;
    match op {
        ops::LOCK => lock(n, held),
        ops::UNLOCK => unlock(n, held),
        ops::WAIT => wait(number, held),
        ops::BARRIER => barrier(number, sizes[number as usize], held, waiting, fates),
        ops::EXIT => exit(held),
        ops::START => start(number as usize, held, waiting, fates),
        _ => signal(number, held, waiting, fates),
    }
}
