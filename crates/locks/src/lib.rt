// The set of a worker's locks as one number: 2 ^ lock for each of them, and 65,536 for each as well. Empty is 0, and the size stands above
// the marks, so that neither is searched for.
#![tactic(auto)]

ghost use Rattle.std.specs.Prelude.{ℕ, ◌≤◌, true, false, ◌≡◌, List, ◌∷◌, length};
ghost use Rattle.protocol.specs.Format.{lock_limit};
ghost use Rattle.protocol.specs.Rounds.{member, remove};
ghost use Rattle.locks.specs.Set.{Shows, Held, Holding};

// No type with a Model: the list that a number shows hangs on the order of taking, so it is no function of the number.
const EACH: u64 = 65536;

// Held as an invariant would ask more of callers of holds and count, which docs/PROMISES.md names.
const MARK: u64 = 1;

// Whether the lock is held.
pub fn holds(held: u64, lock: u64) -> bool
    requires { lock ≤ lock_limit }
    ensures { (locks : List ℕ) → Shows held locks → result ≡ member lock locks }
{
    (held >> lock) % 2 == 1
}

// How many are held.
pub fn count(held: u64) -> u64
    ensures { (locks : List ℕ) → Shows held locks → result ≡ length locks }
{
    held / EACH
}

// Those held and one more, which is not among them.
pub fn with(held: u64, lock: u64) -> u64
    requires { (lock ≤ lock_limit) × Held held }
    ensures { (locks : List ℕ) → Shows held locks → member lock locks ≡ false → Shows result (lock ∷ locks) }
{
    held + (MARK << lock) + EACH
}

// Those held but for one of them.
pub fn without(held: u64, lock: u64) -> u64
    requires { Holding held lock }
    ensures { (locks : List ℕ) → Shows held locks → member lock locks ≡ true → Shows result (remove lock locks) }
{
    held - (MARK << lock) - EACH
}
