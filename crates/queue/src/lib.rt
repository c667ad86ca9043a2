// An ordered list of at most eight worker numbers, each below 16, in three numbers. Callers know it by its list alone.
#![tactic(auto)]

ghost use Rattle.std.specs.Prelude.{ℕ, Bool, true, ◌+◌, ◌≤◌, ◌<◌, not, ◌≡◌, [], ◌∷◌, ◌++◌, eqb, length, get_or, drop};
ghost use Rattle.std.specs.Iterator.{item_count};
ghost use Rattle.protocol.specs.Format.{workers_limit, up_to};
ghost use Rattle.protocol.specs.Rounds.{keep, member, without};
ghost use Rattle.protocol.specs.Turns.{none_left};
ghost use Rattle.queue.specs.List.{Below, set_all, AllWorkers, YieldsWorker};

use format::limits::WORKERS_LIMIT;
use std::marker::Model;

// Base-16 digits, the first worker lowest; unit is 16 to the power of len. An array of bytes with a length took 1.7 times as long.
// Below stays in contracts: as an invariant it would ask more of `cons`, which takes any w < 16 (docs/PROMISES.md names it).
#[derive(Clone, Copy)]
pub struct Queue {
    digits: u64,
    unit: u64,
    len: u64,
}

impl Model for Queue {
    ghost use Rattle.std.specs.Prelude.{List, ℕ};

    ghost Value = { List ℕ };

    ghost use Rattle.queue.specs.Digits.{list_of, IsQueue, made_of, made_of-list_of};

    ghost view = { list_of };

    ghost invariant = { IsQueue };

    ghost inverse = { made_of };

    ghost inverse_ok = { made_of-list_of };
}

impl Queue {
    // Apart from `one`: two constructors, of three numbers each.
    pub fn empty() -> Queue
        ensures { result ≡ [] }
    {
        Queue {
            digits: 0,
            unit: 1,
            len: 0,
        }
    }

    pub fn one(w: u64) -> Queue
        requires { w < 16 }
        ensures { result ≡ w ∷ [] }
    {
        Queue {
            digits: w,
            unit: 16,
            len: 1,
        }
    }

    pub fn is_empty(self) -> bool
        ensures { result ≡ none_left self }
    {
        self.len == 0
    }

    pub fn count(self) -> u64
        ensures value { result ≡ length self }
        ensures few { result ≤ workers_limit }
    {
        self.len
    }

    pub fn first(self) -> u64
        requires { 0 < length self }
        ensures value { result ≡ get_or self 0 0 }
        ensures digit { result < 16 }
    {
        self.digits % 16
    }

    // All but the first.
    pub fn rest(self) -> Queue
        requires { 0 < length self }
        ensures { result ≡ drop 1 self }
    {
        Queue {
            digits: self.digits / 16,
            unit: self.unit / 16,
            len: self.len - 1,
        }
    }

    pub fn append(self, behind: Queue) -> Queue
        requires { length self + length behind ≤ workers_limit }
        ensures { result ≡ self ++ behind }
    {
        Queue {
            digits: self.digits + self.unit * behind.digits,
            unit: self.unit * behind.unit,
            len: self.len + behind.len,
        }
    }

    pub fn push(self, w: u64) -> Queue
        requires { (length self < workers_limit) × (w < 16) }
        ensures { result ≡ self ++ (w ∷ []) }
    {
        self.append(Queue::one(w))
    }

    pub fn cons(self, w: u64) -> Queue
        requires { (length self < workers_limit) × (w < 16) }
        ensures { result ≡ w ∷ self }
    {
        Queue::one(w).append(self)
    }

    // Those of workers 0 to n - 1 whose entry is the key.
    pub fn among(n: u64, entries: &[u64; WORKERS_LIMIT], entry: u64) -> Queue
        requires { n ≤ workers_limit }
        ensures { result ≡ keep (λ w. eqb (get_or entries.now w 0) entry) (up_to n) }
    {
        let mut q = Queue::empty();
        for i in 0..n {
            if entries[i as usize] == entry {
                q = q.push(i);
            }
        }
        q
    }

    // Those that pass a test.
    fn kept<F: Fn(u64) -> bool>(self, test: F) -> Queue
        requires { (w : ℕ) → member w self ≡ true → F.pre test w }
        ensures { (p : ℕ → Bool) → ((w : ℕ) (r : Bool) → F.post test w r → r ≡ p w) → result ≡ keep p self }
    {
        let mut kept = Queue::empty();
        for w in self {
            if test(w) {
                kept = kept.push(w);
            }
        }
        kept
    }

    // All but one worker.
    pub fn remove(self, w: u64) -> Queue
        ensures { result ≡ without (w ∷ []) self }
    {
        self.kept(|v| v != w)
    }

    // Those whose entry is the key.
    pub fn select(self, entries: &[u64; WORKERS_LIMIT], entry: u64) -> Queue
        requires { Below workers_limit self }
        ensures { result ≡ keep (λ w. eqb (get_or entries.now w 0) entry) self }
    {
        self.kept(|w| entries[w as usize] == entry)
    }

    // Those whose entry is not the key.
    // Beside select: docs/PROMISES.md names both. The scan of the two is one, `kept`.
    pub fn reject(self, entries: &[u64; WORKERS_LIMIT], entry: u64) -> Queue
        requires { Below workers_limit self }
        ensures { result ≡ keep (λ w. not (eqb (get_or entries.now w 0) entry)) self }
    {
        self.kept(|w| entries[w as usize] != entry)
    }

    // Gives each of these workers the entry.
    pub fn set_all<T: Copy>(self, entries: &mut [T; WORKERS_LIMIT], entry: T)
        requires { Below workers_limit self }
        ensures { entries.new ≡ set_all entry self entries.old }
    {
        for w in self {
            entries[w as usize] = entry;
        }
    }
}

// What is left of a queue's workers, the first one first.
#[derive(Drop)]
pub struct Workers(Queue);

impl Model for Workers {
    ghost use Rattle.std.specs.Prelude.{List, ℕ};

    ghost Value = { List ℕ };

    ghost view = { λ workers. workers.0 };
}

impl Iterator for Workers {
    type Item = u64;

    ghost next_gives = { YieldsWorker };

    ghost remaining = { item_count (λ q. q) };

    fn next(&mut self) -> Option<u64> {
        let left = self.0;
        if left.is_empty() {
            return None;
        }
        self.0 = left.rest();
        Some(left.first())
    }
}

impl IntoIterator for Queue {
    type Item = u64;

    type IntoIter = Workers;

    ghost into_iter_gives = { AllWorkers };

    fn into_iter(self) -> Workers {
        // A queue's length is known where a field of it is used.
        let _ = &self.len;
        Workers(self)
    }
}
