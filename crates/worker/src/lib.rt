// A worker's private record, its own steps, and what a synchronising step makes of it.
#![tactic(auto)]

ghost use Rattle.std.specs.Prelude.{◌≡◌, ◌<◌, ◌≤◌, slice_index};
ghost use Rattle.protocol.specs.Ops.{op_add, op_subtract};
ghost use Rattle.protocol.specs.Format.{register_count, steps_limit};
ghost use Rattle.worker.specs.Private.{registers_of, held_as, Replaced, result_of, skip_of, OwnStepping, OwnStepped};

pub mod registers;

use crate::registers::Registers;
use format::ops;

// held is the set of its locks as one number (`locks`).
#[derive(Clone, Copy)]
pub struct Worker {
    pub place: usize,
    pub held: u64,
    pub registers: Registers,
}

// A worker behind one of its steps, and what the step leaves to the caller: an own step the number to store, if it stores one, and a
// synchronising step the outcome that the log shows.
#[derive(Clone, Copy)]
pub struct Moved<T> {
    pub worker: Worker,
    pub outcome: T,
}

impl Worker {
    pub fn register(self, r: u8) -> u16
        requires { r < register_count }
        ensures { result ≡ slice_index (registers_of self) r }
    {
        self.registers.get(r)
    }

    pub fn with_register(self, r: u8, value: u16) -> Worker
        requires { r < register_count }
        ensures { Replaced self r value result }
    {
        Worker {
            registers: self.registers.set(r, value),
            ..self
        }
    }

    // What a step that sets a register puts there.
    #[tactic(auto, unfolding(crate::specs::Private::result_of))]
    fn result(self, op: u8, value: u16, number: u16, loaded: u16) -> u16
        requires { (op ≤ op_subtract) × (op_add ≤ op → number < register_count) }
        ensures { result ≡ result_of (registers_of self) op value number loaded }
    {
        match op {
            ops::LOAD => loaded,
            ops::ADD => value.wrapping_add(self.register(number as u8)),
            ops::SUBTRACT => value.wrapping_sub(self.register(number as u8)),
            _ => number,
        }
    }

    // A worker's own step. A load's value is handed in; a store's is handed out.
    // The parts and no Record: that is a type of crate plan, which this crate does not use.
    pub fn step(mut self, op: u8, register: u8, number: u16, loaded: u16) -> Moved<Option<u16>>
        requires { OwnStepping self op register number }
        ensures { OwnStepped self op register number loaded result }
    {
        // by a reference: copied whole, the worker would count as moved
        let value = (&self).register(register);
        self.place += 1;
        match op {
            ops::STORE => Moved {
                worker: self,
                outcome: Some(value),
            },
            ops::SKIP_ZERO | ops::SKIP_NONZERO => {
                self.place += skipped(op, value, number);
                Moved {
                    worker: self,
                    outcome: None,
                }
            }
            _ => {
                let result = self.result(op, value, number, loaded);
                Moved {
                    worker: self.with_register(register, result),
                    outcome: None,
                }
            }
        }
    }

    // A synchronising step, by its ruling: the place moves on, and these locks are held.
    pub fn synchronise(mut self, held: u64, outcome: u8) -> Moved<u8>
        requires { self.place ≤ steps_limit }
        ensures { result ≡ record { worker = held_as self held; outcome = outcome } }
    {
        self.place = self.place + 1;
        self.held = held;
        Moved {
            worker: self,
            outcome,
        }
    }
}

// How many steps a skip passes over.
#[tactic(auto, unfolding(crate::specs::Private::skip_of))]
fn skipped(op: u8, value: u16, number: u16) -> usize
    ensures { result ≡ skip_of op value number }
{
    if (op == ops::SKIP_ZERO) == (value == 0) {
        number as usize
    } else {
        0
    }
}
