// A worker's next step, and its own steps on the lent bytes.
// Memory, work and copied stay parameters, as in crate pages: in one struct own steps took 6 % more instructions.
#![tactic(auto)]

ghost use Rattle.std.specs.Prelude.{◌≡◌, ◌*◌, ◌<◌, ◌≤◌, length};
ghost use Rattle.protocol.specs.Ops.{op_load, op_store};
ghost use Rattle.protocol.specs.Format.{workers_limit, record_length, records_limit, steps_limit, address_limit};
ghost use Rattle.pages.specs.Copies.{Lent, copies_in, WorkerHolds};
ghost use Rattle.moves.specs.Moves.{fetched_as, read_by, OwnMoving, copies_left, OwnMoved};

use format::limits::RECORD_LENGTH;
use format::ops;
use pages::{SLOTS, load, store};
use plan::decode::{Record, body};
use worker::Worker;

// What stands behind a worker's last step.
const END: Record = Record {
    worker: 0,
    op: ops::EXIT,
    register: 0,
    number: 0,
};

// The record of the step at a worker's place, whose steps are the records from `first` to before `end`.
pub fn fetch(file: &[u8], first: usize, end: usize, place: usize) -> Record
    requires { (record_length * end ≤ length file.now) × (end ≤ records_limit) × (first ≤ end) × (place ≤ steps_limit) }
    ensures { result ≡ fetched_as file.now first end place }
{
    let at = first + place;
    if at < end {
        body(file, RECORD_LENGTH * at)
    } else {
        END
    }
}

// What a load reads; 0 for any other step.
// 0 and no Option: Worker::step, which docs/PROMISES.md names, takes a number whatever the step is.
fn loaded(r: Record, w: usize, memory: &[u8], work: &[u8], copied: &[bool; SLOTS]) -> u16
    requires { Lent memory.now work.now × (w < workers_limit) × (r.op ≡ op_load → r.number ≤ address_limit) }
    ensures { result ≡ read_by r.op memory.now (copies_in copied.now work.now w) r.number }
{
    if r.op != ops::LOAD {
        return 0;
    }
    load(memory, work, copied, w, r.number as usize)
}

// Stores what a store hands out; any other step leaves the copies alone.
fn keep(
    r: Record,
    outcome: Option<u16>,
    w: usize,
    memory: &[u8],
    work: &mut [u8],
    copied: &mut [bool; SLOTS],
)
    requires { Lent memory.now work.old × (w < workers_limit) × (r.op ≡ op_store → r.number ≤ address_limit) }
    ensures { WorkerHolds w
        (copies_left r.op outcome memory.now (copies_in copied.old work.old w) r.number)
        copied.old work.old copied.new work.new }
{
    if r.op != ops::STORE {
        return;
    }
    let Some(value) = outcome else {
        return;
    };
    store(memory, work, copied, w, r.number as usize, value);
}

// One own step.
// A load's value goes in and a store's comes out: in the paper's form a step is of the worker's record alone.
pub fn own_move(
    v: Worker,
    r: Record,
    w: usize,
    memory: &[u8],
    work: &mut [u8],
    copied: &mut [bool; SLOTS],
) -> Worker
    requires { Lent memory.now work.old × (w < workers_limit) × OwnMoving v r }
    ensures { OwnMoved v r w memory.now copied.old work.old copied.new work.new result }
{
    let read = loaded(r, w, memory, work, copied);
    let moved = v.step(r.op, r.register, r.number, read);
    keep(r, moved.outcome, w, memory, work, copied);
    moved.worker
}
