// The holder's synchronising step: decided by its rule, then written.
ghost use Rattle.std.specs.Prelude.{◌≡◌, ◌+◌, ◌*◌, ◌≤◌, ◌<◌};
ghost use Rattle.std.proofs.lemmas.List.Edits.{sets};
ghost use Rattle.protocol.specs.Format.{workers_limit, lock_limit};
ghost use Rattle.protocol.specs.Report.{entry_length, entry_bytes};
ghost use Rattle.protocol.specs.Sum.{sum_of};
ghost use Rattle.journal.specs.Bytes.{entry_as};
ghost use Rattle.writer.specs.Appended.{Appending};
ghost use Rattle.pages.specs.Copies.{Lent};
ghost use Rattle.engine.specs.Kept.{kept_of};
ghost use Rattle.engine.specs.Holding.{BytesSettled, head_of, lists_begun};
ghost use Rattle.engine.specs.Moving.{Syncing, Synced};

use crate::state::{Engine, Schedule};
use commits::commit;
use decisions::decision::decide;
use decisions::lists::Lists;
use format::limits::BARRIER_COUNT;
use journal::log::Entry;
use journal::report::Counts;
use pages::{SLOTS, discard};
use plan::decode::Record;
use queue::Queue;
use rules::ruling::Uncommitted;
use token::turn_over;
use writer::LogWriter;

// The holder's copies: kept, committed to shared memory, or lost. The sum of shared memory's words, moved by a commit.
// Memory, work and copied stay parameters, as in crate pages.
fn settle_bytes(
    bytes: Uncommitted,
    h: usize,
    memory: &mut [u8],
    work: &[u8],
    copied: &mut [bool; SLOTS],
    sum: u32,
) -> u32
    requires { Lent memory.old work.now × (h < workers_limit) × (sum ≡ sum_of memory.old) }
    ensures { BytesSettled bytes h sum memory.old copied.old work.now result memory.new copied.new }
{
    match bytes {
        Uncommitted::Kept => sum,
        Uncommitted::Committed => commit(memory, work, copied, h, sum),
        Uncommitted::Lost => {
            discard(copied, h);
            sum
        }
    }
}

// The first of a list, if there is one.
fn head(list: Queue) -> Option<u64>
    ensures { result ≡ head_of list }
{
    if list.is_empty() {
        None
    } else {
        Some(list.first())
    }
}

// The lists behind a step: where the next list begins the next round, it is this round's, and nobody is in the next.
fn begun(lists: Lists, next: Option<Queue>) -> Lists
    ensures { result ≡ lists_begun lists next }
{
    match next {
        Some(list) => Lists {
            list,
            next: Queue::empty(),
            ..lists
        },
        None => lists,
    }
}

// The step's record in the log, and the log's mark behind it.
// It makes the writer and takes the mark out of it, so that contracts above speak of no writer (docs/DECISIONS.md, 33).
fn record_step(
    r: Record,
    h: usize,
    outcome: u8,
    rounds: u64,
    records: usize,
    log: &mut [u8],
) -> usize
    requires { (h < workers_limit) × (r.number ≤ lock_limit) × (rounds < 65535) × Appending log.old records }
    ensures { (result ≡ records + 1)
        × (log.new
        ≡ sets log.old (entry_length * records) (entry_bytes (entry_as (rounds + 1) h r.op r.number outcome))) }
{
    let round = (rounds + 1) as u16;
    let entry = Entry {
        round,
        worker: h as u8,
        op: r.op,
        number: r.number as u8,
        outcome,
    };
    let mut writer = LogWriter { log, records };
    writer.append(&entry.to_bytes());
    writer.records
}

impl Engine {
    // The holder w's step: decided, then written.
    // The lent buffers stay parameters, for the reason in state.rt.
    pub fn hold(
        &mut self,
        r: Record,
        w: usize,
        t: Schedule,
        sizes: &[u8; BARRIER_COUNT],
        memory: &mut [u8],
        log: &mut [u8],
        work: &[u8],
    ) -> Schedule
        requires { (t.away ≡ 0) × Syncing r w t sizes.now (kept_of self.old memory.old log.old work.now) }
        ensures synced { Synced r w t sizes.now (kept_of self.old memory.old log.old work.now) result (kept_of self.new memory.new log.new work.now) }
        ensures same_registers { self.new.registers ≡ self.old.registers }
    {
        let locks = self.held[w];
        let counts = t.counts;
        let d = decide(r.op, r.number, w, locks, sizes, t.lists, &mut self.fates);
        let after = d.lists;
        let stepped = self.worker(w).synchronise(d.held, d.outcome);
        let v = stepped.worker;
        let sum = settle_bytes(d.bytes, w, memory, work, &mut self.copied, t.sum);
        let records = record_step(r, w, stepped.outcome, counts.rounds, counts.records, log);
        self.places[w] = v.place;
        self.held[w] = v.held;
        let round = turn_over(
            head(after.list),
            after.next,
            w,
            counts.rounds,
            &mut self.can,
        );
        Schedule {
            lists: begun(after, round.begun),
            away: round.away,
            counts: Counts {
                moves: counts.moves + 1,
                rounds: round.rounds,
                records,
            },
            sum,
        }
    }
}
