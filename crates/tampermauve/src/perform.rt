// One plan, played and closed.
ghost use Rattle.tampermauve.specs.Run.{Performing, Performed};

use ending::close_buffers;
use engine::play::play;
use plan::check::Layout;

// Plays the turns of an accepted file, or runs it to its end, and leaves log and report. What is in work does not matter before or after.
// The buffers go one by one and in no struct: run_plans cuts them out of longer ones, and of a part that a struct's field lends nothing but its
// length is known after the loan. That leaves run_plans open.
// `whole` stays a bool, and the buffers stay parameters, for the reasons in onward.rt and state.rt of crate engine.
pub fn perform(
    file: &[u8],
    layout: &Layout,
    turns: &[u8],
    whole: bool,
    memory: &mut [u8],
    log: &mut [u8],
    report: &mut [u8],
    work: &mut [u8],
)
    requires { Performing file.now layout.now turns.now whole memory.old log.old report.old work.old }
    ensures { Performed file.now turns.now whole memory.old memory.new log.new report.new }
{
    let played = play(file, layout, turns, whole, memory, log, work);
    let t = played.schedule;
    let ended = t.lists.list.is_empty();
    close_buffers(
        ended,
        t.counts,
        &played.fates,
        layout.workers,
        t.sum,
        log,
        report,
    );
}
