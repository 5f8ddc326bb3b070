// Arriving at the barrier, which may complete a round, on lent memory that holds a state in order.
// The contracts say in the words of the rules (specs/Steps.antt of the crate rules) what state the areas hold afterwards.
#![tactic(auto)]

ghost use Rattle.std.specs.Prelude.{◌≡◌};
ghost use Rattle.rules.specs.State.{mainframe};
ghost use Rattle.rules.specs.Steps.{at_barrier, all_learned, arrive};
ghost use Rattle.layout.specs.Areas.{clocks_in, state_in};
ghost use Rattle.layout.specs.inner.Needed.{Acts, Holds};
ghost use Rattle.step_collect.specs.inner.Effects.{CountedKept};
ghost use Rattle.step_barrier.specs.inner.Needed.{ArrivesKept, CompleteKept, ClocksOfFirst, RoundThere};
ghost use Rattle.step_barrier.specs.inner.Effects.{HoldsClocks, RoundDone, completed};

use clock::{Clock, ProcessorId};
use layout::marks::{clear_arrived, is_wanted, mark_arrived, processor_count};
use layout::{learn, put_clock};
use step_collect::Moved;

// Arrive: closes the interval; the barrier's clock joins the processor's; the processor is marked. When the last processor arrives the
// round is completed. Yields how many records were applied then, and how many words they set.
pub fn arrive(
    p: ProcessorId,
    clocks: &mut [u8],
    words: &mut [u32],
    records: &mut [u8],
    marks: &mut [u8],
    index: &mut [u32],
) -> Moved
    requires { ArrivesKept clocks.old words.old records.old marks.old p.0 index.old }
    ensures { CountedKept (arrive mainframe (state_in mainframe clocks.old words.old records.old marks.old) p.0) result.count result.words clocks.new words.new records.new marks.new index.new }
{
    let last = barrier_marks::one_missing(marks);
    at_barrier(p, clocks, words, records, marks);
    if last {
        complete_round(clocks, words, records, marks, index)
    } else {
        Moved::default()
    }
}

// Closes the interval; the barrier's clock joins the processor's; the processor is marked.
fn at_barrier(
    p: ProcessorId,
    clocks: &mut [u8],
    words: &[u32],
    records: &mut [u8],
    marks: &mut [u8],
)
    requires { Acts clocks.old words.now records.old marks.old p.0 }
    ensures { Holds clocks.new words.now records.new marks.new (at_barrier (state_in mainframe clocks.old words.now records.old marks.old) p.0) }
{
    step_close::close(p, clocks, words, records, marks);
    learn(clocks, 0, p.0);
    mark_arrived(marks, p);
}

// Completes a round, and collects garbage if that is wanted. Yields how many records were applied, and how many words they set.
fn complete_round(
    clocks: &mut [u8],
    words: &mut [u32],
    records: &[u8],
    marks: &mut [u8],
    index: &mut [u32],
) -> Moved
    requires { CompleteKept clocks.old words.old records.now marks.old index.old }
    ensures { CountedKept (completed (state_in mainframe clocks.old words.old records.now marks.old)) result.count result.words clocks.new words.new records.now marks.new index.new }
{
    round_done(clocks, words, marks);
    if is_wanted(marks) {
        step_collect::collect(clocks, words, records, marks, index)
    } else {
        Moved::default()
    }
}

// The adds of the round are posted; every processor learns the barrier's clock, which returns to zeros, and the marks clear.
fn round_done(clocks: &mut [u8], words: &mut [u32], marks: &mut [u8])
    requires { RoundThere clocks.old words.old marks.old }
    ensures { RoundDone clocks.old words.old marks.old clocks.new words.new marks.new }
{
    let n = processor_count(marks);
    step_tally::post_all(words, n);
    all_learned(clocks, n);
    put_clock(clocks, 0, Clock::ZEROS);
    clear_arrived(marks);
}

// Every one of the first n processors learns the barrier's clock.
fn all_learned(clocks: &mut [u8], n: usize)
    requires { ClocksOfFirst clocks.old n }
    ensures { HoldsClocks clocks.new (all_learned (clocks_in mainframe clocks.old) n) }
{
    for k in 0..n {
        learn(clocks, k + 1, 0);
    }
}
