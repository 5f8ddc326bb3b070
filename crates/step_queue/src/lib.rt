// Adding a job to the queue and removing the oldest one on lent memory that holds a state in order.
// The contracts say in the words of the rules (specs/Steps.antt of the crate rules) what state the areas hold afterwards.
#![tactic(auto)]

ghost use Rattle.std.specs.Prelude.{◌≡◌, ◌*◌};
ghost use Rattle.std.proofs.lemmas.List.Edits.{sets};
ghost use Rattle.limits.specs.inner.Sizes.{clock_width};
ghost use Rattle.rules.specs.State.{mainframe};
ghost use Rattle.rules.specs.Steps.{enqueue};
ghost use Rattle.layout.specs.Layout.{row_of};
ghost use Rattle.layout.specs.Areas.{job_row, state_in};
ghost use Rattle.layout.specs.inner.Needed.{Holds};
ghost use Rattle.step_queue.specs.inner.Needed.{ActsWithRoom, ActsOnJob, RoomFor, JobFor, JobClocks};
ghost use Rattle.step_queue.specs.inner.Effects.{JobLaid, JobTaken, Dequeued};

use clock::ProcessorId;
use layout::marks::first_job;
use layout::{clock_at, job_row, learn, put_clock};
use limits::FIRST_JOB_VALUE;

// Enqueue: closes the interval; the value and the processor's clock are the newest job's.
pub fn enqueue(
    p: ProcessorId,
    value: u32,
    clocks: &mut [u8],
    words: &mut [u32],
    records: &mut [u8],
    marks: &mut [u8],
)
    requires { ActsWithRoom clocks.old words.old records.old marks.old p.0 }
    ensures { Holds clocks.new words.new records.new marks.new (enqueue mainframe (state_in mainframe clocks.old words.old records.old marks.old) p.0 value) }
{
    step_close::close(p, clocks, words, records, marks);
    lay_job(p, value, clocks, words, marks);
}

// Dequeue: closes the interval; the oldest job is removed, the processor learns its clock, and its value is the answer.
pub fn dequeue(
    p: ProcessorId,
    clocks: &mut [u8],
    words: &[u32],
    records: &mut [u8],
    marks: &mut [u8],
) -> u32
    requires { ActsOnJob clocks.old words.now records.old marks.old p.0 }
    ensures { Dequeued (state_in mainframe clocks.old words.now records.old marks.old) p.0 result clocks.new words.now records.new marks.new }
{
    step_close::close(p, clocks, words, records, marks);
    take_job(p, clocks, words, marks)
}

// The value and the processor's clock are laid at the free place, and one job more waits.
fn lay_job(p: ProcessorId, value: u32, clocks: &mut [u8], words: &mut [u32], marks: &mut [u8])
    requires { RoomFor clocks.old words.old marks.old p.0 }
    ensures { JobLaid clocks.old words.old marks.old clocks.new words.new marks.new p.0 value }
{
    let place = queue_marks::free_place(marks);
    words[FIRST_JOB_VALUE + place] = value;
    tell_job(clocks, p, place);
    queue_marks::add_job(marks);
}

// The processor's clock joins the oldest job's, which is removed; its value.
fn take_job(p: ProcessorId, clocks: &mut [u8], words: &[u32], marks: &mut [u8]) -> u32
    requires { JobFor clocks.old words.now marks.old p.0 }
    ensures { JobTaken clocks.old words.now marks.old clocks.new marks.new p.0 result }
{
    let place = first_job(marks);
    learn(clocks, p.0, job_row(place));
    queue_marks::remove_job(marks);
    words[FIRST_JOB_VALUE + place]
}

// The clock at a place of the queue becomes the processor's.
fn tell_job(clocks: &mut [u8], p: ProcessorId, place: usize)
    requires { JobClocks clocks.old p.0 place }
    ensures { clocks.new ≡ sets clocks.old (clock_width * job_row mainframe place) (row_of clock_width clocks.old p.0) }
{
    let own = clock_at(clocks, p.0);
    put_clock(clocks, job_row(place), own);
}
