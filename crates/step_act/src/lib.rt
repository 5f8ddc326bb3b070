// What an accepted step does to the four areas of lent memory, by its kind, and what it answers. The index is kept by every step.
// Every contract determines the answer and what each area holds afterwards, by the rules' effect on the state that the areas hold.
#![tactic(auto)]

ghost use Rattle.rules.specs.State.{mainframe};
ghost use Rattle.rules.specs.Refusals.{step_of, action_of, effect};
ghost use Rattle.layout.specs.Areas.{state_in};
ghost use Rattle.step_fields.specs.Kinds.{number_of_kind};
ghost use Rattle.step_act.specs.inner.Needed.{ActingKept, DoneKept};

use clock::ProcessorId;
use limits::Refusal;
use step_access::Answered;
use step_fields::Kind;

// What a step answers: its value, its count and how many words it moved where it was done, else its refusal.
pub type Outcome = Result<Answered, Refusal>;

// What a step answers of which there is nothing to say but that it was done.
const NOTHING: Answered = Answered {
    value: 0,
    count: 0,
    words: 0,
};

// What an accepted step does, by its kind.
#[tactic(auto, using(crate::proofs::ActingOnShared::acting_laws))]
pub fn act(
    kind: Kind,
    p: ProcessorId,
    object: usize,
    value: u32,
    clocks: &mut [u8],
    words: &mut [u32],
    records: &mut [u8],
    marks: &mut [u8],
    index: &mut [u32],
) -> Outcome
    requires { ActingKept clocks.old words.old records.old marks.old (number_of_kind kind) p.0 object value index.old }
    ensures { DoneKept (effect mainframe (state_in mainframe clocks.old words.old records.old marks.old) p.0 (action_of (step_of (number_of_kind kind) p.0 object value))) result clocks.new words.new records.new marks.new index.new }
{
    match kind {
        Kind::Read => Ok(step_access::read_word(p, object, clocks, words, records, marks, index)),
        Kind::Write => {
            Ok(step_access::write_word(p, object, value, clocks, words, records, marks, index))
        }
        Kind::Acquire => {
            step_lock::acquire(p, object, clocks, words, records, marks);
            Ok(NOTHING)
        }
        Kind::Release => {
            step_lock::release(p, object, clocks, words, records, marks);
            Ok(NOTHING)
        }
        Kind::Arrive => {
            let moved = step_barrier::arrive(p, clocks, words, records, marks, index);
            Ok(Answered {
                value: 0,
                count: moved.count,
                words: moved.words,
            })
        }
        Kind::Want => {
            barrier_marks::want(marks);
            Ok(NOTHING)
        }
        Kind::TallyAdd => {
            step_tally::add_to(words, p, object, value);
            Ok(NOTHING)
        }
        Kind::TallyRead => {
            let total = step_tally::total_of(words, p, object);
            Ok(Answered {
                value: total,
                ..NOTHING
            })
        }
        Kind::Enqueue => {
            step_queue::enqueue(p, value, clocks, words, records, marks);
            Ok(NOTHING)
        }
        Kind::Dequeue => {
            let job = step_queue::dequeue(p, clocks, words, records, marks);
            Ok(Answered {
                value: job,
                ..NOTHING
            })
        }
    }
}
