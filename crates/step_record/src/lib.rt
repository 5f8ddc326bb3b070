// The step in a record of eight bytes, taken, and what a step answers as words.
#![tactic(auto)]

ghost use Rattle.std.specs.Prelude.{◌≡◌, ◌∷◌, [], drop};
ghost use Rattle.rules.specs.State.{mainframe};
ghost use Rattle.layout.specs.Areas.{state_in};
ghost use Rattle.engine.specs.inner.Needed.{SteppedKept};
ghost use Rattle.step_fields.specs.Records.{step_from};
ghost use Rattle.step_act.specs.Telling.{told};
ghost use Rattle.step_record.specs.Answers.{answer_words};
ghost use Rattle.step_record.specs.inner.Needed.{StepThere};

use limits::ANSWER_WIDTH;
use step_act::Outcome;
use step_fields::Step;

// The step in the record from a place on, taken on memory that is in order, with an index that is kept.
pub fn step_record(
    bytes: &[u8],
    at: usize,
    clocks: &mut [u8],
    words: &mut [u32],
    records: &mut [u8],
    marks: &mut [u8],
    index: &mut [u32],
) -> Outcome
    requires { StepThere bytes.now at clocks.old words.old records.old marks.old index.old }
    ensures { SteppedKept (state_in mainframe clocks.old words.old records.old marks.old) (step_from (drop at bytes.now)) result clocks.new words.new records.new marks.new index.new }
{
    let step = Step::in_record(bytes, at);
    engine::step_on(step, clocks, words, records, marks, index)
}

// What a step answers, as four words: refusal, value, count and words.
#[tactic(auto, using(crate::proofs::Answering::answer_laws))]
pub fn answer_words(outcome: Outcome) -> [u32; ANSWER_WIDTH]
    ensures { result ≡ answer_words (told outcome ∷ []) }
{
    match outcome {
        Ok(answered) => [0, answered.value, answered.count, answered.words],
        Err(refusal) => [u32::from(refusal.number()), 0, 0, 0],
    }
}
