// The engine: a step on the four areas of lent memory that hold the state of one mainframe.
// Every contract determines the answer and what each area holds afterwards, by an equation with a definition of the rules.
// The areas stay four parameters: C lends four slices, and a struct of four `&mut` owes every contract a clause for each that it is the same one.
#![tactic(auto)]

ghost use Rattle.std.specs.Prelude.{◌≡◌, IfOk};
ghost use Rattle.limits.specs.Refused.{refusal_in};
ghost use Rattle.rules.specs.State.{mainframe};
ghost use Rattle.rules.specs.Refusals.{step_of};
ghost use Rattle.layout.specs.Areas.{state_in, areas};
ghost use Rattle.layout.specs.inner.Needed.{Ready};
ghost use Rattle.step_fields.specs.Kinds.{number_of_kind};
ghost use Rattle.step_collect.specs.inner.Needed.{ReadyKept};
ghost use Rattle.step_act.specs.Telling.{Tells};
ghost use Rattle.engine.specs.Promises.{answer_of, areas_after};
ghost use Rattle.engine.specs.inner.Needed.{Refusable, RefusalBy, SteppedAs, SteppedKept};

use clock::ProcessorId;
use layout::own_entry;
use limits::{FIRST_BOUND, INDEX_AREA, Refusal};
use step_act::Outcome;
use step_fields::{Kind, Step};

// A step on areas of any sizes and contents: refused as not in order where they are not, else what the step answers and does.
pub fn step(
    step: Step,
    clocks: &mut [u8],
    words: &mut [u32],
    records: &mut [u8],
    marks: &mut [u8],
) -> Outcome
    ensures answer { Tells result (answer_of (areas clocks.old words.old records.old marks.old) (step_of step.kind step.processor step.object step.value)) }
    ensures memory { areas clocks.new words.new records.new marks.new ≡ areas_after (areas clocks.old words.old records.old marks.old) (step_of step.kind step.processor step.object step.value) }
{
    if !inorder::in_order(clocks, words, records, marks) {
        return Err(Refusal::NotInOrder);
    }
    step_once(step, clocks, words, records, marks)
}

// A step on memory that is in order, with an index that lives as long as the call.
fn step_once(
    step: Step,
    clocks: &mut [u8],
    words: &mut [u32],
    records: &mut [u8],
    marks: &mut [u8],
) -> Outcome
    requires { Ready clocks.old words.old records.old marks.old }
    ensures { SteppedAs (state_in mainframe clocks.old words.old records.old marks.old) (step_of step.kind step.processor step.object step.value) result clocks.new words.new records.new marks.new }
{
    let mut index = fetch_index::new_index(marks);
    step_on(step, clocks, words, records, marks, &mut index)
}

// A step on memory that is in order, with an index that is kept: the refusals from 3 on, then what the accepted step does.
pub fn step_on(
    step: Step,
    clocks: &mut [u8],
    words: &mut [u32],
    records: &mut [u8],
    marks: &mut [u8],
    index: &mut [u32],
) -> Outcome
    requires { ReadyKept clocks.old words.old records.old marks.old index.old }
    ensures { SteppedKept (state_in mainframe clocks.old words.old records.old marks.old) (step_of step.kind step.processor step.object step.value) result clocks.new words.new records.new marks.new index.new }
{
    let kind = accepted_kind(step, clocks, marks, index)?;
    let p = ProcessorId(step.processor as usize);
    let object = step.object as usize;
    step_act::act(
        kind, p, object, step.value, clocks, words, records, marks, index,
    )
}

// The kind of a step that no row refuses, else its refusal: the rows up to 6 and 17 by one test; which of them refuses is asked only where one does.
fn accepted_kind(step: Step, clocks: &[u8], marks: &[u8], index: &[u32]) -> Result<Kind, Refusal>
    requires { Refusable clocks.now marks.now index.now }
    ensures refusal { RefusalBy clocks.now marks.now (step_of step.kind step.processor step.object step.value) (refusal_in result) }
    ensures kind { IfOk result (λ kind. number_of_kind kind ≡ step.kind) }
{
    let bounds = &index[FIRST_BOUND..INDEX_AREA];
    if !refusals::fits(step, marks, bounds) {
        return refusals::early_refusal(step, marks);
    }
    let kind = Kind::try_from(step.kind)?;
    let p = ProcessorId(step.processor as usize);
    let own = own_entry(clocks, p);
    refusals::late_refusal(step.kind, p, step.object as usize, own, marks)?;
    Ok(kind)
}
