// The refusals 3 to 10 and 17 to 20 of a step, in the order of document 01's table: from the marks of a state in order and the own entry of the step's
// processor, and from nothing else. Every contract is an equation over the state that the marks alone show, with a definition of the rules
// or of specs/inner/Parts.antt and specs/inner/Bounds.antt.
#![tactic(auto)]

ghost use Rattle.std.specs.Prelude.{◌≡◌, ◌≤◌, length, if◌then◌else◌, IfOk};
ghost use Rattle.limits.specs.Limits.{processor_limit};
ghost use Rattle.limits.specs.Refused.{refusal_in};
ghost use Rattle.limits.specs.inner.Sizes.{bound_area, copy_limit, mark_area};
ghost use Rattle.rules.specs.State.{mainframe};
ghost use Rattle.rules.specs.InOrder.{present, dirty_pages};
ghost use Rattle.rules.specs.Refusals.{Write, holds_any, late_refusal};
ghost use Rattle.step_fields.specs.Kinds.{number_of_kind, Decodes};
ghost use Rattle.refusals.specs.inner.Parts.{seen, bound_of, fields_in_range, may_act, step_in_range, early_refusal, refusal_of_kind, records_to_come, room_if_all_dirty};
ghost use Rattle.refusals.specs.inner.Bounds.{is_in_bounds, marks_free};
ghost use Rattle.refusals.specs.inner.Needed.{MarksCountable, BoundsOf, FittingStep, WriteOf, PagesOf};

use clock::{PageId, ProcessorId};
use layout::marks::{
    has_arrived, holder_of, is_dirty, is_waiting, job_count, lock_count, page_count,
    processor_count, standing_count,
};
use limits::{
    COPY_LIMIT, FIRST_ARRIVED, FIRST_AWAITED, FIRST_DIRTY, FIRST_HOLDER, JOB_LIMIT, KIND_BOUNDS,
    KIND_LIMIT, LAST_INTERVAL, LOCK_LIMIT, PAGE_WIDTH, PROCESSOR_LIMIT, RECORD_LIMIT, Refusal,
    TALLY_LIMIT,
};
use step_fields::{Kind, Step};

// Whether no row from 3 to 6 refuses a step, nor 17, as one test: by the bounds of the kinds, flags multiplied.
#[tactic(auto, using(crate::proofs::Refusing::refusal_laws))]
pub fn fits(step: Step, marks: &[u8], bounds: &[u32]) -> bool
    requires marks_countable { MarksCountable marks.now }
    requires bounds_of { BoundsOf marks.now bounds.now }
    ensures { result ≡ step_in_range (seen marks.now) step.kind step.processor step.object step.value }
{
    fields_flag(step, bounds) * processor_flag(step.processor, marks) == 1
}

// Of rows 3 and 5: 1 where the object is below the bound of the kind, and the value not above its bound.
#[tactic(auto, using(crate::proofs::Refusing::refusal_laws))]
fn fields_flag(step: Step, bounds: &[u32]) -> u8
    requires { length bounds.now ≡ bound_area }
    ensures { result ≡ (if is_in_bounds bounds.now step.kind step.object step.value then 1 else 0) }
{
    let k = (step.kind as usize).min(KIND_LIMIT);
    u8::from(step.object < bounds[k]) * u8::from(step.value <= bounds[KIND_BOUNDS + k])
}

// Rows 4, 6 and 17: 1 where a processor is present, has not arrived and does not wait. Nobody's number less 1 wraps to a large one; behind
// the last processor's mark stands another, which does not count, since no processor is there.
#[tactic(auto, using(crate::proofs::Refusing::refusal_laws))]
fn processor_flag(processor: u32, marks: &[u8]) -> u8
    requires { MarksCountable marks.now }
    ensures { result ≡ (if may_act (seen marks.now) processor then 1 else 0) }
{
    let k = (processor as usize).wrapping_sub(1).min(PROCESSOR_LIMIT);
    u8::from(k < processor_count(marks)) * free_flag(k, marks)
}

// Of rows 6 and 17: 1 where neither mark at the place of a processor is set.
#[tactic(auto, unfolding(crate::specs::inner::Bounds::marks_free))]
fn free_flag(k: usize, marks: &[u8]) -> u8
    requires { (length marks.now ≡ mark_area) × (k ≤ processor_limit) }
    ensures { result ≡ (if marks_free marks.now k then 1 else 0) }
{
    u8::from(marks[FIRST_ARRIVED + k] == 0) * u8::from(marks[FIRST_AWAITED + k] == 0)
}

// The kind of a step that no row from 3 to 6 refuses, nor 17.
#[tactic(auto, using(crate::proofs::Refusing::refusal_laws))]
pub fn early_refusal(step: Step, marks: &[u8]) -> Result<Kind, Refusal>
    requires { MarksCountable marks.now }
    ensures refusal { refusal_in result ≡ early_refusal (seen marks.now) step.kind step.processor step.object step.value }
    ensures kind { IfOk result (λ kind. number_of_kind kind ≡ step.kind) }
{
    let kind = kind_of(step.kind)?;
    let processor = ProcessorId(step.processor as usize);
    if !is_present(processor, marks) {
        return Err(Refusal::AbsentProcessor);
    }
    if !fields_fit(kind, step.object as usize, step.value, marks) {
        return Err(Refusal::BadField);
    }
    if has_arrived(marks, processor) {
        return Err(Refusal::HasArrived);
    }
    if is_waiting(marks, processor) {
        return Err(Refusal::Waits);
    }
    Ok(kind)
}

// The kinds at their numbers; 0 and 7 have none.
const KINDS: [Option<Kind>; KIND_LIMIT] = [
    None,
    Some(Kind::Read),
    Some(Kind::Write),
    Some(Kind::Acquire),
    Some(Kind::Release),
    Some(Kind::Arrive),
    Some(Kind::Want),
    None,
    Some(Kind::TallyAdd),
    Some(Kind::TallyRead),
    Some(Kind::Enqueue),
    Some(Kind::Dequeue),
];

// The kind that a number stands for, by a table.
// Not by `Kind::try_from`: with its jump a forecast of reads takes 6 % longer.
#[tactic(auto, unfolding(rules::specs::Refusals::known_kind))]
fn kind_of(number: u32) -> Result<Kind, Refusal>
    ensures { Decodes number result }
{
    match KINDS.get(number as usize) {
        Some(Some(kind)) => Ok(*kind),
        _ => Err(Refusal::UnknownKind),
    }
}

// Whether a processor is one of those that the opening gave.
#[tactic(auto, unfolding(rules::specs::InOrder::present, crate::specs::inner::Parts::seen, layout::specs::Areas::state_in))]
fn is_present(processor: ProcessorId, marks: &[u8]) -> bool
    requires { MarksCountable marks.now }
    ensures { result ≡ present (seen marks.now) processor.0 }
{
    (1..=processor_count(marks)).contains(&processor.0)
}

// Whether the object is below the bound of the kind, and the value is 0 unless the kind uses it.
#[tactic(auto, unfolding(crate::specs::inner::Parts::fields_in_range))]
fn fields_fit(kind: Kind, object: usize, value: u32, marks: &[u8]) -> bool
    requires { MarksCountable marks.now }
    ensures { result ≡ fields_in_range (seen marks.now) (number_of_kind kind) object value }
{
    object < object_bound(kind, marks) && (kind.uses_value() || value == 0)
}

// How many objects a kind can have: 1 where none is used.
// Tests, not one match: the jumps of a match made the forecast a tenth slower, on one file past its bar.
#[tactic(auto, unfolding(crate::specs::inner::Parts::bound_of, crate::specs::inner::Parts::seen, layout::specs::Areas::state_in, rules::specs::State::mainframe))]
fn object_bound(kind: Kind, marks: &[u8]) -> usize
    requires { MarksCountable marks.now }
    ensures { result ≡ bound_of (seen marks.now) (number_of_kind kind) }
{
    if matches!(kind, Kind::Read | Kind::Write) {
        page_count(marks) * PAGE_WIDTH
    } else if matches!(kind, Kind::Acquire | Kind::Release) {
        lock_count(marks)
    } else if matches!(kind, Kind::TallyAdd | Kind::TallyRead) {
        TALLY_LIMIT
    } else {
        1
    }
}

// The row behind 17 that refuses a step that fits, each row for its kind. The kind is a number, since what is promised holds of unknown ones
// too: none of these rows refuses them.
pub fn late_refusal(
    kind: u32,
    processor: ProcessorId,
    object: usize,
    own: u8,
    marks: &[u8],
) -> Result<(), Refusal>
    requires { FittingStep marks.now kind processor.0 object }
    ensures { refusal_in result ≡ refusal_of_kind (seen marks.now) own kind processor.0 object }
{
    match Kind::try_from(kind) {
        Ok(kind) => late_of_kind(kind, processor, object, own, marks),
        Err(_) => Ok(()),
    }
}

// The same for a kind that is known.
#[tactic(auto, using(crate::proofs::Refusing::refusal_laws))]
fn late_of_kind(
    kind: Kind,
    processor: ProcessorId,
    object: usize,
    own: u8,
    marks: &[u8],
) -> Result<(), Refusal>
    requires { FittingStep marks.now (number_of_kind kind) processor.0 object }
    ensures { refusal_in result ≡ refusal_of_kind (seen marks.now) own (number_of_kind kind) processor.0 object }
{
    match kind {
        Kind::Read | Kind::Want | Kind::TallyAdd | Kind::TallyRead => Ok(()),
        Kind::Write => refusal_of_write(processor, object, own, marks),
        Kind::Acquire if holder_of(marks, object) == processor => Err(Refusal::HoldsAlready),
        Kind::Release if holder_of(marks, object) != processor => Err(Refusal::NotHolder),
        Kind::Arrive if holds_any(processor, marks) => Err(Refusal::ArrivesHolding),
        Kind::Enqueue if job_count(marks) == JOB_LIMIT => Err(Refusal::QueueFull),
        Kind::Dequeue if job_count(marks) == 0 => Err(Refusal::QueueEmpty),
        _ => Ok(()),
    }
}

// Whether a processor holds a lock: the marks of all locks are looked at, those of absent locks too, which are 0. One loop without a branch, and a
// byte as its sum.
#[tactic(auto, using(crate::proofs::Refusing::refusal_laws))]
fn holds_any(processor: ProcessorId, marks: &[u8]) -> bool
    requires { PagesOf marks.now processor.0 }
    ensures { result ≡ holds_any mainframe (seen marks.now) processor.0 }
{
    let own = processor.0 as u8;
    let mut held: u8 = 0;
    for l in 0..LOCK_LIMIT {
        held += u8::from(marks[FIRST_HOLDER + l] == own);
    }
    held != 0
}

// Rows 9 and 10, for a clean page: no interval is left, or no room for one record more.
#[tactic(auto, using(crate::proofs::Refusing::refusal_laws))]
fn refusal_of_write(
    processor: ProcessorId,
    word: usize,
    own: u8,
    marks: &[u8],
) -> Result<(), Refusal>
    requires { WriteOf marks.now processor.0 word }
    ensures { refusal_in result ≡ late_refusal mainframe (seen marks.now) own processor.0 (Write word 0) }
{
    if is_dirty(marks, processor, PageId(word / PAGE_WIDTH)) {
        return Ok(());
    }
    if own == LAST_INTERVAL {
        return Err(Refusal::NoIntervalLeft);
    }
    if !room_if_all_dirty(marks) && records_to_come(marks) == RECORD_LIMIT {
        return Err(Refusal::NoRecordLeft);
    }
    Ok(())
}

// Whether one record more has room whatever is dirty. Three marks say so, and mostly it is so: then no dirty page is counted.
#[tactic(auto, using(crate::proofs::Refusing::refusal_laws))]
fn room_if_all_dirty(marks: &[u8]) -> bool
    requires { MarksCountable marks.now }
    ensures { result ≡ room_if_all_dirty (seen marks.now) }
{
    standing_count(marks) + processor_count(marks) * page_count(marks) < RECORD_LIMIT
}

// The records that stand and those that closing may make: one for each dirty page.
#[tactic(auto, using(crate::proofs::Refusing::refusal_laws))]
fn records_to_come(marks: &[u8]) -> usize
    requires { MarksCountable marks.now }
    ensures { result ≡ records_to_come (seen marks.now) }
{
    standing_count(marks) + dirty_pages(marks)
}

// The dirty pages of all processors: every mark is looked at, those of absent processors and pages too, which are 0. One loop without a
// branch, and a byte as its sum, so that it becomes vector code.
#[tactic(auto, using(crate::proofs::Refusing::refusal_laws))]
pub fn dirty_pages(marks: &[u8]) -> usize
    requires { MarksCountable marks.now }
    ensures value { result ≡ dirty_pages (seen marks.now) }
    ensures upper_bound { result ≤ copy_limit }
{
    let mut sum: u8 = 0;
    for k in 0..COPY_LIMIT {
        sum += u8::from(marks[FIRST_DIRTY + k] != 0);
    }
    usize::from(sum)
}
