// The forecast (document 02, L8) of an opening and of a step: the refusal, and what it does to the marks and to the own entries of the processors.
// There are no clocks, no words and no records in it. The own entry of processor p lies at p - 1.
// Every contract is an equation over the forecast that the two areas hold, with a definition of the rules (specs/Forecast.antt of the crate rules).
#![tactic(auto)]

ghost use Rattle.std.specs.Prelude.{◌≡◌, ◌≤◌, replicate, IfOk};
ghost use Rattle.std.proofs.lemmas.List.Edits.{sets};
ghost use Rattle.limits.specs.Limits.{page_limit};
ghost use Rattle.limits.specs.Refused.{refusal_in};
ghost use Rattle.rules.specs.State.{mainframe};
ghost use Rattle.rules.specs.Forecast.{forecast_refusal, closed_for, collected_for, forecast_after};
ghost use Rattle.rules.specs.Refusals.{Acquire, Release, Arrive, Enqueue, Dequeue, step_of, action_of};
ghost use Rattle.rules.proofs.inorder.KeptParts.{dirty_below};
ghost use Rattle.layout.specs.Areas.{dirty_place};
ghost use Rattle.layout.specs.inner.Marks.{page_count};
ghost use Rattle.layout.specs.inner.Needed.{MarksOf};
ghost use Rattle.step_fields.specs.Kinds.{number_of_kind};
ghost use Rattle.refusals.specs.inner.Needed.{PagesOf, WriteOf};
ghost use Rattle.refusals.specs.inner.Parts.{seen};
ghost use Rattle.forecast_step.specs.Memory.{forecast_in};
ghost use Rattle.forecast_step.specs.inner.Needed.{Foreseen, OpeningGiven, OpeningForeseen, MarksForeseen, FiguresShown, StepForeseen};
ghost use Rattle.forecast_step.specs.inner.Parts.{BothLent, ActsForeseen, LockForeseen, RoomForeseen, JobForeseen, ArrivalForeseen, AcceptedForeseen, Shows, PageWritten, round_completed};

use clock::{PageId, ProcessorId};
use layout::marks::{
    clear_arrived, dirty_place, is_dirty, is_wanted, mark_arrived, mark_dirty, put_standing_count,
    put_wanted, standing_count,
};
use limits::{PAGE_LIMIT, PAGE_WIDTH, Refusal};
use step_fields::{Kind, Step};

// What a line says of a forecast: how many records stand, and how many pages are dirty.
#[derive(Clone, Copy)]
pub struct Figures {
    pub standing: u32,
    pub dirty: u32,
}

// The opening in eight bytes: its refusal, or the forecast of the opened mainframe.
#[tactic(auto, using(crate::proofs::Opening::opening_laws))]
pub fn open(opening: &[u8], own: &mut [u8], marks: &mut [u8]) -> Result<(), Refusal>
    requires { OpeningGiven opening.now own.old marks.old }
    ensures { OpeningForeseen opening.now own.old marks.old (refusal_in result) own.new marks.new }
{
    if !opening::opening_fits(opening) {
        return Err(Refusal::BadOpening);
    }
    own.fill(0);
    opening::lay_marks(opening, marks);
    Ok(())
}

// The figures that the marks have.
#[tactic(auto, using(crate::proofs::Opening::figure_laws))]
pub fn figures_of(marks: &[u8]) -> Figures
    requires { MarksForeseen marks.now }
    ensures { FiguresShown marks.now result.standing result.dirty }
{
    Figures {
        standing: standing_count(marks) as u32,
        dirty: refusals::dirty_pages(marks) as u32,
    }
}

// A step: its refusal, or what the step does.
#[tactic(auto, using(crate::proofs::Stepping::step_laws))]
pub fn foresee(step: Step, own: &mut [u8], marks: &mut [u8]) -> Result<(), Refusal>
    requires { Foreseen own.old marks.old }
    ensures { StepForeseen own.old marks.old (step_of step.kind step.processor step.object step.value) (refusal_in result) own.new marks.new }
{
    let kind = refusal_of(step, own, marks)?;
    let p = ProcessorId(step.processor as usize);
    act(kind, p, step.object as usize, own, marks);
    Ok(())
}

// The kind of a step that no row refuses: the rows up to 6 and 17, then those of its kind, for which the own entry of its processor is read.
#[tactic(auto, using(crate::proofs::Stepping::refusal_laws))]
fn refusal_of(step: Step, own: &[u8], marks: &[u8]) -> Result<Kind, Refusal>
    requires { Foreseen own.now marks.now }
    ensures refusal { refusal_in result ≡ forecast_refusal mainframe (forecast_in own.now marks.now) (step_of step.kind step.processor step.object step.value) }
    ensures kind { IfOk result (λ kind. number_of_kind kind ≡ step.kind) }
{
    let kind = refusals::early_refusal(step, marks)?;
    let p = ProcessorId(step.processor as usize);
    refusals::late_refusal(step.kind, p, step.object as usize, own[p.0 - 1], marks)?;
    Ok(kind)
}

// What an accepted step does, by its kind. No step does anything with its value.
#[tactic(auto, using(crate::proofs::Acting::act_laws))]
fn act(kind: Kind, p: ProcessorId, object: usize, own: &mut [u8], marks: &mut [u8])
    requires { AcceptedForeseen own.old marks.old (number_of_kind kind) p.0 object }
    ensures { Shows own.new marks.new (forecast_after mainframe (forecast_in own.old marks.old) p.0 (action_of (step_of (number_of_kind kind) p.0 object 0))) }
{
    match kind {
        Kind::Read | Kind::TallyAdd | Kind::TallyRead => {}
        Kind::Write => write(p, object, marks),
        Kind::Acquire => acquire(p, object, own, marks),
        Kind::Release => release(p, object, own, marks),
        Kind::Arrive => arrive(p, own, marks),
        Kind::Want => barrier_marks::want(marks),
        Kind::Enqueue => enqueue(p, own, marks),
        Kind::Dequeue => dequeue(p, own, marks),
    }
}

// Write: a clean page becomes dirty.
#[tactic(auto, using(crate::proofs::Acting::write_laws))]
fn write(p: ProcessorId, word: usize, marks: &mut [u8])
    requires { WriteOf marks.old p.0 word }
    ensures { PageWritten marks.old marks.new p.0 word }
{
    let g = PageId(word / PAGE_WIDTH);
    if !is_dirty(marks, p, g) {
        mark_dirty(marks, p, g);
    }
}

// Acquire: closes the interval; a free lock is the processor's then, for one that is held it waits.
#[tactic(auto, using(crate::proofs::Locking::lock_laws))]
fn acquire(p: ProcessorId, lock: usize, own: &mut [u8], marks: &mut [u8])
    requires { LockForeseen own.old marks.old p.0 lock }
    ensures { Shows own.new marks.new (forecast_after mainframe (forecast_in own.old marks.old) p.0 (Acquire lock)) }
{
    close(p, own, marks);
    lock_line::ask(marks, lock, p);
}

// Release: closes the interval; the lock goes to the longest waiter, or has no holder.
#[tactic(auto, using(crate::proofs::Locking::lock_laws))]
fn release(p: ProcessorId, lock: usize, own: &mut [u8], marks: &mut [u8])
    requires { LockForeseen own.old marks.old p.0 lock }
    ensures { Shows own.new marks.new (forecast_after mainframe (forecast_in own.old marks.old) p.0 (Release lock)) }
{
    close(p, own, marks);
    lock_line::hand_on(marks, lock);
}

// Enqueue: closes the interval; one job more waits.
#[tactic(auto, using(crate::proofs::Queueing::queue_laws))]
fn enqueue(p: ProcessorId, own: &mut [u8], marks: &mut [u8])
    requires { RoomForeseen own.old marks.old p.0 }
    ensures { Shows own.new marks.new (forecast_after mainframe (forecast_in own.old marks.old) p.0 (Enqueue 0)) }
{
    close(p, own, marks);
    queue_marks::add_job(marks);
}

// Dequeue: closes the interval; the oldest job is removed.
#[tactic(auto, using(crate::proofs::Queueing::queue_laws))]
fn dequeue(p: ProcessorId, own: &mut [u8], marks: &mut [u8])
    requires { JobForeseen own.old marks.old p.0 }
    ensures { Shows own.new marks.new (forecast_after mainframe (forecast_in own.old marks.old) p.0 Dequeue) }
{
    close(p, own, marks);
    queue_marks::remove_job(marks);
}

// Arrive: closes the interval; the processor is marked. When the last processor arrives the round is completed.
#[tactic(auto, using(crate::proofs::Meeting::meet_laws))]
fn arrive(p: ProcessorId, own: &mut [u8], marks: &mut [u8])
    requires { ArrivalForeseen own.old marks.old p.0 }
    ensures { Shows own.new marks.new (forecast_after mainframe (forecast_in own.old marks.old) p.0 Arrive) }
{
    let last = barrier_marks::one_missing(marks);
    close(p, own, marks);
    mark_arrived(marks, p);
    if last {
        complete_round(own, marks);
    }
}

// Completes a round: the arrived marks clear; if collection is wanted, garbage is collected.
#[tactic(auto, using(crate::proofs::Meeting::round_laws))]
fn complete_round(own: &mut [u8], marks: &mut [u8])
    requires { BothLent own.old marks.old }
    ensures { Shows own.new marks.new (round_completed (forecast_in own.old marks.old)) }
{
    clear_arrived(marks);
    if is_wanted(marks) {
        collect(own, marks);
    }
}

// Garbage collection: no record stands, every own entry is 0, and the wish clears.
#[tactic(auto, using(crate::proofs::Meeting::collect_laws))]
fn collect(own: &mut [u8], marks: &mut [u8])
    requires { BothLent own.old marks.old }
    ensures { Shows own.new marks.new (collected_for (forecast_in own.old marks.old)) }
{
    put_standing_count(marks, 0);
    put_wanted(marks, 0);
    own.fill(0);
}

// Closes the interval of a processor: a record for each dirty page, the own entry one higher if there is one, and clean pages. Where nothing is
// dirty all is stored as it was: one way, without a branch.
#[tactic(auto, using(crate::proofs::Closing::close_laws))]
fn close(p: ProcessorId, own: &mut [u8], marks: &mut [u8])
    requires { ActsForeseen own.old marks.old p.0 }
    ensures { Shows own.new marks.new (closed_for (forecast_in own.old marks.old) p.0) }
{
    let dirty = dirty_of(p, marks);
    put_standing_count(marks, standing_count(marks) + dirty);
    own[p.0 - 1] += u8::from(dirty != 0);
    clean_pages(p, marks);
}

// The dirty pages of a processor: every mark is looked at, those of absent pages too, which are 0. One loop without a branch, and a byte as its sum.
#[tactic(auto, using(crate::proofs::Closing::count_laws))]
fn dirty_of(p: ProcessorId, marks: &[u8]) -> usize
    requires { PagesOf marks.now p.0 }
    ensures value { result ≡ dirty_below (seen marks.now).pages p.0 (page_count marks.now) }
    ensures upper_bound { result ≤ page_limit }
{
    let from = dirty_place(p, PageId(0));
    let mut sum: u8 = 0;
    for mark in &marks[from..from + PAGE_LIMIT] {
        sum += u8::from(*mark != 0);
    }
    usize::from(sum)
}

// The dirty marks of a processor become 0.
#[tactic(auto, using(crate::proofs::Closing::clean_laws))]
fn clean_pages(p: ProcessorId, marks: &mut [u8])
    requires { MarksOf marks.old p.0 }
    ensures { marks.new ≡ sets marks.old (dirty_place mainframe p.0 0) (replicate page_limit 0) }
{
    let from = dirty_place(p, PageId(0));
    marks[from..from + PAGE_LIMIT].fill(0);
}
