// The marks by name: counts, the records that stand, the wish, who has arrived, who holds a lock, which pages are dirty, who waits for which lock
// at which turn, the oldest job and how many wait.
// Every contract is an equation over the list of the marks, with a definition of specs/Areas.antt. Some functions differ in a place alone: one with
// the place as a parameter would be no plainer, since the name says what the mark means.
// The proofs of this file see the places behind their names.
#![tactic(auto, unfolding(rules::specs::State::mainframe, crate::specs::Areas::standing_count, crate::specs::Areas::arrived_place, crate::specs::Areas::holder_place, crate::specs::Areas::dirty_place, crate::specs::Areas::awaited_place, crate::specs::Areas::turn_place, crate::specs::Areas::first_place, crate::specs::Areas::jobs_place, crate::specs::inner::Marks::with_standing))]

ghost use Rattle.std.specs.Prelude.{◌≡◌, not, ◌<◌, ◌≤◌, length, set, replicate, eqb};
ghost use Rattle.std.proofs.lemmas.List.Edits.{sets};
ghost use Rattle.limits.specs.Limits.{job_limit, lock_limit, processor_limit, record_limit};
ghost use Rattle.limits.specs.Places.{first_arrived, wanted_place};
ghost use Rattle.limits.specs.inner.Sizes.{mark_area};
ghost use Rattle.rules.specs.State.{mainframe};
ghost use Rattle.layout.specs.Areas.{standing_count, arrived_place, holder_place, dirty_place, awaited_place, turn_place, first_place, jobs_place};
ghost use Rattle.layout.specs.inner.Marks.{processor_count, page_count, lock_count, with_standing, wish_mark, arrived_mark, holder_mark, dirty_mark, awaited_mark, turn_mark, first_mark, jobs_mark};
ghost use Rattle.layout.specs.inner.Needed.{OnPage, MarksOf, LockMark, PageMark};

use clock::{PageId, ProcessorId};
use limits::{
    FIRST_ARRIVED, FIRST_AWAITED, FIRST_DIRTY, FIRST_HOLDER, FIRST_TURN, LOCKS_PLACE, PAGE_LIMIT,
    PAGES_PLACE, PROCESSORS_PLACE, QUEUE_FIRST, QUEUE_JOBS, STANDING_HIGH, STANDING_PLACE,
    WANTED_PLACE,
};

// How many processors the opening gave.
pub fn processor_count(marks: &[u8]) -> usize
    requires { length marks.now ≡ mark_area }
    ensures { (result ≡ processor_count marks.now) × (result < 256) }
{
    usize::from(marks[PROCESSORS_PLACE])
}

// How many pages.
pub fn page_count(marks: &[u8]) -> usize
    requires { length marks.now ≡ mark_area }
    ensures { (result ≡ page_count marks.now) × (result < 256) }
{
    usize::from(marks[PAGES_PLACE])
}

// How many locks.
pub fn lock_count(marks: &[u8]) -> usize
    requires { length marks.now ≡ mark_area }
    ensures { (result ≡ lock_count marks.now) × (result < 256) }
{
    usize::from(marks[LOCKS_PLACE])
}

// How many records stand.
pub fn standing_count(marks: &[u8]) -> usize
    requires { length marks.now ≡ mark_area }
    ensures { (result ≡ standing_count marks.now) × (result < 65536) }
{
    usize::from(u16::from_le_bytes([marks[STANDING_PLACE], marks[STANDING_HIGH]]))
}

// So many records stand.
pub fn put_standing_count(marks: &mut [u8], n: usize)
    requires { (length marks.old ≡ mark_area) × (n ≤ record_limit) }
    ensures { marks.new ≡ with_standing marks.old n }
{
    let [low, high] = (n as u16).to_le_bytes();
    marks[STANDING_PLACE] = low;
    marks[STANDING_HIGH] = high;
}

// Whether collection is wanted.
pub fn is_wanted(marks: &[u8]) -> bool
    requires { length marks.now ≡ mark_area }
    ensures { result ≡ not (eqb (wish_mark marks.now) 0) }
{
    marks[WANTED_PLACE] != 0
}

// The wish becomes a given mark.
pub fn put_wanted(marks: &mut [u8], mark: u8)
    requires { length marks.old ≡ mark_area }
    ensures { marks.new ≡ set marks.old wanted_place mark }
{
    marks[WANTED_PLACE] = mark;
}

// Whether a processor has arrived in the open round.
pub fn has_arrived(marks: &[u8], p: ProcessorId) -> bool
    requires { MarksOf marks.now p.0 }
    ensures { result ≡ not (eqb (arrived_mark marks.now p.0) 0) }
{
    marks[FIRST_ARRIVED + (p.0 - 1)] != 0
}

// A processor is marked as arrived.
pub fn mark_arrived(marks: &mut [u8], p: ProcessorId)
    requires { MarksOf marks.old p.0 }
    ensures { marks.new ≡ set marks.old (arrived_place mainframe p.0) 1 }
{
    marks[FIRST_ARRIVED + (p.0 - 1)] = 1;
}

// The arrived marks of all processors become 0.
pub fn clear_arrived(marks: &mut [u8])
    requires { length marks.old ≡ mark_area }
    ensures { marks.new ≡ sets marks.old first_arrived (replicate processor_limit 0) }
{
    marks[FIRST_ARRIVED..FIRST_HOLDER].fill(0);
}

// The holder of a lock; 0 is nobody.
pub fn holder_of(marks: &[u8], lock: usize) -> ProcessorId
    requires { LockMark marks.now lock }
    ensures { result.0 ≡ holder_mark marks.now lock }
{
    ProcessorId(usize::from(marks[FIRST_HOLDER + lock]))
}

// A processor, or nobody, becomes the holder of a lock.
pub fn put_holder(marks: &mut [u8], lock: usize, p: ProcessorId)
    requires { LockMark marks.old lock × (p.0 ≤ processor_limit) }
    ensures { marks.new ≡ set marks.old (holder_place mainframe lock) p.0 }
{
    marks[FIRST_HOLDER + lock] = p.0 as u8;
}

// Whether a processor waits for a lock.
pub fn is_waiting(marks: &[u8], p: ProcessorId) -> bool
    requires { MarksOf marks.now p.0 }
    ensures { result ≡ not (eqb (awaited_mark marks.now p.0) 0) }
{
    marks[FIRST_AWAITED + (p.0 - 1)] != 0
}

// The lock that a processor waits for, plus 1; 0 for none.
pub fn awaited_of(marks: &[u8], p: ProcessorId) -> usize
    requires { MarksOf marks.now p.0 }
    ensures { (result ≡ awaited_mark marks.now p.0) × (result < 256) }
{
    usize::from(marks[FIRST_AWAITED + (p.0 - 1)])
}

// Its turn: how many of that lock's waiters stand before it.
pub fn turn_of(marks: &[u8], p: ProcessorId) -> usize
    requires { MarksOf marks.now p.0 }
    ensures { (result ≡ turn_mark marks.now p.0) × (result < 256) }
{
    usize::from(marks[FIRST_TURN + (p.0 - 1)])
}

// A processor waits for a lock, given plus 1, or for none.
pub fn put_awaited(marks: &mut [u8], p: ProcessorId, lock: usize)
    requires { MarksOf marks.old p.0 × (lock ≤ lock_limit) }
    ensures { marks.new ≡ set marks.old (awaited_place mainframe p.0) lock }
{
    marks[FIRST_AWAITED + (p.0 - 1)] = lock as u8;
}

// So many stand before it.
pub fn put_turn(marks: &mut [u8], p: ProcessorId, turn: usize)
    requires { MarksOf marks.old p.0 × (turn < 256) }
    ensures { marks.new ≡ set marks.old (turn_place mainframe p.0) turn }
{
    marks[FIRST_TURN + (p.0 - 1)] = turn as u8;
}

// The place of the oldest job of the queue.
pub fn first_job(marks: &[u8]) -> usize
    requires { length marks.now ≡ mark_area }
    ensures { (result ≡ first_mark marks.now) × (result < 256) }
{
    usize::from(marks[QUEUE_FIRST])
}

// How many jobs wait.
pub fn job_count(marks: &[u8]) -> usize
    requires { length marks.now ≡ mark_area }
    ensures { (result ≡ jobs_mark marks.now) × (result < 256) }
{
    usize::from(marks[QUEUE_JOBS])
}

// The oldest job is at another place.
pub fn put_first_job(marks: &mut [u8], place: usize)
    requires { (length marks.old ≡ mark_area) × (place < job_limit) }
    ensures { marks.new ≡ set marks.old (first_place mainframe) place }
{
    marks[QUEUE_FIRST] = place as u8;
}

// So many jobs wait.
pub fn put_job_count(marks: &mut [u8], n: usize)
    requires { (length marks.old ≡ mark_area) × (n ≤ job_limit) }
    ensures { marks.new ≡ set marks.old (jobs_place mainframe) n }
{
    marks[QUEUE_JOBS] = n as u8;
}

// Whether a processor's copy of a page is dirty.
pub fn is_dirty(marks: &[u8], p: ProcessorId, g: PageId) -> bool
    requires { PageMark marks.now p.0 g.0 }
    ensures { result ≡ not (eqb (dirty_mark marks.now p.0 g.0) 0) }
{
    marks[dirty_place(p, g)] != 0
}

// A processor's copy of a page is marked as dirty.
pub fn mark_dirty(marks: &mut [u8], p: ProcessorId, g: PageId)
    requires { PageMark marks.old p.0 g.0 }
    ensures { marks.new ≡ set marks.old (dirty_place mainframe p.0 g.0) 1 }
{
    marks[dirty_place(p, g)] = 1;
}

// A processor's copy of a page is marked as clean.
pub fn mark_clean(marks: &mut [u8], p: ProcessorId, g: PageId)
    requires { PageMark marks.old p.0 g.0 }
    ensures { marks.new ≡ set marks.old (dirty_place mainframe p.0 g.0) 0 }
{
    marks[dirty_place(p, g)] = 0;
}

// The place of the mark that says whether a processor's copy of a page is dirty.
pub fn dirty_place(p: ProcessorId, g: PageId) -> usize
    requires { OnPage p.0 g.0 }
    ensures value { result ≡ dirty_place mainframe p.0 g.0 }
    ensures upper_bound { result < mark_area }
{
    FIRST_DIRTY + PAGE_LIMIT * (p.0 - 1) + g.0
}
