// The tests of the marks: dirty pages, holders of locks, arrivals, lines of waiters, the queue, and room for the records. `zeros_at` and `pages_of` are
// for the tests of other areas too. Each contract is an equation with a definition of specs/inner/Tests.antt.
#![tactic(auto)]

mod waiters;

ghost use Rattle.std.specs.Prelude.{◌≡◌, ◌<◌, ◌≤◌, length};
ghost use Rattle.lists.specs.Tables.{every, any, total};
ghost use Rattle.limits.specs.Limits.{lock_limit, page_limit, processor_limit, record_limit};
ghost use Rattle.limits.specs.Places.{first_arrived};
ghost use Rattle.limits.specs.inner.Sizes.{copy_limit, mark_area};
ghost use Rattle.inorder_marks.specs.inner.Tests.{zero_at, pages_of, may_be_dirty, dirty_hold, holder_within, holders_hold, arrived_hold, dirty_of, queue_holds, room_holds, marks_hold_with};
ghost use Rattle.inorder_marks.specs.inner.Needed.{PlacesThere, MarksOne, HolderThere, HoldersThere, MarksThere};

use crate::waiters::lines_hold;
use layout::marks::{first_job, job_count};
use limits::{
    CLOCK_WIDTH, FIRST_ARRIVED, FIRST_DIRTY, FIRST_HOLDER, JOB_LIMIT, LAST_INTERVAL, LOCK_LIMIT,
    PAGE_LIMIT, PROCESSOR_LIMIT, RECORD_LIMIT,
};

// Whether all marks are in order.
#[tactic(auto, unfolding(crate::specs::inner::Tests::marks_hold_with))]
pub fn marks_hold(
    marks: &[u8],
    own: [u8; CLOCK_WIDTH],
    processors: usize,
    pages: usize,
    locks: usize,
    standing: usize,
) -> bool
    requires { MarksThere marks.now processors pages locks standing }
    ensures { result ≡ marks_hold_with own marks.now processors pages locks standing }
{
    dirty_hold(marks, own, processors, pages)
        && holders_hold(marks, processors, locks)
        && arrived_hold(marks, processors)
        && lines_hold(marks, processors, locks)
        && queue_holds(marks)
        && room_holds(marks, processors, pages, standing)
}

// Whether n bytes from a place on are 0. It looks at all of them, which is faster than to stop early.
#[tactic(auto, using(crate::proofs::MarkTests::zeros_more), unfolding(lists::specs::Tables::every))]
pub fn zeros_at(bytes: &[u8], at: usize, n: usize) -> bool
    requires { PlacesThere bytes.now at n }
    ensures { result ≡ every n (zero_at bytes.now at) }
{
    let mut all = true;
    for byte in &bytes[at..at + n] {
        all &= *byte == 0;
    }
    all
}

// How many pages a processor has: none where it is absent.
#[tactic(auto, unfolding(crate::specs::inner::Tests::pages_of))]
pub fn pages_of(processors: usize, pages: usize, k: usize) -> usize
    ensures value { result ≡ pages_of processors pages k }
    ensures upper_bound { result ≤ pages }
{
    if k < processors { pages } else { 0 }
}

// How many pages of a processor may be dirty: none where its own entry is 63.
#[tactic(auto, unfolding(crate::specs::inner::Tests::may_be_dirty))]
fn may_be_dirty(own: [u8; CLOCK_WIDTH], processors: usize, pages: usize, k: usize) -> usize
    requires { k < processor_limit }
    ensures value { result ≡ may_be_dirty own processors pages k }
    ensures upper_bound { result ≤ pages }
{
    if own[k] < LAST_INTERVAL {
        pages_of(processors, pages, k)
    } else {
        0
    }
}

// Whether no other page of the processor is dirty.
#[tactic(auto, unfolding(crate::specs::inner::Tests::dirty_hold))]
fn dirty_of(marks: &[u8], own: [u8; CLOCK_WIDTH], processors: usize, pages: usize, k: usize) -> bool
    requires { MarksOne marks.now pages k }
    ensures { result ≡ dirty_hold own marks.now processors pages k }
{
    let there = may_be_dirty(own, processors, pages, k);
    zeros_at(
        marks,
        FIRST_DIRTY + PAGE_LIMIT * k + there,
        PAGE_LIMIT - there,
    )
}

// Whether that is so for every processor.
fn dirty_hold(marks: &[u8], own: [u8; CLOCK_WIDTH], processors: usize, pages: usize) -> bool
    requires { (length marks.now ≡ mark_area) × (pages ≤ page_limit) }
    ensures { result ≡ every processor_limit (dirty_hold own marks.now processors pages) }
{
    (0..PROCESSOR_LIMIT).all(|k| dirty_of(marks, own, processors, pages, k))
}

// Whether the holder of a lock is a present processor that has not arrived, or 0.
#[tactic(auto, unfolding(crate::specs::inner::Tests::holder_within, crate::specs::inner::Tests::zero_at))]
fn holder_within(marks: &[u8], processors: usize, l: usize) -> bool
    requires { HolderThere marks.now processors l }
    ensures { result ≡ holder_within marks.now processors l }
{
    let holder = usize::from(marks[FIRST_HOLDER + l]);
    holder <= processors && (holder == 0 || marks[FIRST_ARRIVED + (holder - 1)] == 0)
}

// Whether the holders of the present locks are.
fn holders_within(marks: &[u8], processors: usize, locks: usize) -> bool
    requires { HoldersThere marks.now processors locks }
    ensures { result ≡ every locks (holder_within marks.now processors) }
{
    (0..locks).all(|l| holder_within(marks, processors, l))
}

// Whether they are, and those of absent locks are 0.
#[tactic(auto, unfolding(crate::specs::inner::Tests::holders_hold))]
fn holders_hold(marks: &[u8], processors: usize, locks: usize) -> bool
    requires { HoldersThere marks.now processors locks }
    ensures { result ≡ holders_hold marks.now processors locks }
{
    holders_within(marks, processors, locks)
        && zeros_at(marks, FIRST_HOLDER + locks, LOCK_LIMIT - locks)
}

// Whether one of the present processors has not arrived.
fn someone_missing(marks: &[u8], processors: usize) -> bool
    requires { (length marks.now ≡ mark_area) × (processors ≤ processor_limit) }
    ensures { result ≡ any processors (zero_at marks.now first_arrived) }
{
    marks[FIRST_ARRIVED..FIRST_ARRIVED + processors]
        .iter()
        .any(|mark| *mark == 0)
}

// Whether one has not, and no absent processor has.
#[tactic(auto, unfolding(crate::specs::inner::Tests::arrived_hold))]
fn arrived_hold(marks: &[u8], processors: usize) -> bool
    requires { (length marks.now ≡ mark_area) × (processors ≤ processor_limit) }
    ensures { result ≡ arrived_hold marks.now processors }
{
    zeros_at(
        marks,
        FIRST_ARRIVED + processors,
        PROCESSOR_LIMIT - processors,
    ) && someone_missing(marks, processors)
}

// Whether the oldest job has a place of the queue, and there are no more jobs than places.
#[tactic(auto, unfolding(crate::specs::inner::Tests::queue_holds))]
fn queue_holds(marks: &[u8]) -> bool
    requires { length marks.now ≡ mark_area }
    ensures { result ≡ queue_holds marks.now }
{
    first_job(marks) < JOB_LIMIT && job_count(marks) <= JOB_LIMIT
}

// How many pages of one processor are dirty. By a loop, since with `filter` and `count` all tests of the marks took twice as long.
#[tactic(auto, unfolding(lists::specs::Tables::total, crate::specs::inner::Tests::zero_at, crate::specs::inner::Tests::dirty_count, crate::specs::inner::Tests::dirty_of))]
fn dirty_pages_of(marks: &[u8], pages: usize, k: usize) -> usize
    requires { MarksOne marks.now pages k }
    ensures value { result ≡ dirty_of marks.now pages k }
    ensures upper_bound { result ≤ page_limit }
{
    let at = FIRST_DIRTY + PAGE_LIMIT * k;
    let mut n = 0;
    for mark in &marks[at..at + pages] {
        if *mark != 0 {
            n += 1;
        }
    }
    n
}

// How many pages of all processors are.
#[tactic(auto, unfolding(lists::specs::Tables::total))]
fn dirty_pages(marks: &[u8], processors: usize, pages: usize) -> usize
    requires { (length marks.now ≡ mark_area) × (processors ≤ processor_limit) × (pages ≤ page_limit) }
    ensures value { result ≡ total processors (dirty_of marks.now pages) }
    ensures upper_bound { result ≤ copy_limit }
{
    let mut n = 0;
    for k in 0..processors {
        n += dirty_pages_of(marks, pages, k);
    }
    n
}

// Whether records and dirty pages are at most 128.
#[tactic(auto, unfolding(crate::specs::inner::Tests::room_holds))]
fn room_holds(marks: &[u8], processors: usize, pages: usize, standing: usize) -> bool
    requires { (length marks.now ≡ mark_area) × (processors ≤ processor_limit) × (pages ≤ page_limit) × (standing ≤ record_limit) }
    ensures { result ≡ room_holds marks.now processors pages standing }
{
    standing + dirty_pages(marks, processors, pages) <= RECORD_LIMIT
}
