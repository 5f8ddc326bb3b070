// Garbage collection on lent memory that holds a state in order.
// The contracts say in the words of the rules (specs/Steps.antt of the crate rules) what state the areas hold afterwards.
#![tactic(auto)]

ghost use Rattle.std.specs.Prelude.{◌≡◌, ◌*◌, ◌≤◌, length, replicate};
ghost use Rattle.std.proofs.lemmas.List.Edits.{sets};
ghost use Rattle.limits.specs.Limits.{interval_limit, job_limit, page_width};
ghost use Rattle.limits.specs.inner.Sizes.{clock_area, clock_width, first_job_row, key_area};
ghost use Rattle.rules.specs.State.{mainframe};
ghost use Rattle.rules.specs.Steps.{pages_fetched, all_fetched, collected};
ghost use Rattle.layout.specs.Areas.{interval_row, state_in};
ghost use Rattle.layout.specs.inner.Marks.{page_count, processor_count};
ghost use Rattle.layout.specs.inner.Needed.{Ready};
ghost use Rattle.step_collect.specs.inner.Needed.{ReadyKept, ProcessorFetches, made_intervals, MadeRows, OnlyMade, Emptiable};
ghost use Rattle.step_collect.specs.inner.Effects.{CountedKept, Emptied};

use clock::{PageId, ProcessorId};
use layout::marks::{page_count, processor_count, put_standing_count, put_wanted};
use layout::own_entry;
use limits::{CLOCK_WIDTH, FIRST_INTERVAL_ROW, FIRST_JOB_ROW, INTERVAL_LIMIT};

// How many records fetches applied, and how many words those set.
#[derive(Clone, Copy, Default)]
pub struct Moved {
    pub count: u32,
    pub words: u32,
}

// Garbage collection: every processor, upwards, fetches every page, upwards; then the records go, and none is ranked. Yields how many records
// were applied, and how many words they set.
pub fn collect(
    clocks: &mut [u8],
    words: &mut [u32],
    records: &[u8],
    marks: &mut [u8],
    index: &mut [u32],
) -> Moved
    requires { ReadyKept clocks.old words.old records.now marks.old index.old }
    ensures { CountedKept (collected mainframe (state_in mainframe clocks.old words.old records.now marks.old)) result.count result.words clocks.new words.new records.now marks.new index.new }
{
    let moved = fetch_all(clocks, words, records, marks, index);
    empty(clocks, marks);
    fetch_index::forget(index);
    moved
}

// Every processor, upwards, fetches every page. Yields how many records were applied, and how many words they set.
fn fetch_all(
    clocks: &mut [u8],
    words: &mut [u32],
    records: &[u8],
    marks: &[u8],
    index: &mut [u32],
) -> Moved
    requires { ReadyKept clocks.old words.old records.now marks.now index.old }
    ensures counted_kept { CountedKept (all_fetched mainframe (state_in mainframe clocks.old words.old records.now marks.now) (processor_count marks.now)) result.count result.words clocks.new words.new records.now marks.now index.new }
    ensures ready { Ready clocks.new words.new records.now marks.now }
{
    let mut moved = Moved::default();
    for k in 0..processor_count(marks) {
        let more = fetch_pages(ProcessorId(k + 1), clocks, words, records, marks, index);
        moved.count += more.count;
        moved.words += more.words;
    }
    moved
}

// One processor fetches every page, upwards. Yields how many records were applied, and how many words they set.
fn fetch_pages(
    p: ProcessorId,
    clocks: &mut [u8],
    words: &mut [u32],
    records: &[u8],
    marks: &[u8],
    index: &mut [u32],
) -> Moved
    requires { ProcessorFetches clocks.old words.old records.now marks.now p.0 index.old }
    ensures counted_kept { CountedKept (pages_fetched mainframe (state_in mainframe clocks.old words.old records.now marks.now) p.0 (page_count marks.now)) result.count result.words clocks.new words.new records.now marks.now index.new }
    ensures few { result.count ≤ key_area }
    ensures moved { result.words ≤ page_width * result.count }
{
    let mut moved = Moved::default();
    for g in 0..page_count(marks) {
        let fetched = fetch::fetch_page(p, PageId(g), clocks, words, records, marks, index);
        moved.count += fetched.applied;
        moved.words += fetched.words;
    }
    moved
}

// The records go, all clocks become zeros and the wish clears.
#[tactic(auto, using(crate::proofs::Emptying::empty_laws))]
fn empty(clocks: &mut [u8], marks: &mut [u8])
    requires { Emptiable clocks.old marks.old }
    ensures { Emptied clocks.old marks.old clocks.new marks.new }
{
    clear_clocks(clocks, processor_count(marks));
    put_standing_count(marks, 0);
    put_wanted(marks, 0);
}

// All clocks of n processors become zeros: of the intervals' rows only those that were made are written, the others are zeros.
#[tactic(auto, using(crate::proofs::Clearing::clear_laws))]
fn clear_clocks(clocks: &mut [u8], n: usize)
    requires { OnlyMade clocks.old n }
    ensures { clocks.new ≡ replicate (length clocks.old) 0 }
{
    for k in 0..n {
        clear_made(clocks, ProcessorId(k + 1));
    }
    clear_jobs(clocks);
    clocks[..CLOCK_WIDTH * FIRST_INTERVAL_ROW].fill(0);
}

// The rows of the places of the queue become zeros.
#[tactic(auto, using(crate::proofs::Clearing::clear_laws))]
fn clear_jobs(clocks: &mut [u8])
    requires { length clocks.old ≡ clock_area }
    ensures { clocks.new ≡ sets clocks.old (clock_width * first_job_row) (replicate (clock_width * job_limit) 0) }
{
    clocks[CLOCK_WIDTH * FIRST_JOB_ROW..].fill(0);
}

// The rows of the intervals that a processor has made become zeros.
#[tactic(auto, using(crate::proofs::Clearing::clear_laws))]
fn clear_made(clocks: &mut [u8], p: ProcessorId)
    requires { MadeRows clocks.old p.0 }
    ensures { clocks.new ≡ sets clocks.old (clock_width * interval_row mainframe p.0 1) (replicate (clock_width * made_intervals clocks.old p.0) 0) }
{
    let made = made_intervals(clocks, p);
    let from = CLOCK_WIDTH * (FIRST_INTERVAL_ROW + INTERVAL_LIMIT * (p.0 - 1));
    let to = from + CLOCK_WIDTH * made;
    clocks[from..to].fill(0);
}

// How many intervals a processor has made.
#[tactic(auto, using(crate::proofs::Clearing::clear_laws))]
fn made_intervals(clocks: &[u8], p: ProcessorId) -> usize
    requires { MadeRows clocks.now p.0 }
    ensures { (result ≡ made_intervals clocks.now p.0) × (result ≤ interval_limit) }
{
    usize::from(own_entry(clocks, p))
}
