// The test whether lent memory is in order: the four areas have the fixed sizes, and the state that they hold passes the rules' test.
// `in_order` alone is public. It says so by one equation with `areas_in_order`; the other functions test the places of the clocks and words,
// and the counts, each by an equation with a definition of specs/inner/Tests.antt. Marks and records have crates of their own below.
#![tactic(auto)]

ghost use Rattle.std.specs.Prelude.{◌≡◌, ◌*◌, ◌<◌, ◌≤◌, length};
ghost use Rattle.lists.specs.Tables.{every};
ghost use Rattle.limits.specs.Limits.{page_limit, processor_limit};
ghost use Rattle.limits.specs.inner.Sizes.{clock_area, clock_width, copy_limit, word_area};
ghost use Rattle.layout.specs.inner.Needed.{Lent};
ghost use Rattle.inorder_marks.specs.inner.Tests.{zero_at};
ghost use Rattle.inorder_marks.specs.inner.Needed.{PlacesThere};
ghost use Rattle.inorder_records.specs.inner.Tests.{own_fits};
ghost use Rattle.inorder_records.specs.inner.Needed.{OwnFit};
ghost use Rattle.inorder.specs.Areas.{OrderIs};
ghost use Rattle.inorder.specs.inner.Tests.{entry_within, is_row_within, rows_hold, own_entries, applied_hold, intervals_hold, clocks_hold_with, words_hold, counts_hold, areas_hold_with, areas_hold, adds_hold};
ghost use Rattle.inorder.specs.inner.Needed.{RowsThere, ClocksThere, ClocksOne, IntervalsOne, WordsOne, AreasThere};

use inorder_marks::{marks_hold, pages_of, zeros_at};
use inorder_records::records_hold;
use layout::marks::{lock_count, page_count, processor_count, standing_count};
use layout::{clock_at, right_sizes};
use limits::{
    CLOCK_WIDTH, COPY_LIMIT, FIRST_APPLIED_ROW, FIRST_INTERVAL_ROW, FIRST_JOB_ROW, FIRST_LOCK_ROW,
    FIRST_TALLY, INTERVAL_LIMIT, JOB_LIMIT, LAST_INTERVAL, LOCK_LIMIT, OWN_STEP, PAGE_LIMIT,
    PAGE_WIDTH, PROCESSOR_LIMIT, RECORD_LIMIT, TALLY_LIMIT,
};

// The counts that the marks hold: of present processors, pages and locks, and of the records that stand.
#[derive(Clone, Copy)]
struct Counts {
    processors: usize,
    pages: usize,
    locks: usize,
    standing: usize,
}

// Whether lent memory is in order: its areas have the fixed sizes, and the state that they hold is in order.
#[tactic(auto, using(crate::proofs::Sizes::order_laws))]
pub fn in_order(clocks: &[u8], words: &[u32], records: &[u8], marks: &[u8]) -> bool
    ensures { OrderIs result clocks.now words.now records.now marks.now }
{
    right_sizes(clocks, words, records, marks) && areas_hold(clocks, words, records, marks)
}

// Whether no entry of the row of clocks at a place exceeds that of another clock. It looks at all eight, which is faster than to stop early.
fn row_within(clocks: &[u8], most: [u8; CLOCK_WIDTH], at: usize) -> bool
    requires { PlacesThere clocks.now at clock_width }
    ensures { result ≡ every processor_limit (entry_within most clocks.now at) }
{
    let mut all = true;
    for i in 0..CLOCK_WIDTH {
        all &= clocks[at + i] <= most[i];
    }
    all
}

// Whether no entry of n rows of clocks from a row on exceeds that of another clock.
fn rows_within(clocks: &[u8], most: [u8; CLOCK_WIDTH], first: usize, n: usize) -> bool
    requires { PlacesThere clocks.now (clock_width * first) (clock_width * n) }
    ensures { result ≡ every n (is_row_within most clocks.now first) }
{
    (0..n).all(|i| row_within(clocks, most, CLOCK_WIDTH * (first + i)))
}

// Whether of n rows of clocks from a row on the first `there` do not exceed another clock, and the others are zeros.
#[tactic(auto, unfolding(crate::specs::inner::Tests::rows_hold))]
fn rows_hold(clocks: &[u8], most: [u8; CLOCK_WIDTH], first: usize, n: usize, there: usize) -> bool
    requires { RowsThere clocks.now first n there }
    ensures { result ≡ rows_hold most clocks.now first n there }
{
    rows_within(clocks, most, first, there)
        && zeros_at(
            clocks,
            CLOCK_WIDTH * (first + there),
            CLOCK_WIDTH * (n - there),
        )
}

// The own entries of the processors: each a row and a place behind the one before.
fn own_entries(clocks: &[u8]) -> [u8; CLOCK_WIDTH]
    requires { length clocks.now ≡ clock_area }
    ensures { result ≡ own_entries clocks.now }
{
    let mut own = [0; CLOCK_WIDTH];
    for k in 0..PROCESSOR_LIMIT {
        own[k] = clocks[CLOCK_WIDTH + OWN_STEP * k];
    }
    own
}

// Whether each own entry is at most 63.
fn own_fit(own: [u8; CLOCK_WIDTH]) -> bool
    ensures { result ≡ every processor_limit (own_fits own) }
{
    own.iter().all(|entry| *entry <= LAST_INTERVAL)
}

// Whether the clocks applied to the pages of one processor are in order.
#[tactic(auto, unfolding(crate::specs::inner::Tests::applied_hold))]
fn applied_of(clocks: &[u8], processors: usize, pages: usize, k: usize) -> bool
    requires { ClocksOne clocks.now pages k }
    ensures { result ≡ applied_hold clocks.now processors pages k }
{
    rows_hold(
        clocks,
        clock_at(clocks, k + 1).entries,
        FIRST_APPLIED_ROW + PAGE_LIMIT * k,
        PAGE_LIMIT,
        pages_of(processors, pages, k),
    )
}

// Whether the clocks applied to the pages of every processor are.
fn applied_hold(clocks: &[u8], processors: usize, pages: usize) -> bool
    requires { (length clocks.now ≡ clock_area) × (pages ≤ page_limit) }
    ensures { result ≡ every processor_limit (applied_hold clocks.now processors pages) }
{
    (0..PROCESSOR_LIMIT).all(|k| applied_of(clocks, processors, pages, k))
}

// Whether the clocks of the intervals of one processor are in order.
#[tactic(auto, unfolding(crate::specs::inner::Tests::intervals_hold))]
fn intervals_of(clocks: &[u8], own: [u8; CLOCK_WIDTH], k: usize) -> bool
    requires { IntervalsOne own clocks.now k }
    ensures { result ≡ intervals_hold own clocks.now k }
{
    rows_hold(
        clocks,
        own,
        FIRST_INTERVAL_ROW + INTERVAL_LIMIT * k,
        INTERVAL_LIMIT,
        usize::from(own[k]),
    )
}

// Whether the clocks of the intervals of every processor are.
fn intervals_hold(clocks: &[u8], own: [u8; CLOCK_WIDTH]) -> bool
    requires { (length clocks.now ≡ clock_area) × OwnFit own }
    ensures { result ≡ every processor_limit (intervals_hold own clocks.now) }
{
    (0..PROCESSOR_LIMIT).all(|k| intervals_of(clocks, own, k))
}

// Whether all clocks are in order.
#[tactic(auto, unfolding(crate::specs::inner::Tests::clocks_hold_with))]
fn clocks_hold(clocks: &[u8], own: [u8; CLOCK_WIDTH], counts: Counts) -> bool
    requires { ClocksThere clocks.now counts.processors counts.pages counts.locks }
    ensures { result ≡ clocks_hold_with own clocks.now counts.processors counts.pages counts.locks }
{
    own_fit(own)
        && rows_hold(clocks, own, 0, FIRST_LOCK_ROW, counts.processors + 1)
        && rows_hold(clocks, own, FIRST_LOCK_ROW, LOCK_LIMIT, counts.locks)
        && rows_hold(clocks, own, FIRST_JOB_ROW, JOB_LIMIT, JOB_LIMIT)
        && applied_hold(clocks, counts.processors, counts.pages)
        && intervals_hold(clocks, own)
}

// Whether n words from a place on are 0. It looks at all of them, which is faster than to stop early.
fn words_zero(words: &[u32], at: usize, n: usize) -> bool
    requires { PlacesThere words.now at n }
    ensures { result ≡ every n (zero_at words.now at) }
{
    let mut all = true;
    for word in &words[at..at + n] {
        all &= *word == 0;
    }
    all
}

// Whether the absent pages of one processor are zeros: its copies or its twins, as the rows from `first` on are the copies or the twins.
#[tactic(auto, unfolding(crate::specs::inner::Tests::words_hold))]
fn words_of(words: &[u32], first: usize, processors: usize, pages: usize, k: usize) -> bool
    requires { WordsOne words.now first pages k }
    ensures { result ≡ words_hold words.now first processors pages k }
{
    let there = pages_of(processors, pages, k);
    words_zero(
        words,
        PAGE_WIDTH * (first + PAGE_LIMIT * k + there),
        PAGE_WIDTH * (PAGE_LIMIT - there),
    )
}

// Whether the absent pages of all processors are.
fn words_hold(words: &[u32], first: usize, processors: usize, pages: usize) -> bool
    requires { (length words.now ≡ word_area) × (first ≤ copy_limit) × (pages ≤ page_limit) }
    ensures { result ≡ every processor_limit (words_hold words.now first processors pages) }
{
    (0..PROCESSOR_LIMIT).all(|k| words_of(words, first, processors, pages, k))
}

// Whether absent processors have added nothing to a tally.
#[tactic(auto, unfolding(crate::specs::inner::Tests::adds_hold))]
fn adds_hold(words: &[u32], processors: usize) -> bool
    requires { (length words.now ≡ word_area) × (processors ≤ processor_limit) }
    ensures { result ≡ adds_hold words.now processors }
{
    words_zero(
        words,
        FIRST_TALLY + TALLY_LIMIT * (processors + 1),
        TALLY_LIMIT * (PROCESSOR_LIMIT - processors),
    )
}

// Whether the counts are in range, and the records that stand have their slots.
#[tactic(auto, unfolding(crate::specs::inner::Tests::counts_hold))]
fn counts_hold(counts: Counts) -> bool
    ensures { result ≡ counts_hold counts.processors counts.pages counts.locks counts.standing }
{
    (1..=PROCESSOR_LIMIT).contains(&counts.processors)
        && (1..=PAGE_LIMIT).contains(&counts.pages)
        && (1..=LOCK_LIMIT).contains(&counts.locks)
        && counts.standing <= RECORD_LIMIT
}

// Whether all four areas are in order, with the own entries and the counts that they hold.
#[tactic(auto, using(crate::proofs::AreaTests::own_fit_clocks), unfolding(crate::specs::inner::Tests::areas_hold_with))]
fn all_hold(
    clocks: &[u8],
    words: &[u32],
    records: &[u8],
    marks: &[u8],
    own: [u8; CLOCK_WIDTH],
    counts: Counts,
) -> bool
    requires { AreasThere clocks.now words.now records.now marks.now counts.processors counts.pages counts.locks counts.standing }
    ensures { result ≡ areas_hold_with own clocks.now words.now records.now marks.now counts.processors counts.pages counts.locks counts.standing }
{
    let Counts {
        processors,
        pages,
        locks,
        standing,
    } = counts;
    clocks_hold(clocks, own, counts)
        && words_hold(words, 0, processors, pages)
        && words_hold(words, COPY_LIMIT, processors, pages)
        && adds_hold(words, processors)
        && marks_hold(marks, own, processors, pages, locks, standing)
        && records_hold(records, own, processors, pages, standing)
}

// Whether the counts in the marks are in range and all four areas in order.
#[tactic(auto, unfolding(crate::specs::inner::Tests::areas_hold))]
fn areas_hold(clocks: &[u8], words: &[u32], records: &[u8], marks: &[u8]) -> bool
    requires { Lent clocks.now words.now records.now marks.now }
    ensures { result ≡ areas_hold clocks.now words.now records.now marks.now }
{
    let counts = Counts {
        processors: processor_count(marks),
        pages: page_count(marks),
        locks: lock_count(marks),
        standing: standing_count(marks),
    };
    counts_hold(counts) && all_hold(clocks, words, records, marks, own_entries(clocks), counts)
}
