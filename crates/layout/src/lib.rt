// The state of one mainframe in lent memory: clocks and pages read and written by their rows.
// Every contract is an equation over the lists that the areas hold; specs/Areas.antt says what state they are.
#![tactic(auto)]

pub mod marks;
pub mod slots;

ghost use Rattle.std.specs.Prelude.{◌≡◌, [], ◌*◌, ◌<◌, get_or};
ghost use Rattle.std.proofs.lemmas.List.Edits.{sets};
ghost use Rattle.limits.specs.Limits.{job_limit, lock_limit, page_limit, page_width};
ghost use Rattle.limits.specs.inner.Sizes.{clock_row_limit, clock_width, word_row_limit};
ghost use Rattle.clock.specs.Clocks.{joined};
ghost use Rattle.rules.specs.State.{mainframe};
ghost use Rattle.lists.specs.Tables.{tabulate};
ghost use Rattle.layout.specs.Layout.{row_of};
ghost use Rattle.layout.specs.Areas.{lock_row, applied_row, interval_row, job_row, copy_row, twin_row, areas, right_sizes};
ghost use Rattle.layout.specs.inner.Needed.{RowThere, OnPage, MadeInterval, TwoRows, ClocksOf, OwnEntry};

use clock::{Clock, IntervalId, PageId, ProcessorId};
use limits::{
    CLOCK_AREA, CLOCK_WIDTH, COPY_LIMIT, FIRST_APPLIED_ROW, FIRST_INTERVAL_ROW, FIRST_JOB_ROW,
    FIRST_LOCK_ROW, INTERVAL_LIMIT, MARK_AREA, OWN_STEP, PAGE_LIMIT, PAGE_WIDTH, RECORD_AREA,
    WORD_AREA,
};

// Whether the four areas have the fixed sizes.
#[tactic(auto, using(crate::proofs::Encoding::sizes_is))]
pub fn right_sizes(clocks: &[u8], words: &[u32], records: &[u8], marks: &[u8]) -> bool
    ensures { result ≡ right_sizes (areas clocks.now words.now records.now marks.now) }
{
    clocks.len() == CLOCK_AREA
        && words.len() == WORD_AREA
        && records.len() == RECORD_AREA
        && marks.len() == MARK_AREA
}

// The N elements in a row of an area.
#[tactic(auto, unfolding(crate::specs::Layout::row_of))]
fn row_at<T: Copy, const N: usize>(area: &[T], row: usize) -> [T; N]
    requires { RowThere N area.now row }
    ensures { result ≡ row_of N area.now row }
{
    let at = N * row;
    area[at..at + N].try_into().unwrap()
}

// N elements laid into their row of an area. By a loop, since with `copy_from_slice` a page read and laid took 7 ns and not 4.5.
fn put_row<T: Copy, const N: usize>(area: &mut [T], row: usize, elements: [T; N])
    requires { RowThere N area.old row }
    ensures { area.new ≡ sets area.old (N * row) elements }
{
    let at = N * row;
    for i in 0..N {
        area[at + i] = elements[i];
    }
}

// The clock in a row of eight entries.
pub fn clock_at(clocks: &[u8], row: usize) -> Clock
    requires { RowThere clock_width clocks.now row }
    ensures { result.entries ≡ row_of clock_width clocks.now row }
{
    Clock {
        entries: row_at(clocks, row),
    }
}

// A clock laid into its row.
pub fn put_clock(clocks: &mut [u8], row: usize, clock: Clock)
    requires { RowThere clock_width clocks.old row }
    ensures { clocks.new ≡ sets clocks.old (clock_width * row) clock.entries }
{
    put_row(clocks, row, clock.entries);
}

// The clock in one row becomes its join with the clock in another, which keeps its entries.
pub fn learn(clocks: &mut [u8], to: usize, from: usize)
    requires { TwoRows clocks.old to from }
    ensures { clocks.new ≡ sets clocks.old (clock_width * to) (joined (row_of clock_width clocks.old to) (row_of clock_width clocks.old from)) }
{
    let own = clock_at(clocks, to);
    let news = clock_at(clocks, from);
    put_clock(clocks, to, own.join(news));
}

// The own entry of a processor: how many intervals it has made.
#[tactic(auto, using(crate::proofs::Rows::row_laws))]
pub fn own_entry(clocks: &[u8], p: ProcessorId) -> u8
    requires { ClocksOf clocks.now p.0 }
    ensures { OwnEntry clocks.now p.0 result }
{
    clocks[OWN_STEP * p.0 - 1]
}

// The page of 32 words in a row.
pub fn page_at(words: &[u32], row: usize) -> [u32; PAGE_WIDTH]
    requires { RowThere page_width words.now row }
    ensures { result ≡ row_of page_width words.now row }
{
    row_at(words, row)
}

// A page laid into its row.
pub fn put_page(words: &mut [u32], row: usize, page: [u32; PAGE_WIDTH])
    requires { RowThere page_width words.old row }
    ensures { words.new ≡ sets words.old (page_width * row) page }
{
    put_row(words, row, page);
}

// A page copied from one row to another.
pub fn copy_page(words: &mut [u32], from: usize, to: usize)
    requires { RowThere page_width words.old from × RowThere page_width words.old to }
    ensures { words.new ≡ sets words.old (page_width * to) (row_of page_width words.old from) }
{
    let page = page_at(words, from);
    put_page(words, to, page);
}

// The row of a lock's clock.
#[tactic(auto, unfolding(rules::specs::State::mainframe, crate::specs::Areas::lock_row))]
pub fn lock_row(lock: usize) -> usize
    requires { lock < lock_limit }
    ensures { (result ≡ lock_row mainframe lock) × (result < clock_row_limit) }
{
    FIRST_LOCK_ROW + lock
}

// The row of the clock applied to a page of a processor.
#[tactic(auto, unfolding(rules::specs::State::mainframe, crate::specs::Areas::applied_row))]
pub fn applied_row(p: ProcessorId, g: PageId) -> usize
    requires { OnPage p.0 g.0 }
    ensures value { result ≡ applied_row mainframe p.0 g.0 }
    ensures upper_bound { result < clock_row_limit }
{
    FIRST_APPLIED_ROW + PAGE_LIMIT * (p.0 - 1) + g.0
}

// The row of the clock that an interval of a processor keeps.
#[tactic(auto, unfolding(rules::specs::State::mainframe, crate::specs::Areas::interval_row))]
pub fn interval_row(p: ProcessorId, i: IntervalId) -> usize
    requires { MadeInterval p.0 i.0 }
    ensures value { result ≡ interval_row mainframe p.0 i.0 }
    ensures upper_bound { result < clock_row_limit }
{
    FIRST_INTERVAL_ROW + INTERVAL_LIMIT * (p.0 - 1) + (i.0 - 1)
}

// The row of the clock at a place of the queue.
#[tactic(auto, unfolding(rules::specs::State::mainframe, crate::specs::Areas::job_row))]
pub fn job_row(place: usize) -> usize
    requires { place < job_limit }
    ensures { (result ≡ job_row mainframe place) × (result < clock_row_limit) }
{
    FIRST_JOB_ROW + place
}

// The row of a processor's copy of a page.
#[tactic(auto, unfolding(rules::specs::State::mainframe, crate::specs::Areas::copy_row))]
pub fn copy_row(p: ProcessorId, g: PageId) -> usize
    requires { OnPage p.0 g.0 }
    ensures value { result ≡ copy_row mainframe p.0 g.0 }
    ensures upper_bound { result < word_row_limit }
{
    PAGE_LIMIT * (p.0 - 1) + g.0
}

// The row of a processor's twin of a page.
#[tactic(auto, unfolding(rules::specs::State::mainframe, crate::specs::Areas::twin_row, crate::specs::Areas::copy_row))]
pub fn twin_row(p: ProcessorId, g: PageId) -> usize
    requires { OnPage p.0 g.0 }
    ensures value { result ≡ twin_row mainframe p.0 g.0 }
    ensures upper_bound { result < word_row_limit }
{
    COPY_LIMIT + PAGE_LIMIT * (p.0 - 1) + g.0
}

// The clocks applied to the pages of a processor, a row for each page.
#[tactic(auto, using(crate::proofs::Rows::row_laws))]
pub fn applied_at(clocks: &[u8], p: ProcessorId) -> [[u8; CLOCK_WIDTH]; PAGE_LIMIT]
    requires { ClocksOf clocks.now p.0 }
    ensures { result ≡ tabulate page_limit (λ g. row_of clock_width clocks.now (applied_row mainframe p.0 g)) }
{
    let mut rows = [[0; CLOCK_WIDTH]; PAGE_LIMIT];
    for g in 0..PAGE_LIMIT {
        let row = row_at(clocks, applied_row(p, PageId(g)));
        rows[g] = row;
    }
    rows
}

// The clock of one page out of those of all pages.
pub fn applied_clock(rows: [[u8; CLOCK_WIDTH]; PAGE_LIMIT], g: PageId) -> Clock
    requires { g.0 < page_limit }
    ensures { result.entries ≡ get_or rows g.0 [] }
{
    Clock { entries: rows[g.0] }
}
