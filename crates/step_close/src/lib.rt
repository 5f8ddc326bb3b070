// Closing an interval: the pages that its processor has written become records, its clock ticks, its pages become clean.
// The contracts say so of the state that the lent areas hold, in the words of the rules (specs/Close.antt of the crate rules).
#![tactic(auto)]

ghost use Rattle.std.specs.Prelude.{◌≡◌, ◌+◌, ◌*◌, ◌<◌, length};
ghost use Rattle.std.proofs.lemmas.List.Edits.{sets};
ghost use Rattle.limits.specs.Limits.{page_width};
ghost use Rattle.limits.specs.inner.Sizes.{notice_width, slot_width};
ghost use Rattle.diff.specs.Format.{written};
ghost use Rattle.rules.specs.State.{mainframe};
ghost use Rattle.rules.specs.Close.{raised, closed};
ghost use Rattle.layout.specs.Layout.{row_of};
ghost use Rattle.layout.specs.Areas.{state_in};
ghost use Rattle.layout.specs.inner.Needed.{Acts, RowThere, MarksOf, Holds};
ghost use Rattle.step_close.specs.inner.Parts.{notice_bytes, counted_bytes, diff_bytes, change_made, page_closed, all_closed, AnyDirty, Ticked};
ghost use Rattle.step_close.specs.inner.Needed.{ActsDirty, Closable, PageClosable, ChangeReady, NoticeSlotThere, PageSlotThere, CountedFits, DiffFits, Raisable, Tickable};

use clock::{Clock, IntervalId, PageId, ProcessorId};
use layout::marks::{
    dirty_place, is_dirty, mark_clean, page_count, put_standing_count, standing_count,
};
use layout::{clock_at, copy_row, interval_row, own_entry, put_clock, twin_row};
use limits::{NOTICE_WIDTH, PAGE_LIMIT, PAGE_WIDTH, SLOT_WIDTH};

// Closes the interval of a processor: for each dirty page one record, if there is one the clock of the interval, and clean pages.
// A processor without a dirty page has nothing to close.
pub fn close(p: ProcessorId, clocks: &mut [u8], words: &[u32], records: &mut [u8], marks: &mut [u8])
    requires { Acts clocks.old words.now records.old marks.old p.0 }
    ensures { Holds clocks.new words.now records.new marks.new (closed (state_in mainframe clocks.old words.now records.old marks.old) p.0) }
{
    if any_dirty(p, marks) {
        close_dirty(p, clocks, words, records, marks);
    }
}

// Whether any page of a processor is dirty. Every mark is looked at: a loop that stops nowhere becomes one comparison of eight bytes.
#[tactic(auto, using(crate::proofs::NothingDirty::dirty_laws))]
fn any_dirty(p: ProcessorId, marks: &[u8]) -> bool
    requires { MarksOf marks.now p.0 }
    ensures { AnyDirty marks.now p.0 result }
{
    let from = dirty_place(p, PageId(0));
    let mut found = false;
    for mark in &marks[from..from + PAGE_LIMIT] {
        found |= *mark != 0;
    }
    found
}

// Closes the interval of a processor that has a dirty page. The sequence is that of the thesis (document 000, "Pages and Data", the text to figure
// 2.9): the interval comes first, then for each dirty page its write notice, its diff, and the end of its twin. What comes before it, the page
// made writable and its twin taken at the first store, is step_access::take_twin.
fn close_dirty(
    p: ProcessorId,
    clocks: &mut [u8],
    words: &[u32],
    records: &mut [u8],
    marks: &mut [u8],
)
    requires { ActsDirty clocks.old words.now records.old marks.old p.0 }
    ensures { Holds clocks.new words.now records.new marks.new (closed (state_in mainframe clocks.old words.now records.old marks.old) p.0) }
{
    // The interval is made at the release (here: at each closing).
    tick(p, clocks);
    // Page by page, upwards: write notice, diff, twin and mark.
    close_pages(p, clocks, words, records, marks);
}

// Closes all pages of a processor whose interval has begun, upwards.
#[tactic(auto, using(crate::proofs::AllPages::all_pages_laws))]
fn close_pages(p: ProcessorId, clocks: &[u8], words: &[u32], records: &mut [u8], marks: &mut [u8])
    requires { Closable clocks.now words.now records.old marks.old p.0 }
    ensures { Holds clocks.now words.now records.new marks.new (all_closed (state_in mainframe clocks.now words.now records.old marks.old) p.0) }
{
    for g in 0..page_count(marks) {
        close_page(p, PageId(g), clocks, words, records, marks);
    }
}

// Closes a page: a dirty one becomes a record, a clean one is left. A page that was written is noted, though no word of it may differ.
fn close_page(
    p: ProcessorId,
    g: PageId,
    clocks: &[u8],
    words: &[u32],
    records: &mut [u8],
    marks: &mut [u8],
)
    requires { PageClosable clocks.now words.now records.old marks.old p.0 g.0 }
    ensures { Holds clocks.now words.now records.new marks.new (page_closed (state_in mainframe clocks.now words.now records.old marks.old) p.0 g.0) }
{
    if is_dirty(marks, p, g) {
        make_change(p, g, clocks, words, records, marks);
    }
}

// Makes the record of a dirty page (document 02: makes a change), in the first slot that is free, step by step as the thesis has it.
fn make_change(
    p: ProcessorId,
    g: PageId,
    clocks: &[u8],
    words: &[u32],
    records: &mut [u8],
    marks: &mut [u8],
)
    requires { ChangeReady clocks.now words.now records.old marks.old p.0 g.0 }
    ensures { Holds clocks.now words.now records.new marks.new (change_made (state_in mainframe clocks.now words.now records.old marks.old) p.0 g.0) }
{
    let interval = IntervalId(usize::from(own_entry(clocks, p)));
    let slot = standing_count(marks);
    // The interval has begun and gets a write notice for the page, the sign that the page was modified.
    lay_notice(p, interval, g, records, slot);
    put_standing_count(marks, slot + 1);
    // Then the page's diff is made: the copy is compared with the twin, word by word.
    create_diff(p, g, words, records, slot);
    // With the diff made, the twin is given up and the page is clean again (READ_ONLY there). The mark says whether the twin's row counts, so
    // clearing it does both.
    mark_clean(marks, p, g);
}

// The write notice of a page in a slot: which processor wrote which page in which interval.
#[tactic(auto, using(crate::proofs::SlotBytes::slot_laws))]
fn lay_notice(p: ProcessorId, interval: IntervalId, g: PageId, records: &mut [u8], slot: usize)
    requires { NoticeSlotThere records.old p.0 interval.0 g.0 slot }
    ensures { records.new ≡ sets records.old (slot_width * slot) (notice_bytes p.0 interval.0 g.0) }
{
    let from = SLOT_WIDTH * slot;
    records[from] = p.0 as u8;
    records[from + 1] = interval.0 as u8;
    records[from + 2] = g.0 as u8;
}

// The diff of a page against its twin in a slot, behind its length; the bytes behind it keep what they hold.
fn create_diff(p: ProcessorId, g: PageId, words: &[u32], records: &mut [u8], slot: usize)
    requires { PageSlotThere words.now records.old p.0 g.0 slot }
    ensures { records.new ≡ sets records.old (slot_width * slot + notice_width) (diff_bytes p.0 g.0 words.now) }
{
    let twin = page(words, twin_row(p, g));
    let copy = page(words, copy_row(p, g));
    let from = SLOT_WIDTH * slot + NOTICE_WIDTH;
    let to = SLOT_WIDTH * slot + SLOT_WIDTH;
    lay_counted(twin, copy, &mut records[from..to]);
}

// The diff of two pages behind its length, in the part of a slot behind the write notice.
#[tactic(auto, using(crate::proofs::SlotBytes::slot_laws))]
fn lay_counted(old: &[u32], new: &[u32], out: &mut [u8])
    requires { CountedFits old.now new.now out.old }
    ensures { out.new ≡ sets out.old 0 (counted_bytes old.now new.now) }
{
    out[0] = lay_behind(old, new, out);
}

// The diff of two pages behind the place of its length, and its length.
fn lay_behind(old: &[u32], new: &[u32], out: &mut [u8]) -> u8
    requires { CountedFits old.now new.now out.old }
    ensures value { result ≡ length (written old.now new.now) }
    ensures out_after { out.new ≡ sets out.old 1 (written old.now new.now) }
{
    lay_diff(old, new, &mut out[1..])
}

// The diff of two pages at the start of `out`, and its length: 131 bytes suffice for every diff. The comparison goes word by word.
fn lay_diff(old: &[u32], new: &[u32], out: &mut [u8]) -> u8
    requires { DiffFits old.now new.now out.old }
    ensures value { result ≡ length (written old.now new.now) }
    ensures out_after { out.new ≡ sets out.old 0 (written old.now new.now) }
{
    let mask = diff_writer::changed_words(old, new);
    let n = diff_writer::write_changed(old, new, mask, out);
    n as u8
}

// The words in a row.
fn page(words: &[u32], row: usize) -> &[u32]
    requires { RowThere page_width words.now row }
    ensures { result.now ≡ row_of page_width words.now row }
{
    let from = PAGE_WIDTH * row;
    let to = from + PAGE_WIDTH;
    &words[from..to]
}

// The own entry of a processor rises by 1, and the interval keeps the processor's clock.
#[tactic(auto, using(crate::proofs::Ticks::tick_laws))]
fn tick(p: ProcessorId, clocks: &mut [u8])
    requires { Tickable clocks.old p.0 }
    ensures { Ticked clocks.old clocks.new p.0 }
{
    let made = usize::from(own_entry(clocks, p));
    let row = interval_row(p, IntervalId(made + 1));
    let before = clock_at(clocks, p.0);
    let after = raise(before, p);
    put_clock(clocks, p.0, after);
    put_clock(clocks, row, after);
}

// A clock with the entry of a processor one higher.
#[tactic(auto, using(crate::proofs::Ticks::tick_laws))]
fn raise(clock: Clock, p: ProcessorId) -> Clock
    requires { Raisable clock.entries p.0 }
    ensures { result.entries ≡ raised clock.entries p.0 }
{
    let mut entries = clock.entries;
    entries[p.0 - 1] += 1;
    Clock { entries }
}
