// The tests of the records that stand: each is sound and has a legal diff, and no two are of one processor, interval and page.
// Each contract is an equation with a definition of specs/inner/Tests.antt.
#![tactic(auto)]

ghost use Rattle.std.specs.Prelude.{◌≡◌, ◌<◌, ◌≤◌};
ghost use Rattle.lists.specs.Tables.{every};
ghost use Rattle.limits.specs.Limits.{page_limit, processor_limit};
ghost use Rattle.limits.specs.inner.Sizes.{notice_table, slot_width};
ghost use Rattle.layout.specs.inner.Needed.{RowThere};
ghost use Rattle.inorder_records.specs.inner.Tests.{notice_holds, diff_holds, record_holds, unlike, notice_place, records_hold_with};
ghost use Rattle.inorder_records.specs.inner.Needed.{OwnFit, SlotThere, SlotsThere, NoticeFits, NoticesFit};

use clock::{IntervalId, PageId, ProcessorId};
use diff::check;
use layout::slots::{slot_diff, slot_interval, slot_length, slot_page, slot_processor};
use limits::{CLOCK_WIDTH, DIFF_LIMIT, NOTICE_ROW, NOTICE_TABLE, PAGE_LIMIT};

// Whether all records are in order.
#[tactic(auto, unfolding(crate::specs::inner::Tests::records_hold_with))]
pub fn records_hold(
    records: &[u8],
    own: [u8; CLOCK_WIDTH],
    processors: usize,
    pages: usize,
    standing: usize,
) -> bool
    requires { (SlotsThere records.now standing) × (processors ≤ processor_limit) × (pages ≤ page_limit) × (OwnFit own) }
    ensures { result ≡ records_hold_with own records.now processors pages standing }
{
    records_sound(records, own, processors, pages, standing) && records_unlike(records, standing)
}

// Whether a record's numbers are those of a present processor and page and of an interval that was made.
#[tactic(auto, unfolding(crate::specs::inner::Tests::notice_holds))]
fn notice_holds(
    own: [u8; CLOCK_WIDTH],
    processors: usize,
    pages: usize,
    p: ProcessorId,
    n: IntervalId,
    g: PageId,
) -> bool
    requires { processors ≤ processor_limit }
    ensures { result ≡ notice_holds own processors pages p.0 n.0 g.0 }
{
    p.0 != 0 && p.0 <= processors && g.0 < pages && n.0 != 0 && n.0 <= usize::from(own[p.0 - 1])
}

// Whether the diff in a slot fits the slot and is legal.
#[tactic(auto, using(limits::proofs::Refused::ok_is_0), unfolding(crate::specs::inner::Tests::diff_holds))]
fn diff_holds(records: &[u8], i: usize) -> bool
    requires { RowThere slot_width records.now i }
    ensures { result ≡ diff_holds records.now i }
{
    slot_length(records, i) <= DIFF_LIMIT && check(slot_diff(records, i)).is_ok()
}

// Whether the record in a slot is sound.
#[tactic(auto, unfolding(crate::specs::inner::Tests::record_holds))]
fn record_holds(
    records: &[u8],
    own: [u8; CLOCK_WIDTH],
    processors: usize,
    pages: usize,
    i: usize,
) -> bool
    requires { (SlotThere records.now i) × (processors ≤ processor_limit) }
    ensures { result ≡ record_holds own records.now processors pages i }
{
    notice_holds(
        own,
        processors,
        pages,
        slot_processor(records, i),
        slot_interval(records, i),
        slot_page(records, i),
    ) && diff_holds(records, i)
}

// Whether every record that stands is.
fn records_sound(
    records: &[u8],
    own: [u8; CLOCK_WIDTH],
    processors: usize,
    pages: usize,
    standing: usize,
) -> bool
    requires { (SlotsThere records.now standing) × (processors ≤ processor_limit) }
    ensures { result ≡ every standing (record_holds own records.now processors pages) }
{
    // A `for`: with `all` the table of records_unlike is laid even where no record stands, which is slower.
    for i in 0..standing {
        if !record_holds(records, own, processors, pages, i) {
            return false;
        }
    }
    true
}

// The place of a record's processor, interval and page in a table that has one for each.
#[tactic(auto, unfolding(crate::specs::inner::Tests::notice_place))]
fn notice_place(records: &[u8], i: usize) -> usize
    requires { (SlotThere records.now i) × (NoticeFits records.now i) }
    ensures value { result ≡ notice_place records.now i }
    ensures upper_bound { result < notice_table }
{
    let p = slot_processor(records, i);
    let n = slot_interval(records, i);
    let g = slot_page(records, i);
    NOTICE_ROW * p.0 + PAGE_LIMIT * n.0 + g.0
}

// Whether no two records that stand are of one processor, interval and page: each is marked in the table.
#[tactic(auto, using(crate::proofs::Notices::notices_checked))]
fn records_unlike(records: &[u8], standing: usize) -> bool
    requires { (SlotsThere records.now standing) × (NoticesFit records.now standing) }
    ensures { result ≡ every standing (unlike records.now) }
{
    let mut seen = [false; NOTICE_TABLE];
    for i in 0..standing {
        let place = notice_place(records, i);
        if seen[place] {
            return false;
        }
        seen[place] = true;
    }
    true
}
