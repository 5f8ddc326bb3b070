// The numbers of a slot by name, and its diff. Every contract is an equation over the list of the records, with a definition of
// specs/inner/Marks.antt.
ghost use Rattle.std.specs.Prelude.{◌≡◌, ◌<◌};
ghost use Rattle.limits.specs.inner.Sizes.{slot_width};
ghost use Rattle.layout.specs.inner.Marks.{slot_processor, slot_interval, slot_page, slot_length, slot_diff};
ghost use Rattle.layout.specs.inner.Needed.{RowThere, DiffIn};

use clock::{IntervalId, PageId, ProcessorId};
use limits::{SLOT_HEAD, SLOT_WIDTH};

// The processor of the record in a slot.
pub fn slot_processor(records: &[u8], slot: usize) -> ProcessorId
    requires { RowThere slot_width records.now slot }
    ensures { (result.0 ≡ slot_processor records.now slot) × (result.0 < 256) }
{
    ProcessorId(usize::from(records[SLOT_WIDTH * slot]))
}

// Its interval.
pub fn slot_interval(records: &[u8], slot: usize) -> IntervalId
    requires { RowThere slot_width records.now slot }
    ensures { (result.0 ≡ slot_interval records.now slot) × (result.0 < 256) }
{
    IntervalId(usize::from(records[SLOT_WIDTH * slot + 1]))
}

// Its page.
pub fn slot_page(records: &[u8], slot: usize) -> PageId
    requires { RowThere slot_width records.now slot }
    ensures { (result.0 ≡ slot_page records.now slot) × (result.0 < 256) }
{
    PageId(usize::from(records[SLOT_WIDTH * slot + 2]))
}

// The length of its diff.
pub fn slot_length(records: &[u8], slot: usize) -> usize
    requires { RowThere slot_width records.now slot }
    ensures { (result ≡ slot_length records.now slot) × (result < 256) }
{
    usize::from(records[SLOT_WIDTH * slot + 3])
}

// Its diff.
pub fn slot_diff(records: &[u8], slot: usize) -> &[u8]
    requires { DiffIn records.now slot }
    ensures { result.now ≡ slot_diff records.now slot }
{
    let from = SLOT_WIDTH * slot + SLOT_HEAD;
    let to = from + slot_length(records, slot);
    &records[from..to]
}
