// The numbers of one mainframe, each with one name: what document 01 limits, and the sizes and places that follow. Definitions have the same
// names without capitals (specs/Limits.antt).
#![tactic(auto)]

ghost use Rattle.std.specs.Prelude.{◌≡◌};
ghost use Rattle.limits.specs.Refused.{number_of, refusal_in};

// Why a step, an opening, a diff or a file is refused: a row of document 01's table each, with its number.
#[derive(Clone, Copy, PartialEq, Eq)]
pub enum Refusal {
    // Lent memory has a wrong size or holds no state in order.
    NotInOrder = 1,
    // An opening is not eight bytes or does not fit.
    BadOpening = 2,
    UnknownKind = 3,
    AbsentProcessor = 4,
    // The word, lock or tally is absent, or a field that the kind does not use is not 0.
    BadField = 5,
    HasArrived = 6,
    // An acquire by the holder.
    HoldsAlready = 7,
    // A release by another than the holder.
    NotHolder = 8,
    NoIntervalLeft = 9,
    NoRecordLeft = 10,
    // Bytes that are to be a diff have a wrong length.
    BadLength = 11,
    // A pair of a diff breaks its rule.
    BadPair = 12,
    // A diff does not fit into the bytes lent for it.
    NoRoom = 13,
    // A page is not as long as a page.
    BadPage = 14,
    // A file ends within a record or before the opening.
    EndsShort = 15,
    TooManySteps = 16,
    // The processor waits for a lock.
    Waits = 17,
    // An arrival by the holder of a lock.
    ArrivesHolding = 18,
    QueueFull = 19,
    QueueEmpty = 20,
}

impl Refusal {
    // The number of its row.
    pub fn number(self) -> u8
        ensures { result ≡ number_of self }
    {
        self as u8
    }
}

// The number that an answer stands for: 0 where nothing is refused.
pub fn refusal_or_0<T: Copy>(answered: Result<T, Refusal>) -> u8
    ensures { result ≡ refusal_in answered }
{
    match answered {
        Ok(_) => 0,
        Err(refusal) => refusal.number(),
    }
}

// What there can be.
pub const PROCESSOR_LIMIT: usize = 8;

pub const PAGE_LIMIT: usize = 8;
// The words of a page.
pub const PAGE_WIDTH: usize = 32;

// The values that a word can have.
pub const WORD_VALUES: u64 = 4294967296;

pub const LOCK_LIMIT: usize = 16;

pub const RECORD_LIMIT: usize = 128;

pub const TALLY_LIMIT: usize = 16;

pub const JOB_LIMIT: usize = 32;
// The intervals of a processor.
pub const INTERVAL_LIMIT: usize = 63;
// The same as a byte, as clocks have it.
pub const LAST_INTERVAL: u8 = INTERVAL_LIMIT as u8;

// The words of all pages: a processor's copy.
pub const WORD_LIMIT: usize = PAGE_LIMIT * PAGE_WIDTH;
// The pages of all processors: so many copies, twins, applied clocks and dirty marks.
pub const COPY_LIMIT: usize = PROCESSOR_LIMIT * PAGE_LIMIT;
// The parts of the words: each processor's copies, then each processor's twins.
pub const PART_LIMIT: usize = 2 * PROCESSOR_LIMIT;
// The entries of a clock.
pub const CLOCK_WIDTH: usize = PROCESSOR_LIMIT;
// From one processor's own entry to the next: a row and a place further.
pub const OWN_STEP: usize = CLOCK_WIDTH + 1;
// The runs of a diff, and its bytes.
pub const RUN_LIMIT: usize = (PAGE_WIDTH + 1) / 2;

pub const DIFF_LIMIT: usize = 3 + 4 * PAGE_WIDTH;

// A slot: the write notice (processor, interval, page), the diff's length, the diff.
pub const NOTICE_WIDTH: usize = 3;

pub const SLOT_HEAD: usize = 4;

pub const SLOT_WIDTH: usize = SLOT_HEAD + DIFF_LIMIT;

// Rows of clocks: the barrier's, the processors', the locks', the applied clocks, the intervals' and the jobs'.
pub const FIRST_LOCK_ROW: usize = 1 + PROCESSOR_LIMIT;

pub const FIRST_APPLIED_ROW: usize = FIRST_LOCK_ROW + LOCK_LIMIT;

pub const FIRST_INTERVAL_ROW: usize = FIRST_APPLIED_ROW + COPY_LIMIT;

pub const FIRST_JOB_ROW: usize = FIRST_INTERVAL_ROW + PROCESSOR_LIMIT * INTERVAL_LIMIT;

pub const CLOCK_ROW_LIMIT: usize = FIRST_JOB_ROW + JOB_LIMIT;

// Rows of words: the copies, then the twins.
pub const WORD_ROW_LIMIT: usize = COPY_LIMIT + COPY_LIMIT;

// Marks: the counts of processors, pages and locks, the records that stand in two bytes, the wish, then arrived, holders and dirty, and for each
// processor the lock that it waits for and its turn, then the place of the oldest job and how many wait.
pub const PROCESSORS_PLACE: usize = 0;

pub const PAGES_PLACE: usize = 1;

pub const LOCKS_PLACE: usize = 2;

pub const STANDING_PLACE: usize = 3;

pub const STANDING_HIGH: usize = 4;

pub const WANTED_PLACE: usize = 5;

pub const FIRST_ARRIVED: usize = 6;

pub const FIRST_HOLDER: usize = FIRST_ARRIVED + PROCESSOR_LIMIT;

pub const FIRST_DIRTY: usize = FIRST_HOLDER + LOCK_LIMIT;

pub const FIRST_AWAITED: usize = FIRST_DIRTY + COPY_LIMIT;

pub const FIRST_TURN: usize = FIRST_AWAITED + PROCESSOR_LIMIT;

pub const QUEUE_FIRST: usize = FIRST_TURN + PROCESSOR_LIMIT;

pub const QUEUE_JOBS: usize = QUEUE_FIRST + 1;

// The four areas.
pub const CLOCK_AREA: usize = CLOCK_WIDTH * CLOCK_ROW_LIMIT;

// The words of the pages, and behind them the tallies: of each the posted total, then the adds of each processor; then the values of the jobs.
pub const FIRST_TALLY: usize = PAGE_WIDTH * WORD_ROW_LIMIT;

pub const FIRST_JOB_VALUE: usize = FIRST_TALLY + (PROCESSOR_LIMIT + 1) * TALLY_LIMIT;

pub const WORD_AREA: usize = FIRST_JOB_VALUE + JOB_LIMIT;

pub const RECORD_AREA: usize = SLOT_WIDTH * RECORD_LIMIT;

pub const MARK_AREA: usize = QUEUE_JOBS + 1;

// A sort key: sum, processor, interval and slot as one number, each below its base.
pub const SLOT_BASE: u32 = RECORD_LIMIT as u32;

pub const INTERVAL_BASE: u32 = INTERVAL_LIMIT as u32 + 1;

pub const PROCESSOR_BASE: u32 = 2 * PROCESSOR_LIMIT as u32;

pub const SUM_BASE: u32 = 1024;
// What one processor more adds to a key.
pub const PROCESSOR_STEP: u32 = INTERVAL_BASE * SLOT_BASE;
// Above every key.
pub const KEY_LIMIT: u32 = SUM_BASE * PROCESSOR_BASE * INTERVAL_BASE * SLOT_BASE;

// A table with a place for each processor, interval and page: the places of one processor, and all.
pub const NOTICE_ROW: usize = (INTERVAL_LIMIT + 1) * PAGE_LIMIT;

pub const NOTICE_TABLE: usize = (PROCESSOR_LIMIT + 1) * NOTICE_ROW;
// The index: a row of sort keys for each page; how many keys each row has; how many records are ranked; for each page a watermark of each
// processor; for each slot a mask of its diff; bounds of the object, then of the value, for each kind of step: 0, those that are known, and one for all above.
pub const KEY_AREA: usize = PAGE_LIMIT * RECORD_LIMIT;

pub const FIRST_COUNT: usize = KEY_AREA;

pub const RANKED_PLACE: usize = FIRST_COUNT + PAGE_LIMIT;

pub const FIRST_WATERMARK: usize = RANKED_PLACE + 1;

pub const FIRST_MASK: usize = FIRST_WATERMARK + COPY_LIMIT;

pub const FIRST_BOUND: usize = FIRST_MASK + RECORD_LIMIT;

pub const KIND_LIMIT: usize = 12;

pub const KIND_BOUNDS: usize = KIND_LIMIT + 1;

pub const BOUND_AREA: usize = KIND_BOUNDS + KIND_BOUNDS;

pub const INDEX_AREA: usize = FIRST_BOUND + BOUND_AREA;

// A step file: the bytes of a record, the steps, and the records with the opening.
pub const FILE_RECORD_WIDTH: usize = 8;

pub const STEP_LIMIT: u32 = 1000000;

pub const FILE_RECORD_LIMIT: u32 = STEP_LIMIT + 1;
// An answer as words: refusal, value, count, words.
pub const ANSWER_WIDTH: usize = 4;
// The bytes of the longest line: four numbers of ten digits, each with a byte behind it.
pub const LINE_LIMIT: usize = 44;
