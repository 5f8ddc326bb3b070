// The opening: the eight bytes of its record tested, and the state of the opened mainframe laid into the four areas of lent memory.
// Every contract determines the answer and what each area holds afterwards, by an equation with a definition of the rules.
#![tactic(auto)]

ghost use Rattle.std.specs.Prelude.{◌≡◌, length, replicate};
ghost use Rattle.limits.specs.Refused.{refusal_in};
ghost use Rattle.limits.specs.inner.Sizes.{word_area};
ghost use Rattle.layout.specs.Areas.{areas};
ghost use Rattle.opening.specs.Promises.{open_refusal, areas_opened};
ghost use Rattle.opening.specs.inner.Openings.{opened_marks, Openable, MarksOpenable, OpeningIs, HoldsOpened};

use layout::right_sizes;
use limits::{
    FIRST_TALLY, LOCK_LIMIT, LOCKS_PLACE, PAGE_LIMIT, PAGES_PLACE, PART_LIMIT, PROCESSOR_LIMIT,
    PROCESSORS_PLACE, Refusal, WORD_LIMIT,
};

// The limits as bytes, as an opening has its counts.
const PROCESSORS: u8 = PROCESSOR_LIMIT as u8;

const PAGES: u8 = PAGE_LIMIT as u8;

const LOCKS: u8 = LOCK_LIMIT as u8;

// Opens a mainframe: the areas are exactly the opened state, whatever they held, unless one has a wrong size, or the opening is not eight bytes
// or does not fit.
#[tactic(auto, using(crate::proofs::Opening::refusal_by_tests), unfolding(crate::specs::Promises::areas_opened))]
pub fn open_mainframe(
    opening: &[u8],
    clocks: &mut [u8],
    words: &mut [u32],
    records: &mut [u8],
    marks: &mut [u8],
) -> Result<(), Refusal>
    ensures answer { refusal_in result ≡ open_refusal opening.now (areas clocks.old words.old records.old marks.old) }
    ensures memory { areas clocks.new words.new records.new marks.new ≡ areas_opened opening.now (areas clocks.old words.old records.old marks.old) }
{
    if !right_sizes(clocks, words, records, marks) {
        return Err(Refusal::NotInOrder);
    }
    if !opening_fits(opening) {
        return Err(Refusal::BadOpening);
    }
    lay_opened(opening, clocks, words, records, marks);
    Ok(())
}

// Whether an opening is eight bytes that row 2 does not refuse: the counts of processors, pages and locks in range, and all else 0.
#[tactic(auto, using(crate::proofs::OpeningTests::opening_fits_is))]
pub fn opening_fits(opening: &[u8]) -> bool
    ensures { OpeningIs result opening.now }
{
    matches!(
        opening,
        [0, 1..=PROCESSORS, 1..=PAGES, 1..=LOCKS, 0, 0, 0, 0]
    )
}

// The opened state laid into the areas.
fn lay_opened(
    opening: &[u8],
    clocks: &mut [u8],
    words: &mut [u32],
    records: &mut [u8],
    marks: &mut [u8],
)
    requires { Openable opening.now clocks.old words.old records.old marks.old }
    ensures { HoldsOpened opening.now clocks.new words.new records.new marks.new }
{
    clocks.fill(0);
    lay_words(words);
    records.fill(0);
    lay_marks(opening, marks);
}

// A fresh copy for each processor, and the same for its twin; behind them nothing is posted to a tally or added, and no job has a value.
fn lay_words(words: &mut [u32])
    requires { length words.old ≡ word_area }
    ensures { words.new ≡ replicate (length words.old) 0 }
{
    let fresh = [0; WORD_LIMIT];
    for part in 0..PART_LIMIT {
        let at = WORD_LIMIT * part;
        words[at..at + WORD_LIMIT].copy_from_slice(&fresh);
    }
    words[FIRST_TALLY..].fill(0);
}

// The three counts laid before zeros.
pub fn lay_marks(opening: &[u8], marks: &mut [u8])
    requires { MarksOpenable opening.now marks.old }
    ensures { marks.new ≡ opened_marks opening.now }
{
    marks.fill(0);
    marks[PROCESSORS_PLACE] = opening[1];
    marks[PAGES_PLACE] = opening[2];
    marks[LOCKS_PLACE] = opening[3];
}
