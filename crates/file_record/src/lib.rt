// The records of a step file that are no steps, the opening and one too many, and the line of each record.
#![tactic(auto)]

ghost use Rattle.std.specs.Prelude.{◌≡◌, ◌+◌, ◌≤◌, length, take, drop};
ghost use Rattle.limits.specs.Files.{file_record_width, line_limit};
ghost use Rattle.limits.specs.Refused.{refusal_in};
ghost use Rattle.layout.specs.Areas.{areas};
ghost use Rattle.lines.specs.inner.Needed.{Room, Counted};
ghost use Rattle.file_record.specs.Records.{opening_taken};
ghost use Rattle.file_lines.specs.inner.Needed.{LinePut};
ghost use Rattle.file_record.specs.inner.Needed.{reply_of, outcome_line, stands_at, Takeable, StoppedAt, RecordTaken, TotalThere, WordsAdded, OpenedAs};

use limits::{FILE_RECORD_WIDTH, Refusal};
use step_access::Answered;
use step_act::Outcome;

// What a step answers, where it is refused by a number, which may be any.
pub type Reply = Result<Answered, u8>;

// What stands between two records: the number of the next, whether the run has stopped, whether the areas are in order, how many
// bytes of lines are written, and how many words have moved.
#[derive(Clone, Copy)]
pub struct Stand {
    pub number: u32,
    pub stopped: bool,
    pub ready: bool,
    pub at: usize,
    pub words: u64,
}

// The opening; a refused one ends the run.
#[tactic(auto, using(crate::proofs::Taking::room_for_line))]
pub fn take_opening(
    stand: Stand,
    bytes: &[u8],
    from: usize,
    lines: &mut [u8],
    clocks: &mut [u8],
    words: &mut [u32],
    records: &mut [u8],
    marks: &mut [u8],
) -> Stand
    requires { Takeable stand bytes.now from lines.old clocks.old words.old records.old marks.old }
    ensures { RecordTaken (opening_taken (stands_at stand lines.old (areas clocks.old words.old records.old marks.old)) (take file_record_width (drop from bytes.now))) stand lines.old result lines.new clocks.new words.new records.new marks.new }
{
    let (refusal, stopped, ready) = match open_at(bytes, from, clocks, words, records, marks) {
        Ok(()) => (0, false, true),
        Err(refusal) => (u32::from(refusal.number()), true, stand.ready),
    };
    let at = file_lines::put_record_line(lines, stand.at, 0, refusal, 0, 0);
    Stand {
        number: 1,
        stopped,
        ready,
        at,
        words: 0,
    }
}

// 16: a whole record follows the 1,000,000th step record.
pub fn too_many(stand: Stand, lines: &mut [u8]) -> Stand
    requires { Room lines.old stand.at line_limit }
    ensures { StoppedAt stand lines.old result lines.new }
{
    let refusal = u32::from(Refusal::TooManySteps.number());
    let at = file_lines::put_record_line(lines, stand.at, stand.number, refusal, 0, 0);
    Stand {
        stopped: true,
        at,
        ..stand
    }
}

// The outcome of a step with its refusal as a number.
#[tactic(auto, unfolding(crate::specs::inner::Needed::reply_of))]
pub fn reply_of(outcome: Outcome) -> Reply
    ensures { result ≡ reply_of outcome }
{
    match outcome {
        Ok(answered) => Ok(answered),
        Err(refusal) => Err(refusal.number()),
    }
}

// Writes the line of a step from a place on where the digits of its number are at hand, and says the place behind it.
// A call for each way, so that the line of an accepted step is compiled with the refusal 0: with one call each step takes five instructions more.
pub fn put_next(
    out: &mut [u8],
    at: usize,
    digits: [u8; 8],
    len: usize,
    number: u32,
    outcome: Reply,
) -> usize
    requires room { Room out.old at line_limit }
    requires counted { Counted digits len number }
    ensures { LinePut out.old at (outcome_line number outcome) out.new result }
{
    match outcome {
        Ok(answered) => {
            file_lines::put_counted_line(
                out,
                at,
                digits,
                len,
                number,
                0,
                answered.value,
                answered.count,
            )
        }
        Err(refusal) => {
            let refusal = u32::from(refusal);
            file_lines::put_counted_line(out, at, digits, len, number, refusal, 0, 0)
        }
    }
}

// The words that have moved with those of a step's outcome, before which so many had, and the step has this number, which is named for the contract
// alone: 64 bits are enough for the steps of a file.
#[tactic(auto, using(crate::proofs::Taking::total_fits))]
pub fn add_words(total: u64, number: u32, outcome: Reply) -> u64
    requires { TotalThere total number }
    ensures { WordsAdded total outcome result }
{
    match outcome {
        Ok(answered) => total + u64::from(answered.words),
        Err(_) => total,
    }
}

// Opens a mainframe by the eight bytes from a place on.
#[tactic(auto, using(crate::proofs::Taking::opened_as))]
fn open_at(
    bytes: &[u8],
    from: usize,
    clocks: &mut [u8],
    words: &mut [u32],
    records: &mut [u8],
    marks: &mut [u8],
) -> Result<(), Refusal>
    requires { from + file_record_width ≤ length bytes.now }
    ensures { OpenedAs (take file_record_width (drop from bytes.now)) clocks.old words.old records.old marks.old (refusal_in result) clocks.new words.new records.new marks.new }
{
    let end = from + FILE_RECORD_WIDTH;
    opening::open_mainframe(&bytes[from..end], clocks, words, records, marks)
}
