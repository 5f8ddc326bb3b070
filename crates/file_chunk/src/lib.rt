// The records that lie whole in a chunk of a step file, taken one after the other: the opening, the steps, one too many.
#![tactic(auto)]

ghost use Rattle.std.specs.Prelude.{true};
ghost use Rattle.file_chunk.specs.inner.Needed.{Passable, AllPassed, FirstTaken, StepsPassable, StepsTaken, Runnable, RoomForSteps, StepsRefused, LastPassable, LastTaken};

use file_record::Stand;
use limits::{FILE_RECORD_WIDTH, Refusal};

// What stands behind the last whole record of a chunk, and the place in the chunk behind it.
#[derive(Clone, Copy)]
pub struct Passed {
    pub stand: Stand,
    pub next: usize,
}

// Takes the records that lie whole in the chunk from a place on, until the run stops: the opening, and those behind it.
pub fn take_whole(
    stand: Stand,
    chunk: &[u8],
    from: usize,
    lines: &mut [u8],
    clocks: &mut [u8],
    words: &mut [u32],
    records: &mut [u8],
    marks: &mut [u8],
) -> Passed
    requires { Passable stand chunk.now from lines.old clocks.old words.old records.old marks.old }
    ensures { AllPassed stand chunk.now from lines.old clocks.old words.old records.old marks.old result.stand result.next lines.new clocks.new words.new records.new marks.new }
{
    let first = take_first(stand, chunk, from, lines, clocks, words, records, marks);
    take_behind(
        first.stand,
        chunk,
        first.next,
        lines,
        clocks,
        words,
        records,
        marks,
    )
}

// Takes the opening, if no record is taken yet and the chunk has a whole one from a place on.
#[tactic(auto, using(crate::proofs::Passing::passing_laws))]
fn take_first(
    stand: Stand,
    chunk: &[u8],
    from: usize,
    lines: &mut [u8],
    clocks: &mut [u8],
    words: &mut [u32],
    records: &mut [u8],
    marks: &mut [u8],
) -> Passed
    requires { Passable stand chunk.now from lines.old clocks.old words.old records.old marks.old }
    ensures { FirstTaken stand chunk.now from lines.old clocks.old words.old records.old marks.old result.stand result.next lines.new clocks.new words.new records.new marks.new }
{
    if stand.number != 0 || stand.stopped || chunk.len() - from < FILE_RECORD_WIDTH {
        return Passed { stand, next: from };
    }
    let stand = file_record::take_opening(stand, chunk, from, lines, clocks, words, records, marks);
    Passed {
        stand,
        next: from + FILE_RECORD_WIDTH,
    }
}

// Takes the records behind the opening: the steps, and one too many.
fn take_behind(
    stand: Stand,
    chunk: &[u8],
    from: usize,
    lines: &mut [u8],
    clocks: &mut [u8],
    words: &mut [u32],
    records: &mut [u8],
    marks: &mut [u8],
) -> Passed
    requires { StepsPassable stand chunk.now from lines.old clocks.old words.old records.old marks.old }
    ensures { AllPassed stand chunk.now from lines.old clocks.old words.old records.old marks.old result.stand result.next lines.new clocks.new words.new records.new marks.new }
{
    let run = take_run(stand, chunk, from, lines, clocks, words, records, marks);
    take_last(run.stand, chunk, run.next, lines)
}

// Takes the steps that follow from a place on; on areas that are not in order each is refused.
#[tactic(auto, using(crate::proofs::Runs::run_laws))]
fn take_run(
    stand: Stand,
    chunk: &[u8],
    from: usize,
    lines: &mut [u8],
    clocks: &mut [u8],
    words: &mut [u32],
    records: &mut [u8],
    marks: &mut [u8],
) -> Passed
    requires { StepsPassable stand chunk.now from lines.old clocks.old words.old records.old marks.old }
    ensures { StepsTaken stand chunk.now from lines.old clocks.old words.old records.old marks.old result.stand result.next lines.new clocks.new words.new records.new marks.new }
{
    if stand.stopped || stand.number == 0 {
        return Passed { stand, next: from };
    }
    let end = file_lines::run_end(stand.number, from, chunk.len());
    if stand.ready {
        take_steps(
            stand, chunk, from, end, lines, clocks, words, records, marks,
        )
    } else {
        refuse_steps(stand, from, end, lines)
    }
}

// Takes the steps from a place on to another, on areas in order: the inner loop of the run program. The index is kept over all of them.
#[tactic(auto, using(crate::proofs::Runs::run_laws))]
fn take_steps(
    stand: Stand,
    chunk: &[u8],
    from: usize,
    end: usize,
    lines: &mut [u8],
    clocks: &mut [u8],
    words: &mut [u32],
    records: &mut [u8],
    marks: &mut [u8],
) -> Passed
    requires { Runnable true stand chunk.now from end lines.old clocks.old words.old records.old marks.old }
    ensures { StepsTaken stand chunk.now from lines.old clocks.old words.old records.old marks.old result.stand result.next lines.new clocks.new words.new records.new marks.new }
{
    let mut number = stand.number;
    let mut at = stand.at;
    let mut moved = stand.words;
    let mut index = fetch_index::new_index(marks);
    let mut digits = [b'0'; 8];
    let mut len = lines::counter(&mut digits, number);
    for i in (from..end).step_by(FILE_RECORD_WIDTH) {
        let outcome = step_record::step_record(chunk, i, clocks, words, records, marks, &mut index);
        let answered = file_record::reply_of(outcome);
        moved = file_record::add_words(moved, number, answered);
        at = file_record::put_next(lines, at, digits, len, number, answered);
        len = lines::count_on(&mut digits, len, number);
        number += 1;
    }
    Passed {
        stand: Stand {
            number,
            at,
            words: moved,
            ..stand
        },
        next: end,
    }
}

// Refuses the steps from a place on to another, on areas that are not in order: a line with refusal 1 for each.
#[tactic(auto, using(crate::proofs::Runs::run_laws))]
fn refuse_steps(stand: Stand, from: usize, end: usize, lines: &mut [u8]) -> Passed
    requires { RoomForSteps stand from end lines.old }
    ensures { StepsRefused stand from end lines.old result.stand result.next lines.new }
{
    let refusal = u32::from(Refusal::NotInOrder.number());
    let mut number = stand.number;
    let mut at = stand.at;
    for _ in (from..end).step_by(FILE_RECORD_WIDTH) {
        at = file_lines::put_record_line(lines, at, number, refusal, 0, 0);
        number += 1;
    }
    Passed {
        stand: Stand {
            number,
            at,
            ..stand
        },
        next: end,
    }
}

// Takes the record that is one too many, if the run has not stopped and the chunk has a whole one from a place on.
#[tactic(auto, using(crate::proofs::Passing::passing_laws))]
fn take_last(stand: Stand, chunk: &[u8], from: usize, lines: &mut [u8]) -> Passed
    requires { LastPassable stand chunk.now from lines.old }
    ensures { LastTaken stand chunk.now from lines.old result.stand result.next lines.new }
{
    if stand.stopped || chunk.len() - from < FILE_RECORD_WIDTH {
        return Passed { stand, next: from };
    }
    Passed {
        stand: file_record::too_many(stand, lines),
        next: from + FILE_RECORD_WIDTH,
    }
}
