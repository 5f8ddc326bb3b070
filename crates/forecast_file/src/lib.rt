// The forecast of a step file: its records taken in parts of whole records, and their lines.
#![tactic(auto)]

ghost use Rattle.std.specs.Prelude.{◌≡◌};
ghost use Rattle.lines.specs.inner.Needed.{Counted, Room};
ghost use Rattle.limits.specs.Files.{line_limit};
ghost use Rattle.limits.specs.Refused.{number_of, refusal_in};
ghost use Rattle.forecast_step.specs.inner.Needed.{MarksForeseen};
ghost use Rattle.forecast_file.specs.Promises.{Begun, TakenAs};
ghost use Rattle.forecast_file.specs.inner.Needed.{MemorySound, PartTakeable, FirstTakeable, OpeningPassed, StepsTakeable, StepsPassed, Steppable, StepTaken, StepsAhead, LastTakeable, LastPassed, nothing_taken, WholePassed, Finishable, EndPut, Finished, FiguresPut};

use limits::{FILE_RECORD_WIDTH, Refusal, refusal_or_0};
use step_fields::Step;

// How far a file has been forecast: the number of the next record, and the largest sum of records and dirty pages so far.
#[derive(Clone, Copy)]
pub struct Reach {
    pub number: u32,
    pub most: u32,
}

// What taking a part of a file answers: how far it has been forecast, how many bytes of lines were made, and whether the last line is among them.
#[derive(Clone, Copy)]
pub struct PartTaken {
    pub reach: Reach,
    pub made: usize,
    pub done: bool,
}

// What stands behind some records of a part: whether the forecast has stopped, the place in the part behind them, and how many bytes of lines are
// written.
#[derive(Clone, Copy)]
pub struct PartWay {
    pub reach: Reach,
    pub stopped: bool,
    pub next: usize,
    pub at: usize,
}

// What a step leaves: the place behind its line, and the sum of records and dirty pages.
#[derive(Clone, Copy)]
pub struct Stepped {
    pub at: usize,
    pub sum: u32,
}

// No record has been taken.
#[tactic(auto, using(crate::proofs::Taking::begin_laws))]
pub fn begin_forecast() -> Reach
    ensures { Begun result }
{
    Reach { number: 0, most: 0 }
}

// Takes a part of a file: whole records, and where the file has ended what is left of one. The last line follows where the file has ended or the
// forecast has stopped.
#[tactic(auto, using(crate::proofs::Taking::taking_laws))]
pub fn take(
    reach: Reach,
    part: &[u8],
    ended: bool,
    lines: &mut [u8],
    own: &mut [u8],
    marks: &mut [u8],
) -> PartTaken
    requires { PartTakeable reach part.now ended lines.old own.old marks.old }
    ensures taken_as { TakenAs reach part.now ended lines.old own.old marks.old result lines.new own.new marks.new }
    ensures memory_sound { MemorySound result.reach result.done own.new marks.new }
{
    let last = take_whole(reach, part, lines, own, marks);
    finish(last, part, ended, lines, marks)
}

// Takes the whole records of a part, until the forecast stops: the opening, and those behind it.
#[tactic(auto, using(crate::proofs::Taking::taking_laws))]
fn take_whole(
    reach: Reach,
    part: &[u8],
    lines: &mut [u8],
    own: &mut [u8],
    marks: &mut [u8],
) -> PartWay
    requires { FirstTakeable reach part.now lines.old own.old marks.old }
    ensures { WholePassed (nothing_taken reach) part.now lines.old own.old marks.old result lines.new own.new marks.new }
{
    let first = take_first(reach, part, lines, own, marks);
    take_behind(first, part, lines, own, marks)
}

// Takes the records behind the opening: the steps, and one too many.
#[tactic(auto, using(crate::proofs::Taking::taking_laws))]
fn take_behind(
    before: PartWay,
    part: &[u8],
    lines: &mut [u8],
    own: &mut [u8],
    marks: &mut [u8],
) -> PartWay
    requires { StepsTakeable before part.now lines.old own.old marks.old }
    ensures { WholePassed before part.now lines.old own.old marks.old result lines.new own.new marks.new }
{
    let steps = take_steps(before, part, lines, own, marks);
    take_last(steps, part, lines, marks)
}

// Takes the opening, if no record is taken yet and the part has a whole one.
#[tactic(auto, using(crate::proofs::Passing::first_laws))]
fn take_first(
    reach: Reach,
    part: &[u8],
    lines: &mut [u8],
    own: &mut [u8],
    marks: &mut [u8],
) -> PartWay
    requires { FirstTakeable reach part.now lines.old own.old marks.old }
    ensures { OpeningPassed reach part.now lines.old own.old marks.old result lines.new own.new marks.new }
{
    let start = PartWay {
        reach,
        stopped: false,
        next: 0,
        at: 0,
    };
    if reach.number != 0 || part.len() < FILE_RECORD_WIDTH {
        return start;
    }
    let opened = forecast_step::open(&part[..FILE_RECORD_WIDTH], own, marks);
    let refusal = u32::from(refusal_or_0(opened));
    PartWay {
        reach: Reach { number: 1, most: 0 },
        stopped: opened.is_err(),
        next: FILE_RECORD_WIDTH,
        at: file_lines::put_record_line(lines, 0, 0, refusal, 0, 0),
    }
}

// Takes the steps that follow, unless the forecast has stopped or has no opening.
#[tactic(auto, using(crate::proofs::Steps::steps_laws))]
fn take_steps(
    before: PartWay,
    part: &[u8],
    lines: &mut [u8],
    own: &mut [u8],
    marks: &mut [u8],
) -> PartWay
    requires { StepsTakeable before part.now lines.old own.old marks.old }
    ensures { StepsPassed before part.now lines.old own.old marks.old result lines.new own.new marks.new }
{
    if before.stopped || before.reach.number == 0 {
        return before;
    }
    let end = file_lines::run_end(before.reach.number, before.next, part.len());
    take_run(before, part, end, lines, own, marks)
}

// Takes the steps up to a place: the inner loop of the forecast.
#[tactic(auto, using(crate::proofs::Steps::run_laws))]
fn take_run(
    before: PartWay,
    part: &[u8],
    end: usize,
    lines: &mut [u8],
    own: &mut [u8],
    marks: &mut [u8],
) -> PartWay
    requires { StepsAhead before part.now end lines.old own.old marks.old }
    ensures { StepsPassed before part.now lines.old own.old marks.old result lines.new own.new marks.new }
{
    let mut number = before.reach.number;
    let mut most = before.reach.most;
    let mut at = before.at;
    let mut digits = [b'0'; 8];
    let mut len = lines::counter(&mut digits, number);
    for i in (before.next..end).step_by(FILE_RECORD_WIDTH) {
        let stepped = take_step(part, i, lines, at, digits, len, number, own, marks);
        at = stepped.at;
        most = most.max(stepped.sum);
        len = lines::count_on(&mut digits, len, number);
        number += 1;
    }
    PartWay {
        reach: Reach { number, most },
        stopped: false,
        next: end,
        at,
    }
}

// Takes the step in the record from a place on, and writes its line.
#[tactic(auto, using(crate::proofs::Steps::step_laws))]
fn take_step(
    part: &[u8],
    i: usize,
    lines: &mut [u8],
    at: usize,
    digits: [u8; 8],
    len: usize,
    number: u32,
    own: &mut [u8],
    marks: &mut [u8],
) -> Stepped
    requires steppable { Steppable part.now i lines.old at own.old marks.old }
    requires counted { Counted digits len number }
    ensures { StepTaken part.now i number lines.old at own.old marks.old result lines.new own.new marks.new }
{
    let foreseen = forecast_step::foresee(Step::in_record(part, i), own, marks);
    let refusal = u32::from(refusal_or_0(foreseen));
    let figures = forecast_step::figures_of(marks);
    let at = file_lines::put_counted_line(
        lines,
        at,
        digits,
        len,
        number,
        refusal,
        figures.standing,
        figures.dirty,
    );
    Stepped {
        at,
        sum: figures.standing + figures.dirty,
    }
}

// Takes the record that is one too many, if the forecast has not stopped and the part has a whole one left.
#[tactic(auto, using(crate::proofs::Passing::last_laws))]
fn take_last(before: PartWay, part: &[u8], lines: &mut [u8], marks: &[u8]) -> PartWay
    requires { LastTakeable before part.now lines.old marks.now }
    ensures { LastPassed before part.now lines.old marks.now result lines.new }
{
    if before.stopped || part.len() - before.next < FILE_RECORD_WIDTH {
        return before;
    }
    let refusal = Refusal::TooManySteps;
    PartWay {
        stopped: true,
        next: before.next + FILE_RECORD_WIDTH,
        at: put_figures(lines, before.at, before.reach.number, refusal, marks),
        ..before
    }
}

// Writes the last lines where the file has ended or the forecast has stopped.
#[tactic(auto, using(crate::proofs::Ending::finish_laws))]
fn finish(before: PartWay, part: &[u8], ended: bool, lines: &mut [u8], marks: &[u8]) -> PartTaken
    requires { Finishable before part.now lines.old marks.now }
    ensures { Finished before part.now ended lines.old marks.now result lines.new }
{
    let reach = before.reach;
    if before.stopped || ended {
        let at = put_end(before, part, lines, marks);
        PartTaken {
            reach,
            made: file_lines::end_with_most(lines, at, reach.most),
            done: true,
        }
    } else {
        PartTaken {
            reach,
            made: before.at,
            done: false,
        }
    }
}

// Writes line 15 where the file ends within a record or before the opening, and says the place behind it.
#[tactic(auto, using(crate::proofs::Ending::end_laws))]
fn put_end(before: PartWay, part: &[u8], lines: &mut [u8], marks: &[u8]) -> usize
    requires { Finishable before part.now lines.old marks.now }
    ensures { EndPut before part.now lines.old marks.now result lines.new }
{
    let refusal = Refusal::EndsShort;
    if before.stopped {
        before.at
    } else if before.reach.number == 0 {
        file_lines::put_record_line(lines, before.at, 0, u32::from(refusal.number()), 0, 0)
    } else if part.len() == before.next {
        before.at
    } else {
        put_figures(lines, before.at, before.reach.number, refusal, marks)
    }
}

// Writes a line with the figures that the marks have, and says the place behind it.
#[tactic(auto, using(crate::proofs::Ending::figure_laws))]
fn put_figures(lines: &mut [u8], at: usize, number: u32, refusal: Refusal, marks: &[u8]) -> usize
    requires room { Room lines.old at line_limit }
    requires marks_foreseen { MarksForeseen marks.now }
    ensures { FiguresPut lines.old at number (number_of refusal) marks.now lines.new result }
{
    let figures = forecast_step::figures_of(marks);
    file_lines::put_record_line(
        lines,
        at,
        number,
        u32::from(refusal.number()),
        figures.standing,
        figures.dirty,
    )
}
