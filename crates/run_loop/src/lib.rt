// The run program but for its reads and writes: what it does next, and where it stands after a read or a write.
#![tactic(auto)]

ghost use Rattle.std.specs.Prelude.{◌≡◌};
ghost use Rattle.layout.specs.Areas.{areas};
ghost use Rattle.run_loop.specs.Promises.{pending, taken_run, Begins, NextIs, GotAs, PutAs};
ghost use Rattle.run_loop.specs.inner.Needed.{Feeds, Ends, ReadAs, WroteAs, FailedAs};

use stepfile::{Progress, Taken};

// What went wrong: a read, a write, or a chunk that was not fed.
#[derive(Clone, Copy, PartialEq, Eq)]
pub enum Fault {
    Reading,
    Writing,
    NotFed,
}

// What the program does next.
#[derive(Clone, Copy, PartialEq, Eq)]
pub enum Action {
    Read,
    Write,
    Stop,
}

// Where a run stands.
#[derive(Clone, Copy)]
pub struct Run {
    // How far the file has been fed.
    pub progress: Progress,
    // The lines that are not yet written: from the first of these places of the bytes lent for lines up to the second.
    pub from: usize,
    pub to: usize,
    // Whether the input has ended.
    pub ended: bool,
    // What went wrong, if anything.
    pub fault: Option<Fault>,
}

// Nothing has been read or written.
#[tactic(auto, using(crate::proofs::Coming::begins))]
pub fn begin() -> Run
    ensures { Begins result }
{
    Run {
        progress: stepfile::start(),
        from: 0,
        to: 0,
        ended: false,
        fault: None,
    }
}

// What to do next: write the lines that are left, then read on unless the input has ended or the run has stopped.
#[tactic(auto, using(crate::proofs::Coming::next_action_is), unfolding(crate::specs::Promises::next_action))]
pub fn next_action(run: Run) -> Action
    ensures { NextIs run result }
{
    if run.fault.is_some() {
        Action::Stop
    } else if run.from < run.to {
        Action::Write
    } else if run.ended || run.progress.stopped {
        Action::Stop
    } else {
        Action::Read
    }
}

// The lines that are left to be written.
#[tactic(auto, using(crate::proofs::Writing::part_pending))]
pub fn unwritten(run: Run, lines: &[u8]) -> &[u8]
    ensures { result.now ≡ pending run lines.now }
{
    let to = run.to.min(lines.len());
    &lines[run.from.min(to)..to]
}

// A read has answered how many bytes it put at the start of the chunk, or, where it failed, whether it is made again.
pub fn after_read(
    run: Run,
    got: Result<usize, bool>,
    chunk: &[u8],
    lines: &mut [u8],
    clocks: &mut [u8],
    words: &mut [u32],
    records: &mut [u8],
    marks: &mut [u8],
) -> Run
    ensures { GotAs run got chunk.now lines.old (areas clocks.old words.old records.old marks.old) result lines.new (areas clocks.new words.new records.new marks.new) }
{
    match got {
        Ok(n) => {
            let bytes = &chunk[..n.min(chunk.len())];
            take(run, bytes, lines, clocks, words, records, marks)
        }
        Err(again) => fail(run, Fault::Reading, again),
    }
}

// A write, which was handed the lines that are left, has answered how many bytes it took, or, where it failed, whether it is made again. One that takes
// nothing has failed.
pub fn after_write(run: Run, put: Result<usize, bool>, lines: &[u8]) -> Run
    ensures { PutAs run put lines.now result }
{
    match put {
        Ok(n) => write(run, n.min(unwritten(run, lines).len())),
        Err(again) => fail(run, Fault::Writing, again),
    }
}

// Takes bytes that have been read; none at the end of the input.
fn take(
    run: Run,
    bytes: &[u8],
    lines: &mut [u8],
    clocks: &mut [u8],
    words: &mut [u32],
    records: &mut [u8],
    marks: &mut [u8],
) -> Run
    ensures { ReadAs run bytes.now lines.old (areas clocks.old words.old records.old marks.old) result lines.new (areas clocks.new words.new records.new marks.new) }
{
    match next_action(run) {
        Action::Read if bytes.is_empty() => end(run, lines),
        Action::Read => feed(run, bytes, lines, clocks, words, records, marks),
        Action::Write | Action::Stop => run,
    }
}

// Feeds bytes that have been read.
#[tactic(auto, using(crate::proofs::Taking::feeds))]
fn feed(
    run: Run,
    bytes: &[u8],
    lines: &mut [u8],
    clocks: &mut [u8],
    words: &mut [u32],
    records: &mut [u8],
    marks: &mut [u8],
) -> Run
    ensures { Feeds run bytes.now lines.old (areas clocks.old words.old records.old marks.old) result lines.new (areas clocks.new words.new records.new marks.new) }
{
    let taken = stepfile::feed(run.progress, bytes, lines, clocks, words, records, marks);
    go_on(run, taken, false)
}

// Ends the file.
#[tactic(auto, using(crate::proofs::Taking::ends))]
fn end(run: Run, lines: &mut [u8]) -> Run
    ensures { Ends run lines.old result lines.new }
{
    go_on(run, stepfile::finish(run.progress, lines), true)
}

// Where the run stands once bytes have been taken: their lines are to be written.
#[tactic(auto, unfolding(crate::specs::Promises::taken_run))]
fn go_on(run: Run, taken: Taken, ended: bool) -> Run
    ensures { result ≡ taken_run run taken ended }
{
    if taken.fed {
        Run {
            progress: taken.progress,
            from: 0,
            to: taken.written,
            ended,
            fault: None,
        }
    } else {
        Run {
            fault: Some(Fault::NotFed),
            ..run
        }
    }
}

// Goes on behind the first n bytes of the lines that were left; none is a failure.
#[tactic(auto, using(crate::proofs::Writing::wrote_as), unfolding(crate::specs::Promises::wrote_run))]
fn write(run: Run, n: usize) -> Run
    ensures { WroteAs run n result }
{
    Run {
        from: run.from + n.min(run.to.saturating_sub(run.from)),
        fault: if n == 0 {
            Some(Fault::Writing)
        } else {
            run.fault
        },
        ..run
    }
}

// A read or a write has failed; where it is to be made again nothing changes.
#[tactic(auto, using(crate::proofs::Writing::failed_as), unfolding(crate::specs::Promises::failed_run))]
fn fail(run: Run, fault: Fault, again: bool) -> Run
    ensures { FailedAs run fault again result }
{
    if again {
        run
    } else {
        Run {
            fault: Some(fault),
            ..run
        }
    }
}
