// What a program does between its reads and writes: bytes are read until the buffer is full or the input has ended, then they are taken, then the lines
// made of them are written.
#![tactic(auto)]

ghost use Rattle.std.specs.Prelude.{◌+◌, ◌-◌, ◌^◌, ◌≤◌, ◌<◌, ◌≡◌, drop};
ghost use Rattle.whole_reads.specs.Promises.{left_to_write, filled_flow, FlowBegins, NextAs, ReadNoted, TakeNoted, WriteNoted};
ghost use Rattle.whole_reads.specs.inner.Needed.{WritingOn, FailureNoted};

// What went wrong: a read or a write.
#[derive(Clone, Copy, PartialEq, Eq)]
pub enum Failure {
    Reading,
    Writing,
}

// What the program does next.
#[derive(Clone, Copy, PartialEq, Eq)]
pub enum Next {
    Read,
    Take,
    Write,
    Stop,
}

// Where a program stands between two calls.
#[derive(Clone, Copy)]
pub struct Flow {
    // How many bytes stand at the start of the buffer, read and not yet taken.
    pub have: usize,
    // Whether the input has ended.
    pub ended: bool,
    // The lines that are not yet written: from the first of these places of the bytes lent for lines up to the second.
    pub from: usize,
    pub to: usize,
    // Whether no more lines will be made.
    pub done: bool,
    // What went wrong, if anything.
    pub failure: Option<Failure>,
}

// Nothing has been read or written.
#[tactic(auto, using(crate::proofs::Coming::flow_begins))]
pub fn new_flow() -> Flow
    ensures { FlowBegins result }
{
    Flow {
        have: 0,
        ended: false,
        from: 0,
        to: 0,
        done: false,
        failure: None,
    }
}

// What to do next, with a buffer of so many bytes: write the lines that are left; then, unless all is done, fill the buffer, and take what stands in it.
#[tactic(auto, using(crate::proofs::Coming::next_is), unfolding(crate::specs::Promises::comes_next))]
pub fn what_next(flow: Flow, room: usize) -> Next
    ensures { NextAs flow room result }
{
    if flow.failure.is_some() {
        Next::Stop
    } else if flow.from < flow.to {
        Next::Write
    } else if flow.done {
        Next::Stop
    } else if flow.ended || room <= flow.have {
        Next::Take
    } else {
        Next::Read
    }
}

// The lines that are left to be written.
#[tactic(auto, using(crate::proofs::Writing::part_left))]
pub fn lines_left(flow: Flow, lines: &[u8]) -> &[u8]
    ensures { result.now ≡ left_to_write flow lines.now }
{
    let to = flow.to.min(lines.len());
    &lines[flow.from.min(to)..to]
}

// A read has answered how many bytes it put into the buffer behind those that stand in it, or, where it failed, whether it is made again.
pub fn note_read(flow: Flow, got: Result<usize, bool>, buffer: &[u8]) -> Flow
    ensures { ReadNoted flow got buffer.now result }
{
    match got {
        Ok(n) => fill(flow, n.min(unfilled(flow, buffer).len())),
        Err(again) => fail(flow, Failure::Reading, again),
    }
}

// All bytes in the buffer are taken, and so many bytes of lines are made of them.
pub fn note_take(flow: Flow, made: usize, done: bool) -> Flow
    ensures { TakeNoted flow made done result }
{
    Flow {
        have: 0,
        from: 0,
        to: made,
        done,
        ..flow
    }
}

// A write, which was handed the lines that are left, has answered how many bytes it took, or, where it failed, whether it is made again. One that takes
// nothing has failed.
#[tactic(auto, using(crate::proofs::Answered::write_within))]
pub fn note_write(flow: Flow, put: Result<usize, bool>, lines: &[u8]) -> Flow
    ensures { WriteNoted flow put lines.now result }
{
    match put {
        Ok(n) => write(flow, n.min(lines_left(flow, lines).len())),
        Err(again) => fail(flow, Failure::Writing, again),
    }
}

// The bytes of the buffer behind those that stand in it.
fn unfilled(flow: Flow, buffer: &[u8]) -> &[u8]
    ensures { result.now ≡ drop flow.have buffer.now }
{
    &buffer[flow.have.min(buffer.len())..]
}

// n bytes more stand in the buffer; none is the end of the input.
#[tactic(auto, unfolding(crate::specs::Promises::filled_flow))]
fn fill(flow: Flow, n: usize) -> Flow
    requires { flow.have + n < 2 ^ 64 }
    ensures { result ≡ filled_flow flow n }
{
    Flow {
        have: flow.have + n,
        ended: flow.ended || n == 0,
        ..flow
    }
}

// Goes on behind the first n bytes of the lines that were left; none is a failure.
fn write(flow: Flow, n: usize) -> Flow
    requires { n ≤ flow.to - flow.from }
    ensures { WritingOn flow n result }
{
    Flow {
        from: flow.from + n,
        failure: if n == 0 {
            Some(Failure::Writing)
        } else {
            flow.failure
        },
        ..flow
    }
}

// A read or a write has failed; where it is to be made again nothing changes.
#[tactic(auto, using(crate::proofs::Writing::failed_as), unfolding(crate::specs::Promises::failed_flow))]
fn fail(flow: Flow, failure: Failure, again: bool) -> Flow
    ensures { FailureNoted flow failure again result }
{
    if again {
        flow
    } else {
        Flow {
            failure: Some(failure),
            ..flow
        }
    }
}
