// The run program: a step file on standard input, its lines on standard output. What it does between its reads and writes, `run_loop` says.
#![tactic(auto)]

ghost use Rattle.run.specs.inner.Going.{Ample, Possible, Underway, ReadsNext, Keeps};

use limits::{CLOCK_AREA, FILE_RECORD_WIDTH, LINE_LIMIT, MARK_AREA, RECORD_AREA, WORD_AREA};
use run_loop::{Action, Fault, Run};
use std::io::{Error, Print, Read, Write};

// The bytes read at a time, and room for the lines of so many bytes and of a record begun before.
const CHUNK_BYTES: usize = 65536;

const LINE_ROOM: usize = LINE_LIMIT * (CHUNK_BYTES / FILE_RECORD_WIDTH + 1);

fn main(rt: HostRuntime) {
    let mut chunk = [0u8; CHUNK_BYTES];
    let mut lines = [0u8; LINE_ROOM];
    let mut clocks = [0u8; CLOCK_AREA];
    let mut words = [0u32; WORD_AREA];
    let mut records = [0u8; RECORD_AREA];
    let mut marks = [0u8; MARK_AREA];
    let mut input = rt.stdin();
    let mut output = rt.stdout();
    let mut wrong = Error::from_raw_os_error(0);
    let fault = run_all(
        &mut chunk,
        &mut lines,
        &mut clocks,
        &mut words,
        &mut records,
        &mut marks,
        &mut input,
        &mut output,
        &mut wrong,
    );
    tell(fault, &wrong, &rt.stderr());
}

// Reads and writes as `run_loop` says until it says to stop. A proved loop has to end, and nothing says that the input does: so it takes
// at most a number of turns that no run uses up.
#[tactic(auto, using(crate::proofs::Turns::turn_laws))]
fn run_all<R: Read, W: Write>(
    chunk: &mut [u8],
    lines: &mut [u8],
    clocks: &mut [u8],
    words: &mut [u32],
    records: &mut [u8],
    marks: &mut [u8],
    input: &mut R,
    output: &mut W,
    wrong: &mut Error,
) -> Option<Fault>
    requires { Ample chunk.old lines.old clocks.old words.old records.old marks.old }
    ensures { Possible result }
{
    let mut run = run_loop::begin();
    for _ in 0..u64::MAX {
        if is_over(run) {
            return run.fault;
        }
        run = turn(
            run, chunk, lines, clocks, words, records, marks, input, output, wrong,
        );
    }
    run.fault
}

// Whether nothing is left to do.
fn is_over(run: Run) -> bool {
    run_loop::next_action(run) == Action::Stop
}

// Does what comes next.
fn turn<R: Read, W: Write>(
    run: Run,
    chunk: &mut [u8],
    lines: &mut [u8],
    clocks: &mut [u8],
    words: &mut [u32],
    records: &mut [u8],
    marks: &mut [u8],
    input: &mut R,
    output: &mut W,
    wrong: &mut Error,
) -> Run
    requires { Underway run chunk.old lines.old clocks.old words.old records.old marks.old }
    ensures { Underway result chunk.new lines.new clocks.new words.new records.new marks.new }
{
    match run_loop::next_action(run) {
        Action::Read => read_on(
            run, chunk, lines, clocks, words, records, marks, input, wrong,
        ),
        Action::Write => write_on(run, lines, output, wrong),
        Action::Stop => run,
    }
}

// Reads a chunk and takes it. What went wrong, if anything, is noted.
#[tactic(auto, using(crate::proofs::Turns::turn_laws))]
fn read_on<R: Read>(
    run: Run,
    chunk: &mut [u8],
    lines: &mut [u8],
    clocks: &mut [u8],
    words: &mut [u32],
    records: &mut [u8],
    marks: &mut [u8],
    input: &mut R,
    wrong: &mut Error,
) -> Run
    requires { ReadsNext run chunk.old lines.old clocks.old words.old records.old marks.old }
    ensures { Underway result chunk.new lines.new clocks.new words.new records.new marks.new }
{
    let got = whole_calls::noted(input.read(chunk), wrong);
    run_loop::after_read(run, got, chunk, lines, clocks, words, records, marks)
}

// Writes the lines that are left, or the first of them. What went wrong, if anything, is noted.
#[tactic(auto, using(crate::proofs::Turns::turn_laws))]
fn write_on<W: Write>(run: Run, lines: &[u8], output: &mut W, wrong: &mut Error) -> Run
    ensures { Keeps run lines.now result }
{
    let put = whole_calls::noted(output.write(run_loop::unwritten(run, lines)), wrong);
    run_loop::after_write(run, put, lines)
}

// Says what went wrong, if anything, with the words of the error that was noted last.
fn tell<P: Print>(fault: Option<Fault>, wrong: &Error, to: &P) {
    match fault {
        None => {}
        Some(Fault::Reading) => whole_calls::say(
            b"run: standard input could not be read",
            wrong,
            to,
        ),
        Some(Fault::Writing) => whole_calls::say(
            b"run: standard output could not be written",
            wrong,
            to,
        ),
        Some(Fault::NotFed) => {
            let _ = to.write_all(b"run: a part of the file was not taken\n");
        }
    }
}
