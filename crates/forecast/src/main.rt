// The forecast program: a step file on standard input, its forecast on standard output. What it does between its reads and writes, `whole_reads` says.
#![tactic(auto)]

ghost use Rattle.whole_reads.specs.inner.Going.{FlowGoing, TakesNext};
ghost use Rattle.forecast.specs.Promises.{ForecastTold};
ghost use Rattle.forecast.specs.inner.Going.{ForecastAmple, Held};

use forecast_file::Reach;
use limits::{FILE_RECORD_WIDTH, LINE_LIMIT, MARK_AREA, PROCESSOR_LIMIT};
use std::io::{Error, Read, Write};
use whole_reads::{Flow, Next};

// The bytes taken at a time: whole records. Room for the lines of so many bytes, for a line of 15 or 16 and for the last line.
const BUFFER_BYTES: usize = 65536;

const LINES_ROOM: usize = LINE_LIMIT * (BUFFER_BYTES / FILE_RECORD_WIDTH + 2);

// Where the program stands between two turns: its reads and writes, and its forecast.
#[derive(Clone, Copy)]
pub struct Work {
    pub flow: Flow,
    pub reach: Reach,
}

// Where it halts: its reads and writes, and how many turns are left.
#[derive(Clone, Copy)]
pub struct Halt {
    pub flow: Flow,
    pub turns: u64,
}

fn main(rt: HostRuntime) {
    let mut buffer = [0u8; BUFFER_BYTES];
    let mut lines = [0u8; LINES_ROOM];
    let mut own = [0u8; PROCESSOR_LIMIT];
    let mut marks = [0u8; MARK_AREA];
    let mut input = rt.stdin();
    let mut output = rt.stdout();
    let mut wrong = Error::from_raw_os_error(0);
    let halt = run_all(
        &mut buffer,
        &mut lines,
        &mut own,
        &mut marks,
        &mut input,
        &mut output,
        &mut wrong,
    );
    whole_calls::tell(
        halt.flow.failure,
        b"forecast: standard input could not be read",
        b"forecast: standard output could not be written",
        &wrong,
        &rt.stderr(),
    );
}

// Reads, forecasts and writes as `whole_reads` says until it says to stop. A proved loop has to end, and nothing says that the input does: so it
// counts its turns down, from a number that no file uses up.
fn run_all<R: Read, W: Write>(
    buffer: &mut [u8],
    lines: &mut [u8],
    own: &mut [u8],
    marks: &mut [u8],
    input: &mut R,
    output: &mut W,
    wrong: &mut Error,
) -> Halt
    requires { ForecastAmple buffer.old lines.old own.old marks.old }
    ensures { ForecastTold result buffer.new lines.new }
{
    let mut flow = whole_reads::new_flow();
    let mut reach = forecast_file::begin_forecast();
    for turns in (1..=u64::MAX).rev() {
        if whole_calls::is_over(flow, buffer.len()) {
            return Halt { flow, turns };
        }
        let work = turn(flow, reach, buffer, lines, own, marks, input, output, wrong);
        flow = work.flow;
        reach = work.reach;
    }
    Halt { flow, turns: 0 }
}

// Does what comes next.
fn turn<R: Read, W: Write>(
    flow: Flow,
    reach: Reach,
    buffer: &mut [u8],
    lines: &mut [u8],
    own: &mut [u8],
    marks: &mut [u8],
    input: &mut R,
    output: &mut W,
    wrong: &mut Error,
) -> Work
    requires { FlowGoing (Held reach own.old marks.old) flow buffer.old lines.old }
    ensures { FlowGoing (Held result.reach own.new marks.new) result.flow buffer.new lines.new }
{
    match whole_reads::what_next(flow, buffer.len()) {
        Next::Read => Work {
            flow: whole_calls::read_on(flow, buffer, input, wrong),
            reach,
        },
        Next::Take => take_on(flow, reach, buffer, lines, own, marks),
        Next::Write => Work {
            flow: whole_calls::write_on(flow, lines, output, wrong),
            reach,
        },
        Next::Stop => Work { flow, reach },
    }
}

// Takes the bytes in the buffer, and makes their lines.
fn take_on(
    flow: Flow,
    reach: Reach,
    buffer: &[u8],
    lines: &mut [u8],
    own: &mut [u8],
    marks: &mut [u8],
) -> Work
    requires { TakesNext (Held reach own.old marks.old) flow buffer.now lines.old }
    ensures { FlowGoing (Held result.reach own.new marks.new) result.flow buffer.now lines.new }
{
    let taken = forecast_file::take(reach, &buffer[..flow.have], flow.ended, lines, own, marks);
    Work {
        flow: whole_reads::note_take(flow, taken.made, taken.done),
        reach: taken.reach,
    }
}
