// Lines put behind one another in the bytes lent for them, and the place behind the steps of a chunk.
#![tactic(auto)]

ghost use Rattle.std.specs.Prelude.{◌≤◌};
ghost use Rattle.limits.specs.Files.{line_limit};
ghost use Rattle.limits.specs.inner.Sizes.{file_record_limit};
ghost use Rattle.lines.specs.Lines.{line_bytes, words_line, most_line};
ghost use Rattle.lines.specs.inner.Needed.{Room, Counted};
ghost use Rattle.file_lines.specs.inner.Needed.{LinePut, AllAhead};

use limits::{FILE_RECORD_LIMIT, FILE_RECORD_WIDTH};

// Writes a line from a place on, and says the place behind it. `LinePut` says so in one record, by which lines are put behind one another.
pub fn put_record_line(
    out: &mut [u8],
    at: usize,
    number: u32,
    refusal: u32,
    value: u32,
    count: u32,
) -> usize
    requires { Room out.old at line_limit }
    ensures { LinePut out.old at (line_bytes number refusal value count) out.new result }
{
    lines::put_line(out, at, number, refusal, value, count)
}

// Writes a line from a place on where the digits of its number are at hand, and says the place behind it.
pub fn put_counted_line(
    out: &mut [u8],
    at: usize,
    digits: [u8; 8],
    len: usize,
    number: u32,
    refusal: u32,
    value: u32,
    count: u32,
) -> usize
    requires room { Room out.old at line_limit }
    requires counted { Counted digits len number }
    ensures { LinePut out.old at (line_bytes number refusal value count) out.new result }
{
    lines::put_counted(out, at, digits, len, number, refusal, value, count)
}

// Writes the last line of a run, how many words have moved, from a place on, and says the place behind it.
pub fn end_with_words(out: &mut [u8], at: usize, words: u64) -> usize
    requires { Room out.old at line_limit }
    ensures { LinePut out.old at (words_line words) out.new result }
{
    lines::put_words_line(out, at, words)
}

// Writes the last line of a forecast, the most that stands, from a place on, and says the place behind it.
pub fn end_with_most(out: &mut [u8], at: usize, most: u32) -> usize
    requires { Room out.old at line_limit }
    ensures { LinePut out.old at (most_line most) out.new result }
{
    lines::put_most_line(out, at, most)
}

// The place behind the steps from a place on: behind the last record that lies whole in a chunk of so many bytes, or the 1,000,000th step.
pub fn run_end(number: u32, from: usize, chunk: usize) -> usize
    requires { (number ≤ file_record_limit) × (from ≤ chunk) }
    ensures { AllAhead number from result chunk }
{
    let whole = (chunk - from) / FILE_RECORD_WIDTH;
    let numbers = (FILE_RECORD_LIMIT - number) as usize;
    from + FILE_RECORD_WIDTH * whole.min(numbers)
}
