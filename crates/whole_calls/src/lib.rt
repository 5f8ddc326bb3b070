// The reads and writes of a program that goes by `whole_reads`: it fills its buffer from its input, writes its lines to its output, and says what went
// wrong.
#![tactic(auto)]

ghost use Rattle.std.specs.Prelude.{◌≤◌, ◌≡◌, ◌↔◌, IfErr, IfOk, IsTrue, is_ok, length};
ghost use Rattle.std_io.specs.IoError.{error_kind};
ghost use Rattle.whole_reads.specs.Promises.{comes_next};
ghost use Rattle.whole_reads.specs.inner.Going.{ReadOn, WroteOn};
ghost use Rattle.whole_calls.specs.Promises.{is_stop};
ghost use Rattle.whole_calls.specs.declared.TheConstants.{WORDS_ROOM};

use std::fmt::{self, Write as _};
use std::io::{self, Error, ErrorKind, Print, Read, Write};
use whole_reads::{Failure, Flow, Next};

// Room for the words of an error.
const WORDS_ROOM: usize = 128;

// The words of an error, as far as there is room for them.
#[derive(Drop)]
struct Words {
    bytes: [u8; WORDS_ROOM],
    len: usize,
    ghost in_room: { len ≤ WORDS_ROOM },
}

impl fmt::Write for Words {
    fn write_str(&mut self, s: &str) -> fmt::Result {
        let n = s.len().min(WORDS_ROOM - self.len);
        self.bytes[self.len..self.len + n].copy_from_slice(&s.as_bytes()[..n]);
        self.len += n;
        Ok(())
    }
}

// Whether nothing is left to do, with a buffer of so many bytes.
pub fn is_over(flow: Flow, room: usize) -> bool
    ensures { result ≡ is_stop (comes_next flow room) }
{
    whole_reads::what_next(flow, room) == Next::Stop
}

// Reads into the buffer behind the bytes that stand in it. What went wrong, if anything, is noted.
#[tactic(auto, using(whole_reads::proofs::Turns::turning_laws))]
pub fn read_on<R: Read>(flow: Flow, buffer: &mut [u8], input: &mut R, wrong: &mut Error) -> Flow
    requires { flow.have ≤ length buffer.old }
    ensures { ReadOn flow buffer.old result buffer.new }
{
    let got = noted(input.read(&mut buffer[flow.have..]), wrong);
    whole_reads::note_read(flow, got, buffer)
}

// Writes the lines that are left, or the first of them. What went wrong, if anything, is noted.
#[tactic(auto, using(whole_reads::proofs::Turns::turning_laws))]
pub fn write_on<W: Write>(flow: Flow, lines: &[u8], output: &mut W, wrong: &mut Error) -> Flow
    ensures { WroteOn flow lines.now result }
{
    let put = noted(output.write(whole_reads::lines_left(flow, lines)), wrong);
    whole_reads::note_write(flow, put, lines)
}

// Says what went wrong, if anything, in the program's words and those of the error that was noted last.
pub fn tell<P: Print>(
    failure: Option<Failure>,
    reading_failed: &[u8],
    writing_failed: &[u8],
    wrong: &Error,
    to: &P,
) {
    match failure {
        None => {}
        Some(Failure::Reading) => say(reading_failed, wrong, to),
        Some(Failure::Writing) => say(writing_failed, wrong, to),
    }
}

// How many bytes a read or a write moved, or, where it failed, whether it is made again. What went wrong, if anything, is noted.
pub fn noted(answer: io::Result<usize>, wrong: &mut Error) -> Result<usize, bool>
    ensures moved { IfOk answer (λ n. result ≡ Ok n) }
    ensures failed { IfErr answer (λ error. IfErr result (λ again. IsTrue again ↔ error_kind error ≡ ErrorKind.Interrupted)) }
    ensures fails { is_ok result ≡ is_ok answer }
    ensures kept { IfOk answer (λ n. wrong.new ≡ wrong.old) }
    ensures noted { IfErr answer (λ error. wrong.new ≡ error) }
{
    match answer {
        Ok(n) => Ok(n),
        Err(error) => {
            let again = is_interrupted(&error);
            *wrong = error;
            Err(again)
        }
    }
}

// Whether a call that failed is to be made again: a signal came before it moved a byte.
pub fn is_interrupted(error: &Error) -> bool
    ensures { IsTrue result ↔ error_kind error.now ≡ ErrorKind.Interrupted }
{
    error.kind() == ErrorKind::Interrupted
}

// Writes a line: what failed, as the caller names it, a colon and the system's words for the error. Where it cannot be written nothing is left to do.
pub fn say<P: Print>(what: &[u8], wrong: &Error, to: &P) {
    let mut words = Words {
        bytes: [0; WORDS_ROOM],
        len: 0,
    };
    let _ = write!(words, "{wrong}");
    let _ = to.write_all(what);
    let _ = to.write_all(b": ");
    let _ = to.write_all(message(&words).as_bytes());
    let _ = to.write_all(b"\n");
}

// The system's words for an error, without its number, which stands behind them.
fn message(words: &Words) -> &str {
    match std::str::from_utf8(&words.bytes[..words.len]) {
        Ok(text) => match text.rsplit_once(" (os error ") {
            Some((front, _)) => front,
            None => text,
        },
        Err(_) => "",
    }
}
