// A step file fed in parts, cut anywhere: the lines of its records, as for the whole file.
#![tactic(auto)]

ghost use Rattle.std.specs.Prelude.{true, length, take, drop};
ghost use Rattle.limits.specs.Files.{file_record_width};
ghost use Rattle.layout.specs.Areas.{areas};
ghost use Rattle.file_record.specs.Records.{record_taken};
ghost use Rattle.file_lines.specs.inner.Needed.{LinePut};
ghost use Rattle.file_record.specs.inner.Needed.{stands_at, RecordTaken};
ghost use Rattle.file_chunk.specs.Bytes.{bytes_taken};
ghost use Rattle.file_chunk.specs.inner.Needed.{Passable};
ghost use Rattle.stepfile.specs.Promises.{feed_at, finish_line, Started, FedAs, FinishedAs};
ghost use Rattle.stepfile.specs.inner.Needed.{FeedableIs, EndThere, EndsShort, Feedable, Completes, BegunPassable, Endable, Ended, ChunkFed};

use file_held::Held;
use file_record::Stand;
use limits::{FILE_RECORD_LIMIT, FILE_RECORD_WIDTH, LINE_LIMIT, Refusal, WORD_VALUES};

// How far a file has been fed.
#[derive(Clone, Copy)]
pub struct Progress {
    // The number of the next record.
    pub number: u32,
    // Whether the run has stopped: after 2 or 16.
    pub stopped: bool,
    // How many bytes of a record that has begun are held, and those bytes, zeros behind them.
    pub held: usize,
    pub bytes: [u8; FILE_RECORD_WIDTH],
    // How many words have moved.
    pub words: u64,
}

// What feeding a chunk answers: how far the file has been fed, whether the chunk was fed, and how many bytes of lines were written. A flag and no
// Option: the demands `refused_lines` and `refused_areas` are said of it.
#[derive(Clone, Copy)]
pub struct Taken {
    pub progress: Progress,
    pub fed: bool,
    pub written: usize,
}

// No byte of a file has been fed.
#[tactic(auto, using(crate::proofs::Answers::nothing_fed))]
pub fn start() -> Progress
    ensures { Started result }
{
    Progress {
        number: 0,
        stopped: false,
        held: 0,
        bytes: [0; FILE_RECORD_WIDTH],
        words: 0,
    }
}

// Feeds a chunk of a file: takes its records, and writes their lines to the start of the bytes lent for them.
pub fn feed(
    progress: Progress,
    chunk: &[u8],
    lines: &mut [u8],
    clocks: &mut [u8],
    words: &mut [u32],
    records: &mut [u8],
    marks: &mut [u8],
) -> Taken
    ensures { FedAs progress chunk.now lines.old (areas clocks.old words.old records.old marks.old) result lines.new (areas clocks.new words.new records.new marks.new) }
{
    if feedable(progress, chunk.len(), lines.len()) {
        feed_sound(progress, chunk, lines, clocks, words, records, marks)
    } else {
        Taken {
            progress,
            fed: false,
            written: 0,
        }
    }
}

// The end of the file: writes its last line, unless the run has stopped.
#[tactic(auto, using(crate::proofs::Finishing::end_there))]
pub fn finish(progress: Progress, lines: &mut [u8]) -> Taken
    ensures { FinishedAs progress lines.old result lines.new }
{
    if feedable(progress, 0, lines.len()) {
        Taken {
            progress,
            fed: true,
            written: put_end(progress, lines),
        }
    } else {
        Taken {
            progress,
            fed: false,
            written: 0,
        }
    }
}

// Whether a chunk of so many bytes is fed.
#[tactic(auto, unfolding(crate::specs::Promises::feedable, crate::specs::Promises::sound))]
fn feedable(progress: Progress, chunk: usize, room: usize) -> bool
    ensures { FeedableIs result progress chunk room }
{
    progress.number <= FILE_RECORD_LIMIT
        && progress.words <= WORD_VALUES * u64::from(progress.number)
        && chunk / FILE_RECORD_WIDTH < room / LINE_LIMIT
        && file_held::zeros_behind(progress.held, progress.bytes)
}

// Writes the last line to the start of the bytes lent, and says how long it is: none where the run has stopped, 15 for a file that ends short, else the
// words moved.
#[tactic(auto, using(crate::proofs::Finishing::finishing_laws))]
fn put_end(progress: Progress, lines: &mut [u8]) -> usize
    requires { EndThere progress lines.old }
    ensures { LinePut lines.old 0 (finish_line progress) lines.new result }
{
    if progress.stopped {
        0
    } else if ends_short(progress) {
        let refusal = u32::from(Refusal::EndsShort.number());
        file_lines::put_record_line(lines, 0, progress.number, refusal, 0, 0)
    } else {
        file_lines::end_with_words(lines, 0, progress.words)
    }
}

// Whether a file that ends here ends within a record or before the opening.
fn ends_short(progress: Progress) -> bool
    ensures { EndsShort result progress }
{
    progress.number == 0 || 0 < progress.held
}

// Feeds a chunk to a sound progress; a run that has stopped is left as it is.
fn feed_sound(
    progress: Progress,
    chunk: &[u8],
    lines: &mut [u8],
    clocks: &mut [u8],
    words: &mut [u32],
    records: &mut [u8],
    marks: &mut [u8],
) -> Taken
    requires { FeedableIs true progress (length chunk.now) (length lines.old) }
    ensures { ChunkFed (bytes_taken (feed_at progress (areas clocks.old words.old records.old marks.old)) chunk.now) 0 lines.old result lines.new (areas clocks.new words.new records.new marks.new) }
{
    if progress.stopped {
        Taken {
            progress,
            fed: true,
            written: 0,
        }
    } else {
        let stand = Stand {
            number: progress.number,
            stopped: false,
            ready: inorder::in_order(clocks, words, records, marks),
            at: 0,
            words: progress.words,
        };
        feed_on(progress, stand, chunk, lines, clocks, words, records, marks)
    }
}

// Feeds a chunk to a run that has not stopped: if bytes are held its first go behind them, and if they complete no record that is all.
#[tactic(auto, using(crate::proofs::Chunks::chunk_laws))]
fn feed_on(
    progress: Progress,
    stand: Stand,
    chunk: &[u8],
    lines: &mut [u8],
    clocks: &mut [u8],
    words: &mut [u32],
    records: &mut [u8],
    marks: &mut [u8],
) -> Taken
    requires { Feedable progress stand chunk.now lines.old clocks.old words.old records.old marks.old }
    ensures { ChunkFed (bytes_taken (feed_at progress (areas clocks.old words.old records.old marks.old)) chunk.now) 0 lines.old result lines.new (areas clocks.new words.new records.new marks.new) }
{
    if progress.held == 0 {
        return take_rest(stand, chunk, 0, lines, clocks, words, records, marks);
    }
    let first = file_held::hold(progress.held, progress.bytes, chunk, 0);
    if first.count < FILE_RECORD_WIDTH {
        // Tried straight in the literal: no proof is made for an array that is put there from a field.
        let bytes = first.bytes;
        Taken {
            progress: Progress {
                held: first.count,
                bytes,
                ..progress
            },
            fed: true,
            written: 0,
        }
    } else {
        feed_begun(
            progress, stand, first, chunk, lines, clocks, words, records, marks,
        )
    }
}

// Feeds a chunk that completes the record that has begun: first that record, then those that lie whole in the chunk.
fn feed_begun(
    progress: Progress,
    stand: Stand,
    first: Held,
    chunk: &[u8],
    lines: &mut [u8],
    clocks: &mut [u8],
    words: &mut [u32],
    records: &mut [u8],
    marks: &mut [u8],
) -> Taken
    requires { Completes progress stand first chunk.now lines.old clocks.old words.old records.old marks.old }
    ensures { ChunkFed (bytes_taken (feed_at progress (areas clocks.old words.old records.old marks.old)) chunk.now) 0 lines.old result lines.new (areas clocks.new words.new records.new marks.new) }
{
    let behind = take_begun(stand, first.bytes, lines, clocks, words, records, marks);
    take_rest(
        behind, chunk, first.next, lines, clocks, words, records, marks,
    )
}

// Takes the record whose eight bytes are held, as a chunk of one record.
#[tactic(auto, using(crate::proofs::Chunks::begun_taken))]
fn take_begun(
    stand: Stand,
    bytes: [u8; FILE_RECORD_WIDTH],
    lines: &mut [u8],
    clocks: &mut [u8],
    words: &mut [u32],
    records: &mut [u8],
    marks: &mut [u8],
) -> Stand
    requires { BegunPassable stand bytes lines.old clocks.old words.old records.old marks.old }
    ensures { RecordTaken (record_taken (stands_at stand lines.old (areas clocks.old words.old records.old marks.old)) (take file_record_width bytes)) stand lines.old result lines.new clocks.new words.new records.new marks.new }
{
    file_chunk::take_whole(stand, &bytes, 0, lines, clocks, words, records, marks).stand
}

// Takes the records that lie whole in the chunk from a place on, and holds the bytes behind them.
fn take_rest(
    stand: Stand,
    chunk: &[u8],
    from: usize,
    lines: &mut [u8],
    clocks: &mut [u8],
    words: &mut [u32],
    records: &mut [u8],
    marks: &mut [u8],
) -> Taken
    requires { Passable stand chunk.now from lines.old clocks.old words.old records.old marks.old }
    ensures { ChunkFed (bytes_taken (stands_at stand lines.old (areas clocks.old words.old records.old marks.old)) (drop from chunk.now)) stand.at lines.old result lines.new (areas clocks.new words.new records.new marks.new) }
{
    let passed = file_chunk::take_whole(stand, chunk, from, lines, clocks, words, records, marks);
    hold_rest(passed.stand, chunk, passed.next)
}

// Holds the bytes behind the last whole record; a run that has stopped holds none.
#[tactic(auto, using(crate::proofs::Rest::rest_laws))]
fn hold_rest(stand: Stand, chunk: &[u8], from: usize) -> Taken
    requires { Endable stand chunk.now from }
    ensures { Ended stand chunk.now from result }
{
    let none = [0; FILE_RECORD_WIDTH];
    let last = if stand.stopped {
        Held {
            count: 0,
            bytes: none,
            next: from,
        }
    } else {
        file_held::hold(0, none, chunk, from)
    };
    // Tried straight in the literal: no proof is made for an array that is put there from a field.
    let bytes = last.bytes;
    Taken {
        progress: Progress {
            number: stand.number,
            stopped: stand.stopped,
            held: last.count,
            bytes,
            words: stand.words,
        },
        fed: true,
        written: stand.at,
    }
}
