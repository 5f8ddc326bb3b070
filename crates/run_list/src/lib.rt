// Runs: a list of records in one call, answered as the rules' run answers it.
#![tactic(auto)]

ghost use Rattle.std.specs.Prelude.{◌≡◌, ◌+◌, ◌≤◌, length};
ghost use Rattle.std.proofs.lemmas.List.Edits.{sets};
ghost use Rattle.limits.specs.Files.{answer_width};
ghost use Rattle.limits.specs.Refused.{refusal_in};
ghost use Rattle.rules.specs.State.{mainframe};
ghost use Rattle.layout.specs.Areas.{state_in, areas};
ghost use Rattle.run_list.specs.Runs.{Ran};
ghost use Rattle.run_list.specs.inner.Needed.{RecordReady, StepLaid, CountIs, RecordsThere, OpeningThere, OpeningLaid, StepsThere, StepsLaid};

use limits::{ANSWER_WIDTH, FILE_RECORD_WIDTH, Refusal, refusal_or_0};

// Runs an opening and the step records behind it, and says how many records it has run: of a refused opening only that one.
// Each answer is laid as four words: refusal, value, count, words. Of odd sizes: as many whole records are run as there are and as the answers
// have room for, four words each; the rest is not looked at.
pub fn run(
    bytes: &[u8],
    answers: &mut [u32],
    clocks: &mut [u8],
    words: &mut [u32],
    records: &mut [u8],
    marks: &mut [u8],
) -> usize
    ensures { Ran bytes.now answers.old (areas clocks.old words.old records.old marks.old) result answers.new (areas clocks.new words.new records.new marks.new) }
{
    let n = records_run(bytes.len(), answers.len());
    if n == 0 {
        return 0;
    }
    run_records(bytes, n, answers, clocks, words, records, marks)
}

// How many records are run for so many bytes and words.
fn records_run(bytes: usize, words: usize) -> usize
    ensures { CountIs bytes words result }
{
    (bytes / FILE_RECORD_WIDTH).min(words / ANSWER_WIDTH)
}

// Runs n records, the opening first, and says how many it has run.
fn run_records(
    bytes: &[u8],
    n: usize,
    answers: &mut [u32],
    clocks: &mut [u8],
    words: &mut [u32],
    records: &mut [u8],
    marks: &mut [u8],
) -> usize
    requires { RecordsThere bytes.now answers.old n }
    ensures { Ran bytes.now answers.old (areas clocks.old words.old records.old marks.old) result answers.new (areas clocks.new words.new records.new marks.new) }
{
    let opened = run_opening(bytes, answers, clocks, words, records, marks);
    if opened.is_err() {
        return 1;
    }
    run_steps(bytes, n, answers, clocks, words, records, marks);
    n
}

// Opens the mainframe by the first record, and lays the answer.
fn run_opening(
    bytes: &[u8],
    answers: &mut [u32],
    clocks: &mut [u8],
    words: &mut [u32],
    records: &mut [u8],
    marks: &mut [u8],
) -> Result<(), Refusal>
    requires { OpeningThere bytes.now answers.old }
    ensures { OpeningLaid bytes.now answers.old (areas clocks.old words.old records.old marks.old) (refusal_in result) answers.new (areas clocks.new words.new records.new marks.new) }
{
    let opened = opening::open_mainframe(
        &bytes[..FILE_RECORD_WIDTH],
        clocks,
        words,
        records,
        marks,
    );
    lay_answer(answers, 0, [u32::from(refusal_or_0(opened)), 0, 0, 0]);
    opened
}

// Runs the records behind the opening, of n in all; the index is kept over all of them.
fn run_steps(
    bytes: &[u8],
    n: usize,
    answers: &mut [u32],
    clocks: &mut [u8],
    words: &mut [u32],
    records: &mut [u8],
    marks: &mut [u8],
)
    requires { StepsThere bytes.now n answers.old clocks.old words.old records.old marks.old }
    ensures { StepsLaid bytes.now n (state_in mainframe clocks.old words.old records.old marks.old) answers.old answers.new clocks.new words.new records.new marks.new }
{
    let mut index = fetch_index::new_index(marks);
    for i in 1..n {
        run_step(bytes, i, answers, clocks, words, records, marks, &mut index);
    }
}

// Takes the step of record i, and lays its answer.
fn run_step(
    bytes: &[u8],
    i: usize,
    answers: &mut [u32],
    clocks: &mut [u8],
    words: &mut [u32],
    records: &mut [u8],
    marks: &mut [u8],
    index: &mut [u32],
)
    requires { RecordReady bytes.now i answers.old clocks.old words.old records.old marks.old index.old }
    ensures { StepLaid bytes.now i (state_in mainframe clocks.old words.old records.old marks.old) answers.old answers.new clocks.new words.new records.new marks.new index.new }
{
    let at = FILE_RECORD_WIDTH * i;
    let outcome = step_record::step_record(bytes, at, clocks, words, records, marks, index);
    let answer = step_record::answer_words(outcome);
    lay_answer(answers, ANSWER_WIDTH * i, answer);
}

// Lays the four numbers of an answer from a place on.
fn lay_answer(answers: &mut [u32], at: usize, answer: [u32; ANSWER_WIDTH])
    requires { at + answer_width ≤ length answers.old }
    ensures { answers.new ≡ sets answers.old at answer }
{
    answers[at..at + ANSWER_WIDTH].copy_from_slice(&answer);
}
