// The engine and the diffs for callers in C and Rust: functions on numbers and slices, declared for C in include/lughtsavi.h. The crate
// lughtsavi_c exports them.
// None has a `requires`: each refuses instead. Every contract determines the answer and what each lent slice holds afterwards,
// by an equation with a definition of the crate that does the work, or of specs/Numbers.antt.
#![tactic(auto)]

ghost use Rattle.std.specs.Prelude.{◌≡◌, ◌+◌};
ghost use Rattle.limits.specs.Limits.{page_width};
ghost use Rattle.limits.specs.Refused.{number_of, refusal_in};
ghost use Rattle.diff.specs.Reading.{read_refusal};
ghost use Rattle.diff.specs.Answers.{page_after};
ghost use Rattle.diff_writer.specs.Answers.{write_answer, out_after};
ghost use Rattle.rules.specs.Refusals.{step_of};
ghost use Rattle.layout.specs.Areas.{areas};
ghost use Rattle.inorder.specs.Areas.{areas_in_order};
ghost use Rattle.opening.specs.Promises.{open_refusal, areas_opened};
ghost use Rattle.run_list.specs.Runs.{Ran};
ghost use Rattle.lughtsavi.specs.Numbers.{step_return, slices, slices_after, write_return, apply_return};

use limits::{ANSWER_WIDTH, Refusal};
use step_fields::Step;

// Opens a mainframe: 1 for areas of a wrong size, 2 for an opening that is not eight bytes or does not fit, else 0, and the areas
// are exactly the opened state, whatever they held.
pub fn lughtsavi_open(
    opening: &[u8],
    clocks: &mut [u8],
    words: &mut [u32],
    records: &mut [u8],
    marks: &mut [u8],
) -> u8
    ensures answer { result ≡ open_refusal opening.now (areas clocks.old words.old records.old marks.old) }
    ensures memory { areas clocks.new words.new records.new marks.new ≡ areas_opened opening.now (areas clocks.old words.old records.old marks.old) }
{
    limits::refusal_or_0(opening::open_mainframe(opening, clocks, words, records, marks))
}

// Whether the areas have the fixed sizes and hold a state in order.
pub fn lughtsavi_in_order(clocks: &[u8], words: &[u32], records: &[u8], marks: &[u8]) -> bool
    ensures { result ≡ areas_in_order clocks.now words.now records.now marks.now }
{
    inorder::in_order(clocks, words, records, marks)
}

// A step: the refusal, or 0, and in the four words of `answer` refusal, value, count and words. An answer that has not four words gets 1,
// and every slice is left as it was.
#[tactic(auto, using(crate::proofs::Telling::telling_laws))]
pub fn lughtsavi_step(
    kind: u32,
    processor: u32,
    object: u32,
    value: u32,
    answer: &mut [u32],
    clocks: &mut [u8],
    words: &mut [u32],
    records: &mut [u8],
    marks: &mut [u8],
) -> u8
    ensures answer { result ≡ step_return answer.old (areas clocks.old words.old records.old marks.old) (step_of kind processor object value) }
    ensures memory { slices answer.new (areas clocks.new words.new records.new marks.new) ≡ slices_after answer.old (areas clocks.old words.old records.old marks.old) (step_of kind processor object value) }
{
    if answer.len() != ANSWER_WIDTH {
        return 1;
    }
    let step = Step {
        kind,
        processor,
        object,
        value,
    };
    let outcome = engine::step(step, clocks, words, records, marks);
    let told = step_record::answer_words(outcome);
    answer.copy_from_slice(&told);
    limits::refusal_or_0(outcome)
}

// Runs an opening and the step records behind it, eight bytes each, and writes four words for each record into `answers`: refusal, value,
// count, words. Says how many records were run: as many whole ones as there are and as the answers have room for, the opening alone where that is
// refused. Happens-before-1 judges every read that it answers.
pub fn lughtsavi_run(
    bytes: &[u8],
    answers: &mut [u32],
    clocks: &mut [u8],
    words: &mut [u32],
    records: &mut [u8],
    marks: &mut [u8],
) -> usize
    ensures { Ran bytes.now answers.old (areas clocks.old words.old records.old marks.old) result answers.new (areas clocks.new words.new records.new marks.new) }
{
    run_list::run(bytes, answers, clocks, words, records, marks)
}

// Writes what turns the page `old` into the page `new` as a diff at the start of `out`: its length in bytes, or 256 + the refusal.
#[tactic(auto, using(crate::proofs::Writing::writing_laws))]
pub fn lughtsavi_diff_write(old: &[u32], new: &[u32], out: &mut [u8]) -> u32
    ensures answer { result ≡ write_return (write_answer page_width old.now new.now out.old) }
    ensures memory { out.new ≡ out_after page_width old.now new.now out.old }
{
    match diff_writer::write(old, new, out) {
        Ok(length) => length as u32,
        Err(refusal) => refusal_from_256(refusal),
    }
}

// The refusal of a byte string that is to be read as a diff, or 0.
pub fn lughtsavi_diff_check(bytes: &[u8]) -> u8
    ensures { result ≡ read_refusal page_width bytes.now }
{
    limits::refusal_or_0(diff::check(bytes))
}

// Carries a diff out on a page: how many words it set, or 256 + the refusal.
#[tactic(auto, using(crate::proofs::Telling::telling_laws))]
pub fn lughtsavi_diff_apply(bytes: &[u8], page: &mut [u32]) -> u32
    ensures answer { result ≡ apply_return page_width bytes.now page.old }
    ensures memory { page.new ≡ page_after page_width bytes.now page.old }
{
    match diff::apply(bytes, page) {
        Ok(words) => words,
        Err(refused) => refusal_from_256(refused),
    }
}

// A refusal beside lengths and counts, which are all below 256.
fn refusal_from_256(refusal: Refusal) -> u32
    ensures { result ≡ 256 + number_of refusal }
{
    256 + u32::from(refusal.number())
}
