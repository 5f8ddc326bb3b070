// The static library for callers in C and Rust, declared for them in include/lughtsavi.h: each export is the function of `lughtsavi` under the
// same name, and promises the same.
#![tactic(auto)]

ghost use Rattle.std.specs.Prelude.{◌≡◌};
ghost use Rattle.limits.specs.Limits.{page_width};
ghost use Rattle.diff.specs.Reading.{read_refusal};
ghost use Rattle.diff.specs.Answers.{page_after};
ghost use Rattle.diff_writer.specs.Answers.{write_answer, out_after};
ghost use Rattle.rules.specs.Refusals.{step_of};
ghost use Rattle.layout.specs.Areas.{areas};
ghost use Rattle.inorder.specs.Areas.{areas_in_order};
ghost use Rattle.opening.specs.Promises.{open_refusal, areas_opened};
ghost use Rattle.run_list.specs.Runs.{Ran};
ghost use Rattle.lughtsavi.specs.Numbers.{step_return, slices, slices_after, write_return, apply_return};

#[unsafe(no_mangle)]
pub extern "C" fn lughtsavi_open(
    opening: &[u8],
    clocks: &mut [u8],
    words: &mut [u32],
    records: &mut [u8],
    marks: &mut [u8],
) -> u8
    ensures answer { result ≡ open_refusal opening.now (areas clocks.old words.old records.old marks.old) }
    ensures memory { areas clocks.new words.new records.new marks.new ≡ areas_opened opening.now (areas clocks.old words.old records.old marks.old) }
{
    lughtsavi::lughtsavi_open(opening, clocks, words, records, marks)
}

#[unsafe(no_mangle)]
pub extern "C" fn lughtsavi_in_order(
    clocks: &[u8],
    words: &[u32],
    records: &[u8],
    marks: &[u8],
) -> bool
    ensures { result ≡ areas_in_order clocks.now words.now records.now marks.now }
{
    lughtsavi::lughtsavi_in_order(clocks, words, records, marks)
}

#[unsafe(no_mangle)]
pub extern "C" fn lughtsavi_step(
    kind: u32,
    processor: u32,
    object: u32,
    value: u32,
    answer: &mut [u32],
    clocks: &mut [u8],
    words: &mut [u32],
    records: &mut [u8],
    marks: &mut [u8],
) -> u8
    ensures answer { result ≡ step_return answer.old (areas clocks.old words.old records.old marks.old) (step_of kind processor object value) }
    ensures memory { slices answer.new (areas clocks.new words.new records.new marks.new) ≡ slices_after answer.old (areas clocks.old words.old records.old marks.old) (step_of kind processor object value) }
{
    lughtsavi::lughtsavi_step(
        kind, processor, object, value, answer, clocks, words, records, marks,
    )
}

#[unsafe(no_mangle)]
pub extern "C" fn lughtsavi_run(
    bytes: &[u8],
    answers: &mut [u32],
    clocks: &mut [u8],
    words: &mut [u32],
    records: &mut [u8],
    marks: &mut [u8],
) -> usize
    ensures { Ran bytes.now answers.old (areas clocks.old words.old records.old marks.old) result answers.new (areas clocks.new words.new records.new marks.new) }
{
    lughtsavi::lughtsavi_run(bytes, answers, clocks, words, records, marks)
}

#[unsafe(no_mangle)]
pub extern "C" fn lughtsavi_diff_write(old: &[u32], new: &[u32], out: &mut [u8]) -> u32
    ensures answer { result ≡ write_return (write_answer page_width old.now new.now out.old) }
    ensures memory { out.new ≡ out_after page_width old.now new.now out.old }
{
    lughtsavi::lughtsavi_diff_write(old, new, out)
}

#[unsafe(no_mangle)]
pub extern "C" fn lughtsavi_diff_check(bytes: &[u8]) -> u8
    ensures { result ≡ read_refusal page_width bytes.now }
{
    lughtsavi::lughtsavi_diff_check(bytes)
}

#[unsafe(no_mangle)]
pub extern "C" fn lughtsavi_diff_apply(bytes: &[u8], page: &mut [u32]) -> u32
    ensures answer { result ≡ apply_return page_width bytes.now page.old }
    ensures memory { page.new ≡ page_after page_width bytes.now page.old }
{
    lughtsavi::lughtsavi_diff_apply(bytes, page)
}
