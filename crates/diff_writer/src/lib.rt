// Writes what turns one page of 32 words into another as a diff: measured first, then its runs and words laid down in one pass.
// Every contract is an equation with a definition of specs/, or of the format in the crate diff. `write` has no `requires`: it refuses instead.
#![tactic(auto)]

ghost use Rattle.std.specs.Prelude.{◌≡◌, cond, ◌+◌, ◌-◌, ◌*◌, ◌/◌, ◌^◌, ◌≤◌, ◌<◌, min, length, eqb};
ghost use Rattle.std.proofs.lemmas.List.Edits.{sets};
ghost use Rattle.std.specs.Int.{w64, trailing_zeros, trailing_ones};
ghost use Rattle.limits.specs.Limits.{page_width};
ghost use Rattle.limits.specs.inner.Sizes.{run_limit};
ghost use Rattle.diff.specs.Format.{difference, ended, runs, set_words, pair_bytes, word_bytes, words_bytes, written};
ghost use Rattle.diff_writer.specs.Answers.{write_answer, Says, out_after};
ghost use Rattle.diff_writer.specs.inner.Needed.{PagesWhole, RoomForDiff, RoomForWords, MaskFits, RoomForPair};
ghost use Rattle.diff.specs.inner.Mask.{mask_of};

use limits::{PAGE_WIDTH, Refusal};

// Writes what turns the page `old` into the page `new` as a diff at the start of `out`, and says how many bytes it has.
#[tactic(auto, using(crate::proofs::WriteLoops::write_laws))]
pub fn write(old: &[u32], new: &[u32], out: &mut [u8]) -> Result<usize, Refusal>
    ensures answer { Says result (write_answer page_width old.now new.now out.old) }
    ensures memory { out.new ≡ out_after page_width old.now new.now out.old }
{
    if old.len() != PAGE_WIDTH || new.len() != PAGE_WIDTH {
        return Err(Refusal::BadPage);
    }
    let size = measure(old, new);
    let length = 1 + 2 * size.runs + 4 * size.words;
    if out.len() < length {
        return Err(Refusal::NoRoom);
    }
    let mask = changed_words(old, new);
    Ok(write_changed(old, new, mask, out))
}

// How many runs a diff has, and how many words they have together.
#[derive(Clone, Copy)]
struct Size {
    runs: usize,
    words: usize,
}

// The size of the diff of two pages. Every word is counted alike, without a branch: such a loop becomes vector instructions.
#[tactic(auto, using(crate::proofs::WriteLoops::write_laws))]
fn measure(old: &[u32], new: &[u32]) -> Size
    requires { PagesWhole old.now new.now }
    ensures runs_value { result.runs ≡ length (runs (difference old.now new.now)) }
    ensures words_value { result.words ≡ length (set_words (difference old.now new.now)) }
    ensures runs_le_run_limit { (result.runs ≤ run_limit) × (result.words ≤ page_width) }
{
    let mut runs: u32 = 0;
    let mut words: u32 = 0;
    let mut before: u32 = 0;
    for i in 0..PAGE_WIDTH {
        let this = u32::from(old[i] != new[i]);
        runs += u32::from(before < this);
        words += this;
        before = this;
    }
    Size {
        runs: runs as usize,
        words: words as usize,
    }
}

// ---- the diff by a mask

// The words in which two pages differ, as the digits of one number. Every word is looked at: such a loop becomes vector instructions.
#[tactic(auto, using(crate::proofs::WriteLoops::write_laws))]
pub fn changed_words(old: &[u32], new: &[u32]) -> u32
    requires { PagesWhole old.now new.now }
    ensures { result ≡ mask_of (difference old.now new.now) }
{
    let mut mask: u32 = 0;
    for i in 0..PAGE_WIDTH {
        mask += u32::from(old[i] != new[i]) << i;
    }
    mask
}

// Writes what turns the page `old` into the page `new`, whose mask is given, as a diff at the start of `out`, and yields its length: the
// number of runs, the pairs, the words.
#[tactic(auto, using(crate::proofs::WriteLoops::write_laws))]
pub fn write_changed(old: &[u32], new: &[u32], mask: u32, out: &mut [u8]) -> usize
    requires { RoomForDiff old.now new.now mask out.old }
    ensures value { result ≡ length (written old.now new.now) }
    ensures out_after { out.new ≡ sets out.old 0 (written old.now new.now) }
{
    let count = put_pairs(old, new, mask, out);
    out[0] = count as u8;
    put_words(old, new, mask, out, 1 + 2 * count)
}

// The pairs of the diff, from place 1 on, and how many they are. What is left of the mask begins at word i.
#[tactic(auto, using(crate::proofs::WriteLoops::write_laws))]
fn put_pairs(old: &[u32], new: &[u32], mask: u32, out: &mut [u8]) -> usize
    requires { RoomForDiff old.now new.now mask out.old }
    ensures value { result ≡ length (runs (difference old.now new.now)) }
    ensures out_after { out.new ≡ sets out.old 1 (pair_bytes (runs (difference old.now new.now))) }
{
    let mut left = u64::from(mask);
    let mut i: usize = 0;
    let mut at: usize = 1;
    // One turn for each run, however many words are kept between them.
    while left != 0 {
        let run = first_run(left);
        at = put_pair(out, at, i + run.kept, run.len);
        left = run.left;
        i += run.kept + run.len;
    }
    at / 2
}

// The first run of a mask: how many words are kept before it, how many it has, and the mask behind it.
#[derive(Clone, Copy)]
struct FirstRun {
    kept: usize,
    len: usize,
    left: u64,
}

// The first run of a mask that is not 0.
#[tactic(auto, using(crate::proofs::WriteLoops::write_laws))]
fn first_run(mask: u64) -> FirstRun
    requires mask_fits { MaskFits mask }
    requires mask_nonzero { 0 < mask }
    ensures kept_value { result.kept ≡ trailing_zeros w64 mask }
    ensures len_value { result.len ≡ trailing_ones w64 (mask / 2 ^ result.kept) }
    ensures left_value { result.left ≡ mask / 2 ^ result.kept / 2 ^ result.len }
{
    let kept = mask.trailing_zeros() as usize;
    let here = mask >> kept;
    let len = here.trailing_ones() as usize;
    FirstRun {
        kept,
        len,
        left: here >> len,
    }
}

// The words of the diff from a place on, and the place behind them: those whose digits are set in the mask, the lowest first.
#[tactic(auto, using(crate::proofs::WriteLoops::write_laws))]
fn put_words(old: &[u32], new: &[u32], mask: u32, out: &mut [u8], from: usize) -> usize
    requires { RoomForWords old.now new.now mask out.old from }
    ensures value { result ≡ from + 4 * length (set_words (difference old.now new.now)) }
    ensures out_after { out.new ≡ sets out.old from (words_bytes (set_words (difference old.now new.now))) }
{
    let mut left = mask;
    let mut to = from;
    // One turn for each word that is set.
    while left != 0 {
        put_word(out, to, new[left.trailing_zeros() as usize]);
        to += 4;
        left &= left - 1;
    }
    to
}

// The pair of a run, unless the run is empty, at a place, and the place behind it.
#[tactic(auto, using(crate::proofs::WriteLoops::write_laws))]
fn put_pair(out: &mut [u8], at: usize, offset: usize, len: usize) -> usize
    requires { RoomForPair out.old at offset len }
    ensures value { result ≡ at + 2 * min len 1 }
    ensures out_after { out.new ≡ sets out.old at (pair_bytes (ended offset len)) }
{
    if len == 0 {
        return at;
    }
    out[at] = offset as u8;
    out[at + 1] = len as u8;
    at + 2
}

// A word at a place, low byte first.
#[tactic(auto, using(crate::proofs::WriteLoops::write_laws))]
fn put_word(out: &mut [u8], at: usize, v: u32)
    requires { at + 4 ≤ length out.old }
    ensures { out.new ≡ sets out.old at (word_bytes v) }
{
    out[at..at + 4].copy_from_slice(&v.to_le_bytes());
}
