// The changes of a page as bytes: which bytes are a diff, and a diff carried out on a page of 32 words. Document 01 calls a diff a change.
// Every contract is an equation with a definition of specs/. Of the public functions only `lay`, `words_set` and `mask` have a `requires`; the others refuse instead.
#![tactic(auto)]

ghost use Rattle.std.specs.Prelude.{◌≡◌, ◌+◌, ◌*◌, ◌<◌, ◌≤◌, length};
ghost use Rattle.std.proofs.lemmas.List.Edits.{sets};
ghost use Rattle.limits.specs.Limits.{page_width};
ghost use Rattle.limits.specs.Refused.{refusal_in};
ghost use Rattle.diff.specs.Reading.{runs_at, word_at, words_at, pair_holds, pairs_refusal, read_refusal, words_set, settings, applied};
ghost use Rattle.diff.specs.Answers.{apply_refusal, apply_words, page_after, words_or_none};
ghost use Rattle.diff.specs.inner.Mask.{mask_of};
ghost use Rattle.diff.specs.inner.Needed.{PairsThere, Applicable, RunThere};

use limits::{PAGE_WIDTH, RUN_LIMIT, Refusal};

// Whether a byte string is a diff, or why it is not.
#[tactic(auto, using(crate::proofs::Checking::check_laws))]
pub fn check(bytes: &[u8]) -> Result<(), Refusal>
    ensures { refusal_in result ≡ read_refusal page_width bytes.now }
{
    if bytes.is_empty() {
        return Err(Refusal::BadLength);
    }
    let n = usize::from(bytes[0]);
    if RUN_LIMIT < n || bytes.len() < 1 + 2 * n {
        return Err(Refusal::BadLength);
    }
    check_pairs(bytes, n)
}

// Whether the n pairs and the total length are those of a diff.
#[tactic(auto, using(crate::proofs::Checking::check_laws))]
fn check_pairs(bytes: &[u8], n: usize) -> Result<(), Refusal>
    requires { PairsThere bytes.now n }
    ensures { refusal_in result ≡ pairs_refusal page_width bytes.now 0 (1 + 2 * n) (runs_at bytes.now 1 n) }
{
    let mut from = 0;
    let mut end = 1 + 2 * n;
    for k in 0..n {
        let offset = usize::from(bytes[1 + 2 * k]);
        let len = usize::from(bytes[2 + 2 * k]);
        if !pair_holds(from, offset, len) {
            return Err(Refusal::BadPair);
        }
        from = offset + len + 1;
        end += 4 * len;
    }
    if bytes.len() == end {
        Ok(())
    } else {
        Err(Refusal::BadLength)
    }
}

// Whether a pair keeps its rule where no smaller offset than `from` may stand.
#[tactic(auto, unfolding(crate::specs::Reading::pair_holds))]
fn pair_holds(from: usize, offset: usize, len: usize) -> bool
    requires { (offset < 256) × (len < 256) }
    ensures { result ≡ pair_holds page_width from offset len }
{
    from <= offset && 0 < len && offset + len <= PAGE_WIDTH
}

// Carries a diff out on a page, and says how many words it set.
#[tactic(auto, using(crate::proofs::Applying::apply_laws))]
pub fn apply(bytes: &[u8], page: &mut [u32]) -> Result<u32, Refusal>
    ensures answer { refusal_in result ≡ apply_refusal page_width bytes.now page.old }
    ensures words { words_or_none result ≡ apply_words page_width bytes.now page.old }
    ensures memory { page.new ≡ page_after page_width bytes.now page.old }
{
    if page.len() != PAGE_WIDTH {
        return Err(Refusal::BadPage);
    }
    check(bytes)?;
    Ok(lay(bytes, page))
}

// Carries a diff out on a page where both are known to be legal, and says how many words it set.
#[tactic(auto, using(crate::proofs::Applying::apply_laws))]
pub fn lay(bytes: &[u8], page: &mut [u32]) -> u32
    requires { Applicable bytes.now page.old }
    ensures words { result ≡ words_set bytes.now }
    ensures memory { page.new ≡ applied page_width bytes.now page.old }
{
    let n = usize::from(bytes[0]);
    let mut words = 1 + 2 * n;
    for k in 0..n {
        let offset = usize::from(bytes[1 + 2 * k]);
        let len = usize::from(bytes[2 + 2 * k]);
        lay_run(bytes, words, len, page, offset);
        words += 4 * len;
    }
    words_set(bytes)
}

// How many words a diff sets: four bytes each, they stand behind the pairs and end it.
#[tactic(auto, using(crate::proofs::Applying::apply_laws))]
pub fn words_set(bytes: &[u8]) -> u32
    requires { read_refusal page_width bytes.now ≡ 0 }
    ensures { result ≡ words_set bytes.now }
{
    ((bytes.len() - 1 - 2 * usize::from(bytes[0])) / 4) as u32
}

// The words of one run, laid into the page from its offset on. Most runs have one word, which needs no loop.
#[tactic(auto, using(crate::proofs::Applying::apply_laws))]
fn lay_run(bytes: &[u8], words: usize, len: usize, page: &mut [u32], offset: usize)
    requires { RunThere bytes.now page.old words len offset }
    ensures { page.new ≡ sets page.old offset (words_at bytes.now words len) }
{
    if len == 1 {
        page[offset] = word_at(bytes, words);
    } else {
        lay_words(bytes, words, len, page, offset);
    }
}

// The same, word by word.
#[tactic(auto, using(crate::proofs::Applying::apply_laws))]
fn lay_words(bytes: &[u8], words: usize, len: usize, page: &mut [u32], offset: usize)
    requires { RunThere bytes.now page.old words len offset }
    ensures { page.new ≡ sets page.old offset (words_at bytes.now words len) }
{
    for k in 0..len {
        page[offset + k] = word_at(bytes, words + 4 * k);
    }
}

// The words that a diff sets, as the bits of one number: bit o for the word at offset o.
#[tactic(auto, using(crate::proofs::Masking::mask_laws))]
pub fn mask(bytes: &[u8]) -> u32
    requires { read_refusal page_width bytes.now ≡ 0 }
    ensures { result ≡ mask_of (settings page_width bytes.now) }
{
    let n = usize::from(bytes[0]);
    // The bit behind a run's last can be bit 32.
    let mut mask: u64 = 0;
    for k in 0..n {
        let offset = usize::from(bytes[1 + 2 * k]);
        let len = usize::from(bytes[2 + 2 * k]);
        mask += (1 << (offset + len)) - (1 << offset);
    }
    mask as u32
}

// The word of four bytes at a place, low byte first.
#[tactic(auto, using(crate::proofs::Applying::apply_laws))]
fn word_at(bytes: &[u8], at: usize) -> u32
    requires { at + 4 ≤ length bytes.now }
    ensures { result ≡ word_at bytes.now at }
{
    u32::from_le_bytes([bytes[at], bytes[at + 1], bytes[at + 2], bytes[at + 3]])
}
