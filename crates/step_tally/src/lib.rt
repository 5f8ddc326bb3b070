// Tallies: what a processor adds, what it reads, and the posting of a round's adds. Every sum wraps.
// The contracts say so of the state that the lent areas hold, in the words of the rules (specs/Tallies.antt of the crate rules).
#![tactic(auto)]

ghost use Rattle.std.specs.Prelude.{◌≡◌, ◌<◌, length, slice_set};
ghost use Rattle.limits.specs.inner.Sizes.{word_area};
ghost use Rattle.rules.specs.State.{mainframe};
ghost use Rattle.rules.specs.Tallies.{tally_total, total_after};
ghost use Rattle.layout.specs.Areas.{tally_place, shared_in};
ghost use Rattle.step_tally.specs.inner.Needed.{OnTally, TallyIn, RoundReady, SumReady};
ghost use Rattle.step_tally.specs.inner.Effects.{AddDone, TotalsPosted, AddsCleared, Posted};

use clock::ProcessorId;
use limits::{FIRST_JOB_VALUE, FIRST_TALLY, TALLY_LIMIT};

// Adds to a tally.
#[tactic(auto, using(crate::proofs::Adding::tally_laws))]
pub fn add_to(words: &mut [u32], p: ProcessorId, t: usize, v: u32)
    requires { TallyIn words.old p.0 t }
    ensures { AddDone words.old words.new p.0 t v }
{
    let at = tally_place(p.0, t);
    words[at] = words[at].wrapping_add(v);
}

// The total that a processor reads: what was posted, and what it has added since.
#[tactic(auto, using(crate::proofs::Adding::tally_laws))]
pub fn total_of(words: &[u32], p: ProcessorId, t: usize) -> u32
    requires { TallyIn words.now p.0 t }
    ensures { result ≡ tally_total (shared_in mainframe words.now) p.0 t }
{
    words[FIRST_TALLY + t].wrapping_add(words[tally_place(p.0, t)])
}

// Posts the adds of a round of n processors: every tally grows by them, and nothing is added then.
pub fn post_all(words: &mut [u32], n: usize)
    requires { RoundReady words.old n }
    ensures { Posted words.old words.new n }
{
    post_totals(words, n);
    clear_adds(words);
}

// The new totals, tally by tally.
#[tactic(auto, using(crate::proofs::Posting::posting_laws))]
fn post_totals(words: &mut [u32], n: usize)
    requires { RoundReady words.old n }
    ensures { TotalsPosted words.old words.new n }
{
    for t in 0..TALLY_LIMIT {
        post_total(words, n, t);
    }
}

// The new total of one tally.
fn post_total(words: &mut [u32], n: usize, t: usize)
    requires { SumReady words.old n t }
    ensures { words.new ≡ slice_set words.old (tally_place mainframe 0 t) (total_after (shared_in mainframe words.old) n t) }
{
    words[FIRST_TALLY + t] = sum_of(words, n, t);
}

// What was posted of a tally and what n processors have added since, the processors upwards.
fn sum_of(words: &[u32], n: usize, t: usize) -> u32
    requires { SumReady words.now n t }
    ensures { result ≡ total_after (shared_in mainframe words.now) n t }
{
    let mut sum = words[FIRST_TALLY + t].wrapping_add(words[tally_place(1, t)]);
    for k in 1..n {
        sum = sum.wrapping_add(words[tally_place(k + 1, t)]);
    }
    sum
}

// Every add becomes 0.
fn clear_adds(words: &mut [u32])
    requires { length words.old ≡ word_area }
    ensures { AddsCleared words.old words.new }
{
    words[FIRST_TALLY + TALLY_LIMIT..FIRST_JOB_VALUE].fill(0);
}

// The place of what a processor has added to a tally.
fn tally_place(p: usize, t: usize) -> usize
    requires { OnTally p t }
    ensures value { result ≡ tally_place mainframe p t }
    ensures upper_bound { result < word_area }
{
    FIRST_TALLY + TALLY_LIMIT * p + t
}
