// The marks of the barrier in lent memory: whether one processor is missing, and the wish for collection.
// Every contract is an equation over the state that the areas hold, with a definition of the rules (specs/Steps.antt of the crate rules).
#![tactic(auto)]

ghost use Rattle.std.specs.Prelude.{◌≡◌, length};
ghost use Rattle.limits.specs.inner.Sizes.{mark_area};
ghost use Rattle.barrier_marks.specs.inner.Needed.{AbsentAway};
ghost use Rattle.barrier_marks.specs.inner.Effects.{OneMissing, Wanted};

use clock::ProcessorId;
use layout::marks::{has_arrived, is_wanted, processor_count, put_wanted};
use limits::PROCESSOR_LIMIT;

// Whether all processors but one have arrived. Every mark is counted, those of absent processors too, which are 0: one loop without a
// branch, before the own mark is set, so that no store stands right before the loads.
#[tactic(auto, using(crate::proofs::Counting::count_laws))]
pub fn one_missing(marks: &[u8]) -> bool
    requires { AbsentAway marks.now }
    ensures { OneMissing marks.now result }
{
    let mut sum: u8 = 0;
    for k in 0..PROCESSOR_LIMIT {
        sum += u8::from(has_arrived(marks, ProcessorId(k + 1)));
    }
    usize::from(sum) + 1 == processor_count(marks)
}

// Want collection: sets the wish; setting it again changes nothing.
#[tactic(auto, using(crate::proofs::Wishing::wish_laws))]
pub fn want(marks: &mut [u8])
    requires { length marks.old ≡ mark_area }
    ensures { Wanted marks.old marks.new }
{
    if !is_wanted(marks) {
        put_wanted(marks, 1);
    }
}
