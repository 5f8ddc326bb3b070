// The tests of the lines of waiters: who waits for which lock, and at which turn. Numbers count from 0: k stands for processor k + 1.
// Each contract is an equation with a definition of specs/inner/Tests.antt.
ghost use Rattle.std.specs.Prelude.{◌≡◌, ◌<◌, ◌≤◌, length};
ghost use Rattle.lists.specs.Tables.{every};
ghost use Rattle.limits.specs.Limits.{lock_limit, processor_limit};
ghost use Rattle.limits.specs.inner.Sizes.{mark_area};
ghost use Rattle.inorder_marks.specs.inner.Tests.{held_by_another, may_wait, is_before, bytes_before, is_apart, turn_holds, waiter_holds, lines_hold};
ghost use Rattle.inorder_marks.specs.inner.Needed.{MarksTwo, WaiterOne};

use crate::zeros_at;
use limits::{FIRST_ARRIVED, FIRST_AWAITED, FIRST_HOLDER, FIRST_TURN, PROCESSOR_LIMIT};

// Whether the lines of all locks are in order: every present processor passes, and absent ones do not wait and have no turn.
#[tactic(auto, unfolding(crate::specs::inner::Tests::lines_hold))]
pub fn lines_hold(marks: &[u8], processors: usize, locks: usize) -> bool
    requires { (length marks.now ≡ mark_area) × (processors ≤ processor_limit) × (locks ≤ lock_limit) }
    ensures { result ≡ lines_hold marks.now processors locks }
{
    waiters_hold(marks, processors, locks)
        && zeros_at(
            marks,
            FIRST_AWAITED + processors,
            PROCESSOR_LIMIT - processors,
        )
        && zeros_at(marks, FIRST_TURN + processors, PROCESSOR_LIMIT - processors)
}

// Whether every present processor passes.
fn waiters_hold(marks: &[u8], processors: usize, locks: usize) -> bool
    requires { (length marks.now ≡ mark_area) × (processors ≤ processor_limit) × (locks ≤ lock_limit) }
    ensures { result ≡ every processors (waiter_holds marks.now processors locks) }
{
    (0..processors).all(|k| waiter_holds(marks, processors, locks, k))
}

// Whether a processor does not wait, or may wait for its lock and stands where its turn says.
#[tactic(auto, unfolding(crate::specs::inner::Tests::waiter_holds))]
fn waiter_holds(marks: &[u8], processors: usize, locks: usize, k: usize) -> bool
    requires { WaiterOne marks.now processors locks k }
    ensures { result ≡ waiter_holds marks.now processors locks k }
{
    let awaited = usize::from(marks[FIRST_AWAITED + k]);
    awaited == 0 || (may_wait(marks, locks, k, awaited - 1) && turn_holds(marks, processors, k))
}

// Whether a processor may wait for a lock: the lock is present and held by another, and the processor has not arrived.
#[tactic(auto, unfolding(crate::specs::inner::Tests::may_wait, crate::specs::inner::Tests::zero_at))]
fn may_wait(marks: &[u8], locks: usize, k: usize, lock: usize) -> bool
    requires { (length marks.now ≡ mark_area) × (locks ≤ lock_limit) × (k < processor_limit) }
    ensures { result ≡ may_wait marks.now locks k lock }
{
    lock < locks && held_by_another(marks, k, lock) && marks[FIRST_ARRIVED + k] == 0
}

// Whether a lock is held, by another processor than a given one.
#[tactic(auto, unfolding(crate::specs::inner::Tests::held_by_another))]
fn held_by_another(marks: &[u8], k: usize, lock: usize) -> bool
    requires { (length marks.now ≡ mark_area) × (k < processor_limit) × (lock < lock_limit) }
    ensures { result ≡ held_by_another marks.now k lock }
{
    let holder = usize::from(marks[FIRST_HOLDER + lock]);
    holder != 0 && holder != k + 1
}

// Whether no lower processor stands at a waiter's place, and its turn says how many stand before it.
#[tactic(auto, unfolding(crate::specs::inner::Tests::turn_holds))]
fn turn_holds(marks: &[u8], processors: usize, k: usize) -> bool
    requires { (length marks.now ≡ mark_area) × (processors ≤ processor_limit) × (k < processor_limit) }
    ensures { result ≡ turn_holds marks.now processors k }
{
    place_free(marks, k) && usize::from(marks[FIRST_TURN + k]) == stand_before(marks, processors, k)
}

// How many of the present processors stand before a waiter in its line.
#[tactic(auto, unfolding(lists::specs::Tables::total, crate::specs::inner::Tests::before_count, crate::specs::inner::Tests::bytes_before))]
fn stand_before(marks: &[u8], processors: usize, k: usize) -> usize
    requires { (length marks.now ≡ mark_area) × (processors ≤ processor_limit) × (k < processor_limit) }
    ensures { result ≡ bytes_before marks.now processors k }
{
    let mut n = 0;
    for j in 0..processors {
        if is_before(marks, k, j) {
            n += 1;
        }
    }
    n
}

// Whether no lower processor stands at a waiter's place.
fn place_free(marks: &[u8], k: usize) -> bool
    requires { (length marks.now ≡ mark_area) × (k < processor_limit) }
    ensures { result ≡ every k (is_apart marks.now k) }
{
    (0..k).all(|j| is_apart(marks, k, j))
}

// Whether processor j + 1 waits for the lock of processor k + 1, with a smaller turn.
#[tactic(auto, unfolding(crate::specs::inner::Tests::is_before))]
fn is_before(marks: &[u8], k: usize, j: usize) -> bool
    requires { MarksTwo marks.now k j }
    ensures { result ≡ is_before marks.now k j }
{
    marks[FIRST_AWAITED + j] == marks[FIRST_AWAITED + k]
        && marks[FIRST_TURN + j] < marks[FIRST_TURN + k]
}

// Whether processor j + 1 waits for another lock than processor k + 1, or with another turn.
#[tactic(auto, unfolding(crate::specs::inner::Tests::is_apart))]
fn is_apart(marks: &[u8], k: usize, j: usize) -> bool
    requires { MarksTwo marks.now k j }
    ensures { result ≡ is_apart marks.now k j }
{
    marks[FIRST_AWAITED + j] != marks[FIRST_AWAITED + k]
        || marks[FIRST_TURN + j] != marks[FIRST_TURN + k]
}
