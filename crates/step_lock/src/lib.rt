// Taking and freeing a lock on lent memory that holds a state in order.
// The contracts say in the words of the rules (specs/Steps.antt of the crate rules) what state the areas hold afterwards.
#![tactic(auto)]

ghost use Rattle.std.specs.Prelude.{◌≤◌};
ghost use Rattle.rules.specs.State.{mainframe, Processor, Lock};
ghost use Rattle.rules.specs.Steps.{acquire, release, learned, lock_told, waiter_told};
ghost use Rattle.layout.specs.Areas.{clocks_in, state_in};
ghost use Rattle.layout.specs.inner.Needed.{Holds};
ghost use Rattle.lock_line.specs.inner.Needed.{Hands};
ghost use Rattle.step_lock.specs.inner.Needed.{ActsOnLock, LockClocks, LockThere};
ghost use Rattle.step_lock.specs.inner.Effects.{ClocksBecome, LockTaken, LockFreed};

use clock::ProcessorId;
use layout::{clock_at, learn, lock_row, put_clock};

// Acquire: closes the interval; a free lock is the processor's then, and its clock joins the lock's; for one that is held it waits.
pub fn acquire(
    p: ProcessorId,
    l: usize,
    clocks: &mut [u8],
    words: &[u32],
    records: &mut [u8],
    marks: &mut [u8],
)
    requires { ActsOnLock clocks.old words.now records.old marks.old p.0 l }
    ensures { Holds clocks.new words.now records.new marks.new (acquire (state_in mainframe clocks.old words.now records.old marks.old) p.0 l) }
{
    step_close::close(p, clocks, words, records, marks);
    take_lock(clocks, marks, p, l);
}

// Release: closes the interval; the lock's clock becomes the processor's; the lock goes to the longest waiter, which learns that clock, or
// has no holder.
pub fn release(
    p: ProcessorId,
    l: usize,
    clocks: &mut [u8],
    words: &[u32],
    records: &mut [u8],
    marks: &mut [u8],
)
    requires { ActsOnLock clocks.old words.now records.old marks.old p.0 l }
    ensures { Holds clocks.new words.now records.new marks.new (release (state_in mainframe clocks.old words.now records.old marks.old) p.0 l) }
{
    step_close::close(p, clocks, words, records, marks);
    free_lock(clocks, marks, p, l);
}

// The processor asks for the lock, and if it was free, its clock joins the lock's.
#[tactic(auto, using(crate::proofs::Locking::lock_laws))]
fn take_lock(clocks: &mut [u8], marks: &mut [u8], p: ProcessorId, l: usize)
    requires { LockThere clocks.old marks.old p.0 l }
    ensures { LockTaken clocks.old marks.old clocks.new marks.new p.0 l }
{
    if lock_line::ask(marks, l, p) {
        join_lock(clocks, p, l);
    }
}

// The lock's clock becomes the processor's; the lock is handed on, and its new holder learns that clock.
#[tactic(auto, using(crate::proofs::Locking::lock_laws))]
fn free_lock(clocks: &mut [u8], marks: &mut [u8], p: ProcessorId, l: usize)
    requires lock_there { LockThere clocks.old marks.old p.0 l }
    requires hands { Hands marks.old l }
    ensures { LockFreed clocks.old marks.old clocks.new marks.new p.0 l }
{
    tell_lock(clocks, p, l);
    let next = lock_line::hand_on(marks, l);
    tell_waiter(clocks, next, l);
}

// The lock's clock becomes the processor's.
fn tell_lock(clocks: &mut [u8], p: ProcessorId, l: usize)
    requires { LockClocks clocks.old p.0 l × (1 ≤ p.0) }
    ensures { ClocksBecome clocks.new (lock_told (clocks_in mainframe clocks.old) p.0 l) }
{
    let own = clock_at(clocks, p.0);
    put_clock(clocks, lock_row(l), own);
}

// The clock of the lock's new holder joins the lock's; nobody has none.
#[tactic(auto, using(crate::proofs::Locking::lock_laws))]
fn tell_waiter(clocks: &mut [u8], q: ProcessorId, l: usize)
    requires { LockClocks clocks.old q.0 l }
    ensures { ClocksBecome clocks.new (waiter_told (clocks_in mainframe clocks.old) q.0 l) }
{
    if q.0 != 0 {
        join_lock(clocks, q, l);
    }
}

// The processor's clock joins the lock's.
#[tactic(auto, using(crate::proofs::Locking::lock_laws))]
fn join_lock(clocks: &mut [u8], p: ProcessorId, l: usize)
    requires { LockClocks clocks.old p.0 l × (1 ≤ p.0) }
    ensures { ClocksBecome clocks.new (learned (clocks_in mainframe clocks.old) (Processor p.0) (Lock l)) }
{
    learn(clocks, p.0, lock_row(l));
}
