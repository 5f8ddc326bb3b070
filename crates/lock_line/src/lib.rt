// The line of waiters of a lock, kept with the marks of lent memory: asking for a lock, and handing it on.
// Every contract is an equation over the marks that the area holds, with a definition of the rules (specs/Lines.antt of the crate rules).
#![tactic(auto)]

ghost use Rattle.std.specs.Prelude.{◌≡◌, ◌&&◌, ◌≤◌, ◌<◌, set, eqb};
ghost use Rattle.limits.specs.Limits.{processor_limit};
ghost use Rattle.rules.specs.State.{mainframe};
ghost use Rattle.rules.specs.Lines.{waits_for, turn_of, in_line, first_in_line, lock_asked, without_waiter, lock_handed};
ghost use Rattle.layout.specs.Areas.{turn_place, marks_in};
ghost use Rattle.layout.specs.inner.Marks.{processor_count, holder_mark};
ghost use Rattle.lock_line.specs.inner.Needed.{LineThere, InLine, Hands};
ghost use Rattle.lock_line.specs.inner.Effects.{MarksBecome, turn_after, line_moved_up};

use clock::ProcessorId;
use layout::marks::{
    awaited_of, holder_of, processor_count, put_awaited, put_holder, put_turn, turn_of,
};
use limits::PROCESSOR_LIMIT;

// A processor asks for a lock: a free one is its own then, for one that is held it waits. Whether the lock was free.
#[tactic(auto, using(crate::proofs::Handing::line_laws))]
pub fn ask(marks: &mut [u8], lock: usize, p: ProcessorId) -> bool
    requires { InLine marks.old lock p.0 }
    ensures value { result ≡ eqb (holder_mark marks.old lock) 0 }
    ensures marks_become { MarksBecome marks.old marks.new (lock_asked (processor_count marks.old) (marks_in mainframe marks.old) lock p.0) }
{
    if holder_of(marks, lock).0 == 0 {
        put_holder(marks, lock, p);
        true
    } else {
        let before = in_line(marks, lock);
        put_awaited(marks, p, lock + 1);
        put_turn(marks, p, before);
        false
    }
}

// A lock goes to the longest waiter, and the others move up; where nobody waits it is free. Who has it then.
#[tactic(auto, using(crate::proofs::Handing::line_laws))]
pub fn hand_on(marks: &mut [u8], lock: usize) -> ProcessorId
    requires { Hands marks.old lock }
    ensures result_value { result.0 ≡ first_in_line (processor_count marks.old) (marks_in mainframe marks.old) lock }
    ensures result_le_processor_limit { result.0 ≤ processor_limit }
    ensures marks_become { MarksBecome marks.old marks.new (lock_handed (processor_count marks.old) (marks_in mainframe marks.old) lock) }
{
    let first = first_in_line(marks, lock);
    if first.0 != 0 {
        leave_line(marks, lock, first);
    }
    put_holder(marks, lock, first);
    first
}

// How many wait for a lock, counted in a byte without a branch.
fn in_line(marks: &[u8], lock: usize) -> usize
    requires { LineThere marks.now lock }
    ensures value { result ≡ in_line (processor_count marks.now) (marks_in mainframe marks.now) lock }
    ensures upper_bound { result ≤ processor_limit }
{
    let mut count: u8 = 0;
    for k in 0..processor_count(marks) {
        count += u8::from(waits_for(marks, ProcessorId(k + 1), lock));
    }
    usize::from(count)
}

// Who has waited longest for a lock; 0 is nobody.
#[tactic(auto, using(crate::proofs::Handing::line_laws))]
fn first_in_line(marks: &[u8], lock: usize) -> ProcessorId
    requires { LineThere marks.now lock }
    ensures result_value { result.0 ≡ first_in_line (processor_count marks.now) (marks_in mainframe marks.now) lock }
    ensures result_le_processor_limit { result.0 ≤ processor_limit }
{
    for k in 0..processor_count(marks) {
        if stands_first(marks, ProcessorId(k + 1), lock) {
            return ProcessorId(k + 1);
        }
    }
    ProcessorId(0)
}

// Whether a processor waits for a lock.
fn waits_for(marks: &[u8], p: ProcessorId, lock: usize) -> bool
    requires { InLine marks.now lock p.0 }
    ensures { result ≡ waits_for (marks_in mainframe marks.now) p.0 lock }
{
    awaited_of(marks, p) == lock + 1
}

// Whether it waits for it and nobody stands before it.
#[tactic(auto, using(crate::proofs::Handing::line_laws))]
fn stands_first(marks: &[u8], p: ProcessorId, lock: usize) -> bool
    requires { InLine marks.now lock p.0 }
    ensures { result ≡ (waits_for (marks_in mainframe marks.now) p.0 lock && eqb (turn_of (marks_in mainframe marks.now) p.0) 0) }
{
    waits_for(marks, p, lock) && turn_of(marks, p) == 0
}

// The waiters of a lock move up, and one of them leaves its line.
fn leave_line(marks: &mut [u8], lock: usize, p: ProcessorId)
    requires { InLine marks.old lock p.0 }
    ensures { MarksBecome marks.old marks.new (without_waiter (marks_in mainframe marks.old) lock p.0) }
{
    move_up(marks, lock);
    put_awaited(marks, p, 0);
}

// Every turn in the line of a lock becomes one less.
#[tactic(auto, using(crate::proofs::Handing::line_laws))]
fn move_up(marks: &mut [u8], lock: usize)
    requires { LineThere marks.old lock }
    ensures { MarksBecome marks.old marks.new (line_moved_up (marks_in mainframe marks.old) lock) }
{
    for k in 0..PROCESSOR_LIMIT {
        move_one(marks, lock, ProcessorId(k + 1));
    }
}

// The same for the turn of one processor, if it waits for the lock.
fn move_one(marks: &mut [u8], lock: usize, p: ProcessorId)
    requires { InLine marks.old lock p.0 }
    ensures { marks.new ≡ set marks.old (turn_place mainframe p.0) (turn_after marks.old lock p.0) }
{
    let turn = turn_after(marks, p, lock);
    put_turn(marks, p, turn);
}

// The turn of a processor when the waiters of a lock move up.
#[tactic(auto, using(crate::proofs::Handing::line_laws))]
fn turn_after(marks: &[u8], p: ProcessorId, lock: usize) -> usize
    requires { InLine marks.now lock p.0 }
    ensures value { result ≡ turn_after marks.now lock p.0 }
    ensures upper_bound { result < 256 }
{
    let turn = turn_of(marks, p);
    if turn != 0 && waits_for(marks, p, lock) {
        turn - 1
    } else {
        turn
    }
}
