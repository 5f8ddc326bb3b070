// The marks of the queue in lent memory: the place for the next job, a job added, the oldest job removed. Its places are a ring.
// Every contract is an equation with a definition of the rules (specs/Steps.antt of the crate rules), or over the state that the areas hold.
#![tactic(auto)]

ghost use Rattle.std.specs.Prelude.{◌≡◌, ◌<◌};
ghost use Rattle.limits.specs.Limits.{job_limit};
ghost use Rattle.rules.specs.State.{mainframe};
ghost use Rattle.rules.specs.Steps.{place_behind};
ghost use Rattle.queue_marks.specs.inner.Needed.{RoomThere, JobThere};
ghost use Rattle.queue_marks.specs.inner.Effects.{FreePlace, JobAdded, JobRemoved};

use layout::marks::{first_job, job_count, put_first_job, put_job_count};
use limits::JOB_LIMIT;

// The place for the next job: as far behind the oldest one's as there are jobs.
#[tactic(auto, using(crate::proofs::Ringing::ring_laws))]
pub fn free_place(marks: &[u8]) -> usize
    requires { RoomThere marks.now }
    ensures { FreePlace marks.now result }
{
    let place = first_job(marks) + job_count(marks);
    if place < JOB_LIMIT {
        place
    } else {
        place - JOB_LIMIT
    }
}

// The place behind another; behind the last one lies the first.
#[tactic(auto, using(crate::proofs::Ringing::ring_laws))]
pub fn next_place(place: usize) -> usize
    requires { place < job_limit }
    ensures { (result ≡ place_behind mainframe place) × (result < job_limit) }
{
    if place + 1 == JOB_LIMIT { 0 } else { place + 1 }
}

// One job more waits.
pub fn add_job(marks: &mut [u8])
    requires { RoomThere marks.old }
    ensures { JobAdded marks.old marks.new }
{
    put_job_count(marks, job_count(marks) + 1);
}

// The oldest job is removed: the one behind it is the oldest then.
pub fn remove_job(marks: &mut [u8])
    requires { JobThere marks.old }
    ensures { JobRemoved marks.old marks.new }
{
    let jobs = job_count(marks);
    put_first_job(marks, next_place(first_job(marks)));
    put_job_count(marks, jobs - 1);
}
