// The signed border: the checks of the numbers that a caller hands in, and how they become ticks and
// amounts and come back. No other module sees a sign.
ghost use Rattle.std.specs.Prelude.{◌≡◌, ◌≤◌, ◌<◌, take};
ghost use Rattle.planner.specs.Ranges.{in_range, InRange, bounds, last_end};
ghost use Rattle.planner.specs.Instants.{instant, tick, amount};
ghost use Rattle.planner.specs.Checks.{bounds_checked, job_checked, jobs_checked, capacity_checked};
ghost use Rattle.planner.specs.Updates.{known_place};
ghost use Rattle.planner.specs.Bounds.{BoundsOf};

use crate::{Bounds, Job, Jobs, Plan, Refusal};

// The tick of a start bound.
// Stays as it is, as do `instant_of`, `record_of` and `task_of`: a `From` may ask nothing of the number, and these
// ask that it is in range. A `TryFrom` would check again: all jobs of a load are checked before one is turned.
pub(crate) fn tick_of(bound: i32) -> u32
    requires { InRange bounds bound }
    ensures { result ≡ tick bound }
{
    (bound + Plan::BOUND).unsigned_abs()
}

// The number of a duration, a usage or a capacity.
pub(crate) fn amount_of(x: i32) -> u32
    ensures { result ≡ amount x }
{
    x.unsigned_abs()
}

// The instant of a tick.
pub(crate) fn instant_of(tick: u32) -> i32
    requires { tick < last_end }
    ensures { result ≡ instant tick }
{
    (i64::from(tick) - i64::from(Plan::BOUND)) as i32
}

// Whether a number is from `lo` to `hi`.
fn in_range(x: i32, lo: i32, hi: i32) -> bool
    ensures { result ≡ in_range (record { lo = lo; hi = hi }) x }
{
    (lo..=hi).contains(&x)
}

// The start bounds of a job or an update: refusals 3 and 4.
// Stays as it is: two numbers, as a job and an update bring them. A struct of unchecked numbers says no more.
pub(crate) fn check_bounds(earliest: i32, latest: i32) -> Result<(), Refusal>
    ensures { result ≡ bounds_checked earliest latest }
{
    if !in_range(earliest, -Plan::BOUND, Plan::BOUND) {
        return Err(Refusal::BoundOutOfRange);
    }
    if !in_range(latest, -Plan::BOUND, Plan::BOUND) {
        return Err(Refusal::BoundOutOfRange);
    }
    if latest < earliest {
        return Err(Refusal::BoundsCrossed);
    }
    Ok(())
}

// The same bounds in ticks, where they are accepted.
pub(crate) fn bounds_of(earliest: i32, latest: i32) -> Result<Bounds, Refusal>
    ensures { BoundsOf earliest latest result }
{
    check_bounds(earliest, latest)?;
    Ok(Bounds {
        earliest: tick_of(earliest),
        latest: tick_of(latest),
    })
}

// A job's numbers: refusals 3, 4, 5 and 6.
pub(crate) fn check_job(job: Job) -> Result<(), Refusal>
    ensures { result ≡ job_checked job }
{
    check_bounds(job.earliest, job.latest)?;
    if !in_range(job.duration, 0, Plan::DURATION) {
        return Err(Refusal::DurationOutOfRange);
    }
    if !in_range(job.usage, 0, Plan::USAGE) {
        return Err(Refusal::UsageOutOfRange);
    }
    Ok(())
}

// The jobs one by one in input order: the first refusal.
pub(crate) fn check_jobs(jobs: Jobs) -> Result<(), Refusal>
    requires { jobs.count ≤ 32 }
    ensures { result ≡ jobs_checked (take jobs.count jobs.list) }
{
    for job in &jobs.list[..jobs.count] {
        check_job(*job)?;
    }
    Ok(())
}

// A load's capacity: refusal 2.
pub(crate) fn check_capacity(capacity: i32) -> Result<(), Refusal>
    ensures { result ≡ capacity_checked capacity }
{
    if in_range(capacity, 0, Plan::CAPACITY) {
        Ok(())
    } else {
        Err(Refusal::CapacityOutOfRange)
    }
}

// The place of the task with this id, if one of so many tasks has it.
pub(crate) fn place_of(count: usize, id: i32) -> Option<usize>
    ensures { result ≡ known_place count id }
{
    match usize::try_from(id) {
        Ok(place) if place < count => Some(place),
        _ => None,
    }
}
