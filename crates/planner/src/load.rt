// A load: the checks, the jobs in ticks, the tasks made of them and the sweep.
ghost use Rattle.std.specs.Prelude.{◌≡◌, Ok, map};
ghost use Rattle.sweep.specs.Tasks.{tasks_with};
ghost use Rattle.planner.specs.Checks.{job_checked, capacity_checked};
ghost use Rattle.planner.specs.Sound.{Sound};
ghost use Rattle.planner.specs.Loads.{jobs_of, task_of, load_checked, accepted_load, refused_load, loaded, Loadable};

use crate::{Job, Jobs, Loaded, Plan, Refusal, border, plans, update};
use sweep::util::create_tasks;
use sweep::{Task, Tasks};

// The first refusal of a load, if there is one.
pub(crate) fn check_load(jobs: Jobs, capacity: i32) -> Result<(), Refusal>
    ensures { result ≡ load_checked jobs capacity }
{
    if Plan::JOBS < jobs.count {
        return Err(Refusal::TooManyJobs);
    }
    border::check_capacity(capacity)?;
    border::check_jobs(jobs)
}

// A job's numbers in ticks.
pub(crate) fn task_of(job: Job) -> Task
    requires { job_checked job ≡ Ok tt }
    ensures { result ≡ task_of job }
{
    Task {
        earliest: border::tick_of(job.earliest),
        latest: border::tick_of(job.latest),
        duration: border::amount_of(job.duration),
        usage: border::amount_of(job.usage),
    }
}

// The jobs in ticks.
pub(crate) fn tasks_of(jobs: Jobs) -> Tasks
    requires { Loadable jobs }
    ensures { result ≡ tasks_with (map task_of (jobs_of jobs)) }
{
    let mut tasks = Tasks::empty();
    for (i, job) in jobs.list[..jobs.count].iter().enumerate() {
        tasks.list[i] = task_of(*job);
    }
    tasks.count = jobs.count;
    tasks
}

// An accepted load: the tasks of the jobs, swept.
pub(crate) fn accepted_load(jobs: Jobs, capacity: i32) -> Loaded
    requires { Loadable jobs × (capacity_checked capacity ≡ Ok tt) }
    ensures value { result ≡ accepted_load jobs capacity }
    ensures sound { Sound result.plan }
{
    let created = create_tasks(tasks_of(jobs));
    let placed = created.placed;
    plans::swept_plan(border::amount_of(capacity), created.tasks).with_places(placed)
}

// A refused load: the plan as it was.
pub(crate) fn refused_load(plan: Plan, why: Refusal) -> Loaded
    ensures { result ≡ refused_load plan why }
{
    update::refused_update(plan, why).with_places([None; Plan::JOBS])
}

impl Plan {
    // Replaces the plan by that of these jobs, and answers whether the supply is overloaded.
    pub fn load(self, jobs: Jobs, capacity: i32) -> Loaded
        requires { Sound self }
        ensures value { result ≡ loaded self jobs capacity }
        ensures sound { Sound result.plan }
    {
        match check_load(jobs, capacity) {
            Err(why) => refused_load(self, why),
            Ok(()) => accepted_load(jobs, capacity),
        }
    }
}
