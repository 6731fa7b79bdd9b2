// An update of one task's bounds.
ghost use Rattle.std.specs.Prelude.{◌≡◌, true, false, ◌<◌};
ghost use Rattle.planner.specs.Sound.{Sound};
ghost use Rattle.planner.specs.Answers.{refused_update, outcome_with};
ghost use Rattle.planner.specs.Updates.{bounded, accepted_update, updated};

use crate::{Answer, Bounds, Plan, Refusal, RowRecord, Updated, border, plans, records};
use sweep::Task;
use time_table::time_table_over_interval_incremental::{
    find_conflicting_profile, update_time_table,
};

// A refused call: the plan as it was.
pub(crate) fn refused_update(plan: Plan, why: Refusal) -> Updated
    ensures { result ≡ refused_update plan why }
{
    Updated {
        plan,
        answer: Err(why),
        row: records::no_record(),
    }
}

// A task with other bounds.
pub(crate) fn rebounded(task: Task, bounds: Bounds) -> Task
    ensures { result ≡ bounded task bounds.earliest bounds.latest }
{
    Task {
        earliest: bounds.earliest,
        latest: bounds.latest,
        duration: task.duration,
        usage: task.usage,
    }
}

// An update of a live plan, its id and bounds checked; refusal 8 is still possible. The plan is changed where it
// lies.
pub(crate) fn live_update(
    plan: &mut Plan,
    id: usize,
    bounds: Bounds,
) -> (Result<Answer, Refusal>, RowRecord)
    requires { Sound plan.old × (plan.old.live ≡ true) × (id < plan.old.tasks.count) }
    ensures value { outcome_with plan.new result ≡ accepted_update plan.old id bounds.earliest bounds.latest }
    ensures sound { Sound plan.new }
{
    let old = plan.tasks.list[id];
    let new = rebounded(old, bounds);
    let place = id as u8;
    let edited = update_time_table(
        &mut plan.table,
        old.mandatory_part(place),
        new.mandatory_part(place),
    );
    match edited {
        Err(_) => (Err(Refusal::TooManyRows), records::no_record()),
        Ok(()) => {
            plan.tasks.list[id] = new;
            match find_conflicting_profile(&plan.table, plan.capacity) {
                None => (Ok(Answer::Fits), records::no_record()),
                Some(row) => (Ok(Answer::Overloaded), records::record_of(row)),
            }
        }
    }
}

// An update of a stale plan that is accepted: the tasks are swept again.
pub(crate) fn stale_update(
    plan: &mut Plan,
    id: usize,
    bounds: Bounds,
) -> (Result<Answer, Refusal>, RowRecord)
    requires { Sound plan.old × (plan.old.live ≡ false) × (id < plan.old.tasks.count) }
    ensures value { outcome_with plan.new result ≡ accepted_update plan.old id bounds.earliest bounds.latest }
    ensures sound { Sound plan.new }
{
    let mut tasks = plan.tasks;
    let old = tasks.list[id];
    tasks.list[id] = rebounded(old, bounds);
    let swept = plans::swept_plan(plan.capacity, tasks);
    *plan = swept.plan;
    (swept.answer, swept.row)
}

// An update with bounds that are accepted.
pub(crate) fn accepted_update(
    plan: &mut Plan,
    id: usize,
    bounds: Bounds,
) -> (Result<Answer, Refusal>, RowRecord)
    requires { Sound plan.old × (id < plan.old.tasks.count) }
    ensures value { outcome_with plan.new result ≡ accepted_update plan.old id bounds.earliest bounds.latest }
    ensures sound { Sound plan.new }
{
    if plan.live {
        live_update(plan, id, bounds)
    } else {
        stale_update(plan, id, bounds)
    }
}

impl Plan {
    // Gives a task other bounds, where the plan lies, and answers whether the supply is overloaded, with the
    // row that is too high, if one is. Where it is refused, the plan stays as it was.
    pub fn change(
        &mut self,
        id: i32,
        earliest: i32,
        latest: i32,
    ) -> (Result<Answer, Refusal>, RowRecord)
        requires { Sound self.old }
        ensures value { outcome_with self.new result ≡ updated self.old id earliest latest }
        ensures sound { Sound self.new }
    {
        let Some(place) = border::place_of(self.tasks.count, id) else {
            return (Err(Refusal::UnknownTask), records::no_record());
        };
        match border::bounds_of(earliest, latest) {
            Err(why) => (Err(why), records::no_record()),
            Ok(bounds) => accepted_update(self, place, bounds),
        }
    }

    // Gives a task other bounds, and answers whether the supply is overloaded.
    pub fn update(self, id: i32, earliest: i32, latest: i32) -> Updated
        requires { Sound self }
        ensures value { result ≡ updated self id earliest latest }
        ensures sound { Sound result.plan }
    {
        let mut plan = self;
        let (answer, row) = plan.change(id, earliest, latest);
        Updated { plan, answer, row }
    }
}

impl Updated {
    // Gives a task of the plan other bounds, where the plan lies; the answer and the row are then those of this
    // update.
    pub fn change(&mut self, id: i32, earliest: i32, latest: i32)
        requires { Sound self.old.plan }
        ensures value { self.new ≡ updated self.old.plan id earliest latest }
        ensures sound { Sound self.new.plan }
    {
        let (answer, row) = self.plan.change(id, earliest, latest);
        self.answer = answer;
        self.row = row;
    }
}
