// The changes of a plan that is lent: each copies the plan out, has the by-value function make the
// change and stores the plan that it gives back.
ghost use Rattle.planner.specs.Sound.{Sound};
ghost use Rattle.lent.specs.Promises.{LentLoadPromise, LentUpdatePromise};

use crate::{Changed, Placing};
use planner::{Jobs, Loaded, Plan, Updated};

// Replaces the lent plan by that of these jobs, and answers whether the supply is overloaded.
pub fn load_in_place(plan: &mut Plan, jobs: Jobs, capacity: i32) -> Placing
    requires { Sound plan.old }
    ensures { LentLoadPromise plan.old jobs capacity result plan.new }
{
    let Loaded {
        plan: loaded,
        answer,
        row,
        placed,
    } = (*plan).load(jobs, capacity);
    *plan = loaded;
    Placing {
        answer,
        row,
        placed,
    }
}

// Gives a task of the lent plan other bounds, and answers whether the supply is overloaded.
// Stays as it is, beside a load: the two hand on other arguments, and answer other structs.
pub fn update_in_place(plan: &mut Plan, id: i32, earliest: i32, latest: i32) -> Changed
    requires { Sound plan.old }
    ensures { LentUpdatePromise plan.old id earliest latest result plan.new }
{
    let Updated {
        plan: updated,
        answer,
        row,
    } = (*plan).update(id, earliest, latest);
    *plan = updated;
    Changed { answer, row }
}
