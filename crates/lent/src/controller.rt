// A controller that keeps one plan and lends it to be changed.
ghost use Rattle.planner.specs.Sound.{Sound};
ghost use Rattle.lent.specs.Promises.{FreshControllerPromise, BeginPromise, StepPromise};

use crate::Changed;
use crate::in_place::{load_in_place, update_in_place};
use planner::{Answer, Jobs, Plan, records};

// A controller: its plan, and what the last change of it answered.
#[derive(Clone, Copy)]
pub struct Controller {
    pub plan: Plan,
    pub last: Changed,
}

impl Controller {
    // A controller of a plan without tasks.
    pub fn fresh() -> Controller
        ensures { FreshControllerPromise result }
    {
        Controller {
            plan: Plan::fresh(),
            last: Changed {
                answer: Ok(Answer::Fits),
                row: records::no_record(),
            },
        }
    }
}

// Lends the kept plan to a load, and keeps what it answers.
pub fn begin(controller: Controller, jobs: Jobs, capacity: i32) -> Controller
    requires { Sound controller.plan }
    ensures { BeginPromise controller jobs capacity result }
{
    let mut kept = controller;
    kept.last = Changed::from(load_in_place(&mut kept.plan, jobs, capacity));
    kept
}

// Lends the kept plan to an update, and keeps what it answers.
pub fn step(controller: Controller, id: i32, earliest: i32, latest: i32) -> Controller
    requires { Sound controller.plan }
    ensures { StepPromise controller id earliest latest result }
{
    let mut kept = controller;
    kept.last = update_in_place(&mut kept.plan, id, earliest, latest);
    kept
}
