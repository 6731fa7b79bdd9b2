// A plan that is sound by its type, so that its keeper needs no clause. Questions are asked of it. A load or an
// update is made of its field `plan`; what comes back is put into a new one: `Plan { plan: loaded.plan }`.
ghost use Rattle.std.specs.Prelude.{◌≡◌, IfOk};
ghost use Rattle.planner.specs.Sound.{Sound};
ghost use Rattle.planner.specs.OneProof.{sound_prop};
ghost use Rattle.planner.specs.Questions.{fit_of, rows_shown};
ghost use Rattle.planner.specs.Shown.{Shown};

use crate::{Refusal, Rows};

// A sound plan; this crate hands out no other. It has the name of the plan that it holds, in a module of its own.
#[derive(Clone, Copy)]
pub struct Plan {
    pub plan: crate::Plan,
    pub ghost sound: { Sound plan } by { sound_prop plan },
}

impl Plan {
    // The smallest start within a task's bounds at which its run fits beside what the table holds, if
    // there is one.
    pub fn first_fit(&self, id: i32) -> Result<Option<i32>, Refusal>
        ensures { result ≡ fit_of self.now.plan id }
    {
        self.plan.first_fit(id)
    }

    // The rows of the table, in signed instants.
    pub fn rows(&self) -> Result<Rows, Refusal>
        ensures value { result ≡ rows_shown self.now.plan }
        ensures shown { IfOk result Shown }
    {
        self.plan.rows()
    }
}
