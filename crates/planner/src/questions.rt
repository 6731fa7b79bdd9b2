// What a plan is asked: the first fit of a task, and the rows.
ghost use Rattle.std.specs.Prelude.{◌≡◌, ◌<◌, IfOk};
ghost use Rattle.planner.specs.Ranges.{last_end};
ghost use Rattle.planner.specs.Sound.{Sound};
ghost use Rattle.planner.specs.Questions.{fit_of, rows_shown};
ghost use Rattle.planner.specs.Shown.{Shown};

use crate::{Plan, Refusal, Rows, border, records};
use fit::{Asked, first_fit};

impl Plan {
    // The smallest start within a task's bounds at which its run fits beside what the table holds, if
    // there is one.
    pub fn first_fit(&self, id: i32) -> Result<Option<i32>, Refusal>
        requires { Sound self.now }
        ensures { result ≡ fit_of self.now id }
    {
        let place = border::place_of(self.tasks.count, id).ok_or(Refusal::UnknownTask)?;
        if !self.live {
            return Err(Refusal::Stale);
        }
        let task = self.tasks.list[place];
        let asked = Asked {
            earliest: task.earliest,
            latest: task.latest,
            run: task.lasts(),
            usage: task.usage,
        };
        Ok(first_fit(&self.table, asked, self.capacity).map(border::instant_of))
    }

    // The rows of the table, in signed instants.
    pub fn rows(&self) -> Result<Rows, Refusal>
        requires { Sound self.now }
        ensures value { result ≡ rows_shown self.now }
        ensures shown { IfOk result Shown }
    {
        if !self.live {
            return Err(Refusal::Stale);
        }
        let count = self.table.count;
        let mut rows = [records::no_record(); Plan::ROWS];
        for (i, row) in self.table.rows[..count].iter().enumerate() {
            rows[i] = records::record_of(*row);
        }
        Ok(Rows { rows, count })
    }
}
