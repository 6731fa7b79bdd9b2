// The fresh plan, and the plan of tasks that are swept.
ghost use Rattle.std.specs.Prelude.{◌≡◌, ◌≤◌};
ghost use Rattle.sweep.specs.Tasks.{tasks_of};
ghost use Rattle.planner.specs.Ranges.{max_capacity};
ghost use Rattle.planner.specs.Sound.{SoundTasks, Sound};
ghost use Rattle.planner.specs.Answers.{fresh_plan, swept_plan};

use crate::{Answer, Plan, Updated, records};
use sweep::Tasks;
use sweep::time_table_over_interval::create_time_table_over_interval_from_scratch;
use time_table::Table;

impl Plan {
    // A plan without tasks.
    pub fn fresh() -> Plan
        ensures value { result ≡ fresh_plan }
        ensures sound { Sound result }
    {
        Plan {
            table: Table::empty(),
            tasks: Tasks::empty(),
            capacity: 0,
            live: true,
        }
    }
}

// The answer and the plan where these tasks are swept.
pub(crate) fn swept_plan(capacity: u32, tasks: Tasks) -> Updated
    requires { SoundTasks tasks × (capacity ≤ max_capacity) }
    ensures value { result ≡ swept_plan capacity (tasks_of tasks) }
    ensures sound { Sound result.plan }
{
    match create_time_table_over_interval_from_scratch(tasks, capacity) {
        Ok(table) => Updated {
            plan: Plan {
                table,
                tasks,
                capacity,
                live: true,
            },
            answer: Ok(Answer::Fits),
            row: records::no_record(),
        },
        Err(row) => Updated {
            plan: Plan {
                table: Table::empty(),
                tasks,
                capacity,
                live: false,
            },
            answer: Ok(Answer::Overloaded),
            row: records::record_of(row),
        },
    }
}
