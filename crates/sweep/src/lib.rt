// From jobs to tasks, and from tasks to the rows of a time-table.
//
// A port of Pumpkin's create_tasks and of its sweep over the starts and ends of mandatory parts; `util` and
// `time_table_over_interval` have the names of the files that they follow. Instants are ticks.
#![tactic(auto)]

mod insertion;
pub mod time_table_over_interval;
pub mod util;

ghost use Rattle.std.specs.Prelude.{◌≡◌, [], ◌<◌, ◌^◌};
ghost use Rattle.sweep.specs.Tasks.{no_task, tasks_with, lasts, run_end, part_of};

use time_table::Part;

// A task: the bounds of its start, how long it runs and what it draws. Its id is its place. One whose
// mandatory part is empty is in no table. The default one has nothing in it, and no mandatory part.
#[derive(Clone, Copy, Default)]
pub struct Task {
    pub earliest: u32,
    pub latest: u32,
    pub duration: u32,
    pub usage: u32,
}

// Tasks or jobs, in `list` up to `count`. Unused places are 0.
// Stays as it is: there is no heap here, so a list is an array with a count, and the definitions of
// `planner` name both. That unused places are 0 stays a clause (`HeldTasks`): two functions ask it, and
// the three that ask `Sweepable` ask more than is so of jobs, which are `Tasks` too.
#[derive(Clone, Copy)]
pub struct Tasks {
    pub list: [Task; Tasks::ROOM],
    pub count: usize,
}

impl Task {
    // The task with nothing in it, which has no mandatory part.
    pub fn empty() -> Task
        ensures { result ≡ no_task }
    {
        Task::default()
    }

    // How many instants a run has.
    pub fn lasts(self) -> u32
        ensures { result ≡ lasts self }
    {
        self.duration
    }

    // The first instant after a run from the earliest start.
    pub fn run_end(self) -> u32
        requires { run_end self < 2 ^ 32 }
        ensures { result ≡ run_end self }
    {
        self.earliest + self.lasts()
    }

    // The instants at which the task runs wherever it starts.
    pub fn mandatory_part(self, id: u8) -> Part
        requires { run_end self < 2 ^ 32 }
        ensures { result ≡ part_of id self }
    {
        Part {
            from: self.latest,
            until: self.run_end(),
            id,
            usage: self.usage,
        }
    }
}

impl Tasks {
    // How many tasks there is room for.
    pub const ROOM: usize = 32;

    // No tasks.
    pub fn empty() -> Tasks
        ensures { result ≡ tasks_with [] }
    {
        Tasks {
            list: [Task::empty(); Tasks::ROOM],
            count: 0,
        }
    }
}
