// The pass planner: jobs with signed numbers, limits, numbered refusals, and a plan that is loaded,
// updated and asked. What a caller hands in and gets back is signed; inside all instants are ticks.
#![tactic(auto)]

mod border;
pub mod load;
mod plans;
pub mod questions;
pub mod records;
pub mod sound;
pub mod update;

ghost use Rattle.std.specs.Prelude.{◌≡◌, ◌≤◌, []};
ghost use Rattle.planner.specs.History.{without_places};
ghost use Rattle.planner.specs.Kept.{jobs_with, keeping};
ghost use Rattle.planner.specs.Loads.{with_places};
ghost use Rattle.planner.specs.Questions.{records_of};
ghost use Rattle.planner.specs.Ranges.{last_start};
ghost use Rattle.planner.specs.Records.{ids_of};
ghost use Rattle.planner.specs.Refusals.{number_of};

use sweep::Tasks;
use time_table::{Row, Table};

// A plan: the time-table, the tasks by id, the capacity, and whether the table is live or stale. A
// stale table has no rows.
//
// Here and in what holds a table, a plan or rows, the large field comes first: the compiler makes fewer
// copies of such a struct than of one that starts with a small field.
//
// Stays as it is: that a plan is sound (`Sound`) is a clause, and no `impl Model` says it of the type. A struct that
// holds a value of a type with a model is not copied where it is passed by value and used again (docs/DECISIONS.md).
// The type `sound::Plan`, around a plan, says it.
#[derive(Clone, Copy)]
pub struct Plan {
    pub(crate) table: Table,
    pub(crate) tasks: Tasks,
    pub(crate) capacity: u32,
    pub(crate) live: bool,
}

impl Plan {
    // At most so many jobs in a load.
    pub const JOBS: usize = 32;
    // At most so many rows in a table.
    pub const ROWS: usize = Table::ROWS;
    // Start bounds are from -BOUND to BOUND.
    pub const BOUND: i32 = 1000000000;
    // Durations, usages and capacities are from 0 to these.
    pub const DURATION: i32 = 1000000000;

    pub const USAGE: i32 = 1000000;

    pub const CAPACITY: i32 = 1000000000;
}

// A job as a caller hands it in, checked at the load.
#[derive(Clone, Copy, Default)]
pub struct Job {
    pub earliest: i32,
    pub latest: i32,
    pub duration: i32,
    pub usage: i32,
}

// Start bounds in ticks, as an update hands them on.
#[derive(Clone, Copy)]
pub(crate) struct Bounds {
    pub(crate) earliest: u32,
    pub(crate) latest: u32,
    ghost ordered: { earliest ≤ latest },
    ghost low: { latest ≤ last_start },
}

// The jobs of a load, in `list` up to `count`.
//
// Stays as it is: the count goes to 33, which says that a job too many was kept (`keeping` in specs/Kept.antt;
// `keep_refused`).
#[derive(Clone, Copy)]
pub struct Jobs {
    pub list: [Job; Plan::JOBS],
    pub count: usize,
}

impl Jobs {
    // No jobs.
    pub fn empty() -> Jobs
        ensures { result ≡ jobs_with [] }
    {
        Jobs {
            list: [Job::default(); Plan::JOBS],
            count: 0,
        }
    }

    // The jobs with another behind them. There is room for 32. One more is only counted, so that a load of
    // these jobs is refused, and no job is lost unnoticed.
    pub fn keep(self, job: Job) -> Jobs
        ensures { result ≡ keeping self job }
    {
        let mut more = self;
        let count = more.count;
        if count < Plan::JOBS {
            more.list[count] = job;
            more.count = count + 1;
        } else {
            more.count = Plan::JOBS + 1;
        }
        more
    }
}

// A row as a caller gets it: its instants from `start` to `end`, both in it, its height and its ids.
//
#[derive(Clone, Copy)]
pub struct RowRecord {
    pub start: i32,
    pub end: i32,
    pub height: u32,
    pub ids: [u8; RowRecord::IDS],
    pub count: usize,
}

impl RowRecord {
    // A row lists at most so many ids.
    pub const IDS: usize = Row::IDS;

    // The ids that it lists, in order.
    pub fn ids(&self) -> &[u8]
        requires { self.now.count ≤ 32 }
        ensures { result.now ≡ ids_of self.now }
    {
        &self.ids[..self.count]
    }
}

// Why a call is refused, with its number in docs/SCOPE.md.
#[derive(Clone, Copy, Debug, PartialEq, Eq)]
pub enum Refusal {
    TooManyJobs = 1,
    CapacityOutOfRange = 2,
    BoundOutOfRange = 3,
    BoundsCrossed = 4,
    DurationOutOfRange = 5,
    UsageOutOfRange = 6,
    UnknownTask = 7,
    TooManyRows = 8,
    Stale = 9,
    ShortSlice = 10,
    Unreadable = 11,
}

impl Refusal {
    // The number of a refusal.
    pub fn number(self) -> u32
        ensures { result ≡ number_of self }
    {
        self as u32
    }
}

// The answer of a load or an update that is accepted.
#[derive(Clone, Copy, Debug, PartialEq, Eq)]
pub enum Answer {
    Fits,
    Overloaded,
}

// What an update leads to: the plan afterwards, the answer or why it is refused, and the row that is too
// high, if one is.
//
// Stays as it is: the row stands beside the answer, and not in it, as docs/SCOPE.md has it (Forms).
#[derive(Clone, Copy)]
pub struct Updated {
    pub plan: Plan,
    pub answer: Result<Answer, Refusal>,
    pub row: RowRecord,
}

// What a load leads to: the same, and for each input job its id, or none where it was dropped.
#[derive(Clone, Copy)]
pub struct Loaded {
    pub plan: Plan,
    pub answer: Result<Answer, Refusal>,
    pub row: RowRecord,
    pub placed: [Option<u8>; Plan::JOBS],
}

impl Updated {
    // The same with what became of a load's jobs.
    pub(crate) fn with_places(self, placed: [Option<u8>; Plan::JOBS]) -> Loaded
        ensures { result ≡ with_places placed self }
    {
        Loaded {
            plan: self.plan,
            answer: self.answer,
            row: self.row,
            placed,
        }
    }
}

impl From<Loaded> for Updated {
    ghost from_gives = { λ loaded updated. updated ≡ without_places loaded };

    // A load without what became of its jobs.
    fn from(loaded: Loaded) -> Updated {
        Updated {
            plan: loaded.plan,
            answer: loaded.answer,
            row: loaded.row,
        }
    }
}

// The rows of a live table, in `rows` up to `count`.
//
#[derive(Clone, Copy)]
pub struct Rows {
    pub rows: [RowRecord; Plan::ROWS],
    pub count: usize,
}

impl Rows {
    // The rows, in order.
    pub fn as_slice(&self) -> &[RowRecord]
        requires { self.now.count ≤ 128 }
        ensures { result.now ≡ records_of self.now }
    {
        &self.rows[..self.count]
    }
}
