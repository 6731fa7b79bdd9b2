// First fit: the smallest start within a task's bounds at which its run fits under the capacity,
// beside what a table already holds. One pass over the rows of the table, and none over instants.
#![tactic(auto)]

ghost use Rattle.std.specs.Prelude.{◌≡◌, ◌≤◌};
ghost use Rattle.time_table.specs.Rows.{rows_of};
ghost use Rattle.fit.specs.FirstFit.{blocks, answer, first_fit, Askable};

use time_table::{Row, Table};

// What a task asks with: the bounds of its start, both in it, how many instants it runs and what it
// draws at each.
// Stays as it is: these are the numbers of a task of `sweep`, which this crate does not know.
#[derive(Clone, Copy)]
pub struct Asked {
    pub earliest: u32,
    pub latest: u32,
    pub run: u32,
    pub usage: u32,
}

// Whether a row is too high for the task that asks.
fn blocks(row: Row, asked: Asked, capacity: u32) -> bool
    requires { asked.usage ≤ capacity }
    ensures { result ≡ blocks asked capacity row }
{
    capacity - asked.usage < row.height
}

// The answer from where the candidate comes to rest: none, if that is past the bounds.
#[tactic(auto, unfolding(crate::specs::FirstFit::answer))]
fn answer(asked: Asked, start: u32) -> Option<u32>
    ensures { result ≡ answer asked start }
{
    (start <= asked.latest).then_some(start)
}

// The smallest start within the bounds at which the run fits, or none. A row that does not block is
// passed over; one that blocks moves the candidate behind itself, unless the row ends before it. The
// pass ends early where a row blocks and the candidate is past the bounds, or the row starts behind the
// run from it.
pub fn first_fit(table: &Table, asked: Asked, capacity: u32) -> Option<u32>
    requires { Askable table.now asked }
    ensures { result ≡ first_fit asked capacity (rows_of table.now) }
{
    if capacity < asked.usage {
        return None;
    }
    let mut start = asked.earliest;
    for row in &table.rows[..table.count] {
        if blocks(*row, asked, capacity) {
            if asked.latest < start || start + asked.run <= row.start {
                return answer(asked, start);
            }
            start = start.max(row.end + 1);
        }
    }
    answer(asked, start)
}
