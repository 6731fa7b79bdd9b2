// The parts of an update applied one by one, and the first row that is too high
// (the Rust's time_table_over_interval_incremental.rs).
ghost use Rattle.std.specs.Prelude.{◌≡◌, nat_lt, MatchResult, Ok, Err};
ghost use Rattle.std.specs.List.{find};
ghost use Rattle.std.specs.Option.{option_copied};
ghost use Rattle.time_table.specs.Rows.{rows_of, Clean};
ghost use Rattle.time_table.specs.Overload.{highest, conflict_in};
ghost use Rattle.time_table.specs.PartByPart.{steps_of};
ghost use Rattle.time_table.specs.Update.{updated, Updatable};

use crate::mandatory_part_adjustments::get_mandatory_part_adjustments;
use crate::part_by_part::Step;
use crate::rewriting::Rewriting;
use crate::{Part, Row, Table, TooManyRows};

// The steps of an update: the removed parts come first, then the added ones.
fn steps(old: Part, new: Part) -> [Option<Step>; 4]
    ensures { result ≡ steps_of old new }
{
    let adjustments = get_mandatory_part_adjustments(old, new);
    let [right_removed, left_removed] = adjustments.removed;
    let [right_added, left_added] = adjustments.added;
    [
        right_removed.map(Step::Remove),
        left_removed.map(Step::Remove),
        right_added.map(Step::Add),
        left_added.map(Step::Add),
    ]
}

// Turns the table of a task's old mandatory part into that of its new one: first the removed parts are
// applied, then the added ones. It fails where some one part would leave over 128 rows, and the table then
// stays as it was.
pub fn update_time_table(table: &mut Table, old: Part, new: Part) -> Result<(), TooManyRows>
    requires { Updatable old new table.old }
    ensures { MatchResult result (λ _. updated old new table.old ≡ Ok table.new) (λ why. (updated old new table.old ≡ Err why) × (table.new ≡ table.old)) }
{
    let mut rewriting = Rewriting::of(*table);
    for step in steps(old, new) {
        if let Some(step) = step {
            rewriting.apply(step)?;
        }
    }
    *table = rewriting.table();
    Ok(())
}

// The greatest height of the rows.
pub(crate) fn highest(rows: &[Row]) -> u32
    ensures { result ≡ highest rows.now }
{
    rows.iter()
        .fold(0, |highest: u32, row| highest.max(row.height))
}

// The first of the rows that is higher than the capacity.
fn first_higher(rows: &[Row], capacity: u32) -> Option<&Row>
    ensures { option_copied result ≡ find (λ r. nat_lt capacity r.height) rows.now }
{
    rows.iter().find(|row| capacity < row.height)
}

// The first row of a table that is higher than the capacity. Rows are searched only if the greatest height
// exceeds the capacity: to look for the greatest is faster.
pub fn find_conflicting_profile(table: &Table, capacity: u32) -> Option<Row>
    requires { Clean table.now }
    ensures { result ≡ conflict_in capacity (rows_of table.now) }
{
    let rows = &table.rows[..table.count];
    if capacity < highest(rows) {
        return first_higher(rows, capacity).copied();
    }
    None
}
