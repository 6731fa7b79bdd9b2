// The time-table of mandatory parts: rows of instants, the tasks that must run there and the sum of
// their draws, and how a part of a task is put into the rows and taken out of them.
//
// A port of Pumpkin's over-interval time-table; the modules have the names of the files that they
// follow, but for `part_by_part`, `pieces` and `rewriting`. Instants are ticks, so that no number can
// stand for "none" (docs/DECISIONS.md).
#![tactic(auto)]

pub mod checks;
pub mod mandatory_part_adjustments;
mod part_by_part;
mod pieces;
pub mod removal;
mod rewriting;
pub mod time_table_over_interval_incremental;
pub mod time_table_util;

ghost use Rattle.std.specs.Prelude.{◌≡◌, []};
ghost use Rattle.time_table.specs.Rows.{empty_row, table_of};

// A part of a task: the instants from `from` up to but without `until`.
#[derive(Clone, Copy)]
pub struct Part {
    pub from: u32,
    pub until: u32,
    pub id: u8,
    pub usage: u32,
}

// A row (the Rust's ResourceProfile): the instants from `start` to `end`, both in it, the tasks that
// must run there, in `ids` up to `count`, and the sum of their usages. Unused places are 0.
// Stays as it is: a list in an array with a count is the form that docs/SCOPE.md names, in fixed memory.
// That `ids` is such a list (`Listed`) is asked where it is used: whoever builds a row is asked nothing.
#[derive(Clone, Copy)]
pub struct Row {
    pub start: u32,
    pub end: u32,
    pub height: u32,
    pub ids: [u8; Row::IDS],
    pub count: u32,
}

// The rows of a time-table, in `rows` up to `count`. From there on they are the empty row.
// Stays as it is: 128 rows and a count are the form that docs/SCOPE.md names, in fixed memory.
#[derive(Clone, Copy)]
pub struct Table {
    pub rows: [Row; Table::ROWS],
    pub count: usize,
}

// Some one part of an update would leave over 128 rows. The caller's table is as it was.
#[derive(Clone, Copy, Debug, PartialEq, Eq)]
pub struct TooManyRows;

impl Row {
    // How many ids a row has room for.
    pub const IDS: usize = 32;

    // The row of no instant, no task and no height.
    pub fn empty() -> Row
        ensures { result ≡ empty_row }
    {
        Row {
            start: 0,
            end: 0,
            height: 0,
            ids: [0u8; Row::IDS],
            count: 0,
        }
    }
}

impl Table {
    // How many rows a table has room for.
    pub const ROWS: usize = 128;

    // The table without a row.
    pub fn empty() -> Table
        ensures { result ≡ table_of [] }
    {
        let empty = Row::empty();
        Table {
            rows: [empty; Table::ROWS],
            count: 0,
        }
    }
}
