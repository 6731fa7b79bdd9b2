// Rows as a caller gets them.
ghost use Rattle.std.specs.Prelude.{◌≡◌, ◌<◌};
ghost use Rattle.planner.specs.Ranges.{last_end};
ghost use Rattle.planner.specs.Records.{record_of, no_record};

use crate::{RowRecord, border};
use time_table::Row;

// The record of nothing.
pub fn no_record() -> RowRecord
    ensures { result ≡ no_record }
{
    RowRecord {
        start: 0,
        end: 0,
        height: 0,
        ids: [0u8; RowRecord::IDS],
        count: 0,
    }
}

// A row with its instants in place of its ticks.
pub(crate) fn record_of(row: Row) -> RowRecord
    requires { (row.start < last_end) × (row.end < last_end) }
    ensures { result ≡ record_of row }
{
    let ids = row.ids;
    RowRecord {
        start: border::instant_of(row.start),
        end: border::instant_of(row.end),
        height: row.height,
        ids,
        count: row.count as usize,
    }
}
