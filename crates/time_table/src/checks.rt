// The pieces that an insertion makes of a row (the Rust's checks.rs). What of the part lies before the
// row is its first piece, so the Rust's new_profile_before_first_profile and
// new_profile_between_profiles are one check. The Rust's new_part_after_last_profile is
// `Step::last_profile`. Where no row overlaps the part (the Rust's insert_profile_new_mandatory_part),
// the whole part is one such piece.
ghost use Rattle.std.specs.Prelude.{◌≡◌, ◌+◌, ◌<◌, ◌^◌, option_to_list};
ghost use Rattle.time_table.specs.Rows.{room_for_ids, Listed};
ghost use Rattle.time_table.specs.Pieces.{before_part, after_part};
ghost use Rattle.time_table.specs.Insertion.{alone, joined, gap_before, heightened, Insertable};

use crate::{Part, Row};

// A row of the part's task alone, of no instants yet.
pub(crate) fn new_profile(part: Part) -> Row
    ensures { result ≡ alone part }
{
    let mut ids = [0u8; Row::IDS];
    ids[0] = part.id;
    Row {
        start: 0,
        end: 0,
        height: part.usage,
        ids,
        count: 1,
    }
}

// The row with one more task, put last.
// Stays as it is: `Listed` is a clause, here, in removal.rt and in the sweep, and no invariant of `Row`, since a
// row's type would then ask more of those who build rows in other crates.
pub(crate) fn add_task_to_profile(profile: Row, part: Part) -> Row
    requires listed { Listed profile }
    requires count_lt_room_for_ids { (profile.count < room_for_ids) × (profile.height + part.usage < 2 ^ 32) }
    ensures { result ≡ joined profile part.id part.usage }
{
    let mut row = profile;
    let at = row.count as usize;
    row.ids[at] = part.id;
    row.count += 1;
    row.height += part.usage;
    row
}

// The uncovered piece before the row: before the first, or in the gap between two.
pub(crate) fn new_profile_before_profile(part: Part, profile: Row) -> Option<Row>
    ensures { option_to_list result ≡ gap_before part profile }
{
    new_profile(part).cut(part.from, part.until.min(profile.start))
}

// The untouched left piece of the row.
pub(crate) fn split_profile_added_part_starts_after_profile_start(
    part: Part,
    profile: Row,
) -> Option<Row>
    requires { profile.end + 1 < 2 ^ 32 }
    ensures { option_to_list result ≡ before_part part profile }
{
    profile.cut(profile.start, part.from.min(profile.end + 1))
}

// The covered piece of the row, with the task.
pub(crate) fn overlap_updated_profile(part: Part, profile: Row) -> Option<Row>
    requires { Insertable part profile }
    ensures { option_to_list result ≡ heightened part profile }
{
    let lower = part.from.max(profile.start);
    let upper = part.until.min(profile.end + 1);
    if upper <= lower {
        return None;
    }
    add_task_to_profile(profile, part).cut(lower, upper)
}

// The untouched right piece of the row.
pub(crate) fn split_profile_added_part_ends_before_profile_end(
    part: Part,
    profile: Row,
) -> Option<Row>
    requires { profile.end + 1 < 2 ^ 32 }
    ensures { option_to_list result ≡ after_part part profile }
{
    profile.cut(part.until.max(profile.start), profile.end + 1)
}
