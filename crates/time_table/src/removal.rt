// A part taken out of the rows that list its task (the Rust's removal.rs). The Rust's
// split_first_profile and split_last_profile are the two splits of checks.rt.
ghost use Rattle.std.specs.Prelude.{◌≡◌, ◌≤◌, ◌<◌, ◌==◌, option_to_list};
ghost use Rattle.std.specs.List.{position as first_place};
ghost use Rattle.time_table.specs.Rows.{tasks, Listed};
ghost use Rattle.time_table.specs.Removal.{position, without, lessened, Removable};

use crate::{Part, Row};

// The place of a task in a list, if the list has it.
fn position(tasks: &[u8], id: u8) -> Option<usize>
    ensures { result ≡ first_place (λ x. x == id) tasks.now }
{
    tasks.iter().position(|task| *task == id)
}

// The row without one of its tasks. The last of the list takes its place.
pub(crate) fn remove_task_from_profile(profile: Row, part: Part) -> Row
    requires listed { Listed profile }
    requires profile_bound { (position part.id (tasks profile) < profile.count) × (part.usage ≤ profile.height) }
    ensures { result ≡ without profile part.id part.usage }
{
    let count = profile.count as usize;
    let at = position(&profile.ids[..count], part.id).unwrap();
    let mut row = profile;
    let last = count - 1;
    let moved = row.ids[last];
    row.ids[at] = moved;
    row.ids[last] = 0;
    row.count -= 1;
    row.height -= part.usage;
    row
}

// The covered piece of the row, without the task; none where no height is left.
// Stays as it is, beside that of checks.rt: the two share two lines, and one function with a closure for the rest
// would be longer than both.
pub(crate) fn overlap_updated_profile(part: Part, profile: Row) -> Option<Row>
    requires { Removable part profile }
    ensures { option_to_list result ≡ lessened part profile }
{
    if profile.height == part.usage {
        return None;
    }
    let lower = part.from.max(profile.start);
    let upper = part.until.min(profile.end + 1);
    if upper <= lower {
        return None;
    }
    remove_task_from_profile(profile, part).cut(lower, upper)
}
