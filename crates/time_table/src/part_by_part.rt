// One step of an update, row by row: what a part that is taken out or put in makes of a row. It has the
// bodies of two loops of the Rust over the overlapping rows, that of insertion.rs
// (conflicting_after_insertion_of_overlapping_mandatory) and that of removal.rs
// (reduce_profiles_overlapping_with_added_mandatory_part). The loop is `Rewriting::walk`.
ghost use Rattle.std.specs.Prelude.{◌≡◌, ◌+◌, ◌<◌, ◌^◌, option_to_list};
ghost use Rattle.time_table.specs.PartByPart.{part_of, gap_of, covered_of, behind, made_last, untouched, Changeable};

use crate::time_table_util::has_overlap_with_interval;
use crate::{Part, Row, checks, removal};

// A part to take out of the rows, or what is left of a part to put into them.
#[derive(Clone, Copy)]
pub enum Step {
    Remove(Part),
    Add(Part),
}

impl Step {
    // The step's part.
    pub(crate) fn part(self) -> Part
        ensures { result ≡ part_of self }
    {
        match self {
            Step::Remove(part) => part,
            Step::Add(part) => part,
        }
    }

    // Whether a row, which does not end before the part, stays as it is with all that follow.
    pub(crate) fn is_untouched(self, profile: Row) -> bool
        ensures { result ≡ untouched self profile }
    {
        match self {
            Step::Remove(part) => !has_overlap_with_interval(
                part.from,
                part.until,
                profile.start,
                profile.end,
            ),
            Step::Add(part) => part.until <= part.from,
        }
    }

    // What of a part that is put in lies before a row.
    pub(crate) fn gap(self, profile: Row) -> Option<Row>
        ensures { option_to_list result ≡ gap_of self profile }
    {
        match self {
            Step::Remove(_) => None,
            Step::Add(part) => checks::new_profile_before_profile(part, profile),
        }
    }

    // The covered piece of a row, without the task or with it.
    pub(crate) fn covered(self, profile: Row) -> Option<Row>
        requires { Changeable self profile }
        ensures { option_to_list result ≡ covered_of self profile }
    {
        match self {
            Step::Remove(part) => removal::overlap_updated_profile(part, profile),
            Step::Add(part) => checks::overlap_updated_profile(part, profile),
        }
    }

    // The step behind a row: of a part that is put in what is left.
    // Stays as it is: `Row` does not promise that its end is no last number. Its type would then ask more of
    // those who build rows in other crates.
    pub(crate) fn behind(self, profile: Row) -> Step
        requires { profile.end + 1 < 2 ^ 32 }
        ensures { result ≡ behind self profile }
    {
        match self {
            Step::Remove(part) => Step::Remove(part),
            Step::Add(part) => Step::Add(Part {
                from: part.from.max(part.until.min(profile.end + 1)),
                ..part
            }),
        }
    }

    // What a step lays behind the last row (the Rust's new_part_after_last_profile).
    pub(crate) fn last_profile(self) -> Option<Row>
        ensures { option_to_list result ≡ made_last self }
    {
        match self {
            Step::Remove(_) => None,
            Step::Add(part) => checks::new_profile(part).cut(part.from, part.until),
        }
    }
}
