// What an update takes out of the time-table and puts into it
// (the Rust's mandatory_part_adjustments.rs).
ghost use Rattle.std.specs.Prelude.{◌≡◌};
ghost use Rattle.time_table.specs.Adjustments.{cut_part, apart, ends_of, adjustments};

use crate::Part;

// The parts that an update takes out of the time-table, and those that it then puts in: of each the
// one at the right end and the one at the left end, where there are such.
#[derive(Clone, Copy)]
pub struct MandatoryPartAdjustments {
    pub removed: [Option<Part>; 2],
    pub added: [Option<Part>; 2],
}

impl Part {
    // The part cut to the instants from `from` up to but without `until`, if there are any.
    pub(crate) fn cut(self, from: u32, until: u32) -> Option<Part>
        ensures { result ≡ cut_part self from until }
    {
        if until <= from {
            return None;
        }
        Some(Part {
            from,
            until,
            ..self
        })
    }
}

// Whether the other part is empty, or the two are disjoint or merely touch.
#[tactic(auto, unfolding(crate::specs::Adjustments::apart))]
pub(crate) fn apart(part: Part, other: Part) -> bool
    ensures { result ≡ apart part other }
{
    other.until <= other.from || part.until <= other.from || other.until <= part.from
}

// Where one part lies and another does not: all of it where they are apart, and else first at its
// right end and then at its left.
pub(crate) fn difference(part: Part, other: Part) -> [Option<Part>; 2]
    ensures { result ≡ ends_of part other }
{
    if apart(part, other) {
        return [part.cut(part.from, part.until), None];
    }
    if part.until <= part.from {
        return [None, None];
    }
    [
        part.cut(other.until, part.until),
        part.cut(part.from, other.from),
    ]
}

// From the old and the new mandatory part of a task, the parts to remove and the parts to add.
pub fn get_mandatory_part_adjustments(old: Part, new: Part) -> MandatoryPartAdjustments
    ensures { result ≡ adjustments old new }
{
    MandatoryPartAdjustments {
        removed: difference(old, new),
        added: difference(new, old),
    }
}
