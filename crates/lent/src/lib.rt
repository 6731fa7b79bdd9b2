// The lent forms of the planner: a plan that its keeper lends to be changed, and rows that are copied
// to a lent slice.
#![tactic(auto)]

pub mod controller;
pub mod in_place;
pub mod rows;
pub mod sound;

ghost use Rattle.std.specs.Prelude.{◌≡◌};

use planner::{Answer, Plan, Refusal, RowRecord};

// What a change of a lent plan answers: the answer or why it is refused, and the row that is too high,
// if one is.
// Stays as it is: the row stands beside the answer, and not in it, as docs/SCOPE.md has it (Forms).
#[derive(Clone, Copy)]
pub struct Changed {
    pub answer: Result<Answer, Refusal>,
    pub row: RowRecord,
}

// What a load of a lent plan answers: the same, and for each input job its id, or none where it was
// dropped.
// Stays as it is: as `Changed` does.
#[derive(Clone, Copy)]
pub struct Placing {
    pub answer: Result<Answer, Refusal>,
    pub row: RowRecord,
    pub placed: [Option<u8>; Plan::JOBS],
}

impl From<Placing> for Changed {
    ghost use Rattle.lent.specs.Changes.{told};

    ghost from_gives = { λ placing changed. changed ≡ told placing };

    // What a load answers without what became of its jobs.
    fn from(placing: Placing) -> Changed {
        Changed {
            answer: placing.answer,
            row: placing.row,
        }
    }
}
