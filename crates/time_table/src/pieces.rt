// What a row falls into where a part goes through it: rows cut to fewer instants.
ghost use Rattle.std.specs.Prelude.{◌≡◌, option_to_list};
ghost use Rattle.time_table.specs.Rows.{cut};

use crate::Row;

impl Row {
    // The row cut to the instants from `from` up to but without `until`, if there are any.
    #[tactic(auto, unfolding(crate::specs::Rows::cut))]
    pub(crate) fn cut(self, from: u32, until: u32) -> Option<Row>
        ensures { option_to_list result ≡ cut self from until }
    {
        if until <= from {
            return None;
        }
        Some(Row {
            start: from,
            end: until - 1,
            ..self
        })
    }
}
