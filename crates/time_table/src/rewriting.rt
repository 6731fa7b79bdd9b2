// The rows of a table while steps go through them, one after another: each writes what becomes of the
// rows over the rows themselves.
ghost use Rattle.std.specs.Prelude.{◌≡◌, ◌++◌, [], ◌+◌, ◌≤◌, ◌<◌, max, length, option_to_list, MatchResult, MatchOption, ◌∷◌};
ghost use Rattle.time_table.specs.Rows.{rows_of, Clean, table_of};
ghost use Rattle.time_table.specs.Order.{Ordered, Each, ticks};
ghost use Rattle.time_table.specs.PartByPart.{part_of, pieces_of, made_last, stepped, Changeable, CanStep};
ghost use Rattle.time_table.specs.Rewriting.{Ended, IsCleared, Lays, NoPlace, Starts, Walks, Applied};

use crate::part_by_part::Step;
use crate::{Row, Table, TooManyRows, checks};
use std::marker::Model;

// Rows that are written over in their place:
//
//     0 .. write     what is written
//     write .. read  free places
//     read .. count  the rows that are not read yet
//
// Where no place is free, the rows that are not read yet move up. In a full table they cannot: there the
// next row is taken in hand, and what is written takes its place. All steps of an update go through one
// such struct, and between two of them it is cleared (`IsCleared`).
// Stays as it is: `IsCleared` is asked by three functions and is no type of its own, since to make one
// struct of another copies the table (tried: with a table made anew at the end an update copied five
// tables, and three without).
#[derive(Drop)]
pub(crate) struct Rewriting {
    table: Table,
    write: usize,
    read: usize,
    in_hand: Option<Row>,
}

// Clauses see the rows that are written, and those that are not read yet.
impl Model for Rewriting {
    ghost use Rattle.time_table.specs.Rewriting.{Rewritten, rewritten, Ranged};

    ghost Value = { Rewritten };

    ghost view = { λ r. rewritten r.table.rows r.write r.read r.table.count r.in_hand };

    ghost invariant = { λ r. Ranged r.table.rows r.write r.read r.table.count r.in_hand };
}

// How many of the rows, which are in order, end before an instant.
fn ended(rows: &[Row], instant: u32) -> usize
    requires { Ordered ticks 0 rows.now }
    ensures { Ended rows.now instant result }
{
    rows.partition_point(|row| row.end < instant)
}

impl Rewriting {
    // By how many places rows that are in the way move up, if there are as many.
    const ROOM: usize = 4;

    // The rows of a table, through which no step has gone yet.
    pub(crate) fn of(table: Table) -> Rewriting
        requires { Clean table }
        ensures written { result.written ≡ rows_of table }
        ensures cleared { IsCleared result }
    {
        Rewriting {
            table,
            write: table.count,
            read: table.count,
            in_hand: None,
        }
    }

    // The table of the rows that are written, behind which nothing is left.
    pub(crate) fn table(self) -> Table
        requires { IsCleared self }
        ensures { result ≡ table_of self.written }
    {
        self.table
    }

    // Starts over with what is written, behind the rows that end before an instant.
    fn start_over(&mut self, instant: u32)
        requires cleared { IsCleared self.old }
        requires ordered { Ordered ticks 0 self.old.written }
        ensures { Starts self.old.written instant self.new }
    {
        let skipped = ended(&self.table.rows[..self.table.count], instant);
        self.write = skipped;
        self.read = skipped;
    }

    // Clears the places behind what is written.
    fn clear(&mut self)
        requires { self.old.unread ≡ [] }
        ensures written { self.new.written ≡ self.old.written }
        ensures cleared { IsCleared self.new }
        ensures few { length self.old.written ≤ 128 }
    {
        self.table.rows[self.write..self.table.count].fill(Row::empty());
        self.table.count = self.write;
        self.read = self.write;
    }

    // The next row, if one is left.
    fn next(&mut self) -> Option<Row>
        ensures written { self.new.written ≡ self.old.written }
        ensures unread { MatchOption result ((self.old.unread ≡ []) × (self.new.unread ≡ [])) (λ row. self.old.unread ≡ row ∷ self.new.unread) }
        ensures few { length self.old.written + length self.old.unread ≤ 129 }
    {
        if let Some(row) = self.in_hand {
            self.in_hand = None;
            return Some(row);
        }
        if self.table.count <= self.read {
            return None;
        }
        let row = self.table.rows[self.read];
        self.read += 1;
        Some(row)
    }

    // Writes a row behind those that are written.
    fn lay(&mut self, row: Row) -> Result<(), TooManyRows>
        ensures { MatchResult result (λ _. Lays self.old (row ∷ []) self.new) (λ _. NoPlace self.old 1) }
    {
        if self.write == self.read {
            let places = (Table::ROWS - self.table.count).min(Rewriting::ROOM);
            if 0 < places {
                self.table
                    .rows
                    .copy_within(self.read..self.table.count, self.read + places);
                self.read += places;
                self.table.count += places;
            } else if self.read < self.table.count && self.in_hand.is_none() {
                self.in_hand = Some(self.table.rows[self.read]);
                self.read += 1;
            } else {
                return Err(TooManyRows);
            }
        }
        self.table.rows[self.write] = row;
        self.write += 1;
        Ok(())
    }

    // Writes a piece of a row, if there is one.
    fn lay_piece(&mut self, piece: Option<Row>) -> Result<(), TooManyRows>
        ensures { MatchResult result (λ _. Lays self.old (option_to_list piece) self.new) (λ _. NoPlace self.old (length (option_to_list piece))) }
    {
        match piece {
            Some(row) => self.lay(row),
            None => Ok(()),
        }
    }

    // Writes the pieces that a step makes of a row.
    fn lay_pieces(&mut self, step: Step, row: Row) -> Result<(), TooManyRows>
        requires { Changeable step row }
        ensures { MatchResult result (λ _. Lays self.old (pieces_of step row) self.new) (λ _. NoPlace self.old (length (pieces_of step row))) }
    {
        let part = step.part();
        self.lay_piece(step.gap(row))?;
        self.lay_piece(checks::split_profile_added_part_starts_after_profile_start(part, row))?;
        self.lay_piece(step.covered(row))?;
        self.lay_piece(checks::split_profile_added_part_ends_before_profile_end(part, row))
    }

    // Writes the rows that are left as they are.
    fn lay_rest(&mut self) -> Result<(), TooManyRows>
        ensures { MatchResult result
            (λ _. (self.new.written ≡ self.old.written ++ self.old.unread) × (self.new.unread ≡ []))
            (λ _. 128 < length self.old.written + length self.old.unread) }
    {
        if self.in_hand.is_some() {
            return Err(TooManyRows);
        }
        if self.write < self.read {
            self.table
                .rows
                .copy_within(self.read..self.table.count, self.write);
        }
        self.write += self.table.count - self.read;
        self.read = self.table.count;
        Ok(())
    }

    // Goes through the rows, up to one that stays as it is with all that follow; and answers what is left
    // of the step there.
    fn walk(&mut self, step: Step) -> Result<Step, TooManyRows>
        requires { Walks step self.old }
        ensures { MatchResult result
            (λ s. self.new.written ++ self.new.unread ++ made_last s ≡ self.old.written ++ stepped step self.old.unread)
            (λ _. 128 < length self.old.written + length (stepped step self.old.unread)) }
    {
        let mut step = step;
        while let Some(row) = self.next() {
            if step.is_untouched(row) {
                self.lay(row)?;
                return Ok(step);
            }
            self.lay_pieces(step, row)?;
            step = step.behind(row);
        }
        Ok(step)
    }

    // Takes the part of a step out of the rows, or puts it into them.
    pub(crate) fn apply(&mut self, step: Step) -> Result<(), TooManyRows>
        requires cleared { IsCleared self.old }
        requires can { CanStep step self.old.written }
        ensures { MatchResult result (λ _. Applied step self.old self.new) (λ _. 128 < length (stepped step self.old.written)) }
    {
        let part = step.part();
        self.start_over(part.from);
        let left = self.walk(step)?;
        self.lay_rest()?;
        self.lay_piece(left.last_profile())?;
        self.clear();
        Ok(())
    }
}
