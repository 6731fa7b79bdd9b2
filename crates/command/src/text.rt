// The text of answers, written one behind the other into a lent slice.
ghost use Rattle.std.specs.Prelude.{◌≡◌, [], ◌∷◌, ◌+◌, ◌*◌, ◌≤◌, length, All, IfOk};
ghost use Rattle.planner.specs.Shown.{HeldIds, Shown};
ghost use Rattle.command.specs.Decimal.{decimal, signed_text};
ghost use Rattle.command.specs.Text.{spaced, letter_text, number_text, refusal_text, stretch_text, overload_text, answer_text, fit_text, ids_text, row_text, rows_text, table_text, line_room, stretch_room, id_room, row_room, longest};

use itoa::write_digits;
use planner::{Answer, Plan, Refusal, RowRecord, Rows};

// The bytes that an answer takes at most: all rows, of 400 bytes each, and the line behind them.
pub(crate) const LONGEST: usize = Plan::ROWS * 400 + 100;

// A lent slice that is written from its front on, and how many of its bytes are written.
// Stays as it is: methods put the bytes. `write!` promises them only where it answers `Ok`, and never says when it
// does.
#[derive(Drop)]
pub(crate) struct Writer<'a> {
    pub(crate) out: &'a mut [u8],
    pub(crate) len: usize,
}

impl<'a> Writer<'a> {
    ghost use Rattle.command.specs.Written.{Room, Written};

    // Nothing is written yet.
    pub(crate) fn new(out: &'a mut [u8]) -> Writer<'a>
        ensures same_slice { result.out.ghost_name ≡ out.entry.ghost_name }
        ensures unchanged { result.out.now ≡ out.old }
        ensures empty { result.len ≡ 0 }
    {
        Writer { out, len: 0 }
    }

    // One byte.
    fn put_byte(&mut self, byte: u8)
        requires { Room self.old 1 }
        ensures { Written self.old (byte ∷ []) self.new }
    {
        self.out[self.len] = byte;
        self.len += 1;
    }

    // A number in decimal digits.
    fn put_digits(&mut self, n: u64)
        requires { Room self.old (length (decimal n)) }
        ensures { Written self.old (decimal n) self.new }
    {
        let end = self.len + n.max(1).ilog10() as usize + 1;
        write_digits(n, self.out, end);
        self.len = end;
    }

    // A number, with a minus where it is negative.
    fn put_number(&mut self, n: i64)
        requires { Room self.old (length (signed_text n)) }
        ensures { Written self.old (signed_text n) self.new }
    {
        if n < 0 {
            self.put_byte(b'-');
        }
        self.put_digits(n.unsigned_abs());
    }

    // A space and a number.
    fn put_next(&mut self, n: i64)
        requires { Room self.old (length (spaced (signed_text n))) }
        ensures { Written self.old (spaced (signed_text n)) self.new }
    {
        self.put_byte(b' ');
        self.put_number(n);
    }

    // A letter alone in its line.
    fn put_letter(&mut self, letter: u8)
        requires { Room self.old line_room }
        ensures { Written self.old (letter_text letter) self.new }
    {
        self.put_byte(letter);
        self.put_byte(b'\n');
    }

    // A letter and a number.
    fn put_count(&mut self, letter: u8, n: i64)
        requires { Room self.old line_room }
        ensures { Written self.old (number_text letter n) self.new }
    {
        self.put_byte(letter);
        self.put_next(n);
        self.put_byte(b'\n');
    }

    // `R` and the number of a refusal.
    #[tactic(auto, unfolding(crate::specs::Text::refusal_text, crate::specs::Text::count_text, crate::specs::Decimal::signed_text))]
    pub(crate) fn put_refusal(&mut self, why: Refusal)
        requires { Room self.old line_room }
        ensures { Written self.old (refusal_text why) self.new }
    {
        self.put_count(b'R', i64::from(why.number()));
    }

    // The start, the end and the height of a row.
    fn put_stretch(&mut self, row: &RowRecord)
        requires { Room self.old stretch_room }
        ensures written { Written self.old (stretch_text row.now) self.new }
        ensures upper_bound { self.new.len ≤ self.old.len + stretch_room }
    {
        self.put_number(i64::from(row.start));
        self.put_next(i64::from(row.end));
        self.put_next(i64::from(row.height));
    }

    // `O` with start, end and height.
    fn put_overload(&mut self, row: &RowRecord)
        requires { Room self.old line_room }
        ensures { Written self.old (overload_text row.now) self.new }
    {
        self.put_byte(b'O');
        self.put_byte(b' ');
        self.put_stretch(row);
        self.put_byte(b'\n');
    }

    // The answer of a load or an update.
    #[tactic(auto, unfolding(crate::specs::Text::answer_text))]
    pub(crate) fn put_answer(&mut self, answer: Result<Answer, Refusal>, row: RowRecord)
        requires { Room self.old line_room }
        ensures { Written self.old (answer_text answer row) self.new }
    {
        match answer {
            Ok(Answer::Fits) => self.put_letter(b'F'),
            Ok(Answer::Overloaded) => self.put_overload(&row),
            Err(why) => self.put_refusal(why),
        }
    }

    // The answer of a question for the first fit.
    #[tactic(auto, unfolding(crate::specs::Text::fit_text, crate::specs::Text::start_text))]
    pub(crate) fn put_fit(&mut self, fit: Result<Option<i32>, Refusal>)
        requires { Room self.old line_room }
        ensures { Written self.old (fit_text fit) self.new }
    {
        match fit {
            Ok(Some(start)) => self.put_count(b'S', i64::from(start)),
            Ok(None) => self.put_letter(b'N'),
            Err(why) => self.put_refusal(why),
        }
    }

    // The ids of a row, each after a space.
    fn put_ids(&mut self, ids: &[u8])
        requires room { Room self.old (length ids.now * id_room) }
        ensures written { Written self.old (ids_text ids.now) self.new }
        ensures upper_bound { self.new.len ≤ self.old.len + length ids.now * id_room }
    {
        for id in ids {
            self.put_next(i64::from(*id));
        }
    }

    // A row: start, end, height and the ids in list order.
    fn put_row(&mut self, row: &RowRecord)
        requires held_ids { HeldIds row.now }
        requires room { Room self.old row_room }
        ensures written { Written self.old (row_text row.now) self.new }
        ensures upper_bound { self.new.len ≤ self.old.len + row_room }
    {
        self.put_stretch(row);
        self.put_ids(row.ids());
        self.put_byte(b'\n');
    }

    // Each of the rows in its line.
    fn put_rows(&mut self, rows: &[RowRecord])
        requires held_ids { All HeldIds rows.now }
        requires room { Room self.old (length rows.now * row_room) }
        ensures written { Written self.old (rows_text rows.now) self.new }
        ensures upper_bound { self.new.len ≤ self.old.len + length rows.now * row_room }
    {
        for row in rows {
            self.put_row(row);
        }
    }

    // The answer of a question for the rows: the rows, then `E` and their count; or a refusal.
    pub(crate) fn put_table(&mut self, shown: Result<Rows, Refusal>)
        requires shown { IfOk shown Shown }
        requires room { Room self.old longest }
        ensures { Written self.old (table_text shown) self.new }
    {
        match shown {
            Ok(rows) => {
                self.put_rows(rows.as_slice());
                self.put_count(b'E', rows.count as i64);
            }
            Err(why) => self.put_refusal(why),
        }
    }
}
