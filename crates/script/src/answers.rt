// From answers to numbers, written behind one another into the lent slice as far as there is room.
ghost use Rattle.std.specs.Prelude.{◌≡◌, [], ◌∷◌, ◌≤◌, IfOk};
ghost use Rattle.planner.specs.Shown.{Shown};
ghost use Rattle.script.specs.AnswerNumbers.{capped, refusal_numbers, row_numbers, rows_numbers, answer_numbers, fit_numbers};

use planner::{Answer, Refusal, RowRecord, Rows};

// The kinds of answers.
// Stays as it is: the C interface (library/pass_planner.h) has these numbers.
const FITS: i32 = 0;

const OVERLOADED: i32 = 1;

const REFUSED: i32 = 2;

const START: i32 = 3;

const NOWHERE: i32 = 4;

const TABLE: i32 = 5;

// An amount as an i32; 2147483647 stands for anything greater.
#[tactic(auto, using(std::proofs::lemmas::Int::ints), unfolding(crate::specs::AnswerNumbers::capped))]
fn signed(amount: u64) -> i32
    ensures { result ≡ capped amount }
{
    i32::try_from(amount).unwrap_or(i32::MAX)
}

// A lent slice that is written from its front on, and how many of its places are written.
// Stays as it is: a slice with a count, since the memory is the caller's and there is no heap. The writer of
// `command` is another, since what it is given has to fit, and here the rest is cut off.
#[derive(Drop)]
pub(crate) struct Writer<'a> {
    pub(crate) out: &'a mut [i32],
    pub(crate) len: usize,
}

impl<'a> Writer<'a> {
    ghost use Rattle.script.specs.Written.{Written};

    // Nothing is written yet.
    pub(crate) fn new(out: &'a mut [i32]) -> Writer<'a>
        ensures same_slice { result.out.ghost_name ≡ out.entry.ghost_name }
        ensures unchanged { result.out.now ≡ out.old }
        ensures empty { result.len ≡ 0 }
    {
        Writer { out, len: 0 }
    }

    // One number, if there is room.
    #[tactic(auto, using(crate::proofs::Pages::put_room, crate::proofs::Pages::put_full), unfolding(crate::specs::Pages::puts))]
    fn put(&mut self, number: i32)
        ensures { Written self.old (number ∷ []) self.new }
    {
        if self.len < self.out.len() {
            self.out[self.len] = number;
            self.len += 1;
        }
    }

    // Numbers, one behind another.
    fn put_all(&mut self, numbers: &[i32])
        ensures { Written self.old numbers.now self.new }
    {
        for number in numbers {
            self.put(*number);
        }
    }

    // A refusal.
    pub(crate) fn put_refusal(&mut self, why: Refusal)
        ensures { Written self.old (refusal_numbers why) self.new }
    {
        self.put_all(&[REFUSED, why.number() as i32]);
    }

    // The answer of a load or an update.
    pub(crate) fn put_answer(&mut self, answer: Result<Answer, Refusal>, row: RowRecord)
        ensures { Written self.old (answer_numbers answer row) self.new }
    {
        match answer {
            Ok(Answer::Fits) => self.put(FITS),
            Ok(Answer::Overloaded) => {
                self.put_all(&[
                    OVERLOADED,
                    row.start,
                    row.end,
                    signed(u64::from(row.height)),
                ]);
            }
            Err(why) => self.put_refusal(why),
        }
    }

    // The answer of a question for the first fit.
    pub(crate) fn put_fit(&mut self, fit: Result<Option<i32>, Refusal>)
        ensures { Written self.old (fit_numbers fit) self.new }
    {
        match fit {
            Ok(Some(start)) => self.put_all(&[START, start]),
            Ok(None) => self.put(NOWHERE),
            Err(why) => self.put_refusal(why),
        }
    }

    // A row.
    fn put_row(&mut self, row: &RowRecord)
        requires { row.now.count ≤ 32 }
        ensures { Written self.old (row_numbers row.now) self.new }
    {
        let height = signed(u64::from(row.height));
        let count = signed(row.count as u64);
        self.put_all(&[row.start, row.end, height, count]);
        for id in row.ids() {
            self.put(signed(u64::from(*id)));
        }
    }

    // The answer of a question for the rows.
    pub(crate) fn put_rows(&mut self, shown: Result<Rows, Refusal>)
        requires { IfOk shown Shown }
        ensures { Written self.old (rows_numbers shown) self.new }
    {
        match shown {
            Ok(rows) => {
                self.put_all(&[TABLE, signed(rows.count as u64)]);
                for row in rows.as_slice() {
                    self.put_row(row);
                }
            }
            Err(why) => self.put_refusal(why),
        }
    }
}
