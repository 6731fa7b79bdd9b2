// Lines from bytes that arrive in pieces, and their answers.
ghost use Rattle.std.specs.Prelude.{◌≡◌, [], ◌≤◌, length, drop};
ghost use Rattle.time_table.specs.Held.{Held};
ghost use Rattle.command.specs.Text.{longest};
ghost use Rattle.command.specs.Lines.{reader_room, reader_of, bytes_of, HeldLine, grown, ReadyState, fresh_state, begun, Serves};

use crate::parse::command_of;
use crate::text::{LONGEST, Writer};
use crate::{Command, Session};
use planner::{Answer, Jobs, Plan, Refusal, Updated, records};

// The bytes of a line that is not complete, in `line` up to `len`. Past `Reader::LINE` one more byte is
// kept, which makes the line too long to be read, and no others.
// Stays as it is: an array with a count, without a heap. The byte past `Reader::LINE` says that the line is too long
// (`grown` in specs/Lines.antt).
#[derive(Clone, Copy)]
pub struct Reader {
    pub(crate) line: [u8; Reader::ROOM],
    pub(crate) len: usize,
}

// A session, and the line that it is in the middle of.
// Stays as it is: `ReadyState` is a clause and no invariant of the type, since `State::begun`, which
// docs/PROMISES.md names, asks nothing of the line that was begun or of the kept jobs.
#[derive(Clone, Copy)]
pub struct State {
    pub(crate) session: Session,
    pub(crate) reader: Reader,
}

// What some bytes lead to: the state afterwards, where the bytes that are left start, and how many bytes
// of the lent slice are the answers.
#[derive(Clone, Copy)]
pub struct Served {
    pub state: State,
    pub next: usize,
    pub len: usize,
}

impl Reader {
    // The most bytes that a line may have.
    pub const LINE: usize = 80;
    // The bytes that are kept of a line at most.
    pub const ROOM: usize = Reader::LINE + 1;

    // A line without bytes.
    pub(crate) fn empty() -> Reader
        ensures { result ≡ reader_of [] }
    {
        Reader {
            line: [0; Reader::ROOM],
            len: 0,
        }
    }

    // The bytes of the line.
    pub(crate) fn bytes(&self) -> &[u8]
        requires { HeldLine self.now }
        ensures { result.now ≡ bytes_of self.now }
    {
        &self.line[..self.len]
    }

    // Puts a byte behind the line, unless that is too long already.
    pub(crate) fn push(&mut self, byte: u8)
        requires { HeldLine self.old }
        ensures { Held reader_room 0 self.new.line self.new.len (grown (bytes_of self.old) byte) }
    {
        if self.len < Reader::ROOM {
            self.line[self.len] = byte;
            self.len += 1;
        }
    }
}

impl State {
    // A fresh session, and no line begun.
    pub fn new() -> State
        ensures value { result ≡ fresh_state }
        ensures ready_state { ReadyState result }
    {
        State {
            session: Session::new(),
            reader: Reader::empty(),
        }
    }

    // Whether a line is begun.
    pub fn begun(&self) -> bool
        ensures { result ≡ begun self.now }
    {
        0 < self.reader.len
    }

    // Takes bytes from a place on and answers each line that a line feed ends, while the lent slice has
    // room for one more answer. What a plan led to last is one variable, so that an update goes straight
    // to its place.
    pub fn serve(self, chunk: &[u8], from: usize, out: &mut [u8]) -> Served
        requires ready_state { ReadyState self }
        requires longest_in_bounds { longest ≤ length out.old }
        ensures serves { Serves self (drop from chunk.now) from result out.old out.new }
        ensures ready_state_2 { ReadyState result.state }
    {
        let mut last = Updated {
            plan: self.session.plan,
            answer: Ok(Answer::Fits),
            row: records::no_record(),
        };
        let mut jobs = self.session.jobs;
        let mut reader = self.reader;
        let mut next = from;
        let mut answers = Writer::new(out);
        for byte in chunk.get(from..).unwrap_or(&[]) {
            if answers.out.len() < answers.len + LONGEST {
                break;
            }
            next += 1;
            if *byte != b'\n' {
                reader.push(*byte);
                continue;
            }
            let command = command_of(reader.bytes());
            reader = Reader::empty();
            match command {
                Command::Keep(job) if jobs.count < Plan::JOBS => jobs = jobs.keep(job),
                Command::Keep(_) => answers.put_refusal(Refusal::TooManyJobs),
                Command::Load(capacity) => {
                    last = Updated::from(last.plan.load(jobs, capacity));
                    jobs = Jobs::empty();
                    answers.put_answer(last.answer, last.row);
                }
                Command::Update {
                    id,
                    earliest,
                    latest,
                } => {
                    last.change(id, earliest, latest);
                    answers.put_answer(last.answer, last.row);
                }
                Command::Fit(id) => answers.put_fit(last.plan.first_fit(id)),
                Command::Rows => answers.put_table(last.plan.rows()),
                Command::Unreadable => answers.put_refusal(Refusal::Unreadable),
            }
        }
        let plan = last.plan;
        let session = Session { plan, jobs };
        Served {
            state: State { session, reader },
            next,
            len: answers.len,
        }
    }
}
