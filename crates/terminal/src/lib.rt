// The loop of the programs: commands from standard input, answers to standard output.
#![tactic(auto)]

ghost use Rattle.std.specs.Prelude.{◌≡◌, ◌≤◌, length, pos, Some};
ghost use Rattle.std.specs.Process.{exit_status};
ghost use Rattle.command.specs.Text.{longest};
ghost use Rattle.command.specs.Lines.{ReadyState};
ghost use Rattle.terminal.specs.Endings.{sentence_of, status_of, Status};
ghost use Rattle.terminal.specs.Reads.{status_here, BytesAnswered, InputEnded, FollowsRead};

use command::lines::State;
use std::io::{Read, Write};
use std::process::ExitCode;
use std::{fmt, io};

// How a run ends: all input was answered, some of it was not read, or an answer could not be written.
#[derive(Clone, Copy, PartialEq)]
pub enum Ending {
    Over,
    Unread,
    Unwritten,
}

impl Ending {
    // The exit status of a program that ends so.
    pub fn status(self) -> i32
        ensures { result ≡ status_of self }
    {
        match self {
            Ending::Over => 0,
            Ending::Unread => 1,
            Ending::Unwritten => 2,
        }
    }
}

impl From<Ending> for ExitCode {
    ghost from_gives = { λ ending code. pos (exit_status code) ≡ status_of ending };

    fn from(ending: Ending) -> ExitCode {
        ExitCode::from(ending.status() as u8)
    }
}

impl fmt::Display for Ending {
    ghost output = { λ ending. Some (sentence_of ending) };

    fn fmt<W: fmt::Write>(&self, f: &mut fmt::Formatter<W>) -> fmt::Result {
        f.write_str(match self {
            Ending::Over => "all input was answered",
            Ending::Unread => "standard input could not be read",
            Ending::Unwritten => "an answer could not be written",
        })
    }
}

// The state after some bytes, and how the run ends if it ends there.
#[derive(Clone, Copy)]
struct Reading {
    state: State,
    ended: Option<Ending>,
}

impl Reading {
    // How the run ends if it ends here. Where it may go on, there may be more to read.
    fn ending(&self) -> Ending
        ensures { status_of result ≡ status_here self.now }
    {
        self.ended.unwrap_or(Ending::Unread)
    }
}

// Answers the lines that these bytes end. The answers are gathered and written together, at the latest
// when the bytes are used up. An answer that cannot be written is the end.
fn serve_all<R: Print>(rt: &R, from: State, chunk: &[u8], out: &mut [u8]) -> Reading
    requires ready_state { ReadyState from }
    requires longest_in_bounds { longest ≤ length out.old }
    ensures bytes_answered { BytesAnswered from chunk.now result }
    ensures ready_state_2 { ReadyState result.state }
{
    let mut state = from;
    let mut rest = chunk;
    while !rest.is_empty() {
        let served = state.serve(rest, 0, out);
        let answers = &out[..served.len];
        let written = io::writer(rt).write_all(answers);
        state = served.state;
        rest = &rest[served.next..];
        if written.is_err() {
            return Reading {
                state,
                ended: Some(Ending::Unwritten),
            };
        }
    }
    Reading { state, ended: None }
}

// At the end of the input: a line that was begun is served the line feed that it lacks.
fn serve_last<R: Print>(rt: &R, state: State, out: &mut [u8]) -> Reading
    requires ready_state { ReadyState state }
    requires longest_in_bounds { longest ≤ length out.old }
    ensures input_ended { InputEnded state result }
    ensures ready_state_2 { ReadyState result.state }
{
    if !state.begun() {
        return Reading {
            state,
            ended: Some(Ending::Over),
        };
    }
    let last = serve_all(rt, state, b"\n", out);
    Reading {
        state: last.state,
        ended: last.ended.or(Some(Ending::Over)),
    }
}

// Answers what a read gave: the lines that are complete, or at the end of the input the last one. A read
// that fails is the end, and a line that was begun is then not answered: nobody said that it was whole.
fn answer_read<R: Print>(
    rt: &R,
    state: State,
    read: io::Result<usize>,
    buffer: &[u8],
    out: &mut [u8],
) -> Reading
    requires ready_state { ReadyState state }
    requires longest_in_bounds { longest ≤ length out.old }
    ensures follows_read { FollowsRead state read buffer.now result }
    ensures ready_state_2 { ReadyState result.state }
{
    match read {
        Ok(0) => serve_last(rt, state, out),
        Ok(n) => serve_all(rt, state, &buffer[..n.min(buffer.len())], out),
        Err(_) => Reading {
            state,
            ended: Some(Ending::Unread),
        },
    }
}

// Reads once, and answers that.
fn read_some<R: Print, I: Read>(rt: &R, input: &mut I, state: State, out: &mut [u8]) -> Reading
    requires ready_state { ReadyState state }
    requires longest_in_bounds { longest ≤ length out.old }
    ensures { ReadyState result.state }
{
    let mut buffer = [0u8; 4096];
    let read = input.read(&mut buffer);
    answer_read(rt, state, read, &buffer, out)
}

// Reads and answers until the run ends, and says how. A proved loop has to end, and nothing says that the
// input does: so the loop counts its turns, up to a number that no run reaches.
fn run<R: Input + Print>(rt: &R, out: &mut [u8]) -> Ending
    requires { longest ≤ length out.old }
    ensures { Status (status_of result) }
{
    let mut input = rt.reader();
    let mut state = State::new();
    let mut ending = Ending::Unread;
    for _ in 0..u64::MAX {
        let reading = read_some(rt, &mut input, state, out);
        ending = reading.ending();
        if reading.ended.is_some() {
            break;
        }
        state = reading.state;
    }
    ending
}

// Answers standard input on standard output, and says how that ended.
pub fn answer_input<R: Input + Print>(rt: &R) -> Ending
    ensures { Status (status_of result) }
{
    let mut out = [0u8; 65536];
    run(rt, &mut out)
}
