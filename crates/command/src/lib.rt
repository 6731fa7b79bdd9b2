// The command language of the pass planner: lines of bytes to commands, answers to lines of bytes, and
// a session that holds a plan and the jobs kept for its next load. No input or output.
#![tactic(auto)]

pub mod lines;
pub mod number;
pub mod parse;
mod text;

ghost use Rattle.std.specs.Prelude.{◌≡◌};
ghost use Rattle.command.specs.Sessions.{Ready, fresh_session};

use planner::{Job, Jobs, Plan};

// What a line asks for.
#[derive(Clone, Copy)]
pub enum Command {
    Keep(Job),
    Load(i32),
    Update { id: i32, earliest: i32, latest: i32 },
    Fit(i32),
    Rows,
    // A line that says none of these.
    // Stays as it is: a case and no `None`, since it is answered like any other.
    Unreadable,
}

// A plan and the jobs that are kept for its next load.
#[derive(Clone, Copy)]
pub struct Session {
    pub(crate) plan: Plan,
    pub(crate) jobs: Jobs,
}

impl Session {
    // A session with a fresh plan and no jobs.
    pub fn new() -> Session
        ensures value { result ≡ fresh_session }
        ensures ready { Ready result }
    {
        let plan = Plan::fresh();
        let jobs = Jobs::empty();
        Session { plan, jobs }
    }
}
