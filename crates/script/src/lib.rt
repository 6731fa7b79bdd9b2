// The pass planner for programs in other languages: a script of commands, given as numbers in a lent
// slice, is run on a fresh plan, and the answers are written as numbers to another.
#![tactic(auto)]

mod answers;
mod parse;

ghost use Rattle.std.specs.Prelude.{◌≡◌, length, min};
ghost use Rattle.script.specs.Runs.{run};
ghost use Rattle.script.specs.Pages.{overlaid};

use crate::answers::Writer;
use planner::{Answer, Job, Jobs, Plan, Refusal, Updated, records};

// One command of a script.
// Stays as it is: `Unreadable` is a case and no `None`, since it is answered in the same match as the others.
#[derive(Clone, Copy)]
pub enum Command {
    Keep(Job),
    Load(i32),
    Update(i32, i32, i32),
    FirstFit(i32),
    Rows,
    Unreadable,
}

// Runs a script on a fresh plan, writes the answers as far as there is room, and returns how many
// numbers were written.
pub fn pass_planner_run(script: &[i32], answers: &mut [i32]) -> usize
    ensures answers_after { answers.new ≡ overlaid (run script.now) answers.old }
    ensures value { result ≡ min (length (run script.now)) (length answers.old) }
{
    // The plan, with what the last load or update answered: what the planner gives goes there as it is.
    let mut state = Updated {
        plan: Plan::fresh(),
        answer: Ok(Answer::Fits),
        row: records::no_record(),
    };
    let mut jobs = Jobs::empty();
    let mut out = Writer::new(answers);
    let mut rest = script;
    while !rest.is_empty() {
        let (command, behind) = parse::next_command(rest);
        rest = behind;
        match command {
            // Stays as it is: put in its place by hand, since `jobs = jobs.keep(job)` copies the list twice.
            Command::Keep(job) if jobs.count < Plan::JOBS => {
                jobs.list[jobs.count] = job;
                jobs.count += 1;
            }
            Command::Keep(_) => out.put_refusal(Refusal::TooManyJobs),
            Command::Load(capacity) => {
                state = Updated::from(state.plan.load(jobs, capacity));
                jobs = Jobs::empty();
                out.put_answer(state.answer, state.row);
            }
            Command::Update(id, earliest, latest) => {
                state.change(id, earliest, latest);
                out.put_answer(state.answer, state.row);
            }
            Command::FirstFit(id) => out.put_fit(state.plan.first_fit(id)),
            Command::Rows => out.put_rows(state.plan.rows()),
            Command::Unreadable => out.put_refusal(Refusal::Unreadable),
        }
    }
    out.len
}
