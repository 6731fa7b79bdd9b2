// From the numbers of a script to its commands.
ghost use Rattle.std.specs.Prelude.{◌≡◌, ◌+◌, ◌-◌, length, drop};
ghost use Rattle.script.specs.Commands.{command_at, arguments_of};

use crate::Command;
use planner::Job;

// The kinds of commands.
// Stays as it is: the C interface (library/pass_planner.h) has these numbers.
const KEEP: i32 = 1;

const LOAD: i32 = 2;

const UPDATE: i32 = 3;

const FIRST_FIT: i32 = 4;

const ROWS: i32 = 5;

// The command that a script starts with, and what follows it. Nothing follows one that cannot be read.
#[tactic(auto, unfolding(crate::specs::Commands::command_at, crate::specs::Commands::command_of_kind))]
pub(crate) fn next_command(script: &[i32]) -> (Command, &[i32])
    ensures command { result.0 ≡ command_at script.now }
    ensures rest { result.1.now ≡ drop (arguments_of result.0 (length script.now - 1) + 1) script.now }
{
    match script {
        [KEEP, earliest, latest, duration, usage, rest @ ..] => {
            let job = Job {
                earliest: *earliest,
                latest: *latest,
                duration: *duration,
                usage: *usage,
            };
            (Command::Keep(job), rest)
        }
        [LOAD, capacity, rest @ ..] => (Command::Load(*capacity), rest),
        [UPDATE, id, earliest, latest, rest @ ..] => {
            (Command::Update(*id, *earliest, *latest), rest)
        }
        [FIRST_FIT, id, rest @ ..] => (Command::FirstFit(*id), rest),
        [ROWS, rest @ ..] => (Command::Rows, rest),
        _ => (Command::Unreadable, &[]),
    }
}
