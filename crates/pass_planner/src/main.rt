// The pass planner's program: commands from standard input, answers to standard output. It tells by its exit
// status whether all its input was answered.
#![tactic(auto)]

ghost use Rattle.std.specs.Prelude.{pos};
ghost use Rattle.std.specs.Process.{exit_status};
ghost use Rattle.terminal.specs.Endings.{Status};

use std::process::ExitCode;
use terminal::Ending;

// Answers all input, says on standard error why if some was not answered, and gives the exit status.
pub fn pass_planner<R: Input + Print + Eprint>(rt: &R) -> ExitCode
    ensures { Status (pos (exit_status result)) }
{
    let ending = terminal::answer_input(rt);
    if ending != Ending::Over {
        let _ = eprintln!(rt; "pass_planner: {ending}");
    }
    ExitCode::from(ending)
}

fn main(rt: HostRuntime) -> ExitCode {
    pass_planner(&rt)
}
