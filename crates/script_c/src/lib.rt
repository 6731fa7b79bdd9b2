// The pass planner as a static library for programs in other languages: `script`'s run, exported to C. A
// crate is either a library or a static library, so the export is a crate of its own.
#![tactic(auto)]

ghost use Rattle.std.specs.Prelude.{◌≡◌, length, min};
ghost use Rattle.script.specs.Runs.{run};
ghost use Rattle.script.specs.Pages.{overlaid};

// Runs a script on a fresh plan, writes the answers as far as there is room, and returns how many
// numbers were written.
#[unsafe(no_mangle)]
pub extern "C" fn pass_planner_run(script: &[i32], answers: &mut [i32]) -> usize
    ensures answers_after { answers.new ≡ overlaid (run script.now) answers.old }
    ensures value { result ≡ min (length (run script.now)) (length answers.old) }
{
    script::pass_planner_run(script, answers)
}
