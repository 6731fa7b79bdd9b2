// The program on the corners of docs/SCOPE.md, each a session; README.md beside src/ says which lines are which.
// Stays as it is: the gate gives a program one input, so this `main` is that of `listing` and `sample` again.
#![tactic(auto)]

fn main(rt: HostRuntime) {
    terminal::answer_input(&rt);
}
