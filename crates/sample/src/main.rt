// The program on a fixed sample of the oracle's sessions; README.md beside src/ says how it was made.
// Stays as it is: the gate gives a program one input, so this `main` is that of `listing` and `corners` again.
#![tactic(auto)]

fn main(rt: HostRuntime) {
    terminal::answer_input(&rt);
}
