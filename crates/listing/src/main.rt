// The program on the listing of docs/SCOPE.md.
// Stays as it is: `listing`, `corners` and `sample` have this `main` each. The gate gives a program one input,
// the file `stdin` beside its `src/`, so each input has a program of its own; the loop is in `terminal`.
#![tactic(auto)]

fn main(rt: HostRuntime) {
    terminal::answer_input(&rt);
}
