// Tries the plan that a controller keeps and lends: a load and updates, some of them refused. It
// writes a line for each.
#![tactic(auto)]

use lent::controller::{Controller, begin, step};
use planner::{Answer, Job, Jobs};
use std::io;

// Writes what the last change answered: F, O and the height of the row that is too high, or R and
// the refusal's number.
fn show(rt: &impl Print, controller: &Controller) -> io::Result<()> {
    let last = controller.last;
    match last.answer {
        Ok(Answer::Fits) => println!(rt; "F 0"),
        Ok(Answer::Overloaded) => println!(rt; "O {}", last.row.height),
        Err(why) => println!(rt; "R {}", why.number()),
    }
}

// A load that fits, an update that is overloaded, three that are refused, a load that is refused, and
// an update of the plan that was kept through all of that.
fn main(rt: HostRuntime) -> io::Result<()> {
    let job = Job {
        earliest: 0,
        latest: 10,
        duration: 4,
        usage: 3,
    };
    let jobs = Jobs::empty().keep(job);
    let mut kept = begin(Controller::fresh(), jobs, 2);
    show(&rt, &kept)?;
    kept = step(kept, 0, 5, 5);
    show(&rt, &kept)?;
    kept = step(kept, 1, 5, 5);
    show(&rt, &kept)?;
    kept = step(kept, 0, -1000000001, 5);
    show(&rt, &kept)?;
    kept = step(kept, 0, 6, 5);
    show(&rt, &kept)?;
    kept = begin(kept, jobs, -1);
    show(&rt, &kept)?;
    kept = step(kept, 0, 0, 10);
    show(&rt, &kept)
}
