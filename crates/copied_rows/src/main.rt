// Tries the copy of rows to a lent slice of three places: fewer rows than places, as many, more, and
// none since the table is stale. It writes a line for each: the answer, and each place's height.
#![tactic(auto)]

ghost use Rattle.planner.specs.Sound.{Sound};

use lent::rows::copy_rows;
use planner::{Job, Jobs, Plan, Refusal, RowRecord};
use std::io;

// Writes A and the count or R and the refusal's number, and the heights of three rows.
fn show(rt: &impl Print, copied: Result<usize, Refusal>, rows: &[RowRecord; 3]) -> io::Result<()> {
    match copied {
        Ok(count) => print!(rt; "A {count}")?,
        Err(why) => print!(rt; "R {}", why.number())?,
    }
    let [first, second, third] = rows;
    println!(rt; " {} {} {}", first.height, second.height, third.height)
}

// Lends three places to a copy of the plan's rows.
fn copy_three(rt: &impl Print, plan: Plan, mark: RowRecord) -> io::Result<()>
    requires { Sound plan }
{
    let mut places = [mark; 3];
    let copied = copy_rows(plan, &mut places);
    show(rt, copied, &places)
}

// A job that must run from `start` on.
fn job(start: i32, duration: i32, usage: i32) -> Job {
    Job {
        earliest: start,
        latest: start,
        duration,
        usage,
    }
}

// Copies no row, one, three and four, and those of a plan that is overloaded, to places that are
// marked by the height 7.
fn main(rt: HostRuntime) -> io::Result<()> {
    let mark = RowRecord {
        start: 0,
        end: 0,
        height: 7,
        ids: [0u8; RowRecord::IDS],
        count: 0,
    };
    copy_three(&rt, Plan::fresh(), mark)?;
    let mut jobs = Jobs::empty().keep(job(0, 3, 1));
    let one = Plan::fresh().load(jobs, 5);
    copy_three(&rt, one.plan, mark)?;
    jobs = jobs.keep(job(1, 1, 1));
    let three = Plan::fresh().load(jobs, 5);
    copy_three(&rt, three.plan, mark)?;
    jobs = jobs.keep(job(9, 1, 5));
    let four = Plan::fresh().load(jobs, 5);
    copy_three(&rt, four.plan, mark)?;
    let stale = Plan::fresh().load(jobs, 4);
    copy_three(&rt, stale.plan, mark)
}
