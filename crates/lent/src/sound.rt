// The copy of rows, for a plan that is sound by its type.
ghost use Rattle.lent.specs.Promises.{CopyPromise};

use crate::rows;
use planner::sound::Plan;
use planner::{Refusal, RowRecord};

// Copies the plan's rows to the first places of the slice, and returns how many they are; refused where
// the table is stale or the slice is short.
pub fn copy_rows(plan: Plan, out: &mut [RowRecord]) -> Result<usize, Refusal>
    ensures { CopyPromise plan.plan out.old result out.new }
{
    rows::copy_rows(plan.plan, out)
}

#[cfg(test)]
mod tests {
    // A caller of both crates: he loads a plan, keeps it in a `sound::Plan`, and asks. The starts, the rows and the
    // refusals 7 and 9 that are expected are those of the Rust original.
    use super::*;
    use planner::{Job, Jobs, records};

    fn job(earliest: i32, latest: i32, duration: i32, usage: i32) -> Job {
        Job {
            earliest,
            latest,
            duration,
            usage,
        }
    }

    // The jobs of examples/listing.txt, loaded with this capacity into a fresh plan: 5 is enough, 4 is not.
    fn listed(capacity: i32) -> Plan {
        let jobs = Jobs::empty()
            .keep(job(0, 0, 4, 2))
            .keep(job(2, 2, 4, 3))
            .keep(job(9, 12, 3, 1));
        let loaded = planner::Plan::fresh().load(jobs, capacity);
        Plan { plan: loaded.plan }
    }

    #[test]
    fn fits_first(rt: HostRuntime) {
        let plan = listed(5);
        assert_eq!(rt; plan.first_fit(2), Ok(Some(9)));
        assert_eq!(rt; plan.first_fit(0), Ok(None));
        assert_eq!(rt; plan.first_fit(3), Err(Refusal::UnknownTask));
        assert_eq!(rt; listed(4).first_fit(2), Err(Refusal::Stale));
    }

    // The first three rows, without their ids.
    fn first_three(rows: &[RowRecord]) -> [(i32, i32, u32); 3] {
        let mut all = [(0, 0, 0); 3];
        for (place, row) in all.iter_mut().zip(rows) {
            *place = (row.start, row.end, row.height);
        }
        all
    }

    #[test]
    fn shows_rows(rt: HostRuntime) {
        let want = [(0, 1, 2), (2, 3, 5), (4, 5, 3)];
        match listed(5).rows() {
            Ok(rows) => assert_eq!(rt; first_three(rows.as_slice()), want),
            Err(why) => assert!(rt; false, "refused: {}", why.number()),
        }
        assert!(rt; listed(4).rows().is_err());
    }

    #[test]
    fn copies_rows(rt: HostRuntime) {
        let mark = RowRecord {
            height: 7,
            ..records::no_record()
        };
        let mut short = [mark; 2];
        assert_eq!(rt; copy_rows(listed(5), &mut short), Err(Refusal::ShortSlice));
        assert_eq!(rt; first_three(&short), [(0, 0, 7), (0, 0, 7), (0, 0, 0)]);
        let mut places = [mark; 4];
        assert_eq!(rt; copy_rows(listed(5), &mut places), Ok(3));
        assert_eq!(rt; first_three(&places), [(0, 1, 2), (2, 3, 5), (4, 5, 3)]);
        assert_eq!(rt; places[3].height, 7);
        assert_eq!(rt; copy_rows(listed(4), &mut places), Err(Refusal::Stale));
    }
}
