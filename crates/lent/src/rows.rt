// The copy of a plan's rows to a lent slice of row records.
ghost use Rattle.planner.specs.Sound.{Sound};
ghost use Rattle.lent.specs.Promises.{CopyPromise};

use planner::{Plan, Refusal, RowRecord};

// Copies the plan's rows to the first places of the slice, and returns how many they are; refused where
// the table is stale or the slice is short.
pub fn copy_rows(plan: Plan, out: &mut [RowRecord]) -> Result<usize, Refusal>
    requires { Sound plan }
    ensures { CopyPromise plan out.old result out.new }
{
    let shown = plan.rows()?;
    let rows = shown.as_slice();
    let count = rows.len();
    if out.len() < count {
        return Err(Refusal::ShortSlice);
    }
    out[..count].copy_from_slice(rows);
    Ok(count)
}
