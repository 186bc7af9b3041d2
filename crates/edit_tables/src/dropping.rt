// The indices that acts of reach leave.
ghost use Rattle.std.specs.Prelude.{◌≡◌, IfOk, replicate};
ghost use Rattle.edit_tables.specs.Swept.{furthest, swept, swept_of};

use code_edit::Act;
use jv_base::M;
use std::alloc::Global;

/// At each index the end of the furthest range that begins there.
fn far(alloc: Global, acts: &[Act], count: usize) -> M<Vec<u64>>
    ensures { IfOk result (λ ends. ends.items ≡ furthest acts.now (replicate count 0)) }
{
    let mut ends = vec![in alloc; 0; count]?;
    for act in acts {
        if let Act::Drop { from, to } = act {
            let from = *from as usize;
            if from < ends.len() {
                ends[from] = ends[from].max(u64::from(*to) + 1);
            }
        }
    }
    Ok(ends)
}

fn left_by_far(alloc: Global, ends: &[u64]) -> M<Vec<bool>>
    ensures { IfOk result (λ left. left.items ≡ swept 0 0 ends.now) }
{
    let mut left = Vec::new(alloc);
    let mut end = 0;
    let mut at = 0;
    for furthest in ends {
        end = end.max(*furthest);
        left.push(end <= at)?;
        at += 1;
    }
    Ok(left)
}

/// Of each index below a count, whether no act drops it.
pub fn left_by(alloc: Global, acts: &[Act], count: usize) -> M<Vec<bool>>
    ensures { IfOk result (λ left. left.items ≡ swept_of acts.now count) }
{
    let ends = far(alloc, acts, count)?;
    left_by_far(alloc, &ends)
}
