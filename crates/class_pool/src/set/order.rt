// An order of the numbers of a graph in which what a number leads to stands before it, where there is such an order.
//
// How it is found is not proved, and nothing but speed rests on it.
use jv_base::{Items, M};
use std::alloc::Global;

/// A step of a walk in depth.
#[derive(Clone, Copy)]
enum Step {
    Enter(usize),
    Leave(usize),
}

pub(crate) fn order_of(alloc: Global, needs: &[Items<usize>]) -> M<Vec<usize>> {
    let mut seen = vec![in alloc; false; needs.len()]?;
    let mut order = Vec::new(alloc);
    let mut steps = Vec::new(alloc);
    let mut bound = 0usize;
    for (number, list) in needs.iter().enumerate() {
        steps.push(Step::Enter(number))?;
        bound = bound.saturating_add(list.len()).saturating_add(2);
    }
    for _ in 0..bound {
        match steps.pop() {
            Some(Step::Enter(number)) => enter(needs, number, &mut seen, &mut steps)?,
            Some(Step::Leave(number)) => order.push(number)?,
            None => return Ok(order),
        }
    }
    Ok(order)
}

/// A number that is met for the first time is left after its needs were entered.
fn enter(
    needs: &[Items<usize>],
    number: usize,
    seen: &mut Vec<bool>,
    steps: &mut Vec<Step>,
) -> M<()> {
    if number >= needs.len() || number >= seen.len() || seen[number] {
        return Ok(());
    }
    seen[number] = true;
    steps.push(Step::Leave(number))?;
    for need in needs[number].as_slice() {
        steps.push(Step::Enter(*need))?;
    }
    Ok(())
}
