// The indices that acts of jumps leave.
ghost use Rattle.std.specs.Prelude.{◌≡◌, IfOk};
ghost use Rattle.edit_tables.specs.Unskipped.{is_unskipped, unskipped};

use crate::marks::has;
use class_model::{Code, Ins, Op};
use jv_base::M;
use std::alloc::Global;

fn is_unskipped(skips: &[bool], at: usize, ins: &Ins) -> bool
    ensures { result ≡ is_unskipped skips.now at ins.now }
{
    !(has(skips, at) && matches!(ins.op, Op::Goto(_)))
}

/// Of each index, whether it isn't a goto that is marked.
pub fn unskipped(alloc: Global, skips: &[bool], code: &Code) -> M<Vec<bool>>
    ensures { IfOk result (λ lives. lives.items ≡ unskipped skips.now code.now) }
{
    let mut lives = Vec::with_capacity(alloc, code.ins.len())?;
    let mut at = 0;
    for ins in code.ins.as_slice() {
        lives.push(is_unskipped(skips, at, ins))?;
        at += 1;
    }
    Ok(lives)
}
