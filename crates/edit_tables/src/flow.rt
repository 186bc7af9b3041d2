// The indices to which control may go from an instruction (JVMS 2.11.7).
ghost use Rattle.std.specs.Prelude.{◌≡◌, ◌<◌, length, slice_get};
ghost use Rattle.code_edit.specs.Flow.{goes_elsewhere, successors, targets};
ghost use Rattle.edit_tables.specs.Next.{next_index};

use class_model::{Code, Op};

/// The target of this number: 0 is the one target or the default, k the k-th case.
pub fn target(op: &Op, which: usize) -> Option<u32>
    ensures { result ≡ slice_get (targets op.now) which }
{
    match op {
        Op::IfZero(_, to)
        | Op::IfCmp(_, to)
        | Op::IfRef { to, .. }
        | Op::IfNull { to, .. }
        | Op::Goto(to) => { if which == 0 { Some(*to) } else { None } }
        Op::TableSwitch { other, cases, .. } => {
            if which == 0 {
                return Some(*other);
            }
            match cases.get(which - 1) {
                Some(case) => Some(*case),
                None => None,
            }
        }
        Op::LookupSwitch { other, cases } => {
            if which == 0 {
                return Some(*other);
            }
            match cases.get(which - 1) {
                Some(case) => Some(case.to),
                None => None,
            }
        }
        _ => None,
    }
}

/// Whether control never goes on to the next instruction.
pub fn goes_elsewhere(op: &Op) -> bool
    ensures { result ≡ goes_elsewhere op.now }
{
    matches!(
        op,
        Op::Goto(_) | Op::TableSwitch { .. } | Op::LookupSwitch { .. } | Op::Return(_) | Op::Throw
    )
}

/// The next index, where control may go on to it.
pub fn next_index(code: &Code, at: u32) -> Option<u32>
    requires instruction { at < length code.now.ins }
    requires few { length code.now.ins < 4294967295 }
    ensures { result ≡ next_index code.now at }
{
    let next = at + 1;
    if !goes_elsewhere(&code.ins[at as usize].op) && (next as usize) < code.ins.len() {
        Some(next)
    } else {
        None
    }
}

/// The index of this number among those to which control may go, other than to a handler: the next
/// index first, where it is one, then the targets in their order. It takes no memory.
pub fn successor(code: &Code, at: u32, which: usize) -> Option<u32>
    requires instruction { at < length code.now.ins }
    requires few { length code.now.ins < 4294967295 }
    ensures { result ≡ slice_get (successors code.now at) which }
{
    let op = &code.ins[at as usize].op;
    match next_index(code, at) {
        Some(next) => {
            if which == 0 {
                Some(next)
            } else {
                target(op, which - 1)
            }
        }
        None => target(op, which),
    }
}
