// Where folds lead, and what they leave.
ghost use Rattle.std.specs.Prelude.{◌≡◌, ◌<◌, IfOk, length};
ghost use Rattle.code_edit.specs.Constants.{is_fold, is_next, is_two};
ghost use Rattle.code_edit.specs.Deciding.{operands};
ghost use Rattle.const_tables.specs.Folding.{count_in, fold_in, folds_of, is_operand_in};
ghost use Rattle.const_tables.specs.Folding.{is_unfolded, put_fold, unfolded};

use class_model::{Code, Op};
use code_edit::Act;
use jv_base::M;
use std::alloc::Global;

/// Where the branch or switch at an index leads, if it is folded.
pub fn fold_in(folds: &[Option<u32>], at: usize) -> Option<u32>
    ensures { result ≡ fold_in folds.now at }
{
    match folds.get(at) {
        Some(fold) => *fold,
        None => None,
    }
}

/// One fold more, unless there is one at the index.
fn put(folds: Vec<Option<u32>>, at: u32, to: u32) -> Vec<Option<u32>>
    ensures { result.items ≡ put_fold at to folds.items }
{
    let mut folds = folds;
    let at = at as usize;
    if at < folds.len() {
        folds[at] = folds[at].or(Some(to));
    }
    folds
}

/// Where each of so many indices leads by the first act that folds it, if one does.
pub fn folds_of(alloc: Global, acts: &[Act], count: usize) -> M<Vec<Option<u32>>>
    ensures { IfOk result (λ folds. folds.items ≡ folds_of acts.now count) }
{
    let mut folds = vec![in alloc; None; count]?;
    for act in acts {
        if let Act::Fold { at, to } = act {
            folds = put(folds, *at, *to);
        }
    }
    Ok(folds)
}

/// Whether an instruction takes ints to choose where control goes.
fn takes_one(op: &Op) -> bool
    ensures { result ≡ is_fold (operands op.now) }
{
    matches!(
        op,
        Op::IfZero(..) | Op::IfCmp(..) | Op::TableSwitch { .. } | Op::LookupSwitch { .. }
    )
}

/// Whether it takes two.
fn takes_two(op: &Op) -> bool
    ensures { result ≡ is_two (operands op.now) }
{
    matches!(op, Op::IfCmp(..))
}

/// Whether the instruction at an index is folded, with an operand directly before it.
fn is_folded(folds: &[Option<u32>], code: &Code, at: usize) -> bool
    ensures { result ≡ is_fold (count_in folds.now code.now at) }
{
    match (fold_in(folds, at), code.ins.get(at)) {
        (Some(_), Some(ins)) => takes_one(&ins.op),
        _ => false,
    }
}

/// Whether it is folded with two operands.
fn is_folded_by_two(folds: &[Option<u32>], code: &Code, at: usize) -> bool
    ensures { result ≡ is_two (count_in folds.now code.now at) }
{
    match (fold_in(folds, at), code.ins.get(at)) {
        (Some(_), Some(ins)) => takes_two(&ins.op),
        _ => false,
    }
}

/// Whether the instruction is an operand of one that is folded.
fn is_operand(folds: &[Option<u32>], code: &Code, at: usize) -> bool
    requires { at < 4294967295 }
    ensures { result ≡ is_operand_in folds.now code.now at }
{
    is_folded(folds, code, at + 1) || is_folded_by_two(folds, code, at + 1 + 1)
}

/// Whether a fold leads to the next index.
fn is_next(at: usize, fold: Option<u32>) -> bool
    requires { at < 4294967295 }
    ensures { result ≡ is_next at fold }
{
    match fold {
        Some(to) => to as usize == at + 1,
        None => false,
    }
}

fn is_unfolded(folds: &[Option<u32>], code: &Code, at: usize) -> bool
    requires { at < 4294967295 }
    ensures { result ≡ is_unfolded folds.now code.now at }
{
    !(is_operand(folds, code, at) || is_next(at, fold_in(folds, at)))
}

/// Of each index, whether no fold makes it go.
pub fn unfolded(alloc: Global, folds: &[Option<u32>], code: &Code) -> M<Vec<bool>>
    requires { length code.now.ins < 4294967295 }
    ensures { IfOk result (λ lives. lives.items ≡ unfolded folds.now code.now) }
{
    let mut lives = Vec::with_capacity(alloc, code.ins.len())?;
    let mut at = 0;
    for _ in code.ins.as_slice() {
        lives.push(is_unfolded(folds, code, at))?;
        at += 1;
    }
    Ok(lives)
}
