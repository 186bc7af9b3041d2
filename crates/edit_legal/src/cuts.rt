// Which acts of slots are legal.
ghost use Rattle.std.specs.Prelude.{◌≡◌, [], IfOk, length};
ghost use Rattle.edit_legal.specs.Cuttable.{added_by, additions_of, cuttable, is_cuttable, may_cut};
ghost use Rattle.edit_tables.specs.Marks.{has, marked, none, with_cuts};
ghost use Rattle.edit_tables.specs.Spread.{spread};

use crate::marking::mark;
use crate::rules::Rules;
use class_model::{Code, Ins, Op};
use code_edit::Act;
use edit_tables::marks::{cut_marks, has, put};
use edit_tables::spreading::{loads_of, slot_count};
use jv_base::{Items, M};
use std::alloc::Global;

/// What slots asks: an act names what may be cut, and no two name one index.
#[derive(Drop)]
pub(crate) struct Cuts {
    /// Of each index, whether it may be cut.
    cuttable: Vec<bool>,
    /// Of each index, whether an act that was noted cuts it.
    cut: Vec<bool>,
}

fn mark_addition(marks: Vec<bool>, cuts: &[bool], at: usize, ins: &Ins) -> Vec<bool>
    ensures { result.items ≡ marked (added_by cuts.now at ins.now) marks.items }
{
    match ins.op {
        Op::Inc(slot, _) if !has(cuts, at) => put(marks, u32::from(slot)),
        _ => marks,
    }
}

fn mark_additions(marks: Vec<bool>, cuts: &[bool], ins: &Items<Ins>) -> Vec<bool>
    ensures { result.items ≡ spread (added_by cuts.now) [] 0 ins.now marks.items }
{
    let mut marks = marks;
    let mut at = 0;
    for ins in ins.as_slice() {
        marks = mark_addition(marks, cuts, at, ins);
        at += 1;
    }
    marks
}

/// The local variables to which the code adds where no act cuts that.
fn additions_of(alloc: Global, cuts: &[bool], code: &Code) -> M<Vec<bool>>
    ensures { IfOk result (λ marks. marks.items ≡ additions_of cuts.now code.now) }
{
    let marks = vec![in alloc; false; slot_count(&code.ins)]?;
    Ok(mark_additions(marks, cuts, &code.ins))
}

/// Whether an operation may be cut.
fn is_cuttable(loads: &[bool], additions: &[bool], op: &Op) -> bool
    ensures { result ≡ is_cuttable loads.now additions.now op.now }
{
    match op {
        Op::Store(_, slot) => {
            let slot = *slot as usize;
            !has(loads, slot) && !has(additions, slot)
        }
        Op::Inc(slot, _) => !has(loads, *slot as usize),
        _ => false,
    }
}

fn cuttable(alloc: Global, acts: &[Act], code: &Code) -> M<Vec<bool>>
    ensures { IfOk result (λ marks. marks.items ≡ cuttable acts.now code.now) }
{
    let cuts = cut_marks(alloc, acts, code.ins.len())?;
    let loads = loads_of(alloc, code)?;
    let additions = additions_of(alloc, &cuts, code)?;
    let mut marks = Vec::with_capacity(alloc, code.ins.len())?;
    for ins in code.ins.as_slice() {
        marks.push(is_cuttable(&loads, &additions, &ins.op))?;
    }
    Ok(marks)
}

/// What slots asks of acts, of which none was noted.
pub(crate) fn cuts_of(alloc: Global, acts: &[Act], code: &Code) -> M<Cuts>
    ensures cuttable { IfOk result (λ cuts. cuts.cuttable.items ≡ cuttable acts.now code.now) }
    ensures cut { IfOk result (λ cuts. cuts.cut.items ≡ none (length cuts.cuttable.items)) }
{
    let cuttable = cuttable(alloc, acts, code)?;
    let cut = vec![in alloc; false; cuttable.len()]?;
    Ok(Cuts { cuttable, cut })
}

impl Rules for Cuts {
    ghost allows = { λ cuts. may_cut cuts.cuttable.items };

    ghost noted = { λ cuts before. cuts.cut.items
        ≡ with_cuts before (none (length cuts.cuttable.items)) };

    ghost holds = { λ cuts. Unit {0} };

    fn allows(&self, act: &Act) -> bool {
        match act {
            Act::Cut { at } => {
                let at = *at as usize;
                has(&self.cuttable, at) && !has(&self.cut, at)
            }
            _ => false,
        }
    }

    #[tactic(auto, using(crate::proofs::Noting::cuts_more))]
    fn note(&mut self, act: &Act) -> M<()> {
        if let Act::Cut { at } = act {
            mark(&mut self.cut, *at as usize);
        }
        Ok(())
    }
}
