// The slots of which something is cut.
ghost use Rattle.std.specs.Prelude.{◌≡◌, IfOk};
ghost use Rattle.edit_tables.specs.Marks.{marked};
ghost use Rattle.frame_rebuild.specs.Rebuilt.{written};
ghost use Rattle.frame_rebuild.specs.bodies.Slots.{slots_of, with_slot, with_slots};

use class_model::{Code, Op};
use code_edit::Act;
use edit_tables::marks::put;
use edit_tables::spreading::slot_count;
use jv_base::M;
use std::alloc::Global;

fn mark_written(marks: Vec<bool>, op: &Op) -> Vec<bool>
    ensures { result.items ≡ marked (written op.now) marks.items }
{
    match op {
        Op::Store(_, slot) | Op::Inc(slot, _) => put(marks, u32::from(*slot)),
        _ => marks,
    }
}

fn mark_slot(marks: Vec<bool>, code: &Code, act: &Act) -> Vec<bool>
    ensures { result.items ≡ with_slot code.now act.now marks.items }
{
    match act {
        Act::Cut { at } => match code.ins.get(*at as usize) {
            Some(ins) => mark_written(marks, &ins.op),
            None => marks,
        },
        _ => marks,
    }
}

fn mark_slots(marks: Vec<bool>, code: &Code, acts: &[Act]) -> Vec<bool>
    ensures { result.items ≡ with_slots code.now acts.now marks.items }
{
    let mut marks = marks;
    for act in acts {
        marks = mark_slot(marks, code, act);
    }
    marks
}

/// The slots of which an act cuts a store or an increment.
pub(crate) fn slots_of(alloc: Global, code: &Code, acts: &[Act]) -> M<Vec<bool>>
    ensures { IfOk result (λ marks. marks.items ≡ slots_of code.now acts.now) }
{
    let marks = vec![in alloc; false; slot_count(&code.ins)]?;
    Ok(mark_slots(marks, code, acts))
}
