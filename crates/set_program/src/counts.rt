// How many references a set has.
use class_model::{Method, Op};
use class_pool::ClassSet;

/// How many instructions have a reference to a field or call a method, of each kind of call, how many call any, and how
/// many methods there are.
#[derive(Clone, Copy)]
pub(crate) struct Counts {
    pub fields: usize,
    pub statics: usize,
    pub specials: usize,
    pub selections: usize,
    pub calls: usize,
    pub methods: usize,
}

/// Those of a set.
pub(crate) fn counts_of(set: &ClassSet) -> Counts {
    let mut counts = Counts {
        fields: 0,
        statics: 0,
        specials: 0,
        selections: 0,
        calls: 0,
        methods: 0,
    };
    for number in 0..set.len() {
        for method in set.class(number).methods.as_slice() {
            count_method(&mut counts, method);
        }
    }
    counts
}

fn count_method(counts: &mut Counts, method: &Method) {
    counts.methods = counts.methods.saturating_add(1);
    let Some(code) = &method.code else {
        return;
    };
    for ins in code.ins.as_slice() {
        count_op(counts, &ins.op);
    }
}

fn count_op(counts: &mut Counts, op: &Op) {
    match op {
        Op::GetStatic(_) | Op::PutStatic(_) | Op::GetField(_) | Op::PutField(_) => {
            counts.fields = counts.fields.saturating_add(1);
        }
        Op::InvokeStatic(_) => {
            counts.statics = counts.statics.saturating_add(1);
            counts.calls = counts.calls.saturating_add(1);
        }
        Op::InvokeSpecial(_) => {
            counts.specials = counts.specials.saturating_add(1);
            counts.calls = counts.calls.saturating_add(1);
        }
        Op::InvokeVirtual(_) | Op::InvokeInterface(_) => {
            counts.selections = counts.selections.saturating_add(1);
            counts.calls = counts.calls.saturating_add(1);
        }
        _ => {}
    }
}
