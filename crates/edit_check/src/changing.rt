// Codes that change by tables, in one pass.
ghost use Rattle.std.specs.Prelude.{◌≡◌, ◌<◌, IfOk, length, map, option_copied};
ghost use Rattle.std.specs.List.{filter};
ghost use Rattle.code_edit.specs.Rewriting.{is_open, moved_handler, with_op};
ghost use Rattle.edit_check.specs.Changed.{cut_op, goto_op, skip_op};
ghost use Rattle.edit_tables.specs.Places.{place_in};
ghost use Rattle.edit_check.specs.Tables.{changed, left_ins, new_op, other_op};

use crate::moving::moved_op;
use crate::tables::Tables;
use class_model::{Code, Frames, Handler, Ins, Kind, Op};
use const_tables::folding::fold_in;
use edit_tables::marks::has;
use edit_tables::places::{lives_in, place_in, places};
use jv_base::{Items, M, Name};
use std::alloc::Global;

/// What stands in place of a branch that is skipped.
fn skip_op(op: &Op) -> Option<Op>
    ensures { result ≡ skip_op op.now }
{
    match op {
        Op::Goto(_) => Some(Op::Nop),
        Op::IfZero(..) | Op::IfNull { .. } => Some(Op::Pop),
        Op::IfCmp(..) | Op::IfRef { .. } => Some(Op::Pop2),
        _ => None,
    }
}

/// What stands in place of a store that is cut without a push.
fn cut_op(op: &Op) -> Option<Op>
    ensures { result ≡ cut_op op.now }
{
    match op {
        Op::Store(Kind::Long, _) => Some(Op::Pop2),
        Op::Store(..) => Some(Op::Pop),
        _ => None,
    }
}

/// What stands in place of a branch or switch that is folded.
fn goto_op(places: &[u32], fold: Option<u32>) -> Option<Op>
    ensures { result ≡ goto_op places.now fold }
{
    match fold {
        Some(to) => Some(Op::Goto(place_in(places, to))),
        None => None,
    }
}

/// What stands in place of the operation at an index, where another one does.
fn other_op(tables: &Tables, places: &[u32], at: usize, op: &Op) -> Option<Op>
    ensures { result ≡ other_op tables.now places.now at op.now }
{
    if has(&tables.skips, at) {
        return skip_op(op);
    }
    if has(&tables.pops, at) {
        return cut_op(op);
    }
    goto_op(places, fold_in(&tables.folds, at))
}

/// The operation at an index after the acts, its targets where they come to stand.
fn new_op(alloc: Global, tables: &Tables, places: &[u32], at: usize, op: &Op) -> M<Op>
    ensures { IfOk result (λ new. new ≡ new_op tables.now places.now at op.now) }
{
    match other_op(tables, places, at, op) {
        Some(other) => Ok(other),
        None => moved_op(alloc, &tables.aims, places, at, op),
    }
}

fn new_ins(alloc: Global, tables: &Tables, places: &[u32], at: usize, ins: &Ins) -> M<Ins>
    ensures { IfOk result (λ new. new ≡ with_op (new_op tables.now places.now at) ins.now) }
{
    Ok(Ins {
        op: new_op(alloc, tables, places, at, &ins.op)?,
        line: ins.line,
    })
}

fn left_ins(alloc: Global, tables: &Tables, places: &[u32], ins: &Items<Ins>) -> M<Items<Ins>>
    ensures { IfOk result (λ left. left ≡ left_ins tables.now places.now 0 ins.now) }
{
    let mut left = Items::new(alloc);
    let mut at = 0;
    for ins in ins.as_slice() {
        if lives_in(&tables.lives, at) {
            left.push(new_ins(alloc, tables, places, at, ins)?)?;
        }
        at += 1;
    }
    Ok(left)
}

fn caught_by(handler: &Handler) -> M<Option<Name>>
    ensures { IfOk result (λ caught. caught ≡ handler.now.caught) }
{
    match &handler.caught {
        Some(name) => Ok(Some(name.clone()?)),
        None => Ok(None),
    }
}

fn new_handler(places: &[u32], handler: &Handler) -> M<Handler>
    ensures { IfOk result (λ new. new ≡ moved_handler (place_in places.now) handler.now) }
{
    Ok(Handler {
        from: place_in(places, handler.from),
        to: place_in(places, handler.to),
        entry: place_in(places, handler.entry),
        caught: caught_by(handler)?,
    })
}

/// The handlers that still cover something, where their places come to stand.
fn left_handlers(alloc: Global, places: &[u32], handlers: &Items<Handler>) -> M<Items<Handler>>
    ensures { IfOk result (λ left. left
        ≡ filter is_open (map (moved_handler (place_in places.now)) handlers.now)) }
{
    let mut left = Items::new(alloc);
    for handler in handlers.as_slice() {
        if place_in(places, handler.from) < place_in(places, handler.to) {
            left.push(new_handler(places, handler)?)?;
        }
    }
    Ok(left)
}

/// The code after the acts of a step. Each instruction that stays is copied once.
pub(crate) fn changed(alloc: Global, tables: &Tables, code: &Code) -> M<Code>
    requires { length tables.now.lives.items < 4294967295 }
    ensures { IfOk result (λ new. new ≡ changed tables.now code.now) }
{
    let places = places(alloc, &tables.lives)?;
    Ok(Code {
        max_stack: code.max_stack,
        max_locals: code.max_locals,
        ins: left_ins(alloc, tables, &places, &code.ins)?,
        handlers: left_handlers(alloc, &places, &code.handlers)?,
        frames: Frames::new(alloc),
    })
}
