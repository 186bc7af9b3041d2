// Where a branch or switch leads whose operands are known (JVMS 6.5.if_cond, 6.5.if_icmp_cond,
// 6.5.tableswitch, 6.5.lookupswitch).
ghost use Rattle.std.specs.Prelude.{◌≡◌, ◌<◌, ◌+◌, ◌-ℤ◌, [], ◌∷◌, pos};
ghost use Rattle.std.specs.Option.{option_and_then, unwrap_or};
ghost use Rattle.code_edit.specs.Deciding.{decided, is_met, lookup_case, table_case, taken};
ghost use Rattle.const_tables.specs.Distance.{IsDistance};

use class_model::{Case, Cond, Op};

fn is_met(condition: Cond, left: i32, right: i32) -> bool
    ensures { result ≡ is_met condition left right }
{
    match condition {
        Cond::Eq => left == right,
        Cond::Ne => left != right,
        Cond::Lt => left < right,
        Cond::Ge => left >= right,
        Cond::Gt => left > right,
        Cond::Le => left <= right,
    }
}

fn taken(met: bool, to: u32) -> Option<u32>
    ensures { result ≡ taken met to }
{
    if met { Some(to) } else { None }
}

/// How far an int is from another one, unless it is below it.
fn distance(low: i32, key: i32) -> Option<usize>
    ensures { IsDistance result (key -ℤ low) }
{
    let distance = i64::from(key) - i64::from(low);
    if distance < 0 {
        return None;
    }
    Some(distance.unsigned_abs() as usize)
}

fn item_or(cases: &[u32], index: usize, other: u32) -> u32
    ensures { result ≡ unwrap_or (table_case cases.now (pos index)) other }
{
    match cases.get(index) {
        Some(to) => *to,
        None => other,
    }
}

fn table_case(cases: &[u32], low: i32, other: u32, key: i32) -> u32
    ensures { result ≡ unwrap_or (table_case cases.now (key -ℤ low)) other }
{
    match distance(low, key) {
        Some(index) => item_or(cases, index, other),
        None => other,
    }
}

fn lookup_case(cases: &[Case], other: u32, key: i32) -> u32
    ensures { result ≡ unwrap_or (lookup_case cases.now key) other }
{
    for case in cases {
        if case.key == key {
            return case.to;
        }
    }
    other
}

/// Where a branch or switch leads with one operand.
fn decided_by_one(op: &Op, operand: i32) -> Option<Option<u32>>
    ensures { result ≡ decided op.now (operand ∷ []) }
{
    match op {
        Op::IfZero(condition, to) => Some(taken(is_met(*condition, operand, 0), *to)),
        Op::TableSwitch { low, other, cases } => {
            Some(Some(table_case(cases.as_slice(), *low, *other, operand)))
        }
        Op::LookupSwitch { other, cases } => {
            Some(Some(lookup_case(cases.as_slice(), *other, operand)))
        }
        _ => None,
    }
}

/// Where a branch leads with two operands, the second one being on the top.
fn decided_by_two(op: &Op, first: i32, second: i32) -> Option<Option<u32>>
    ensures { result ≡ decided op.now (second ∷ first ∷ []) }
{
    match op {
        Op::IfCmp(condition, to) => Some(taken(is_met(*condition, first, second), *to)),
        _ => None,
    }
}

// ---- operands that may be known

/// To the target, or to the next index.
fn landed(point: Option<Option<u32>>, at: u32) -> Option<u32>
    requires { at < 4294967295 }
    ensures { result ≡ option_and_then (λ p. Some (unwrap_or p (at + 1))) point }
{
    match point {
        Some(Some(to)) => Some(to),
        Some(None) => Some(at + 1),
        None => None,
    }
}

/// Where a branch or switch at an index leads, if its one operand is known.
pub fn led_by_one(op: &Op, operand: Option<i32>, at: u32) -> Option<u32>
    requires { at < 4294967295 }
    ensures { result ≡ option_and_then (λ z. option_and_then (λ p. Some (unwrap_or p (at + 1)))
        (decided op.now (z ∷ []))) operand }
{
    match operand {
        Some(operand) => landed(decided_by_one(op, operand), at),
        None => None,
    }
}

fn led_by_second(op: &Op, first: i32, second: Option<i32>, at: u32) -> Option<u32>
    requires { at < 4294967295 }
    ensures { result ≡ option_and_then (λ b. option_and_then (λ p. Some (unwrap_or p (at + 1)))
        (decided op.now (b ∷ first ∷ []))) second }
{
    match second {
        Some(second) => landed(decided_by_two(op, first, second), at),
        None => None,
    }
}

/// Where a branch at an index leads, if its two operands are known.
pub fn led_by_two(op: &Op, first: Option<i32>, second: Option<i32>, at: u32) -> Option<u32>
    requires { at < 4294967295 }
    ensures { result ≡ option_and_then (λ a. option_and_then (λ b. option_and_then
        (λ p. Some (unwrap_or p (at + 1))) (decided op.now (b ∷ a ∷ []))) second) first }
{
    match first {
        Some(first) => led_by_second(op, first, second, at),
        None => None,
    }
}
