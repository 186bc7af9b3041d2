// Where aims lead targets.
ghost use Rattle.std.specs.Prelude.{◌≡◌, ◌==◌, ◌&&◌, ℕ, [], IfOk, OnOk, Some, None, cond};
ghost use Rattle.std.specs.Prelude.{if◌then◌else◌, is_some};
ghost use Rattle.std.specs.BTreeMap.{get};
ghost use Rattle.std.specs.Option.{option_or};
ghost use Rattle.std.specs.Ordering.{is_eq};
ghost use Rattle.code_edit.specs.Jumps.{moved_by};
ghost use Rattle.edit_tables.specs.Aimed.{TellsAims, aimed, kept_aim, target_order};

use code_edit::Act;
use jv_base::M;
use std::alloc::Global;
use std::collections::BTreeMap;

/// Targets that aims move, by index and number, in order.
#[derive(Drop)]
pub struct Aims {
    table: BTreeMap<(usize, usize), u32>,
}

/// No aim.
pub fn no_aims(alloc: Global) -> Aims
    ensures { TellsAims result [] }
{
    Aims {
        table: BTreeMap::new(alloc),
    }
}

/// Whether something is kept of a target.
pub fn is_kept(aims: &Aims, at: usize, which: usize) -> bool
    ensures { result ≡ is_some (kept_aim aims.now at which) }
{
    aims.table.contains_key(&(at, which))
}

fn put(aims: &mut Aims, at: usize, which: usize, to: u32) -> M<()>
    ensures { OnOk result ((place : ℕ × ℕ) → get target_order aims.new.table place
        ≡ cond (is_eq (target_order (at, which) place)) (Some to)
        (get target_order aims.old.table place)) }
{
    aims.table.insert((at, which), to)?;
    Ok(())
}

/// Keeps where a target is moved to, unless something is kept of it.
#[tactic(auto, using(crate::proofs::Aiming::is_there, crate::proofs::Aiming::is_put))]
fn keep(aims: &mut Aims, at: usize, which: usize, to: u32) -> M<()>
    ensures { OnOk result ((index number : ℕ) → kept_aim aims.new index number
        ≡ option_or (kept_aim aims.old index number)
        (if index == at && number == which then Some to else None)) }
{
    if is_kept(aims, at, which) {
        return Ok(());
    }
    put(aims, at, which, to)?;
    Ok(())
}

/// Keeps the aim of an act, where it is one and nothing is kept of its target.
#[tactic(auto, using(crate::proofs::Aiming::or_none))]
pub fn keep_act(aims: &mut Aims, act: &Act) -> M<()>
    ensures { OnOk result ((index number : ℕ) → kept_aim aims.new index number
        ≡ option_or (kept_aim aims.old index number) (moved_by index number act.now)) }
{
    match act {
        Act::Aim { at, which, to } => keep(aims, *at as usize, *which as usize, *to),
        _ => Ok(()),
    }
}

/// The aims of some acts; of two that name one target the first counts.
pub fn aims_of(alloc: Global, acts: &[Act]) -> M<Aims>
    ensures { IfOk result (λ aims. TellsAims aims acts.now) }
{
    let mut aims = no_aims(alloc);
    for act in acts {
        keep_act(&mut aims, act)?;
    }
    Ok(aims)
}

/// Where a target of an index leads.
pub fn aimed(aims: &Aims, at: usize, which: usize, to: u32) -> u32
    ensures { result ≡ aimed aims.now at which to }
{
    match aims.table.get(&(at, which)) {
        Some(to) => *to,
        None => to,
    }
}
