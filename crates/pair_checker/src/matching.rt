// The clauses of a pair whose output was read, and the first that holds.
ghost use Rattle.std.specs.Prelude.{◌≡◌, IfOk, map};
ghost use Rattle.keep_rules.specs.declared.rules.Rules.{Rules};
ghost use Rattle.mark_core.specs.Valid.{Valid};
ghost use Rattle.class_pool.specs.Count.{item_count};
ghost use Rattle.pair_edits.specs.Entries.{edited_class};
ghost use Rattle.pair_edits.specs.Sound.{AreSound};
ghost use Rattle.pair_checker.specs.Clauses.{Finds};
ghost use Rattle.pair_clauses.specs.Codes as coded;
ghost use Rattle.pair_clauses.specs.Members as members;
ghost use Rattle.pair_checker.specs.bodies.Matching.{IsRead, Matches, Tests, no_at};

use crate::answer::{Clause, No};
use attribute_filter::AttributeFilter;
use class_pool::ClassSet;
use fresh_names::TakenNames;
use jv_base::{M, Or};
use mapping_file::Mapping;
use mark_core::System;
use new_names::{ClassNames, NewNames};
use pair_clauses::{
    Place, closed_fault, fixed_fault, member_differs, package_fault, range_fault, seed_fault,
    shape_fault,
};
use pair_edits::{Entries, code_differs, illegal_edit, stray_entry};
use std::alloc::Global;
use witness_file::Witness;

/// A pair that was read, with what its clauses ask for, made once.
#[derive(Clone, Copy)]
pub(crate) struct Pair<'a, 'm, 'w> {
    pub(crate) input: &'a ClassSet,
    pub(crate) output: &'a ClassSet,
    pub(crate) mapping: &'a Mapping,
    pub(crate) witness: &'a Witness,
    /// Its entries, found by the methods that they name.
    pub(crate) entries: &'a Entries<'w>,
    /// The names that the mapping gives.
    pub(crate) names: &'a NewNames<'m>,
    /// Those of each class of the input and of its members.
    pub(crate) given: &'a [ClassNames],
    /// Whether each item of the input has a line.
    pub(crate) lined: &'a [bool],
    /// The names that are fixed, where not all are.
    pub(crate) fixed: &'a Option<TakenNames>,
    /// The attributes that are kept.
    pub(crate) filter: &'a AttributeFilter,
    /// What has to be kept of the input.
    pub(crate) sys: &'a System,
}

/// The first clause that holds, with its first place.
pub(crate) fn check_clauses(alloc: Global, pair: &Pair<'_, '_, '_>) -> Result<(), Or<No>>
    requires valid { Valid pair.now.sys.now }
    requires items { pair.now.sys.now.n ≡ item_count pair.now.input.now }
    requires sound { AreSound pair.now.input.now }
    ensures { (rules : Rules) → IsRead pair.now rules → Matches pair.now.input.now pair.now.output.now
        pair.now.mapping.now rules pair.now.witness.now result }
{
    let clauses = [
        Clause::MapShape,
        Clause::FixedName,
        Clause::Package,
        Clause::SeedLost,
        Clause::NotClosed,
        Clause::MemberDiffers,
        Clause::WitnessStray,
        Clause::EditIllegal,
        Clause::CodeDiffers,
        Clause::LineRange,
    ];
    test_clauses(alloc, pair, &clauses)
}

/// The first of these clauses that holds, with its first place.
fn test_clauses(alloc: Global, pair: &Pair<'_, '_, '_>, clauses: &[Clause]) -> Result<(), Or<No>>
    requires valid { Valid pair.now.sys.now }
    requires items { pair.now.sys.now.n ≡ item_count pair.now.input.now }
    requires sound { AreSound pair.now.input.now }
    ensures { (rules : Rules) → IsRead pair.now rules → Tests pair.now.input.now pair.now.output.now
        pair.now.mapping.now rules pair.now.witness.now clauses.now result }
{
    let [clause, rest @ ..] = clauses else {
        return Ok(());
    };
    match place_of(alloc, pair, *clause)? {
        Some(place) => Err(Or::Fault(no_at(*clause, place))),
        None => test_clauses(alloc, pair, rest),
    }
}

fn no_at(clause: Clause, place: Place) -> No
    ensures { result ≡ no_at clause place }
{
    No {
        clause,
        class: Some(place.class),
        member: place.member,
    }
}

/// The first place of a clause, if it holds.
fn place_of(alloc: Global, pair: &Pair<'_, '_, '_>, clause: Clause) -> M<Option<Place>>
    requires valid { Valid pair.now.sys.now }
    requires items { pair.now.sys.now.n ≡ item_count pair.now.input.now }
    requires sound { AreSound pair.now.input.now }
    ensures { (rules : Rules) → IsRead pair.now rules → IfOk result (Finds pair.now.input.now pair.now.output.now
        pair.now.mapping.now rules pair.now.witness.now clause) }
{
    match clause {
        Clause::OutputFormat | Clause::OutputProfile => Ok(None),
        Clause::MapShape => shape_fault(alloc, pair.input, pair.output, pair.mapping),
        Clause::FixedName => fixed_fault(alloc, pair.fixed, pair.input, pair.given),
        Clause::Package => package_fault(alloc, pair.input, pair.given),
        Clause::SeedLost => seed_fault(alloc, pair.input, pair.lined, pair.sys),
        Clause::NotClosed => closed_fault(alloc, pair.input, pair.lined, pair.sys),
        Clause::MemberDiffers => members_place(alloc, pair),
        Clause::WitnessStray => stray_entry(alloc, pair.input, pair.given, pair.witness),
        Clause::EditIllegal => illegal_edit(alloc, pair.entries, pair.input),
        Clause::CodeDiffers => codes_place(alloc, pair),
        Clause::LineRange => range_fault(alloc, pair.names, pair.input, pair.given, pair.output),
    }
}

fn members_place(alloc: Global, pair: &Pair<'_, '_, '_>) -> M<Option<Place>>
    ensures { IfOk result (members.MemberDiffers pair.now.names.now pair.now.filter.now pair.now.input.now
        pair.now.given.now pair.now.output.now) }
{
    member_differs(
        alloc,
        pair.names,
        pair.filter,
        pair.input,
        pair.given,
        pair.output,
    )
}

fn codes_place(alloc: Global, pair: &Pair<'_, '_, '_>) -> M<Option<Place>>
    requires sound { AreSound pair.now.input.now }
    ensures { IfOk result (coded.CodeDiffers pair.now.names.now pair.now.filter.now
        (map (edited_class pair.now.entries.now) pair.now.input.now) pair.now.given.now pair.now.output.now) }
{
    code_differs(
        alloc,
        pair.names,
        pair.filter,
        pair.entries,
        pair.input,
        pair.given,
        pair.output,
    )
}
