// The methods of a class by their new names.
ghost use Rattle.std.specs.Prelude.{◌≡◌, ◌++◌, ◌∷◌, [], ℕ, List, Some, IfOk, OnOk, map, if◌then◌else◌};
ghost use Rattle.jv_base.specs.Names.{is_text};
ghost use Rattle.retrace_core.specs.OldNames.{candidates};
ghost use Rattle.retrace_core.specs.bodies.Linked.{first_in, kept_in};

use jv_base::M;
use mapping_file::MapMethod;
use std::alloc::Global;
use std::collections::BTreeMap;
use std::marker::Model;

/// The methods of a class. Each new name leads to the first method that has it, and each method to the next with its new
/// name, so that methods with other names cost nothing.
#[derive(Drop)]
pub(crate) struct OldMethods<'a> {
    methods: &'a [MapMethod],
    /// The place of the first method with each new name.
    firsts: BTreeMap<&'a [u8], usize>,
    /// The place of the next method with the new name of each, from the last method on; the end where there is none.
    nexts: Vec<usize>,
}

impl<'a> Model for OldMethods<'a> {
    ghost use Rattle.std.specs.Prelude.{List};
    ghost use Rattle.mapping_file.specs.declared.mapping.MapMethod.{MapMethod};
    ghost use Rattle.retrace_core.specs.bodies.Linked.{AreLinked};

    ghost Value = { List MapMethod };

    ghost view = { λ t. t.methods.now };

    ghost invariant = { λ t. AreLinked t.methods.now 0 t.firsts t.nexts.items };
}

impl<'a> OldMethods<'a> {
    /// The methods of a class.
    pub(crate) fn of(alloc: Global, methods: &'a [MapMethod]) -> M<OldMethods<'a>>
        ensures { IfOk result (λ table. table ≡ methods.now) }
    {
        let mut firsts = BTreeMap::new(alloc);
        let mut nexts = Vec::new(alloc);
        let mut left = methods.len();
        while left > 0 {
            left -= 1;
            put_place(&mut firsts, &mut nexts, &methods[left], left, methods.len())?;
        }
        Ok(OldMethods {
            methods,
            firsts,
            nexts,
        })
    }

    /// The methods with a new name, in their order.
    pub(crate) fn candidates(&self, alloc: Global, name: &[u8]) -> M<Vec<&'a MapMethod>>
        ensures { IfOk result (λ found. map (λ m. m.now) found.items ≡ candidates self.now name.now) }
    {
        let methods = self.methods;
        let mut found = Vec::new(alloc);
        let mut place = first_place(&self.firsts, name, methods.len());
        while place < methods.len() {
            found.push(&methods[place])?;
            place = self.nexts[methods.len() - 1 - place];
        }
        Ok(found)
    }
}

/// The place of the first method with a new name, else the end.
fn first_place(firsts: &BTreeMap<&[u8], usize>, name: &[u8], end: usize) -> usize
    ensures { result ≡ first_in (λ k. k.now) firsts.now.entries name.now end }
{
    match firsts.get(name) {
        Some(place) => *place,
        None => end,
    }
}

/// Puts a method before those that there are: its name leads to it, and it to the next with its name.
fn put_place<'a>(
    firsts: &mut BTreeMap<&'a [u8], usize>,
    nexts: &mut Vec<usize>,
    method: &'a MapMethod,
    place: usize,
    end: usize,
) -> M<()>
    ensures nexts { OnOk result (nexts.new.items
        ≡ nexts.old.items ++ first_in (λ k. k.now) firsts.old.entries method.now.new end ∷ []) }
    ensures firsts { OnOk result ((name : List ℕ) → kept_in (λ k. k.now) firsts.new.entries name
        ≡ (if is_text method.now.new name then Some place else kept_in (λ k. k.now) firsts.old.entries name)) }
{
    let name = method.new.as_bytes();
    nexts.push(first_place(firsts, name, end))?;
    firsts.insert(name, place)?;
    Ok(())
}
