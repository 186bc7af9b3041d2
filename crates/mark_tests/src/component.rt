use jv_base::{Items, M};
use mark_core::{System, component_ranks, first_unranked, none_rises, plain_marks, valid};
use std::alloc::Global;
use std::process::Abort;
use std::test::Fail;

// Four items. A bit tells whether one needs another: the low four bits those that the first needs.
fn system(alloc: Global, bits: u32) -> M<System> {
    let mut needs = Items::new(alloc);
    let mut left = bits;
    for _ in 0..4 {
        let mut list = Items::new(alloc);
        for need in 0..4u32 {
            if left % 2 == 1 {
                list.push(need)?;
            }
            left /= 2;
        }
        needs.push(list)?;
    }
    Ok(System {
        n: 4,
        seeds: Items::new(alloc),
        needs,
        pairs: Items::new(alloc),
    })
}

/// The first item that its needs lead to.
fn first_on_cycle(rt: &impl Abort, alloc: Global, bits: u32) -> M<Option<u32>> {
    let mut sys = system(alloc, bits)?;
    for item in 0..4u32 {
        let mut seeds = Vec::new(alloc);
        if let Some(list) = sys.needs.get(item as usize) {
            seeds.extend_from_slice(list.as_slice())?;
        }
        sys.seeds = Items::from_vec(seeds);
        assert!(rt; valid(&sys));
        let marks = plain_marks(alloc, &sys)?;
        if matches!(marks.get(item as usize), Some(true)) {
            return Ok(Some(item));
        }
    }
    Ok(None)
}

#[test]
fn in_each_system_of_four_items_ranks_tell_the_first_on_a_cycle(
    rt: HostRuntime,
) -> Result<(), Fail> {
    let alloc = rt.alloc();
    for bits in 0..65_536 {
        let sys = system(alloc, bits)?;
        let ranks = component_ranks(alloc, sys.needs.as_slice())?;
        assert!(rt; none_rises(sys.needs.as_slice(), ranks.as_slice()));
        assert_eq!(rt; sys.n as usize, sys.needs.len());
        let first = first_unranked(&sys, ranks.as_slice());
        assert!(rt; first == first_on_cycle(&rt, alloc, bits)?);
    }
    Ok(())
}

// Each item needs the next, the last the one before it.
#[test]
fn the_circle_at_the_end_of_a_long_chain_is_found_fast(rt: HostRuntime) -> Result<(), Fail> {
    let alloc = rt.alloc();
    let mut needs = Items::new(alloc);
    for number in 0..20_000u32 {
        let mut list = Items::new(alloc);
        list.push(if number == 19_999 { 19_998 } else { number + 1 })?;
        needs.push(list)?;
    }
    let sys = System {
        n: 20_000,
        seeds: Items::new(alloc),
        needs,
        pairs: Items::new(alloc),
    };
    let ranks = component_ranks(alloc, sys.needs.as_slice())?;
    assert!(rt; none_rises(sys.needs.as_slice(), ranks.as_slice()));
    assert_eq!(rt; sys.n as usize, sys.needs.len());
    assert!(rt; first_unranked(&sys, ranks.as_slice()) == Some(19_998));
    Ok(())
}
