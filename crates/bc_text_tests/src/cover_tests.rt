//! Covers of masks by terms: small ones, one where the choice of the next bit counts, one with an idle term, and rules
//! that are found again from masks in `hidden`. Lists of places are tested too.

mod hidden;

use bc_cover::*;
use hidden::split_masks;
use std::test::Fail;

// More places than are kept without an allocation.
#[test]
fn places_are_kept_in_order(rt: HostRuntime) -> Result<(), Fail> {
    let mut blocks = Blocks::new(rt.alloc());
    for place in 0..20usize {
        assert!(rt; blocks.push(place * place).is_ok());
    }
    assert_eq!(rt; blocks.len(), 20);
    for i in 0..20usize {
        assert_eq!(rt; blocks.as_slice()[i], i * i);
    }
    Ok(())
}

#[test]
fn small_covers(rt: HostRuntime) -> Result<(), Fail> {
    let terms = cover(rt.alloc(), &[1, 3], &[0, 2], 2).map_err(|_| "memory")?;
    assert_eq!(rt; terms.len(), 1);
    let term = terms.get(0);
    assert_eq!(rt; term.pos, 1);
    assert_eq!(rt; term.neg, 0);
    assert!(rt; term.own < 2);
    assert_eq!(rt; term.blocks.len(), 1);
    assert!(rt; term.blocks.get(0) < 2);
    let terms = cover(rt.alloc(), &[], &[5, 1], 3).map_err(|_| "memory")?;
    assert_eq!(rt; terms.len(), 0);
    Ok(())
}

// Were the lowest idle bit dropped first, there would be two terms.
#[test]
fn the_bit_that_most_masks_lack_goes_first(rt: HostRuntime) -> Result<(), Fail> {
    let terms = cover(rt.alloc(), &[2, 6], &[3, 4], 3).map_err(|_| "memory")?;
    assert_eq!(rt; terms.len(), 1);
    let term = terms.get(0);
    assert_eq!(rt; term.pos, 2);
    assert_eq!(rt; term.neg, 1);
    assert_eq!(rt; term.own, 0);
    assert_eq!(rt; term.blocks.get(0), 1);
    assert_eq!(rt; term.blocks.get(1), 0);
    Ok(())
}

// Three terms are made, and the other two hold the masks of the third.
#[test]
fn an_idle_term_is_dropped(rt: HostRuntime) -> Result<(), Fail> {
    let terms = cover(rt.alloc(), &[5, 8, 9, 15], &[0, 11], 4).map_err(|_| "memory")?;
    assert_eq!(rt; terms.len(), 2);
    assert_eq!(rt; terms.get(0).pos, 4);
    assert_eq!(rt; terms.get(0).neg, 0);
    assert_eq!(rt; terms.get(0).own, 3);
    assert_eq!(rt; terms.get(1).pos, 8);
    assert_eq!(rt; terms.get(1).neg, 2);
    assert_eq!(rt; terms.get(1).own, 1);
    Ok(())
}

// Each rule takes the masks whose bits in its first word are its second word.
const RULES: [(u64, u64); 5] = [
    (0x0e1, 0x0a1),
    (0x70a, 0x108),
    (0x910, 0x900),
    (0x046, 0x042),
    (0xc81, 0x400),
];

// For each rule, in order, pos and neg, its own mask, and how many literals it has: from the same steps in Python.
const FOUND: [(u64, u64, usize, usize); 5] = [
    (0x042, 0x004, 0, 3),
    (0x0a1, 0x040, 9, 4),
    (0x108, 0x602, 25, 5),
    (0x400, 0x881, 129, 4),
    (0x900, 0x010, 347, 3),
];

#[test]
fn hidden_rules_are_found(rt: HostRuntime) -> Result<(), Fail> {
    let masks = split_masks(rt.alloc(), 12, 2000, 3, RULES.as_slice())?;
    assert_eq!(rt; masks.inside.len(), 696);
    assert_eq!(rt; masks.outside.len(), 1304);
    let terms = cover(
        rt.alloc(),
        masks.inside.as_slice(),
        masks.outside.as_slice(),
        12,
    )
    .map_err(|_| "memory")?;
    assert_eq!(rt; terms.len(), 5);
    for (term, found) in terms.as_slice().iter().zip(FOUND.iter()) {
        let (pos, neg, own, literals) = *found;
        assert_eq!(rt; term.pos, pos);
        assert_eq!(rt; term.neg, neg);
        assert_eq!(rt; term.own, own);
        assert_eq!(rt; term.blocks.len(), literals);
    }
    Ok(())
}
