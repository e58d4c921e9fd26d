//! Divisors, lowest terms, primitive vectors, reaches of circles, coordinates about their bounds, and lists that take
//! items.
use bc_num::*;
use std::alloc::Global;
use std::test::Fail;

const HUGE: i128 = 1 << 126;

const LARGE: i64 = 1 << 40;

#[test]
fn greatest_common_divisors(rt: HostRuntime) {
    for (a, b, want) in [
        (0, 0, 0),
        (0, -7, 7),
        (1, 0, 1),
        (12, 18, 6),
        (-12, 18, 6),
        (-12, -18, 6),
        (35, 64, 1),
        (HUGE, HUGE, HUGE),
        (-HUGE, 0, HUGE),
        (HUGE, -HUGE + 1, 1),
        (HUGE, 3 * (1 << 100), 1 << 100),
    ] {
        assert!(rt; a.unsigned_abs() <= 1 << 126);
        assert!(rt; b.unsigned_abs() <= 1 << 126);
        assert_eq!(rt; gcd(a, b), want, "of {a} and {b}");
    }
}

#[test]
fn points_in_lowest_terms(rt: HostRuntime) {
    for (x, y, w, lowest) in [
        (0, 0, 1, (0, 0, 1)),
        (0, 0, HUGE, (0, 0, 1)),
        (6, -4, 10, (3, -2, 5)),
        (-6, 4, 3, (-6, 4, 3)),
        (7, 14, 7, (1, 2, 1)),
        (HUGE, -HUGE, HUGE, (1, -1, 1)),
        (-HUGE, 2, 4, (-(HUGE >> 1), 1, 2)),
    ] {
        assert!(rt; x.unsigned_abs() <= 1 << 126);
        assert!(rt; y.unsigned_abs() <= 1 << 126);
        assert!(rt; w.unsigned_abs() <= 1 << 126);
        assert!(rt; w > 0);
        let q = reduce2(P2 { x, y, w });
        assert_eq!(rt; (q.x, q.y, q.w), lowest, "of ({x}, {y}, {w})");
    }
}

#[test]
fn primitive_vectors(rt: HostRuntime) {
    for (x, y, want) in [
        (0, 0, None),
        (5, 0, Some((1, 0))),
        (-5, 0, Some((1, 0))),
        (0, 3, Some((0, 1))),
        (0, -3, Some((0, 1))),
        (6, -4, Some((3, -2))),
        (-6, 4, Some((3, -2))),
        (-6, -4, Some((3, 2))),
        (2046, 1023, Some((2, 1))),
        (-LARGE, LARGE, Some((1, -1))),
        (LARGE, LARGE - 1, Some((LARGE, LARGE - 1))),
    ] {
        assert!(rt; x.unsigned_abs() <= 1 << 40);
        assert!(rt; y.unsigned_abs() <= 1 << 40);
        let found = primitive2(V2 { x, y }).map(|u| (u.x, u.y));
        assert_eq!(rt; found, want, "of ({x}, {y})");
    }
}

#[test]
fn reaches_of_circles(rt: HostRuntime) {
    for (r2, want) in [
        (0, 0),
        (1, 1),
        (2, 2),
        (4, 2),
        (5, 3),
        (8_372_232, 2894),
        (u32::MAX, 65_536),
    ] {
        assert_eq!(rt; reach(r2), want, "of {r2}");
    }
}

#[test]
fn coordinates_at_their_bounds(rt: HostRuntime) {
    for (v, want) in [
        (0, true),
        (1023, true),
        (1024, false),
        (-1023, true),
        (-1024, false),
        (i64::MIN, false),
        (i64::MIN + 1, false),
        (i64::MAX, false),
    ] {
        let found = Coord::new(v).map(|c| c.get());
        assert_eq!(rt; found, want.then_some(v), "of {v}");
    }
}

#[test]
fn lists_take_items_at_their_end(rt: HostRuntime) -> Result<(), Fail> {
    let mut list: List<u64> = List::new(rt.alloc());
    assert_eq!(rt; list.len(), 0);
    list.push(7)?;
    list.push(u64::MAX)?;
    assert_eq!(rt; list.as_slice(), [7, u64::MAX].as_slice());
    assert_eq!(rt; *list.get(1), u64::MAX);
    let vec: Vec<u64> = vec![in rt.alloc(); 3, 4]?;
    let kept = List::from_vec(vec);
    assert_eq!(rt; kept.as_slice(), [3, 4].as_slice());
    Ok(())
}
