//! Lines and planes through places, sides of points, points where lines or planes meet, mediants, and the walls of
//! boxes, in the plane and in space.
use bc_num::{Box2, Box3, Disc2, P2, P3, V2, V3};
use bc_space::*;

#[test]
fn lines_through_two_places(rt: HostRuntime) {
    for (ax, ay, bx, by, want) in [
        (5, 0, 0, -5, Some((-1, 1, -5))),
        (0, -5, 5, 0, Some((-1, 1, -5))),
        (-4, 7, 2, 3, Some((2, 3, 13))),
        (3, 1, 3, 9, Some((-1, 0, -3))),
        (1023, -1023, -1023, -1023, Some((0, 1, -1023))),
        (1, 1, 1, 1, None),
    ] {
        let (a, b) = (V2 { x: ax, y: ay }, V2 { x: bx, y: by });
        assert!(rt; ax.unsigned_abs() <= 1023 && ay.unsigned_abs() <= 1023);
        assert!(rt; bx.unsigned_abs() <= 1023 && by.unsigned_abs() <= 1023);
        let line = line_through(a, b).map(|l| (l.a, l.b, l.d));
        assert_eq!(rt; line, want, "from {a:?} to {b:?}");
    }
}

#[test]
fn sides(rt: HostRuntime) {
    let line = Line2 { a: -1, b: 1, d: -5 };
    let disc = Disc2 {
        c: V2 { x: 0, y: 0 },
        r2: 25,
    };
    for (x, y, w, of_line, of_disc) in [
        (0i128, 0i128, 1, Side::Above, Side::Above),
        (2, -4, 1, Side::Below, Side::Above),
        (2, -3, 1, Side::On, Side::Above),
        (5, 0, 1, Side::On, Side::On),
        (9, 5, 2, Side::Above, Side::Below),
        (-9, 4, 2, Side::Above, Side::Above),
    ] {
        assert!(rt; x.unsigned_abs() <= 9 && y.unsigned_abs() <= 9);
        assert!(rt; 0 < w && w <= 2);
        let p = P2 { x, y, w };
        assert_eq!(rt; line.side(&p), of_line, "of the line at {p:?}");
        assert_eq!(rt; disc.side(&p), of_disc, "of the disc at {p:?}");
    }
}

#[test]
fn meets_of_two_lines(rt: HostRuntime) {
    let x_axis = Line2 { a: 0, b: 1, d: 0 };
    let y_axis = Line2 { a: -1, b: 0, d: 0 };
    let steep = Line2 { a: 4, b: 2, d: 6 };
    let meet = |g: Line2, h: Line2| {
        let pair = [g, h];
        prove!(pair.len() == 2);
        <Flat as Space>::meet(&pair).map(|p| (p.x, p.y, p.w))
    };
    assert_eq!(rt; meet(x_axis, y_axis), Some((0, 0, 1)));
    assert_eq!(rt; meet(steep, x_axis), Some((3, 0, 2)));
    assert_eq!(rt; meet(x_axis, steep), Some((3, 0, 2)));
    assert_eq!(rt; meet(steep, steep), None);
}

#[test]
fn mediants_and_walls(rt: HostRuntime) {
    let p = P2 { x: 1, y: -2, w: 3 };
    let q = P2 { x: 4, y: 5, w: 1 };
    let m = <Flat as Space>::mix(&p, &q);
    assert_eq!(rt; m, P2 { x: 5, y: 3, w: 4 });
    assert!(rt; !<Flat as Space>::same(&p, &q));
    let bounds = Box2 {
        x0: -5,
        y0: -4,
        x1: 6,
        y1: 7,
    };
    let right = <Flat as Space>::wall(&bounds, 1);
    assert_eq!(rt; (right.a, right.b, right.d), (-1, 0, -6));
    let low = <Flat as Space>::wall(&bounds, 2);
    assert_eq!(rt; (low.a, low.b, low.d), (0, 1, -4));
}

#[test]
fn planes_through_three_places(rt: HostRuntime) {
    let a = V3 { x: 0, y: 0, z: 1 };
    let b = V3 { x: 2, y: 0, z: 1 };
    let c = V3 { x: 0, y: 3, z: 0 };
    let Some(plane) = plane_through(a, b, c) else {
        assert!(rt; false);
        return;
    };
    assert_eq!(rt; (plane.a, plane.b, plane.c, plane.d), (0, 1, 3, 3));
    let origin = P3 {
        x: 0,
        y: 0,
        z: 0,
        w: 1,
    };
    assert_eq!(rt; plane.side(&origin), Side::Below);
    assert!(rt; plane_through(a, b, V3 { x: 7, y: 0, z: 1 }).is_none());
}

#[test]
fn meets_of_three_planes(rt: HostRuntime) {
    let floor = Plane3 {
        a: 0,
        b: 0,
        c: 1,
        d: 0,
    };
    let slope = Plane3 {
        a: 2,
        b: -4,
        c: 6,
        d: 1,
    };
    let upright = Plane3 {
        a: 1,
        b: 1,
        c: 0,
        d: 5,
    };
    let other = Plane3 {
        a: -3,
        b: -3,
        c: 1,
        d: 0,
    };
    let meet = |g: Plane3, h: Plane3, k: Plane3| {
        let three = [g, h, k];
        prove!(three.len() == 3);
        <Solid3 as Space>::meet(&three).map(|p| (p.x, p.y, p.z, p.w))
    };
    assert_eq!(rt; meet(floor, slope, upright), Some((7, 3, 0, 2)));
    assert_eq!(rt; meet(slope, floor, upright), Some((7, 3, 0, 2)));
    assert_eq!(rt; meet(slope, upright, other), Some((-23, 33, 30, 2)));
    assert_eq!(rt; meet(floor, upright, other), None);
    assert_eq!(rt; meet(floor, floor, slope), None);
}

#[test]
fn mediants_and_walls_in_space(rt: HostRuntime) {
    let p = P3 {
        x: 1,
        y: -2,
        z: 8,
        w: 3,
    };
    let q = P3 {
        x: 4,
        y: 5,
        z: -7,
        w: 1,
    };
    let m = <Solid3 as Space>::mix(&p, &q);
    assert_eq!(rt; (m.x, m.y, m.z, m.w), (5, 3, 1, 4));
    assert!(rt; <Solid3 as Space>::same(&p, &p));
    assert!(rt; !<Solid3 as Space>::same(&p, &q));
    let bounds = Box3 {
        x0: -5,
        y0: -4,
        z0: -3,
        x1: 6,
        y1: 7,
        z1: 8,
    };
    let wall = |i: usize| {
        let h = <Solid3 as Space>::wall(&bounds, i);
        (h.a, h.b, h.c, h.d)
    };
    assert_eq!(rt; wall(0), (1, 0, 0, -5));
    assert_eq!(rt; wall(1), (-1, 0, 0, -6));
    assert_eq!(rt; wall(2), (0, 1, 0, -4));
    assert_eq!(rt; wall(3), (0, -1, 0, -7));
    assert_eq!(rt; wall(4), (0, 0, 1, -3));
    assert_eq!(rt; wall(5), (0, 0, -1, -8));
    assert_eq!(rt; <Solid3 as Space>::dim(), 3);
}
