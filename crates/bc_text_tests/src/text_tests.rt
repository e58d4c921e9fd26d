//! The texts of trees against texts written by hand: with a head and notes, through buffers of several sizes, at a
//! depth, with a write that fails, and without a box.
ghost use Rattle.std.specs.Prelude.{◌≤◌, ◌<◌, IfOk};
ghost use Rattle.bc_tree.specs.Shape.{shape, AllLeaves, depth};
ghost use Rattle.bc_tree.specs.Leaves.{IsLeaf};
ghost use Rattle.bc_text.specs.Numbered.{Ascend, EndEarly};

use bc_cover::{Blocks, Term};
use bc_io::MemSink;
use bc_num::{Box2, Box3, Disc2, List, P2, P3, V2, V3};
use bc_text::*;
use bc_tree::{Frame2, Frame3, Leaf, Tree, tree_of};
use std::alloc::Global;
use std::test::Fail;

// The texts, as the OpenSCAD language and this project's layout have them, written by hand.
const DISC: &str = "\
// bcsg 2 contour
// box -6 -6 6 6
union() {
  // own 2 -2 1
  difference() {
    intersection() {
      translate([-6,-6,0]) square([12,12]);
      // out -6 -9 2
      translate([0,0,0]) circle(r=sqrt(25));
    }
  }
}
";

const TETRAHEDRON: &str = "\
// bcsg 2 solid
// box -1 -1 -1 2 2 2
union() {
  // own 1 1 1 8
  difference() {
    intersection() {
      translate([-1,-1,-1]) cube([3,3,3]);
      // out 1 1 -1 4
      translate([-8192,-8192,0]) cube([16384,16384,8192]);
      // out 1 -1 1 4
      translate([-8192,0,-8192]) cube([16384,8192,16384]);
      // out -1 1 1 4
      translate([0,-8192,-8192]) cube([8192,16384,16384]);
    }
    // out 1 1 1 1
    multmatrix([[1,1,1,1],[-1,0,1,0],[0,-1,1,0],[0,0,0,1]]) translate([-8192,-8192,0]) cube([16384,16384,8192]);
  }
}
";

const BULGE: &str = "\
// bcsg 2 contour
// box -1 -1 16 11
union() {
  // own 10 10 3
  difference() {
    intersection() {
      translate([-1,-1,0]) square([17,12]);
      // out 10 -1 3
      translate([-8192,0,0]) square([16384,8192]);
      // out 61 5 4
      translate([-8182,-8192,0]) square([8192,16384]);
    }
    // out 10 31 3
    translate([-8182,10,0]) square([16384,8192]);
    // out -1 10 3
    translate([-8192,-8182,0]) square([8192,16384]);
  }
  // own 42 10 3
  difference() {
    intersection() {
      translate([-1,-1,0]) square([17,12]);
      // out -1 10 3
      translate([10,5,0]) circle(r=sqrt(25));
    }
  }
}
";

fn flat(x: i128, y: i128, w: i128) -> Result<Spot, &'static str> {
    if w > 0 {
        Ok(Spot::Flat(P2 { x, y, w }))
    } else {
        Err("no point")
    }
}

fn solid(x: i128, y: i128, z: i128, w: i128) -> Result<Spot, &'static str> {
    if w > 0 {
        Ok(Spot::Solid(P3 { x, y, z, w }))
    } else {
        Err("no point")
    }
}

fn slab(o: V3, n: V3) -> Result<Leaf, &'static str>
    ensures { IfOk result IsLeaf }
{
    match Frame3::new(o, n) {
        Some(f) => Ok(Leaf::Slab(f)),
        None => Err("no frame"),
    }
}

fn strip(o: V2, u: V2) -> Result<Leaf, &'static str>
    ensures { IfOk result IsLeaf }
{
    match Frame2::new(o, u) {
        Some(f) => Ok(Leaf::Strip(f)),
        None => Err("no frame"),
    }
}

fn disc(alloc: Global) -> Result<Tree, &'static str>
    ensures leaves { IfOk result (λ t. AllLeaves IsLeaf (shape t)) }
    ensures nested { IfOk result (λ t. depth (shape t) ≤ 64) }
{
    let block = Leaf::Tile(Box2 {
        x0: -6,
        y0: -6,
        x1: 6,
        y1: 6,
    });
    let literals = [Leaf::Disc(Disc2 {
        c: V2 { x: 0, y: 0 },
        r2: 25,
    })];
    let mut terms = List::new(alloc);
    let term = Term {
        pos: 1,
        neg: 0,
        own: 0,
        blocks: Blocks::new(alloc),
    };
    terms.push(term).map_err(|_| "memory")?;
    tree_of(alloc, block, &literals, &terms).map_err(|_| "memory")
}

fn tetrahedron(alloc: Global) -> Result<Tree, &'static str>
    ensures leaves { IfOk result (λ t. AllLeaves IsLeaf (shape t)) }
    ensures nested { IfOk result (λ t. depth (shape t) ≤ 64) }
{
    let origin = V3 { x: 0, y: 0, z: 0 };
    let literals = [
        slab(origin, V3 { x: 0, y: 0, z: 1 })?,
        slab(origin, V3 { x: 0, y: 1, z: 0 })?,
        slab(origin, V3 { x: 1, y: 0, z: 0 })?,
        slab(V3 { x: 1, y: 0, z: 0 }, V3 { x: 1, y: 1, z: 1 })?,
    ];
    let block = Leaf::Block(Box3 {
        x0: -1,
        y0: -1,
        z0: -1,
        x1: 2,
        y1: 2,
        z1: 2,
    });
    let mut terms = List::new(alloc);
    let term = Term {
        pos: 7,
        neg: 8,
        own: 0,
        blocks: Blocks::new(alloc),
    };
    terms.push(term).map_err(|_| "memory")?;
    tree_of(alloc, block, &literals, &terms).map_err(|_| "memory")
}

fn bulge(alloc: Global) -> Result<Tree, &'static str>
    ensures leaves { IfOk result (λ t. AllLeaves IsLeaf (shape t)) }
    ensures nested { IfOk result (λ t. depth (shape t) ≤ 64) }
{
    let literals = [
        strip(V2 { x: 0, y: 0 }, V2 { x: 1, y: 0 })?,
        strip(V2 { x: 10, y: 0 }, V2 { x: 0, y: 1 })?,
        strip(V2 { x: 10, y: 10 }, V2 { x: 1, y: 0 })?,
        strip(V2 { x: 0, y: 10 }, V2 { x: 0, y: 1 })?,
        Leaf::Disc(Disc2 {
            c: V2 { x: 10, y: 5 },
            r2: 25,
        }),
    ];
    let block = Leaf::Tile(Box2 {
        x0: -1,
        y0: -1,
        x1: 16,
        y1: 11,
    });
    let mut terms = List::new(alloc);
    let term = Term {
        pos: 3,
        neg: 12,
        own: 0,
        blocks: Blocks::new(alloc),
    };
    terms.push(term).map_err(|_| "memory")?;
    let term = Term {
        pos: 16,
        neg: 0,
        own: 0,
        blocks: Blocks::new(alloc),
    };
    terms.push(term).map_err(|_| "memory")?;
    tree_of(alloc, block, &literals, &terms).map_err(|_| "memory")
}

fn text_of(alloc: Global, t: &Tree, head: &Head, notes: &[Note]) -> Result<MemSink, &'static str>
    requires leaves { AllLeaves IsLeaf (shape t.now) }
    requires nested { depth (shape t.now) ≤ 64 }
    requires ascend { Ascend notes.now }
    requires early { EndEarly notes.now }
{
    let mut out = MemSink::new(alloc, 4096, 100, Vec::new(alloc)).map_err(|_| "memory")?;
    print(alloc, t, head, notes, &mut out).map_err(|_| "not printed")?;
    Ok(out)
}

#[test]
fn a_disc(rt: HostRuntime) -> Result<(), Fail> {
    let alloc = rt.alloc();
    let t = disc(alloc)?;
    let head = Head::Contour(Box2 {
        x0: -6,
        y0: -6,
        x1: 6,
        y1: 6,
    });
    let notes = [
        Note {
            place: 1,
            mark: Mark::Own(flat(2, -2, 1)?),
        },
        Note {
            place: 4,
            mark: Mark::Out(flat(-6, -9, 2)?),
        },
    ];
    let out = text_of(alloc, &t, &head, &notes)?;
    assert_eq!(rt; out.held(), DISC.as_bytes());
    Ok(())
}

// The text of a tetrahedron with its notes, through a buffer of this size.
fn tetrahedron_through(alloc: Global, size: usize) -> Result<MemSink, &'static str>
    requires { 0 < size }
{
    let t = tetrahedron(alloc)?;
    let head = Head::Solid(Box3 {
        x0: -1,
        y0: -1,
        z0: -1,
        x1: 2,
        y1: 2,
        z1: 2,
    });
    let notes = [
        Note {
            place: 1,
            mark: Mark::Own(solid(1, 1, 1, 8)?),
        },
        Note {
            place: 4,
            mark: Mark::Out(solid(1, 1, -1, 4)?),
        },
        Note {
            place: 5,
            mark: Mark::Out(solid(1, -1, 1, 4)?),
        },
        Note {
            place: 6,
            mark: Mark::Out(solid(-1, 1, 1, 4)?),
        },
        Note {
            place: 7,
            mark: Mark::Out(solid(1, 1, 1, 1)?),
        },
    ];
    text_through(alloc, &t, &head, &notes, size)
}

#[test]
fn a_tetrahedron_through_any_buffer(rt: HostRuntime) -> Result<(), Fail> {
    let alloc = rt.alloc();
    let out = tetrahedron_through(alloc, 1)?;
    assert_eq!(rt; out.held(), TETRAHEDRON.as_bytes());
    let out = tetrahedron_through(alloc, 7)?;
    assert_eq!(rt; out.held(), TETRAHEDRON.as_bytes());
    let out = tetrahedron_through(alloc, 4096)?;
    assert_eq!(rt; out.held(), TETRAHEDRON.as_bytes());
    Ok(())
}

#[test]
fn a_contour_with_an_arc(rt: HostRuntime) -> Result<(), Fail> {
    let alloc = rt.alloc();
    let t = bulge(alloc)?;
    let head = Head::Contour(Box2 {
        x0: -1,
        y0: -1,
        x1: 16,
        y1: 11,
    });
    let notes = [
        Note {
            place: 1,
            mark: Mark::Own(flat(10, 10, 3)?),
        },
        Note {
            place: 4,
            mark: Mark::Out(flat(10, -1, 3)?),
        },
        Note {
            place: 5,
            mark: Mark::Out(flat(61, 5, 4)?),
        },
        Note {
            place: 6,
            mark: Mark::Out(flat(10, 31, 3)?),
        },
        Note {
            place: 7,
            mark: Mark::Out(flat(-1, 10, 3)?),
        },
        Note {
            place: 8,
            mark: Mark::Own(flat(42, 10, 3)?),
        },
        Note {
            place: 11,
            mark: Mark::Out(flat(-1, 10, 3)?),
        },
    ];
    let out = text_of(alloc, &t, &head, &notes)?;
    assert_eq!(rt; out.held(), BULGE.as_bytes());
    Ok(())
}

// The text of a tree in a sink, through a buffer of this size.
fn text_through(
    alloc: Global,
    t: &Tree,
    head: &Head,
    notes: &[Note],
    size: usize,
) -> Result<MemSink, &'static str>
    requires leaves { AllLeaves IsLeaf (shape t.now) }
    requires nested { depth (shape t.now) ≤ 64 }
    requires ascend { Ascend notes.now }
    requires early { EndEarly notes.now }
    requires room { 0 < size }
{
    let mut buf = vec![in alloc; 0u8; size].map_err(|_| "memory")?;
    let mut out = MemSink::new(alloc, 4096, 4096, Vec::new(alloc)).map_err(|_| "memory")?;
    print_with(t, head, notes, &mut buf, &mut out).map_err(|_| "write")?;
    Ok(out)
}

const DISC_INSIDE: &str = "    union() {
      difference() {
        intersection() {
          translate([-6,-6,0]) square([12,12]);
          translate([0,0,0]) circle(r=sqrt(25));
        }
      }
    }
";

#[test]
fn a_tree_at_a_depth(rt: HostRuntime) -> Result<(), Fail> {
    let alloc = rt.alloc();
    let t = disc(alloc)?;
    let mut buf = [0u8; 5];
    let mut out = MemSink::new(alloc, 4096, 4096, Vec::new(alloc)).map_err(|_| "memory")?;
    assert!(rt; put_tree(&t, 2, &mut buf, &mut out).is_ok());
    assert_eq!(rt; out.held(), DISC_INSIDE.as_bytes());
    // the third write fails
    let mut fails = Vec::new(alloc);
    fails.push(3u64)?;
    let mut out = MemSink::new(alloc, 4096, 4096, fails).map_err(|_| "memory")?;
    assert!(rt; put_tree(&t, 2, &mut buf, &mut out).is_err());
    assert_eq!(rt; out.held(), b"    union(".as_slice());
    Ok(())
}

#[test]
fn without_a_box(rt: HostRuntime) -> Result<(), Fail> {
    let alloc = rt.alloc();
    let down = Tree::Leaf(slab(V3 { x: 1, y: 2, z: 3 }, V3 { x: -1, y: 0, z: 0 })?);
    let out = text_of(alloc, &down, &Head::Plain { flat: false }, &[])?;
    assert_eq!(rt;
        out.held(),
        b"// bcsg 2 solid\ntranslate([-8191,-8190,-8189]) cube([8192,16384,16384]);\n".as_slice()
    );
    let left = Tree::Leaf(strip(V2 { x: 4, y: 5 }, V2 { x: -1, y: 0 })?);
    let out = text_of(alloc, &left, &Head::Plain { flat: true }, &[])?;
    assert_eq!(rt;
        out.held(),
        b"// bcsg 2 contour\ntranslate([-8188,-8187,0]) square([16384,8192]);\n".as_slice()
    );
    Ok(())
}

#[test]
fn what_a_leaf_is_needed_for(rt: HostRuntime) -> Result<(), Fail> {
    let alloc = rt.alloc();
    let left = Tree::Leaf(strip(V2 { x: 4, y: 5 }, V2 { x: -1, y: 0 })?);
    let told = [Note {
        place: 0,
        mark: Mark::Needs(flat(7, 11, 2)?),
    }];
    let out = text_of(alloc, &left, &Head::Plain { flat: true }, &told)?;
    assert_eq!(rt;
        out.held(),
        b"// bcsg 2 contour\n// needs 7 11 2\ntranslate([-8188,-8187,0]) square([16384,8192]);\n".as_slice()
    );
    let untold = [Note {
        place: 0,
        mark: Mark::NeedsUndecided,
    }];
    let out = text_of(alloc, &left, &Head::Plain { flat: true }, &untold)?;
    assert_eq!(rt;
        out.held(),
        b"// bcsg 2 contour\n// needs undecided\ntranslate([-8188,-8187,0]) square([16384,8192]);\n".as_slice()
    );
    Ok(())
}
