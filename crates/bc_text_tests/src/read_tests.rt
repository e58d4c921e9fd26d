//! CSG texts that are refused, each with its first fault; texts that are read and printed again, the same but for
//! their notes; texts whose axis leaves come out in their short form; and operators nested to the limit.
ghost use Rattle.std.specs.Prelude.{◌≤◌, ◌^◌, length};

use bc_io::MemSink;
use bc_num::{Box2, Box3};
use bc_read::*;
use bc_text::{Head, print};
use bc_tree::has_flat;
use std::alloc::Global;
use std::test::Fail;

// Texts and their first faults.
const REFUSED: [(&[u8], CsgFault); 32] = [
    (b"union(){", CsgFault::BadShape { line: 2, token: 5 }),
    (b"union(){ ? }", CsgFault::BadToken { line: 1, token: 5 }),
    (
        b"intersection(){}",
        CsgFault::BadShape { line: 1, token: 5 },
    ),
    (b"difference(){}", CsgFault::BadShape { line: 1, token: 5 }),
    (
        b"union(){} union(){}",
        CsgFault::Extra { line: 1, token: 6 },
    ),
    (b"union(){} ?", CsgFault::BadToken { line: 1, token: 6 }),
    (
        b"translate([-6,-06,0]) square([12,12]);",
        CsgFault::BadNumber { line: 1, token: 6 },
    ),
    (
        b"translate([-6,-0,0]) square([12,12]);",
        CsgFault::BadNumber { line: 1, token: 6 },
    ),
    (
        b"translate([-6,8388608,0]) square([12,12]);",
        CsgFault::BadNumber { line: 1, token: 6 },
    ),
    (
        b"translate([-6,8388607,0]) square([12,12]);",
        CsgFault::BadFrame { line: 1, token: 1 },
    ),
    (
        b"multmatrix([[2,0,0,0],[0,2,0,0],[0,0,1,0],[0,0,0,1]]) translate([-8192,0,0]) square([16384,8192]);",
        CsgFault::BadFrame { line: 1, token: 1 },
    ),
    (
        b"union(){translate([0,0,0]) square([1,1]);translate([0,0,0]) cube([1,1,1]);}",
        CsgFault::Mixed { line: 1, token: 24 },
    ),
    (
        b"union(){translate([0,0,0]) square([1,1]);translate([0,0,0]) cube([1,1,0]);}",
        CsgFault::BadFrame { line: 1, token: 24 },
    ),
    (b"", CsgFault::BadShape { line: 1, token: 1 }),
    (b"\n", CsgFault::BadShape { line: 2, token: 1 }),
    (b"// union(){}", CsgFault::BadShape { line: 2, token: 1 }),
    (b"}", CsgFault::BadShape { line: 1, token: 1 }),
    (b"union(){}}", CsgFault::Extra { line: 1, token: 6 }),
    (b"union( ){\n-", CsgFault::BadToken { line: 2, token: 5 }),
    (b"union(){ / }", CsgFault::BadToken { line: 1, token: 5 }),
    (
        b"translate([0,0,1]) square([1,1]);",
        CsgFault::BadFrame { line: 1, token: 1 },
    ),
    (
        b"translate([0,0,0]) circle(r=sqrt(0));",
        CsgFault::BadFrame { line: 1, token: 1 },
    ),
    (
        b"translate([0,0,0]) sphere([1,1]);",
        CsgFault::BadShape { line: 1, token: 11 },
    ),
    (
        b"translate([a,0,0]) square([1,1]);",
        CsgFault::BadShape { line: 1, token: 4 },
    ),
    (
        b"multmatrix([[1,0,0,0],[0,1,0,0],[0,0,1,0],[0,0,0,1]]) translate([-8192,0,0]) circle(r=sqrt(1));",
        CsgFault::BadShape { line: 1, token: 55 },
    ),
    (
        b"translate([0,0,0]) square([1,1])",
        CsgFault::BadShape { line: 2, token: 19 },
    ),
    // no short form of an axis leaf: by its corner, its sides, its third number, two normals, a side that is too short
    (
        b"translate([2000,0,0]) square([16384,8192]);",
        CsgFault::BadFrame { line: 1, token: 1 },
    ),
    (
        b"translate([-8192,0,0]) square([16384,16384]);",
        CsgFault::BadFrame { line: 1, token: 1 },
    ),
    (
        b"translate([-8192,0,1]) square([16384,8192]);",
        CsgFault::BadFrame { line: 1, token: 1 },
    ),
    (
        b"translate([-8192,0,0]) cube([16384,8192,8192]);",
        CsgFault::BadFrame { line: 1, token: 1 },
    ),
    (
        b"translate([0,-8192,0]) cube([8191,16384,16384]);",
        CsgFault::BadFrame { line: 1, token: 1 },
    ),
    (
        b"union(){translate([-8192,0,0]) square([16384,8192]);translate([-8192,-8192,0]) cube([16384,16384,8192]);}",
        CsgFault::Mixed { line: 1, token: 24 },
    ),
];

#[test]
fn refused_texts(rt: HostRuntime) -> Result<(), Fail> {
    let alloc = rt.alloc();
    for (text, want) in REFUSED {
        assert!(rt; text.len() < 200);
        match read_csg(alloc, text) {
            Ok(_) => assert!(rt; false, "a tree was read where {want:?} is wanted"),
            Err(fault) => assert_eq!(rt; fault, want),
        }
    }
    Ok(())
}

// Printed texts, with notes and without.
const DISC: &str = "\
// bcsg 2 contour
// box -6 -6 6 6
union() {
  // own 2 -2 1
  difference() {
    intersection() {
      translate([-6,-6,0]) square([12,12]);
      // out -6 -9 2
      translate([0,0,0]) circle(r=sqrt(25));
    }
  }
}
";

const TETRAHEDRON: &str = "\
// bcsg 2 solid
// box -1 -1 -1 2 2 2
union() {
  // own 1 1 1 8
  difference() {
    intersection() {
      translate([-1,-1,-1]) cube([3,3,3]);
      // out 1 1 -1 4
      translate([-8192,-8192,0]) cube([16384,16384,8192]);
      // out 1 -1 1 4
      translate([-8192,0,-8192]) cube([16384,8192,16384]);
      // out -1 1 1 4
      translate([0,-8192,-8192]) cube([8192,16384,16384]);
    }
    // out 1 1 1 1
    multmatrix([[1,1,1,1],[-1,0,1,0],[0,-1,1,0],[0,0,0,1]]) translate([-8192,-8192,0]) cube([16384,16384,8192]);
  }
}
";

const BULGE: &str = "\
// bcsg 2 contour
// box -1 -1 16 11
union() {
  // own 10 10 3
  difference() {
    intersection() {
      translate([-1,-1,0]) square([17,12]);
      // out 10 -1 3
      translate([-8192,0,0]) square([16384,8192]);
      // out 61 5 4
      translate([-8182,-8192,0]) square([8192,16384]);
    }
    // out 10 31 3
    translate([-8182,10,0]) square([16384,8192]);
    // out -1 10 3
    translate([-8192,-8182,0]) square([8192,16384]);
  }
  // own 42 10 3
  difference() {
    intersection() {
      translate([-1,-1,0]) square([17,12]);
      // out -1 10 3
      translate([10,5,0]) circle(r=sqrt(25));
    }
  }
}
";

const PLATE: &str = "\
// bcsg 2 contour
// box -1 -1 41 21
union() {
  difference() {
    intersection() {
      translate([-1,-1,0]) square([42,22]);
      translate([-8187,0,0]) square([16384,8192]);
      multmatrix([[1,-1,0,35],[1,1,0,0],[0,0,1,0],[0,0,0,1]]) translate([-8192,0,0]) square([16384,8192]);
      translate([-8152,-8187,0]) square([8192,16384]);
      multmatrix([[1,1,0,0],[-1,1,0,5],[0,0,1,0],[0,0,0,1]]) translate([-8192,0,0]) square([16384,8192]);
    }
    multmatrix([[1,1,0,40],[-1,1,0,15],[0,0,1,0],[0,0,0,1]]) translate([-8192,0,0]) square([16384,8192]);
    translate([-8157,20,0]) square([16384,8192]);
    multmatrix([[1,-1,0,5],[1,1,0,20],[0,0,1,0],[0,0,0,1]]) translate([-8192,0,0]) square([16384,8192]);
    translate([-8192,-8177,0]) square([8192,16384]);
    translate([12,10,0]) circle(r=sqrt(9));
    translate([28,10,0]) circle(r=sqrt(9));
  }
  difference() {
    intersection() {
      translate([-1,-1,0]) square([42,22]);
      translate([35,5,0]) circle(r=sqrt(25));
    }
  }
  difference() {
    intersection() {
      translate([-1,-1,0]) square([42,22]);
      translate([35,15,0]) circle(r=sqrt(25));
    }
  }
  difference() {
    intersection() {
      translate([-1,-1,0]) square([42,22]);
      translate([5,15,0]) circle(r=sqrt(25));
    }
  }
  difference() {
    intersection() {
      translate([-1,-1,0]) square([42,22]);
      translate([5,5,0]) circle(r=sqrt(25));
    }
  }
}
";

fn square(x0: i64, y0: i64, x1: i64, y1: i64) -> Result<Head, &'static str> {
    if x0 < x1 && y0 < y1 {
        Ok(Head::Contour(Box2 { x0, y0, x1, y1 }))
    } else {
        Err("no box")
    }
}

// The lines of a text that are no notes.
fn without_notes(alloc: Global, text: &str) -> Result<String, &'static str> {
    let mut kept = String::new(alloc);
    for line in text.lines() {
        if !line.trim_start().starts_with("// o") {
            kept.push_str(line).map_err(|_| "memory")?;
            kept.push('\n').map_err(|_| "memory")?;
        }
    }
    Ok(kept)
}

// The text that is printed of the tree that a text spells.
fn printed_again(alloc: Global, text: &[u8], head: &Head) -> Result<MemSink, &'static str>
    requires { length text.now ≤ 2 ^ 28 }
{
    let tree = read_csg(alloc, text).map_err(|_| "not read")?;
    let mut out = MemSink::new(alloc, 4096, 4096, Vec::new(alloc)).map_err(|_| "memory")?;
    print(alloc, &tree, head, &[], &mut out).map_err(|_| "not printed")?;
    Ok(out)
}

#[test]
fn printed_texts(rt: HostRuntime) -> Result<(), Fail> {
    let alloc = rt.alloc();
    let cube = Head::Solid(Box3 {
        x0: -1,
        y0: -1,
        z0: -1,
        x1: 2,
        y1: 2,
        z1: 2,
    });
    for (text, head) in [
        (DISC, square(-6, -6, 6, 6)?),
        (TETRAHEDRON, cube),
        (BULGE, square(-1, -1, 16, 11)?),
        (PLATE, square(-1, -1, 41, 21)?),
    ] {
        assert!(rt; text.len() < 4096);
        let again = printed_again(alloc, text.as_bytes(), &head)?;
        assert_eq!(rt; again.held(), without_notes(alloc, text)?.as_bytes());
        assert!(rt; again.held().len() < 4096);
        let third = printed_again(alloc, again.held(), &head)?;
        assert_eq!(rt; third.held(), again.held());
    }
    Ok(())
}

// Texts, and what an upgrade of them writes: an axis leaf in its short form, whichever way it was written, and no comments.
const UPGRADES: [(&str, &str); 6] = [
    (
        "multmatrix([[1,0,0,0],[0,1,0,0],[0,0,1,0],[0,0,0,1]]) translate([-8192,0,0]) square([16384,8192]);",
        "// bcsg 2 contour\ntranslate([-8192,0,0]) square([16384,8192]);\n",
    ),
    ("union(){}", "// bcsg 2 solid\nunion() {\n}\n"),
    (
        "// both spellings\nintersection(){translate([-8192,0,0]) square([16384,8192]); multmatrix([[1,0,0,0],[0,1,0,0],[0,0,1,0],[0,0,0,1]]) translate([-8192,0,0]) square([16384,8192]);}",
        "// bcsg 2 contour\nintersection() {\n  translate([-8192,0,0]) square([16384,8192]);\n  translate([-8192,0,0]) square([16384,8192]);\n}\n",
    ),
    (
        "difference(){translate([0,0,0])cube([1,1,1]);multmatrix([[0,0,-1,1],[1,0,0,2],[0,1,0,3],[0,0,0,1]])translate([-8192,-8192,0])cube([16384,16384,8192]);}",
        "// bcsg 2 solid\ndifference() {\n  translate([0,0,0]) cube([1,1,1]);\n  translate([-8191,-8190,-8189]) cube([8192,16384,16384]);\n}\n",
    ),
    (
        "translate([-1023,-9215,0]) square([8192,16384]);",
        "// bcsg 2 contour\ntranslate([-1023,-9215,0]) square([8192,16384]);\n",
    ),
    (
        "translate([-9215,-7169,-8192]) cube([8192,16384,16384]);",
        "// bcsg 2 solid\ntranslate([-9215,-7169,-8192]) cube([8192,16384,16384]);\n",
    ),
];

// The text that is printed without a box of the tree that a text spells.
fn upgraded(alloc: Global, text: &[u8]) -> Result<MemSink, &'static str>
    requires { length text.now ≤ 2 ^ 28 }
{
    let tree = read_csg(alloc, text).map_err(|_| "not read")?;
    let head = Head::Plain {
        flat: has_flat(&tree),
    };
    let mut out = MemSink::new(alloc, 4096, 4096, Vec::new(alloc)).map_err(|_| "memory")?;
    print(alloc, &tree, &head, &[], &mut out).map_err(|_| "not printed")?;
    Ok(out)
}

#[test]
fn upgraded_texts(rt: HostRuntime) -> Result<(), Fail> {
    let alloc = rt.alloc();
    for (text, want) in UPGRADES {
        assert!(rt; text.len() < 4096);
        assert_eq!(rt; upgraded(alloc, text.as_bytes())?.held(), want.as_bytes());
        assert!(rt; want.len() < 4096);
        assert_eq!(rt; upgraded(alloc, want.as_bytes())?.held(), want.as_bytes());
    }
    Ok(())
}

#[test]
fn sixty_four_operators(rt: HostRuntime) -> Result<(), Fail> {
    let alloc = rt.alloc();
    for (depth, want) in [
        (64, None),
        (
            65,
            Some(CsgFault::TooDeep {
                line: 1,
                token: 257,
            }),
        ),
    ] {
        let mut text = Vec::new(alloc);
        for _ in 0..depth {
            text.extend_from_slice(b"union(){")?;
        }
        for _ in 0..depth {
            text.push(b'}')?;
        }
        assert!(rt; text.len() < 2000);
        match (read_csg(alloc, &text), want) {
            (Ok(_), None) => {}
            (Err(fault), Some(wanted)) => assert_eq!(rt; fault, wanted),
            _ => assert!(rt; false, "at depth {depth}"),
        }
    }
    Ok(())
}
