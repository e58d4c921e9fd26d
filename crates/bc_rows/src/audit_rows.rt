//! Runs on a mesh and a CSG text in one stream: whether they mean the same, and each refusal.

use crate::case::{Case, run_on};
use std::alloc::Global;
use std::test::Fail;

const TETRA: &str = "OFF\n4 4 6\n0 0 0\n1 0 0\n0 1 0\n0 0 1\n3 0 2 1\n3 0 1 3\n3 0 3 2\n3 1 2 3\n";

// The tetrahedron, and without the half-space above its floor.
const TREE: &str =
    "union(){difference(){intersection(){translate([-1,-1,-1]) cube([3,3,3]);translate([-8192,-8192,0]) cube([16384,16384,8192]);translate([-8192,0,-8192]) cube([16384,8192,16384]);translate([0,-8192,-8192]) cube([8192,16384,16384]);}multmatrix([[1,1,1,1],[-1,0,1,0],[0,-1,1,0],[0,0,0,1]]) translate([-8192,-8192,0]) cube([16384,16384,8192]);}}";

const CUT: &str =
    "union(){difference(){intersection(){translate([-1,-1,-1]) cube([3,3,3]);translate([-8192,0,-8192]) cube([16384,8192,16384]);translate([0,-8192,-8192]) cube([8192,16384,16384]);}multmatrix([[1,1,1,1],[-1,0,1,0],[0,-1,1,0],[0,0,0,1]]) translate([-8192,-8192,0]) cube([16384,16384,8192]);}}";

// The tetrahedron's slanted face by a slab that is turned over and begins at another corner.
const TURNED: &str =
    "union(){intersection(){translate([-1,-1,-1]) cube([3,3,3]);translate([-8192,-8192,0]) cube([16384,16384,8192]);translate([-8192,0,-8192]) cube([16384,8192,16384]);translate([0,-8192,-8192]) cube([8192,16384,16384]);multmatrix([[-1,-1,-1,0],[1,0,-1,1],[0,1,-1,0],[0,0,0,1]]) translate([-8192,-8192,0]) cube([16384,16384,8192]);}}";

const RUNS: [Case; 17] = [
    Case {
        words: "audit",
        input: "OFF\n4 4 6\n0 0 0\n1 0 0\n0 1 0\n0 0 1\n3 0 2 1\n3 0 1 3\n3 0 3 2\n3 1 2 3\n====\nunion(){difference(){intersection(){translate([-1,-1,-1]) cube([3,3,3]);translate([-8192,-8192,0]) cube([16384,16384,8192]);translate([-8192,0,-8192]) cube([16384,8192,16384]);translate([0,-8192,-8192]) cube([8192,16384,16384]);}multmatrix([[1,1,1,1],[-1,0,1,0],[0,-1,1,0],[0,0,0,1]]) translate([-8192,-8192,0]) cube([16384,16384,8192]);}}",
        code: 0,
        out: "same\n",
        notes: "",
    },
    Case {
        words: "audit",
        input: "OFF\n4 4 6\n0 0 0\n1 0 0\n0 1 0\n0 0 1\n3 0 2 1\n3 0 1 3\n3 0 3 2\n3 1 2 3\n====\r\nunion(){difference(){intersection(){translate([-1,-1,-1]) cube([3,3,3]);translate([-8192,-8192,0]) cube([16384,16384,8192]);translate([-8192,0,-8192]) cube([16384,8192,16384]);translate([0,-8192,-8192]) cube([8192,16384,16384]);}multmatrix([[1,1,1,1],[-1,0,1,0],[0,-1,1,0],[0,0,0,1]]) translate([-8192,-8192,0]) cube([16384,16384,8192]);}}\n",
        code: 0,
        out: "same\n",
        notes: "",
    },
    Case {
        words: "audit",
        input: "OFF\n4 4 6\n0 0 0\n1 0 0\n0 1 0\n0 0 1\n3 0 2 1\n3 0 1 3\n3 0 3 2\n3 1 2 3\n====\ntranslate([0,0,0]) cube([1,1,1]);",
        code: 2,
        out: "",
        notes: "refused: OtherBox\n",
    },
    Case {
        words: "audit",
        input: "OFF\n4 4 6\n0 0 0\n1 0 0\n0 1 0\n0 0 1\n3 0 2 1\n3 0 1 3\n3 0 3 2\n3 1 2 3\n",
        code: 2,
        out: "",
        notes: "refused: NoPart\n",
    },
    Case {
        words: "audit",
        input: "",
        code: 2,
        out: "",
        notes: "refused: NoPart\n",
    },
    Case {
        words: "audit",
        input: "OFF\n4 4 6\n0 0 0\n1 0 0\n0 1 0\n0 0 1\n3 0 2 1\n3 0 1 3\n3 0 3 2\n3 1 2 3\n ====\nunion(){difference(){intersection(){translate([-1,-1,-1]) cube([3,3,3]);translate([-8192,-8192,0]) cube([16384,16384,8192]);translate([-8192,0,-8192]) cube([16384,8192,16384]);translate([0,-8192,-8192]) cube([8192,16384,16384]);}multmatrix([[1,1,1,1],[-1,0,1,0],[0,-1,1,0],[0,0,0,1]]) translate([-8192,-8192,0]) cube([16384,16384,8192]);}}",
        code: 2,
        out: "",
        notes: "refused: NoPart\n",
    },
    Case {
        words: "audit",
        input: "OFF\n4 4 6\n0 0 0\n1 0 0\n0 1 0\n0 0 1\n3 0 2 1\n3 0 1 3\n3 0 3 2\n3 1 2 3\n====\nunion() {\n  difference() {\n    intersection() {\n      translate([-6,-6,0]) square([12,12]);\n      translate([0,0,0]) circle(r=sqrt(25));\n    }\n  }\n}\n",
        code: 2,
        out: "",
        notes: "refused: NotSolid\n",
    },
    Case {
        words: "audit",
        input: "OFF 0 0 0\n====\nunion(){}",
        code: 0,
        out: "same\n",
        notes: "",
    },
    Case {
        words: "audit",
        input: "OFF 0 0 0\n====\nunion(){",
        code: 2,
        out: "",
        notes: "refused: part 2 BadShape line 2 token 5\n",
    },
    Case {
        words: "audit",
        input: "OFF 0 0 0\n====\nunion(){ ? }",
        code: 2,
        out: "",
        notes: "refused: part 2 BadToken line 1 token 5\n",
    },
    Case {
        words: "audit",
        input: "OFF 0 0 0\n====\nunion(){}\n====\n",
        code: 2,
        out: "",
        notes: "refused: part 2 Extra line 2 token 6\n",
    },
    Case {
        words: "audit",
        input: "OFF 0 0 0\n====",
        code: 2,
        out: "",
        notes: "refused: part 2 BadShape line 1 token 1\n",
    },
    Case {
        words: "audit",
        input: "====\nunion(){}",
        code: 2,
        out: "",
        notes: "refused: NotOff line 1\n",
    },
    Case {
        words: "audit",
        input: "OFF 1 0 0\n====\n?",
        code: 2,
        out: "",
        notes: "refused: Short line 2\n",
    },
    Case {
        words: "audit",
        input: "OFF\n3 1 0\n0 0 0\n1 0 0\n2 0 0\n3 0 1 2\n====\n?",
        code: 2,
        out: "",
        notes: "refused: FlatFace face 0\n",
    },
    Case {
        words: "audit",
        input: "OFF\n4 4 6\n0 0 0\n1 0 0\n0 1 0\n0 0 1\n3 0 2 1\n3 0 1 3\n3 0 3 2\n3 1 2 3\n====\nunion(){translate([0,0,0]) cube([1,1,1]);translate([0,0,0]) circle(r=sqrt(4));}",
        code: 2,
        out: "",
        notes: "refused: part 2 Mixed line 1 token 26\n",
    },
    Case {
        words: "audit off",
        input: "",
        code: 3,
        out: "",
        notes: "usage: unknown command line\n",
    },
];

#[test]
fn audits_end_as_their_rows_say(rt: HostRuntime) -> Result<(), Fail> {
    let alloc = rt.alloc();
    for case in &RUNS {
        let end = run_on(alloc, case.words, case.input.as_bytes())?;
        assert_eq!(rt; end.status.code(), case.code);
        assert!(rt; end.out.held() == case.out.as_bytes());
        assert!(rt; end.notes.held() == case.notes.as_bytes());
    }
    Ok(())
}

fn joined(alloc: Global, first: &str, second: &str) -> Result<String, Fail> {
    Ok(format!(in alloc; "{first}====\n{second}")?)
}

// Whether the run on the text is done and writes this.
fn writes(alloc: Global, words: &str, text: &str, want: &str) -> Result<bool, Fail> {
    let end = run_on(alloc, words, text.as_bytes())?;
    Ok(end.status.code() == 0 && end.out.held() == want.as_bytes())
}

#[test]
fn a_slab_may_be_turned_over(rt: HostRuntime) -> Result<(), Fail> {
    let alloc = rt.alloc();
    let text = joined(alloc, TETRA, TURNED)?;
    assert!(rt; writes(alloc, "audit", text.as_str(), "same\n")?);
    Ok(())
}

// The text without a literal differs, and where it does the tree holds and the crossings are even.
#[test]
fn a_differing_point_is_asked(rt: HostRuntime) -> Result<(), Fail> {
    let alloc = rt.alloc();
    let text = joined(alloc, TETRA, CUT)?;
    let end = run_on(alloc, "audit", text.as_bytes())?;
    assert_eq!(rt; end.status.code(), 0);
    let told = str::from_utf8(end.out.held()).map_err(|_| "text")?;
    let point = told.strip_prefix("differs ").ok_or("same")?.trim_end();
    let ask = format!(in alloc; "ask {point}")?;
    let side = format!(in alloc; "side off {point}")?;
    assert!(rt; writes(alloc, ask.as_str(), CUT, "in\n")?);
    assert!(rt; writes(alloc, ask.as_str(), TREE, "out\n")?);
    assert!(rt; writes(alloc, side.as_str(), TETRA, "even\n")?);
    Ok(())
}

// Slabs one above the other, on n planes that the tetrahedron has not.
fn slabs(alloc: Global, n: u8) -> Result<String, Fail> {
    let mut text = String::from_str(alloc, "union(){")?;
    for k in 1..u32::from(n) + 1 {
        text.push_str(format!(in alloc;
            "translate([-8192,-8192,{k}]) cube([16384,16384,8192]);"
        )?.as_str())?;
    }
    text.push_str("}")?;
    Ok(text)
}

#[test]
fn planes_of_both_are_counted_once(rt: HostRuntime) -> Result<(), Fail> {
    let alloc = rt.alloc();
    let few = joined(alloc, TETRA, slabs(alloc, 36)?.as_str())?;
    let end = run_on(alloc, "audit", few.as_bytes())?;
    assert_eq!(rt; end.status.code(), 0);
    let many = joined(alloc, TETRA, slabs(alloc, 37)?.as_str())?;
    let end = run_on(alloc, "audit", many.as_bytes())?;
    assert_eq!(rt; end.status.code(), 2);
    assert!(rt; end.notes.held() == b"refused: TooManyPlanes 41\n".as_slice());
    Ok(())
}

// A first part of one line of blanks, and so one byte more than a boundary text may have.
#[test]
fn a_first_part_may_be_too_long(rt: HostRuntime) -> Result<(), Fail> {
    let alloc = rt.alloc();
    let mut text = vec![in alloc; b' '; 1_048_576]?;
    text.extend_from_slice(b"\n====\n")?;
    let end = run_on(alloc, "audit", text.as_slice())?;
    assert_eq!(rt; end.status.code(), 2);
    assert!(rt; end.notes.held() == b"refused: PartTooLong 1\n".as_slice());
    Ok(())
}
