//! Runs of `carve`: what is written for parts with and without holes, what points stand to it, and each refusal.

use crate::case::{Case, run_on, without_notes};
use crate::size_rows::{circles, is_refused, lines, triangles};
use std::alloc::Global;
use std::test::Fail;

const TETRA: &str = "OFF\n4 4 6\n0 0 0\n1 0 0\n0 1 0\n0 0 1\n3 0 2 1\n3 0 1 3\n3 0 3 2\n3 1 2 3\n";

// One piece without a hole.
const TETRA_TEXT: &str =
    "// bcsg 2 solid\n// box -1 -1 -1 2 2 2\ndifference() {\n  intersection() {\n    translate([-1,-1,-1]) cube([3,3,3]);\n    translate([-8192,-8192,0]) cube([16384,16384,8192]);\n    translate([-8192,0,-8192]) cube([16384,8192,16384]);\n    translate([0,-8192,-8192]) cube([8192,16384,16384]);\n  }\n  multmatrix([[1,1,1,1],[-1,0,1,0],[0,-1,1,0],[0,0,0,1]]) translate([-8192,-8192,0]) cube([16384,16384,8192]);\n}\n";

const NO_SOLID_TEXT: &str = "// bcsg 2 solid\n// box -1 -1 -1 1 1 1\nunion() {\n}\n";

const NOTHING_TEXT: &str = "// bcsg 2 contour\n// box -1 -1 1 1\nunion() {\n}\n";

// An angle of eight faces: a block less the corner between its arms.
const ELL: &str =
    "OFF 12 8 0\n0 0 0\n2 0 0\n2 1 0\n1 1 0\n1 2 0\n0 2 0\n0 0 1\n2 0 1\n2 1 1\n1 1 1\n1 2 1\n0 2 1\n6 0 1 2 3 4 5\n6 6 7 8 9 10 11\n4 0 1 7 6\n4 1 2 8 7\n4 2 3 9 8\n4 3 4 10 9\n4 4 5 11 10\n4 5 0 6 11\n";

const ELL_TEXT: &str =
    "// bcsg 2 solid\n// box -1 -1 -1 3 3 2\ndifference() {\n  intersection() {\n    translate([-1,-1,-1]) cube([4,4,3]);\n    translate([-8192,-8192,0]) cube([16384,16384,8192]);\n    translate([-8192,0,-8192]) cube([16384,8192,16384]);\n    translate([0,-8190,-8192]) cube([8192,16384,16384]);\n  }\n  translate([-8192,-8192,1]) cube([16384,16384,8192]);\n  translate([2,-8192,-8192]) cube([8192,16384,16384]);\n  translate([-8191,2,-8192]) cube([16384,8192,16384]);\n  intersection() {\n    translate([-8190,1,-8192]) cube([16384,8192,16384]);\n    translate([1,-8191,-8192]) cube([8192,16384,16384]);\n  }\n}\n";

// A cube of four with a void of two in it.
const SHELL: &str =
    "OFF 16 12 0\n0 0 0\n4 0 0\n4 4 0\n0 4 0\n0 0 4\n4 0 4\n4 4 4\n0 4 4\n1 1 1\n3 1 1\n3 3 1\n1 3 1\n1 1 3\n3 1 3\n3 3 3\n1 3 3\n4 0 1 2 3\n4 4 5 6 7\n4 0 1 5 4\n4 1 2 6 5\n4 2 3 7 6\n4 3 0 4 7\n4 8 9 10 11\n4 12 13 14 15\n4 8 9 13 12\n4 9 10 14 13\n4 10 11 15 14\n4 11 8 12 15\n";

const SHELL_TEXT: &str =
    "// bcsg 2 solid\n// box -1 -1 -1 5 5 5\ndifference() {\n  intersection() {\n    translate([-1,-1,-1]) cube([6,6,6]);\n    translate([-8192,-8192,0]) cube([16384,16384,8192]);\n    translate([-8192,0,-8192]) cube([16384,8192,16384]);\n    translate([0,-8188,-8192]) cube([8192,16384,16384]);\n  }\n  translate([-8192,-8192,4]) cube([16384,16384,8192]);\n  translate([4,-8192,-8192]) cube([8192,16384,16384]);\n  translate([-8188,4,-8192]) cube([16384,8192,16384]);\n  difference() {\n    intersection() {\n      translate([-8191,-8191,1]) cube([16384,16384,8192]);\n      translate([-8191,1,-8191]) cube([16384,8192,16384]);\n      translate([1,-8189,-8191]) cube([8192,16384,16384]);\n    }\n    translate([-8191,-8191,3]) cube([16384,16384,8192]);\n    translate([3,-8191,-8191]) cube([8192,16384,16384]);\n    translate([-8189,3,-8191]) cube([16384,8192,16384]);\n  }\n}\n";

const DISC: &str = "G00 X5 Y0\nG03 I-5\n";

const DISC_TEXT: &str =
    "// bcsg 2 contour\n// box -6 -6 6 6\nintersection() {\n  translate([-6,-6,0]) square([12,12]);\n  translate([0,0,0]) circle(r=sqrt(25));\n}\n";

const RING: &str = "G00 X5 Y0\nG03 I-5\nG00 X3 Y0\nG03 I-3\n";

const RING_TEXT: &str =
    "// bcsg 2 contour\n// box -6 -6 6 6\ndifference() {\n  intersection() {\n    translate([-6,-6,0]) square([12,12]);\n    translate([0,0,0]) circle(r=sqrt(25));\n  }\n  translate([0,0,0]) circle(r=sqrt(9));\n}\n";

// Two circles that touch one another.
const TOUCHING: &str = "G00 X5 Y0\nG03 I-5\nG00 X15 Y0\nG03 I-5\n";

const TOUCHING_TEXT: &str =
    "// bcsg 2 contour\n// box -6 -6 16 6\nintersection() {\n  translate([-6,-6,0]) square([22,12]);\n  union() {\n    translate([0,0,0]) circle(r=sqrt(25));\n    translate([10,0,0]) circle(r=sqrt(25));\n  }\n}\n";

// Two squares side by side: a bar less what stands between them.
const SQUARES: &str =
    "G00 X0 Y0\nG01 X1 Y0\nX1 Y1\nX0 Y1\nX0 Y0\nG00 X2 Y0\nG01 X3 Y0\nX3 Y1\nX2 Y1\nX2 Y0\n";

const SQUARES_TEXT: &str =
    "// bcsg 2 contour\n// box -1 -1 4 2\ndifference() {\n  intersection() {\n    translate([-1,-1,0]) square([5,3]);\n    translate([-8192,0,0]) square([16384,8192]);\n    translate([-8189,-8192,0]) square([8192,16384]);\n  }\n  translate([-8191,1,0]) square([16384,8192]);\n  translate([-8192,-8191,0]) square([8192,16384]);\n  difference() {\n    translate([-8190,-8191,0]) square([8192,16384]);\n    translate([-8191,-8192,0]) square([8192,16384]);\n  }\n}\n";

const OPEN_APART: &str =
    "OFF\n12 3 0\n0 0 0\n0 1 0\n1 0 0\n0 0 0\n1 0 0\n0 0 1\n0 0 0\n0 0 1\n0 1 0\n1 0 0\n0 1 0\n0 0 1\n3 0 1 2\n3 3 4 5\n3 6 7 8\n";

const RUNS: [Case; 19] = [
    Case {
        words: "carve off",
        input: TETRA,
        code: 0,
        out: TETRA_TEXT,
        notes: "",
    },
    Case {
        words: "carve off",
        input: "OFF 0 0 0",
        code: 0,
        out: NO_SOLID_TEXT,
        notes: "",
    },
    Case {
        words: "carve off",
        input: ELL,
        code: 0,
        out: ELL_TEXT,
        notes: "",
    },
    Case {
        words: "carve off",
        input: SHELL,
        code: 0,
        out: SHELL_TEXT,
        notes: "",
    },
    Case {
        words: "carve contour",
        input: "",
        code: 0,
        out: NOTHING_TEXT,
        notes: "",
    },
    Case {
        words: "carve contour",
        input: DISC,
        code: 0,
        out: DISC_TEXT,
        notes: "",
    },
    Case {
        words: "carve contour",
        input: RING,
        code: 0,
        out: RING_TEXT,
        notes: "",
    },
    Case {
        words: "carve contour",
        input: TOUCHING,
        code: 0,
        out: TOUCHING_TEXT,
        notes: "",
    },
    Case {
        words: "carve contour",
        input: SQUARES,
        code: 0,
        out: SQUARES_TEXT,
        notes: "",
    },
    Case {
        words: "carve",
        input: TETRA,
        code: 3,
        out: "",
        notes: "usage: unknown command line\n",
    },
    Case {
        words: "carve of",
        input: TETRA,
        code: 3,
        out: "",
        notes: "usage: unknown command line\n",
    },
    Case {
        words: "carve off now",
        input: TETRA,
        code: 3,
        out: "",
        notes: "usage: unknown command line\n",
    },
    Case {
        words: "carves off",
        input: TETRA,
        code: 3,
        out: "",
        notes: "usage: unknown command line\n",
    },
    Case {
        words: "carve off",
        input: "OFF 3 1\n",
        code: 2,
        out: "",
        notes: "refused: BadCount line 1 word 4\n",
    },
    Case {
        words: "carve off",
        input: OPEN_APART,
        code: 2,
        out: "",
        notes: "refused: OddEdge 0 1 0 1 0 0 count 1\n",
    },
    Case {
        words: "carve contour",
        input: "G01 X1 (\n",
        code: 2,
        out: "",
        notes: "refused: BadWord line 1 word 3\n",
    },
    Case {
        words: "carve contour",
        input: "G00 X5 Y0\nG02 X5 Y0 I0 J0\n",
        code: 2,
        out: "",
        notes: "refused: ZeroRadius element 0\n",
    },
    Case {
        words: "carve contour",
        input: "G01 X1\n",
        code: 2,
        out: "",
        notes: "refused: OpenContour line 2 from 0 0 to 1 0\n",
    },
    Case {
        words: "carve contour",
        input: TETRA,
        code: 2,
        out: "",
        notes: "refused: BadWord line 1 word 1\n",
    },
];

#[test]
fn each_run_of_carve_has_its_status_text_and_line(rt: HostRuntime) -> Result<(), Fail> {
    for case in &RUNS {
        let end = run_on(rt.alloc(), case.words, case.input.as_bytes())?;
        assert_eq!(rt; end.status.code(), case.code);
        assert_eq!(rt;
            without_notes(rt.alloc(), end.out.held())?.as_str(),
            case.out
        );
        assert_eq!(rt; end.notes.held(), case.notes.as_bytes());
    }
    Ok(())
}

// What `ask` says of a text at three points.
fn told(alloc: Global, text: &[u8], points: &[&'static str; 3]) -> Result<String, Fail> {
    let mut told = String::new(alloc);
    for point in points {
        let end = run_on(alloc, point, text)?;
        told.push_str(str::from_utf8(end.out.held()).map_err(|_| "text")?)?;
    }
    Ok(told)
}

// A carved text is read like any other, and means what the boundary is: in the foot, in the notch, in the wall.
#[test]
fn points_stand_to_carved_texts(rt: HostRuntime) -> Result<(), Fail> {
    let alloc = rt.alloc();
    let end = run_on(alloc, "carve off", ELL.as_bytes())?;
    assert_eq!(rt; end.status.code(), 0);
    let points = ["ask 1 1 1 2", "ask 3 3 1 2", "ask 3 1 1 2"];
    assert_eq!(rt;
        told(alloc, end.out.held(), &points)?.as_str(),
        "in\nout\nin\n"
    );
    let end = run_on(alloc, "carve contour", SQUARES.as_bytes())?;
    let points = ["ask 1 1 0 2", "ask 3 1 0 2", "ask 5 1 0 2"];
    assert_eq!(rt;
        told(alloc, end.out.held(), &points)?.as_str(),
        "in\nout\nin\n"
    );
    Ok(())
}

#[test]
fn boundaries_past_their_limits_are_not_carved(rt: HostRuntime) -> Result<(), Fail> {
    let alloc = rt.alloc();
    let text = lines(alloc, 41)?;
    assert!(rt;
        is_refused(
            alloc,
            "carve contour",
            text.as_str(),
            "refused: TooManyLines 41\n"
        )?
    );
    let text = circles(alloc, 11)?;
    assert!(rt;
        is_refused(
            alloc,
            "carve contour",
            text.as_str(),
            "refused: TooManyDiscs 11\n"
        )?
    );
    let text = triangles(alloc, 41)?;
    assert!(rt;
        is_refused(
            alloc,
            "carve off",
            text.as_str(),
            "refused: TooManyPlanes 41\n"
        )?
    );
    let blanks = vec![in alloc; b' '; 1_048_577]?;
    let end = run_on(alloc, "carve off", blanks.as_slice())?;
    assert_eq!(rt; end.status.code(), 2);
    assert!(rt; end.out.held().is_empty());
    assert_eq!(rt; end.notes.held(), b"refused: TooLong\n".as_slice());
    Ok(())
}

#[test]
fn boundaries_at_their_limits_are_carved(rt: HostRuntime) -> Result<(), Fail> {
    let alloc = rt.alloc();
    let mut both = lines(alloc, 40)?;
    both.push_str(circles(alloc, 10)?.as_str())?;
    let end = run_on(alloc, "carve contour", both.as_bytes())?;
    assert_eq!(rt; end.status.code(), 0);
    assert!(rt;
        end.out
            .held()
            .starts_with(b"// bcsg 2 contour\n// box -11 -11 11 40\n")
    );
    let end = run_on(alloc, "carve off", triangles(alloc, 40)?.as_bytes())?;
    assert_eq!(rt; end.status.code(), 0);
    assert_eq!(rt;
        end.out.held(),
        b"// bcsg 2 solid\n// box -1 -1 -1 2 2 40\nunion() {\n}\n".as_slice()
    );
    Ok(())
}
