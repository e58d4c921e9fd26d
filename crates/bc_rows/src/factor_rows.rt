//! Runs of `factor`: what is written for boundaries whose terms share literals and for such as have one term or none, what
//! points stand to it, and each refusal.

use crate::case::{Case, run_on};
use crate::size_rows::{circles, is_refused, lines, triangles};
use std::alloc::Global;
use std::test::Fail;

const TETRA: &str = "OFF\n4 4 6\n0 0 0\n1 0 0\n0 1 0\n0 0 1\n3 0 2 1\n3 0 1 3\n3 0 3 2\n3 1 2 3\n";

// One term, so nothing is shared.
const TETRA_TEXT: &str =
    "// bcsg 2 solid\n// box -1 -1 -1 2 2 2\nunion() {\n  difference() {\n    intersection() {\n      translate([-1,-1,-1]) cube([3,3,3]);\n      translate([-8192,-8192,0]) cube([16384,16384,8192]);\n      translate([-8192,0,-8192]) cube([16384,8192,16384]);\n      translate([0,-8192,-8192]) cube([8192,16384,16384]);\n    }\n    multmatrix([[1,1,1,1],[-1,0,1,0],[0,-1,1,0],[0,0,0,1]]) translate([-8192,-8192,0]) cube([16384,16384,8192]);\n  }\n}\n";

const NO_SOLID_TEXT: &str = "// bcsg 2 solid\n// box -1 -1 -1 1 1 1\nunion() {\n}\n";

const NOTHING_TEXT: &str = "// bcsg 2 contour\n// box -1 -1 1 1\nunion() {\n}\n";

// Two squares side by side: each is above y = 0 and not above y = 1.
const SQUARES: &str =
    "G00 X0 Y0\nG01 X1 Y0\nX1 Y1\nX0 Y1\nX0 Y0\nG00 X2 Y0\nG01 X3 Y0\nX3 Y1\nX2 Y1\nX2 Y0\n";

const SQUARES_TEXT: &str =
    "// bcsg 2 contour\n// box -1 -1 4 2\nunion() {\n  difference() {\n    intersection() {\n      translate([-8192,0,0]) square([16384,8192]);\n      union() {\n        difference() {\n          intersection() {\n            translate([-1,-1,0]) square([5,3]);\n            translate([-8191,-8192,0]) square([8192,16384]);\n          }\n          translate([-8192,-8191,0]) square([8192,16384]);\n        }\n        difference() {\n          intersection() {\n            translate([-1,-1,0]) square([5,3]);\n            translate([-8189,-8192,0]) square([8192,16384]);\n          }\n          translate([-8190,-8191,0]) square([8192,16384]);\n        }\n      }\n    }\n    translate([-8191,1,0]) square([16384,8192]);\n  }\n}\n";

const OPEN_APART: &str =
    "OFF\n12 3 0\n0 0 0\n0 1 0\n1 0 0\n0 0 0\n1 0 0\n0 0 1\n0 0 0\n0 0 1\n0 1 0\n1 0 0\n0 1 0\n0 0 1\n3 0 1 2\n3 3 4 5\n3 6 7 8\n";

// An angle of eight faces.
const ELL: &str =
    "OFF 12 8 0\n0 0 0\n2 0 0\n2 1 0\n1 1 0\n1 2 0\n0 2 0\n0 0 1\n2 0 1\n2 1 1\n1 1 1\n1 2 1\n0 2 1\n6 0 1 2 3 4 5\n6 6 7 8 9 10 11\n4 0 1 7 6\n4 1 2 8 7\n4 2 3 9 8\n4 3 4 10 9\n4 4 5 11 10\n4 5 0 6 11\n";

const RUNS: [Case; 14] = [
    Case {
        words: "factor off",
        input: TETRA,
        code: 0,
        out: TETRA_TEXT,
        notes: "",
    },
    Case {
        words: "factor off",
        input: "OFF 0 0 0",
        code: 0,
        out: NO_SOLID_TEXT,
        notes: "",
    },
    Case {
        words: "factor contour",
        input: "",
        code: 0,
        out: NOTHING_TEXT,
        notes: "",
    },
    Case {
        words: "factor contour",
        input: SQUARES,
        code: 0,
        out: SQUARES_TEXT,
        notes: "",
    },
    Case {
        words: "factor",
        input: TETRA,
        code: 3,
        out: "",
        notes: "usage: unknown command line\n",
    },
    Case {
        words: "factor of",
        input: TETRA,
        code: 3,
        out: "",
        notes: "usage: unknown command line\n",
    },
    Case {
        words: "factor off now",
        input: TETRA,
        code: 3,
        out: "",
        notes: "usage: unknown command line\n",
    },
    Case {
        words: "factors off",
        input: TETRA,
        code: 3,
        out: "",
        notes: "usage: unknown command line\n",
    },
    Case {
        words: "factor off",
        input: "OFF 3 1\n",
        code: 2,
        out: "",
        notes: "refused: BadCount line 1 word 4\n",
    },
    Case {
        words: "factor off",
        input: OPEN_APART,
        code: 2,
        out: "",
        notes: "refused: OddEdge 0 1 0 1 0 0 count 1\n",
    },
    Case {
        words: "factor contour",
        input: "G01 X1 (\n",
        code: 2,
        out: "",
        notes: "refused: BadWord line 1 word 3\n",
    },
    Case {
        words: "factor contour",
        input: "G00 X5 Y0\nG02 X5 Y0 I0 J0\n",
        code: 2,
        out: "",
        notes: "refused: ZeroRadius element 0\n",
    },
    Case {
        words: "factor contour",
        input: "G01 X1\n",
        code: 2,
        out: "",
        notes: "refused: OpenContour line 2 from 0 0 to 1 0\n",
    },
    Case {
        words: "factor contour",
        input: TETRA,
        code: 2,
        out: "",
        notes: "refused: BadWord line 1 word 1\n",
    },
];

#[test]
fn each_run_of_factor_has_its_status_text_and_line(rt: HostRuntime) -> Result<(), Fail> {
    for case in &RUNS {
        let end = run_on(rt.alloc(), case.words, case.input.as_bytes())?;
        assert_eq!(rt; end.status.code(), case.code);
        assert_eq!(rt; end.out.held(), case.out.as_bytes());
        assert_eq!(rt; end.notes.held(), case.notes.as_bytes());
    }
    Ok(())
}

// What `ask` says of a text at three points.
fn told(alloc: Global, text: &[u8], points: &[&'static str; 3]) -> Result<String, Fail> {
    let mut told = String::new(alloc);
    for point in points {
        let end = run_on(alloc, point, text)?;
        told.push_str(str::from_utf8(end.out.held()).map_err(|_| "text")?)?;
    }
    Ok(told)
}

// A factored text is read like any other, and means what the boundary is: in the foot, in the notch, in the wall.
#[test]
fn points_stand_to_factored_texts(rt: HostRuntime) -> Result<(), Fail> {
    let alloc = rt.alloc();
    let end = run_on(alloc, "factor off", ELL.as_bytes())?;
    assert_eq!(rt; end.status.code(), 0);
    let points = ["ask 1 1 1 2", "ask 3 3 1 2", "ask 3 1 1 2"];
    assert_eq!(rt;
        told(alloc, end.out.held(), &points)?.as_str(),
        "in\nout\nin\n"
    );
    let end = run_on(alloc, "factor contour", SQUARES.as_bytes())?;
    let points = ["ask 1 1 0 2", "ask 3 1 0 2", "ask 5 1 0 2"];
    assert_eq!(rt;
        told(alloc, end.out.held(), &points)?.as_str(),
        "in\nout\nin\n"
    );
    Ok(())
}

#[test]
fn boundaries_past_their_limits_are_not_factored(rt: HostRuntime) -> Result<(), Fail> {
    let alloc = rt.alloc();
    let text = lines(alloc, 41)?;
    assert!(rt;
        is_refused(
            alloc,
            "factor contour",
            text.as_str(),
            "refused: TooManyLines 41\n"
        )?
    );
    let text = circles(alloc, 11)?;
    assert!(rt;
        is_refused(
            alloc,
            "factor contour",
            text.as_str(),
            "refused: TooManyDiscs 11\n"
        )?
    );
    let text = triangles(alloc, 41)?;
    assert!(rt;
        is_refused(
            alloc,
            "factor off",
            text.as_str(),
            "refused: TooManyPlanes 41\n"
        )?
    );
    let blanks = vec![in alloc; b' '; 1_048_577]?;
    let end = run_on(alloc, "factor off", blanks.as_slice())?;
    assert_eq!(rt; end.status.code(), 2);
    assert!(rt; end.out.held().is_empty());
    assert_eq!(rt; end.notes.held(), b"refused: TooLong\n".as_slice());
    Ok(())
}
