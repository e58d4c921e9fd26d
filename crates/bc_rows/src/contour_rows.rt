//! Runs on contours: what is written, each refusal, and where points stand.

use crate::case::{Case, run_on, without_notes};
use std::test::Fail;

const DISC: &str = "G00 X5 Y0\nG03 X5 Y0 I-5 J0\n";

const DISC_TEXT: &str =
    "// bcsg 2 contour\n// box -6 -6 6 6\nunion() {\n  difference() {\n    intersection() {\n      translate([-6,-6,0]) square([12,12]);\n      translate([0,0,0]) circle(r=sqrt(25));\n    }\n  }\n}\n";

const NOTHING_TEXT: &str = "// bcsg 2 contour\n// box -1 -1 1 1\nunion() {\n}\n";

const TWICE: &str =
    "G00 X0 Y0\nG01 X4 Y0\nG01 X4 Y4\nG01 X0 Y4\nG01 X0 Y0\nG00 X0 Y0\nG01 X4 Y0\nG01 X4 Y4\nG01 X0 Y4\nG01 X0 Y0\n";

const TWICE_TEXT: &str = "// bcsg 2 contour\n// box -1 -1 5 5\nunion() {\n}\n";

const TRIANGLE: &str = "G00 X0 Y0\nG01 X4 Y0\nG01 X0 Y4\nG01 X0 Y0\n";

const TRIANGLE_TEXT: &str =
    "// bcsg 2 contour\n// box -1 -1 5 5\nunion() {\n  difference() {\n    intersection() {\n      translate([-1,-1,0]) square([6,6]);\n      translate([-8192,0,0]) square([16384,8192]);\n    }\n    multmatrix([[1,1,0,4],[-1,1,0,0],[0,0,1,0],[0,0,0,1]]) translate([-8192,0,0]) square([16384,8192]);\n    translate([-8192,-8188,0]) square([8192,16384]);\n  }\n}\n";

const BULGE: &str = "G00 X0 Y0\nG01 X10 Y0\nG03 X10 Y10 I0 J5\nG01 X0 Y10\nG01 X0 Y0\n";

const BULGE_TEXT: &str =
    "// bcsg 2 contour\n// box -1 -1 16 11\nunion() {\n  difference() {\n    intersection() {\n      translate([-1,-1,0]) square([17,12]);\n      translate([-8192,0,0]) square([16384,8192]);\n      translate([-8182,-8192,0]) square([8192,16384]);\n    }\n    translate([-8182,10,0]) square([16384,8192]);\n    translate([-8192,-8182,0]) square([8192,16384]);\n  }\n  difference() {\n    intersection() {\n      translate([-1,-1,0]) square([17,12]);\n      translate([10,5,0]) circle(r=sqrt(25));\n    }\n  }\n}\n";

const MAJOR: &str = "G00 X5 Y0\nG03 X0 Y-5 I-5 J0\nG01 X5 Y0\n";

const MAJOR_TEXT: &str =
    "// bcsg 2 contour\n// box -6 -6 6 6\nunion() {\n  difference() {\n    intersection() {\n      translate([-6,-6,0]) square([12,12]);\n      multmatrix([[1,-1,0,5],[1,1,0,0],[0,0,1,0],[0,0,0,1]]) translate([-8192,0,0]) square([16384,8192]);\n      translate([0,0,0]) circle(r=sqrt(25));\n    }\n  }\n}\n";

const ROOT: &str = "G00 X5 Y5\nG03 X-5 Y5 I-5 J-5\nG01 X5 Y5\n";

const ROOT_TEXT: &str =
    "// bcsg 2 contour\n// box -9 -9 9 9\nunion() {\n  difference() {\n    intersection() {\n      translate([-9,-9,0]) square([18,18]);\n      translate([-8187,5,0]) square([16384,8192]);\n      translate([0,0,0]) circle(r=sqrt(50));\n    }\n  }\n}\n";

// Two discs meet in it; what lies on one side of the chord of both and in one disc only has no point.
const LENS: &str = "G00 X0 Y-4\nG03 X0 Y4 I-3 J4\nG03 X0 Y-4 I3 J-4\n";

const LENS_TEXT: &str =
    "// bcsg 2 contour\n// box -9 -6 9 6\nunion() {\n  difference() {\n    intersection() {\n      translate([-9,-6,0]) square([18,12]);\n      translate([-3,0,0]) circle(r=sqrt(25));\n      translate([3,0,0]) circle(r=sqrt(25));\n    }\n  }\n}\n";

const SKEW: &str = "G00 X5 Y0\nG03 X0 Y4 I-5 J0\nG01 X5 Y0\n";

const BOWL: &str = "G00 X-5 Y0\nG03 X5 Y0 I5 J0\nG01 X8 Y5\nG01 X-8 Y5\nG01 X-5 Y0\n";

const RUNS: [Case; 41] = [
    Case {
        words: "convert contour",
        input: DISC,
        code: 0,
        out: DISC_TEXT,
        notes: "",
    },
    Case {
        words: "convert contour",
        input: "g0x5y0\n(a) g2 i-5 ; b",
        code: 0,
        out: DISC_TEXT,
        notes: "",
    },
    Case {
        words: "convert contour",
        input: "",
        code: 0,
        out: NOTHING_TEXT,
        notes: "",
    },
    Case {
        words: "convert contour",
        input: TWICE,
        code: 0,
        out: TWICE_TEXT,
        notes: "",
    },
    Case {
        words: "convert contour",
        input: TRIANGLE,
        code: 0,
        out: TRIANGLE_TEXT,
        notes: "",
    },
    Case {
        words: "convert contour",
        input: BULGE,
        code: 0,
        out: BULGE_TEXT,
        notes: "",
    },
    Case {
        words: "convert contour",
        input: MAJOR,
        code: 0,
        out: MAJOR_TEXT,
        notes: "",
    },
    Case {
        words: "convert contour",
        input: ROOT,
        code: 0,
        out: ROOT_TEXT,
        notes: "",
    },
    Case {
        words: "convert contour",
        input: LENS,
        code: 0,
        out: LENS_TEXT,
        notes: "",
    },
    Case {
        words: "convert contour",
        input: "G00 X5 Y0\nG02 X5 Y0 I0 J0\n",
        code: 2,
        out: "",
        notes: "refused: ZeroRadius element 0\n",
    },
    Case {
        words: "convert contour",
        input: SKEW,
        code: 2,
        out: "",
        notes: "refused: SkewArc element 0 start2 25 end2 16\n",
    },
    Case {
        words: "convert contour",
        input: "G01 X1 (\n",
        code: 2,
        out: "",
        notes: "refused: BadWord line 1 word 3\n",
    },
    Case {
        words: "convert contour",
        input: "G00 X1024 Y0\nG03 X1024 Y0 I0 J5\n",
        code: 2,
        out: "",
        notes: "refused: TooFar line 1 word 2\n",
    },
    Case {
        words: "convert contour",
        input: "G00 X0 Y0\nG03 X0 Y0 I1024 J0\n",
        code: 2,
        out: "",
        notes: "refused: TooFar line 2\n",
    },
    Case {
        words: "convert contour",
        input: "G00 X0 Y0\nG01 X10 Y0\nG00 X5 Y5\n",
        code: 2,
        out: "",
        notes: "refused: OpenContour line 3 from 0 0 to 10 0\n",
    },
    Case {
        words: "convert contour",
        input: "G02 X1 Y0",
        code: 2,
        out: "",
        notes: "refused: MissingCentre line 1\n",
    },
    Case {
        words: "convert",
        input: DISC,
        code: 3,
        out: "",
        notes: "usage: unknown command line\n",
    },
    Case {
        words: "convert contour again",
        input: DISC,
        code: 3,
        out: "",
        notes: "usage: unknown command line\n",
    },
    Case {
        words: "side contour 0 0 0 0",
        input: DISC,
        code: 3,
        out: "",
        notes: "usage: unknown command line\n",
    },
    Case {
        words: "side contour 0 +0 0 1",
        input: DISC,
        code: 3,
        out: "",
        notes: "usage: unknown command line\n",
    },
    Case {
        words: "side contour 1152921504606846977 0 0 1",
        input: DISC,
        code: 2,
        out: "",
        notes: "refused: PointTooFine\n",
    },
    Case {
        words: "side contour 0 0 0 1099511627777",
        input: "?",
        code: 2,
        out: "",
        notes: "refused: PointTooFine\n",
    },
    Case {
        words: "side contour 0 0 1 1",
        input: "?",
        code: 2,
        out: "",
        notes: "refused: PointOffPlane\n",
    },
    Case {
        words: "side contour -5 8 0 1",
        input: BOWL,
        code: 0,
        out: "even\n",
        notes: "",
    },
    Case {
        words: "side contour -5 3 0 1",
        input: BOWL,
        code: 0,
        out: "odd\n",
        notes: "",
    },
    Case {
        words: "side contour -5 0 0 1",
        input: BOWL,
        code: 0,
        out: "edge\n",
        notes: "",
    },
    Case {
        words: "side contour -03 001 -0 1",
        input: MAJOR,
        code: 0,
        out: "odd\n",
        notes: "",
    },
    Case {
        words: "side contour 2 -4 0 1",
        input: MAJOR,
        code: 0,
        out: "even\n",
        notes: "",
    },
    Case {
        words: "side contour 2 -3 0 1",
        input: MAJOR,
        code: 0,
        out: "edge\n",
        notes: "",
    },
    Case {
        words: "side contour 0 0 0 1",
        input: SKEW,
        code: 2,
        out: "",
        notes: "refused: SkewArc element 0 start2 25 end2 16\n",
    },
    Case {
        words: "convert contour",
        input: "X5\n",
        code: 2,
        out: "",
        notes: "refused: MissingMotion line 1\n",
    },
    Case {
        words: "convert contour",
        input: "G91\n",
        code: 2,
        out: "",
        notes: "refused: Incremental line 1 word 1\n",
    },
    Case {
        words: "convert contour",
        input: "G18\n",
        code: 2,
        out: "",
        notes: "refused: UnknownWord line 1 word 1\n",
    },
    Case {
        words: "convert contour",
        input: "G01 X1 X2\n",
        code: 2,
        out: "",
        notes: "refused: TwinWord line 1 word 3\n",
    },
    Case {
        words: "convert contour",
        input: "G01 X1.5\n",
        code: 2,
        out: "",
        notes: "refused: NotWhole line 1 word 2\n",
    },
    Case {
        words: "convert contour",
        input: "G01 X\n",
        code: 2,
        out: "",
        notes: "refused: BadWord line 1 word 2\n",
    },
    Case {
        words: "convert contour",
        input: "G01 X1024\n",
        code: 2,
        out: "",
        notes: "refused: TooFar line 1 word 2\n",
    },
    Case {
        words: "convert contour",
        input: "G00 X0 Y0 Z5\n",
        code: 2,
        out: "",
        notes: "refused: ThreeAxis line 1\n",
    },
    Case {
        words: "convert contour",
        input: "G02 I1024\n",
        code: 2,
        out: "",
        notes: "refused: TooFar line 1\n",
    },
    Case {
        words: "convert contour",
        input: "G01 X1\nM30\n?\n",
        code: 2,
        out: "",
        notes: "refused: OpenContour line 2 from 0 0 to 1 0\n",
    },
    Case {
        words: "convert contour",
        input: "G01 X1\n",
        code: 2,
        out: "",
        notes: "refused: OpenContour line 2 from 0 0 to 1 0\n",
    },
];

#[test]
fn each_run_on_contours_has_its_status_text_and_line(rt: HostRuntime) -> Result<(), Fail> {
    for case in &RUNS {
        let end = run_on(rt.alloc(), case.words, case.input.as_bytes())?;
        assert_eq!(rt; end.status.code(), case.code);
        let out = without_notes(rt.alloc(), end.out.held())?;
        assert_eq!(rt; out.as_str(), case.out);
        assert_eq!(rt; end.notes.held(), case.notes.as_bytes());
    }
    Ok(())
}
