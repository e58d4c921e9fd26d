//! Runs on layers of contours: what is written, and each refusal.

use crate::case::{Case, run_on};
use crate::size_rows::{circles, lines};
use std::alloc::Global;
use std::test::Fail;

const DISC_LAYER: &str =
    "// bcsg 2 prism\n// box -6 -6 -1 6 6 4\nunion() {\n  translate([0,0,0]) linear_extrude(height=3)\n    union() {\n      difference() {\n        intersection() {\n          translate([-6,-6,0]) square([12,12]);\n          translate([0,0,0]) circle(r=sqrt(25));\n        }\n      }\n    }\n}\n";

// A disc below a ring that stands off to one side.
const TWO_LAYERS: &str =
    "// bcsg 2 prism\n// box -6 -6 -8 14 6 3\nunion() {\n  translate([0,0,1]) linear_extrude(height=1)\n    union() {\n      difference() {\n        intersection() {\n          translate([6,-4,0]) square([8,8]);\n          translate([10,0,0]) circle(r=sqrt(9));\n        }\n        translate([10,0,0]) circle(r=sqrt(1));\n      }\n    }\n  translate([0,0,-7]) linear_extrude(height=8)\n    union() {\n      difference() {\n        intersection() {\n          translate([-6,-6,0]) square([12,12]);\n          translate([0,0,0]) circle(r=sqrt(25));\n        }\n      }\n    }\n}\n";

const EMPTY_LAYERS: &str =
    "// bcsg 2 prism\n// box -1 -1 -1 1 1 6\nunion() {\n  translate([0,0,0]) linear_extrude(height=3)\n    union() {\n    }\n  translate([0,0,3]) linear_extrude(height=2)\n    union() {\n    }\n}\n";

const NO_LAYERS: &str = "// bcsg 2 prism\n// box -1 -1 -1 1 1 1\nunion() {\n}\n";

const RUNS: [Case; 31] = [
    Case {
        words: "prism",
        input: "LAYER 0 3\nG00 X5 Y0\nG03 X5 Y0 I-5 J0\n",
        code: 0,
        out: DISC_LAYER,
        notes: "",
    },
    Case {
        words: "prism",
        input: "# a disc\n\nLAYER +0 3.0 # from the ground\r\nG00 X5 Y0\nG03 X5 Y0 I-5 J0",
        code: 0,
        out: DISC_LAYER,
        notes: "",
    },
    // Sections stand in any order, and each has its own box and its own full circles.
    Case {
        words: "prism",
        input: "LAYER 1 2\nG00 X13 Y0\nG03 I-3\nG00 X11\nG03 I-1\nLAYER -7 1\nG00 X5\nG03 I-5\n",
        code: 0,
        out: TWO_LAYERS,
        notes: "",
    },
    Case {
        words: "prism",
        input: "",
        code: 0,
        out: NO_LAYERS,
        notes: "",
    },
    Case {
        words: "prism",
        input: " \n# nothing\n",
        code: 0,
        out: NO_LAYERS,
        notes: "",
    },
    Case {
        words: "prism",
        input: "LAYER 0 3\nLAYER 3 5\n",
        code: 0,
        out: EMPTY_LAYERS,
        notes: "",
    },
    Case {
        words: "prism",
        input: "LAYER 0 3\nLAYER 2 5\n",
        code: 2,
        out: "",
        notes: "refused: Overlap layer 0 layer 1\n",
    },
    // The least second one, and then the least first one.
    Case {
        words: "prism",
        input: "LAYER 5 9\nLAYER 0 2\nLAYER -1 6\nLAYER 5 9\n",
        code: 2,
        out: "",
        notes: "refused: Overlap layer 0 layer 2\n",
    },
    // An overlap comes before the fault of a section.
    Case {
        words: "prism",
        input: "LAYER 0 3\nG01 X1\nLAYER 2 5\n",
        code: 2,
        out: "",
        notes: "refused: Overlap layer 0 layer 1\n",
    },
    // And the fault of a line before an overlap.
    Case {
        words: "prism",
        input: "LAYER 0 3\nLAYER 2 5\nLAYER\n",
        code: 2,
        out: "",
        notes: "refused: BadLayer line 3\n",
    },
    Case {
        words: "prism",
        input: "LAYER 3 3\n",
        code: 2,
        out: "",
        notes: "refused: BadLayer line 1\n",
    },
    Case {
        words: "prism",
        input: "G00 X1\n",
        code: 2,
        out: "",
        notes: "refused: BadLayer line 1\n",
    },
    Case {
        words: "prism",
        input: "\nG00 X1\nLAYER 0 1\n",
        code: 2,
        out: "",
        notes: "refused: BadLayer line 2\n",
    },
    Case {
        words: "prism",
        input: "LAYER 0 1\nLAYER 1 1024\n",
        code: 2,
        out: "",
        notes: "refused: BadLayer line 2\n",
    },
    Case {
        words: "prism",
        input: "LAYER 0 1 2\n",
        code: 2,
        out: "",
        notes: "refused: BadLayer line 1\n",
    },
    Case {
        words: "prism",
        input: "LAYER 0 1.5\n",
        code: 2,
        out: "",
        notes: "refused: BadLayer line 1\n",
    },
    // Lines of a section count from the one behind its first.
    Case {
        words: "prism",
        input: "LAYER 0 1\nG01 X1",
        code: 2,
        out: "",
        notes: "refused: layer 0 OpenContour line 2 from 0 0 to 1 0\n",
    },
    Case {
        words: "prism",
        input: "LAYER 0 3\nG00 X5 Y0\nG03 X5 Y0 I-5 J0\nLAYER 3 5\n\nG01 X1 X2\n",
        code: 2,
        out: "",
        notes: "refused: layer 1 TwinWord line 2 word 3\n",
    },
    // A section knows nothing of the mode and the place in which the one before it ended.
    Case {
        words: "prism",
        input: "LAYER 0 1\nG00 X5 Y0\nG03 I-5\nLAYER 1 2\nI-5\n",
        code: 2,
        out: "",
        notes: "refused: layer 1 MissingMotion line 1\n",
    },
    Case {
        words: "prism",
        input: "LAYER 0 1\nG00 X5 Y0\nLAYER 1 2\nG01 X4\n",
        code: 2,
        out: "",
        notes: "refused: layer 1 OpenContour line 2 from 0 0 to 4 0\n",
    },
    // The end of the program in a section is that of the section alone.
    Case {
        words: "prism",
        input: "LAYER 0 1\nM30\nLAYER 1 2\nM2\nno words\nLAYER 2 3\n?\n",
        code: 2,
        out: "",
        notes: "refused: layer 2 BadWord line 1 word 1\n",
    },
    Case {
        words: "prism",
        input: "LAYER 0 1\nG00 X5 Y0\nG03 X5 Y0 I0 J0\n",
        code: 2,
        out: "",
        notes: "refused: layer 0 ZeroRadius element 0\n",
    },
    Case {
        words: "prism",
        input: "LAYER -3 -1\nLAYER 0 1\nG00 X5 Y0\nG03 X0 Y4 I-5\nG01 X5 Y0\n",
        code: 2,
        out: "",
        notes: "refused: layer 1 SkewArc element 0 start2 25 end2 16\n",
    },
    // The first section at fault, whatever the fault.
    Case {
        words: "prism",
        input: "LAYER 0 1\nG00 X5\nG03 I0\nLAYER 1 2\nG01 X1\n",
        code: 2,
        out: "",
        notes: "refused: layer 0 ZeroRadius element 0\n",
    },
    Case {
        words: "prism now",
        input: "",
        code: 3,
        out: "",
        notes: "usage: unknown command line\n",
    },
    Case {
        words: "Prism",
        input: "",
        code: 3,
        out: "",
        notes: "usage: unknown command line\n",
    },
    // A text of layers is no text of a tree, unless it has none.
    Case {
        words: "ask 0 0 0 1",
        input: DISC_LAYER,
        code: 2,
        out: "",
        notes: "refused: BadShape line 4 token 15\n",
    },
    Case {
        words: "ask 0 0 0 1",
        input: EMPTY_LAYERS,
        code: 2,
        out: "",
        notes: "refused: BadShape line 4 token 15\n",
    },
    Case {
        words: "upgrade",
        input: DISC_LAYER,
        code: 2,
        out: "",
        notes: "refused: BadShape line 4 token 15\n",
    },
    Case {
        words: "ask 0 0 0 1",
        input: NO_LAYERS,
        code: 0,
        out: "out\n",
        notes: "",
    },
    // Layers are no contours.
    Case {
        words: "convert contour",
        input: "LAYER 0 3\n",
        code: 2,
        out: "",
        notes: "refused: BadWord line 1 word 1\n",
    },
];

#[test]
fn layers_are_written(rt: HostRuntime) -> Result<(), Fail> {
    let alloc = rt.alloc();
    for case in &RUNS {
        let end = run_on(alloc, case.words, case.input.as_bytes())?;
        assert_eq!(rt; end.status.code(), case.code);
        assert_eq!(rt; end.out.held(), case.out.as_bytes());
        assert_eq!(rt; end.notes.held(), case.notes.as_bytes());
    }
    Ok(())
}

// Empty sections, one on the other.
fn storeys(alloc: Global, n: u32) -> Result<String, Fail> {
    let mut text = String::new(alloc);
    for k in 0..n {
        text.push_str(format!(in alloc; "LAYER {} {}\n", k, k + 1)?.as_str())?;
    }
    Ok(text)
}

#[test]
fn layers_are_at_most_64(rt: HostRuntime) -> Result<(), Fail> {
    let alloc = rt.alloc();
    let end = run_on(alloc, "prism", storeys(alloc, 65)?.as_bytes())?;
    assert_eq!(rt; end.status.code(), 2);
    assert_eq!(rt; end.out.held(), b"".as_slice());
    assert_eq!(rt;
        end.notes.held(),
        b"refused: TooManyLayers line 65\n".as_slice()
    );
    let end = run_on(alloc, "prism", storeys(alloc, 64)?.as_bytes())?;
    assert_eq!(rt; end.status.code(), 0);
    assert!(rt;
        end.out.held().starts_with(
            b"// bcsg 2 prism\n// box -1 -1 -1 1 1 65\nunion() {\n  translate([0,0,0]) linear_extrude(height=1)\n    union() {\n    }\n"
        )
    );
    assert_eq!(rt; end.notes.held(), b"".as_slice());
    Ok(())
}

// A good section, and behind it one of these contours.
fn behind_a_layer(alloc: Global, text: &str) -> Result<String, Fail> {
    Ok(format!(in alloc; "LAYER 0 1\nLAYER 1 2\n{text}")?)
}

#[test]
fn sections_have_limits(rt: HostRuntime) -> Result<(), Fail> {
    let alloc = rt.alloc();
    let text = behind_a_layer(alloc, circles(alloc, 11)?.as_str())?;
    let end = run_on(alloc, "prism", text.as_bytes())?;
    assert_eq!(rt;
        end.notes.held(),
        b"refused: layer 1 TooManyDiscs 11\n".as_slice()
    );
    let text = behind_a_layer(alloc, circles(alloc, 10)?.as_str())?;
    let end = run_on(alloc, "prism", text.as_bytes())?;
    assert_eq!(rt; end.status.code(), 0);
    let text = behind_a_layer(alloc, lines(alloc, 41)?.as_str())?;
    let end = run_on(alloc, "prism", text.as_bytes())?;
    assert_eq!(rt;
        end.notes.held(),
        b"refused: layer 1 TooManyLines 41\n".as_slice()
    );
    let text = behind_a_layer(alloc, lines(alloc, 40)?.as_str())?;
    let end = run_on(alloc, "prism", text.as_bytes())?;
    assert_eq!(rt; end.status.code(), 0);
    Ok(())
}
