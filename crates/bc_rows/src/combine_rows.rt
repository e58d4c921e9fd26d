//! Runs on two boundaries with an operation: what is written, where points stand to it, and each refusal.

use crate::case::{Case, run_on, without_notes};
use std::alloc::Global;
use std::test::Fail;

// A square of side 4, and the same two to the right of it.
const SQUARES: &str =
    "G00 X0 Y0\nG01 X4 Y0\nG01 X4 Y4\nG01 X0 Y4\nG01 X0 Y0\n====\nG00 X2 Y0\nG01 X6 Y0\nG01 X6 Y4\nG01 X2 Y4\nG01 X2 Y0\n";

const INTERSECTION_TEXT: &str =
    "// bcsg 2 contour\n// box -1 -1 7 5\nunion() {\n  difference() {\n    intersection() {\n      translate([-1,-1,0]) square([8,6]);\n      translate([-8192,0,0]) square([16384,8192]);\n      translate([-8188,-8192,0]) square([8192,16384]);\n    }\n    translate([-8188,4,0]) square([16384,8192]);\n    translate([-8190,-8188,0]) square([8192,16384]);\n  }\n}\n";

const DIFFERENCE_TEXT: &str =
    "// bcsg 2 contour\n// box -1 -1 7 5\nunion() {\n  difference() {\n    intersection() {\n      translate([-1,-1,0]) square([8,6]);\n      translate([-8192,0,0]) square([16384,8192]);\n      translate([-8190,-8188,0]) square([8192,16384]);\n    }\n    translate([-8188,4,0]) square([16384,8192]);\n    translate([-8192,-8188,0]) square([8192,16384]);\n  }\n}\n";

const UNION_TEXT: &str =
    "// bcsg 2 contour\n// box -1 -1 7 5\nunion() {\n  difference() {\n    intersection() {\n      translate([-1,-1,0]) square([8,6]);\n      translate([-8192,0,0]) square([16384,8192]);\n      translate([-8186,-8192,0]) square([8192,16384]);\n    }\n    translate([-8188,4,0]) square([16384,8192]);\n    translate([-8192,-8188,0]) square([8192,16384]);\n  }\n}\n";

// A disc, and one in its midst.
const DISCS: &str = "G00 X5 Y0\nG03 I-5\n====\r\nG00 X3 Y0\nG03 I-3\n";

const RING_TEXT: &str =
    "// bcsg 2 contour\n// box -6 -6 6 6\nunion() {\n  difference() {\n    intersection() {\n      translate([-6,-6,0]) square([12,12]);\n      translate([0,0,0]) circle(r=sqrt(25));\n    }\n    translate([0,0,0]) circle(r=sqrt(9));\n  }\n}\n";

const NO_CONTOUR_TEXT: &str = "// bcsg 2 contour\n// box -6 -6 6 6\nunion() {\n}\n";

const TETRA_AND_NOTHING: &str =
    "OFF\n4 4 6\n0 0 0\n1 0 0\n0 1 0\n0 0 1\n3 0 2 1\n3 0 1 3\n3 0 3 2\n3 1 2 3\n====\nOFF 0 0 0\n";

const NOTHING_AND_TETRA: &str =
    "OFF 0 0 0\n====\nOFF\n4 4 6\n0 0 0\n1 0 0\n0 1 0\n0 0 1\n3 0 2 1\n3 0 1 3\n3 0 3 2\n3 1 2 3\n";

const TETRA_TEXT: &str =
    "// bcsg 2 solid\n// box -1 -1 -1 2 2 2\nunion() {\n  difference() {\n    intersection() {\n      translate([-1,-1,-1]) cube([3,3,3]);\n      translate([-8192,-8192,0]) cube([16384,16384,8192]);\n      translate([-8192,0,-8192]) cube([16384,8192,16384]);\n      translate([0,-8192,-8192]) cube([8192,16384,16384]);\n    }\n    multmatrix([[1,1,1,1],[-1,0,1,0],[0,-1,1,0],[0,0,0,1]]) translate([-8192,-8192,0]) cube([16384,16384,8192]);\n  }\n}\n";

const NO_SOLID_TEXT: &str = "// bcsg 2 solid\n// box -1 -1 -1 2 2 2\nunion() {\n}\n";

const RUNS: [Case; 30] = [
    Case {
        words: "combine intersection contour",
        input: SQUARES,
        code: 0,
        out: INTERSECTION_TEXT,
        notes: "",
    },
    Case {
        words: "combine difference contour",
        input: SQUARES,
        code: 0,
        out: DIFFERENCE_TEXT,
        notes: "",
    },
    Case {
        words: "combine union contour",
        input: SQUARES,
        code: 0,
        out: UNION_TEXT,
        notes: "",
    },
    Case {
        words: "combine difference contour",
        input: DISCS,
        code: 0,
        out: RING_TEXT,
        notes: "",
    },
    Case {
        words: "combine difference contour",
        input: "G00 X3 Y0\nG03 I-3\n====\nG00 X5 Y0\nG03 I-5\n",
        code: 0,
        out: NO_CONTOUR_TEXT,
        notes: "",
    },
    Case {
        words: "combine union contour",
        input: "====",
        code: 0,
        out: "// bcsg 2 contour\n// box -1 -1 1 1\nunion() {\n}\n",
        notes: "",
    },
    Case {
        words: "combine union off",
        input: TETRA_AND_NOTHING,
        code: 0,
        out: TETRA_TEXT,
        notes: "",
    },
    Case {
        words: "combine union off",
        input: NOTHING_AND_TETRA,
        code: 0,
        out: TETRA_TEXT,
        notes: "",
    },
    Case {
        words: "combine difference off",
        input: TETRA_AND_NOTHING,
        code: 0,
        out: TETRA_TEXT,
        notes: "",
    },
    Case {
        words: "combine difference off",
        input: NOTHING_AND_TETRA,
        code: 0,
        out: NO_SOLID_TEXT,
        notes: "",
    },
    Case {
        words: "combine intersection off",
        input: TETRA_AND_NOTHING,
        code: 0,
        out: NO_SOLID_TEXT,
        notes: "",
    },
    Case {
        words: "combine",
        input: SQUARES,
        code: 3,
        out: "",
        notes: "usage: unknown command line\n",
    },
    Case {
        words: "combine union",
        input: SQUARES,
        code: 3,
        out: "",
        notes: "usage: unknown command line\n",
    },
    Case {
        words: "combine union disc",
        input: SQUARES,
        code: 3,
        out: "",
        notes: "usage: unknown command line\n",
    },
    Case {
        words: "combine xor contour",
        input: SQUARES,
        code: 3,
        out: "",
        notes: "usage: unknown command line\n",
    },
    Case {
        words: "combine contour union",
        input: SQUARES,
        code: 3,
        out: "",
        notes: "usage: unknown command line\n",
    },
    Case {
        words: "combine union contour contour",
        input: SQUARES,
        code: 3,
        out: "",
        notes: "usage: unknown command line\n",
    },
    Case {
        words: "combine union contour",
        input: "G01 X1\n===\n=====\n",
        code: 2,
        out: "",
        notes: "refused: NoPart\n",
    },
    Case {
        words: "combine union off",
        input: "",
        code: 2,
        out: "",
        notes: "refused: NoPart\n",
    },
    Case {
        words: "combine union contour",
        input: "G00 X0 Y0\nG01 X4 Y0\nG01 X4 Y4\nG01 X0 Y4\nG01 X0 Y0\n====\nG01 X1",
        code: 2,
        out: "",
        notes: "refused: part 2 OpenContour line 2 from 0 0 to 1 0\n",
    },
    Case {
        words: "combine union contour",
        input: "G01 X1\n====\nG01 X1",
        code: 2,
        out: "",
        notes: "refused: OpenContour line 2 from 0 0 to 1 0\n",
    },
    Case {
        words: "combine union contour",
        input: "====\nG91\n",
        code: 2,
        out: "",
        notes: "refused: part 2 Incremental line 1 word 1\n",
    },
    Case {
        words: "combine union contour",
        input: "G00 X5 Y0\nG03 X0 Y4 I-5 J0\nG01 X5 Y0\n====\n====\n",
        code: 2,
        out: "",
        notes: "refused: SkewArc element 0 start2 25 end2 16\n",
    },
    Case {
        words: "combine union contour",
        input: "====\nG00 X5 Y0\nG03 X0 Y4 I-5 J0\nG01 X5 Y0\n",
        code: 2,
        out: "",
        notes: "refused: part 2 SkewArc element 0 start2 25 end2 16\n",
    },
    Case {
        words: "combine union contour",
        input: "====\n====\n",
        code: 2,
        out: "",
        notes: "refused: part 2 BadWord line 1 word 1\n",
    },
    Case {
        words: "combine union off",
        input: "====\nOFF 3 1 0\n0 0 0\n1 0 0\n2 0 0\n3 0 1 2\n",
        code: 2,
        out: "",
        notes: "refused: NotOff line 1\n",
    },
    Case {
        words: "combine union off",
        input: "OFF 0 0 0\n====\n",
        code: 2,
        out: "",
        notes: "refused: part 2 NotOff line 1\n",
    },
    Case {
        words: "combine union off",
        input: "OFF 3 1 0\n0 0 0\n1 0 0\n2 0 0\n3 0 1 2\n====\nOFF\n",
        code: 2,
        out: "",
        notes: "refused: FlatFace face 0\n",
    },
    Case {
        words: "combine union off",
        input: "OFF 0 0 0\n====\nOFF 3 1 0\n0 0 0\n1 0 0\n2 0 0\n3 0 1 2\n",
        code: 2,
        out: "",
        notes: "refused: part 2 FlatFace face 0\n",
    },
    Case {
        words: "combine union off",
        input: "OFF 0 0 0\n====\nOFF 3 1 0\n0 0 0\n1 0 0\n0 1 0\n3 0 1 3\n",
        code: 2,
        out: "",
        notes: "refused: part 2 BadIndex line 5 word 4\n",
    },
];

#[test]
fn each_run_on_two_boundaries_has_its_status_text_and_line(rt: HostRuntime) -> Result<(), Fail> {
    for case in &RUNS {
        let end = run_on(rt.alloc(), case.words, case.input.as_bytes())?;
        assert_eq!(rt; end.status.code(), case.code);
        let out = without_notes(rt.alloc(), end.out.held())?;
        assert_eq!(rt; out.as_str(), case.out);
        assert_eq!(rt; end.notes.held(), case.notes.as_bytes());
    }
    Ok(())
}

// Where a point stands to what the words make of the squares.
fn stands(alloc: Global, words: &str, point: &str, answer: &str) -> Result<bool, Fail> {
    let made = run_on(alloc, words, SQUARES.as_bytes())?;
    let told = run_on(alloc, point, made.out.held())?;
    Ok(told.status.code() == 0 && told.out.held() == answer.as_bytes())
}

#[test]
fn points_of_two_squares_are_where_the_operation_says(rt: HostRuntime) -> Result<(), Fail> {
    let alloc = rt.alloc();
    // In the first alone, in both, and in the second alone.
    let (one, two, three) = ("ask 1 2 0 1", "ask 3 2 0 1", "ask 5 2 0 1");
    let union = "combine union contour";
    assert!(rt; stands(alloc, union, one, "in\n")?);
    assert!(rt; stands(alloc, union, two, "in\n")?);
    assert!(rt; stands(alloc, union, three, "in\n")?);
    let difference = "combine difference contour";
    assert!(rt; stands(alloc, difference, one, "in\n")?);
    assert!(rt; stands(alloc, difference, two, "out\n")?);
    assert!(rt; stands(alloc, difference, three, "out\n")?);
    let intersection = "combine intersection contour";
    assert!(rt; stands(alloc, intersection, one, "out\n")?);
    assert!(rt; stands(alloc, intersection, two, "in\n")?);
    assert!(rt; stands(alloc, intersection, three, "out\n")?);
    Ok(())
}

// A text of so many lines of blanks and comments before its last line.
fn padded(alloc: Global, bytes: u32, last: &str) -> Result<String, Fail> {
    let mut text = String::new(alloc);
    for _ in 0..bytes / 16 {
        text.push_str("               \n")?;
    }
    for _ in 0..bytes % 16 {
        text.push_str("\n")?;
    }
    text.push_str(last)?;
    Ok(text)
}

// How the words end on two parts that are blank but for the line between them.
fn is_refused(
    alloc: Global,
    first: u32,
    second: u32,
    between: &str,
    line: &str,
) -> Result<bool, Fail> {
    let mut text = padded(alloc, first, between)?;
    text.push_str(padded(alloc, second, "")?.as_str())?;
    let end = run_on(alloc, "combine union contour", text.as_str().as_bytes())?;
    Ok(end.out.held().is_empty() == (end.status.code() == 2) && end.notes.held() == line.as_bytes())
}

#[test]
fn parts_and_streams_have_a_greatest_length(rt: HostRuntime) -> Result<(), Fail> {
    let alloc = rt.alloc();
    assert!(rt; is_refused(alloc, 1_048_576, 1_048_576, "====\r\n", "")?);
    assert!(rt;
        is_refused(
            alloc,
            1_048_577,
            1_048_577,
            "====\n",
            "refused: PartTooLong 1\n"
        )?
    );
    assert!(rt;
        is_refused(
            alloc,
            1_048_576,
            1_048_577,
            "====\n",
            "refused: PartTooLong 2\n"
        )?
    );
    assert!(rt; is_refused(alloc, 2_097_160, 0, "", "refused: NoPart\n")?);
    assert!(rt; is_refused(alloc, 2_097_161, 0, "", "refused: TooLong\n")?);
    Ok(())
}

// Edges there and back, one above the other: lines from one height to another, and nothing inside.
fn lines(alloc: Global, low: u32, high: u32) -> Result<String, Fail> {
    let mut text = String::new(alloc);
    for k in low..high {
        text.push_str(format!(in alloc; "G00 X0 Y{k}\nG01 X1\nX0\n")?.as_str())?;
    }
    Ok(text)
}

// How the words end on 20 lines and those from there to 41, of which one may be left out.
fn ends_on_lines(alloc: Global, from: u32, code: u8, line: &str) -> Result<bool, Fail> {
    let mut text = lines(alloc, 0, 20)?;
    text.push_str("====\n")?;
    text.push_str(lines(alloc, from, 41)?.as_str())?;
    let end = run_on(alloc, "combine union contour", text.as_str().as_bytes())?;
    Ok(end.status.code() == code && end.notes.held() == line.as_bytes())
}

#[test]
fn the_limits_are_those_of_both_parts_together(rt: HostRuntime) -> Result<(), Fail> {
    let alloc = rt.alloc();
    // 41 lines in all, and 40.
    assert!(rt; ends_on_lines(alloc, 20, 2, "refused: TooManyLines 41\n")?);
    assert!(rt; ends_on_lines(alloc, 21, 0, "")?);
    Ok(())
}
