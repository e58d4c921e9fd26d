//! Runs on CSG texts: where points stand to their trees, and each refusal. And runs on generated boundaries.

use crate::case::{Case, run_on};
use bc_top::{trial_contour, trial_off};
use std::alloc::Global;
use std::test::Fail;

const DISC: &str =
    "// bcsg 1 contour\n// box -6 -6 6 6\nunion() {\n  // own 2 -2 1\n  difference() {\n    intersection() {\n      translate([-6,-6,0]) square([12,12]);\n      // out -6 -9 2\n      translate([0,0,0]) circle(r=sqrt(25));\n    }\n  }\n}\n";

const TETRA: &str =
    "// bcsg 1 solid\n// box -1 -1 -1 2 2 2\nunion() {\n  // own 1 1 1 8\n  difference() {\n    intersection() {\n      translate([-1,-1,-1]) cube([3,3,3]);\n      // out 1 1 -1 4\n      multmatrix([[1,0,0,0],[0,1,0,0],[0,0,1,0],[0,0,0,1]]) translate([-8192,-8192,0]) cube([16384,16384,8192]);\n      // out 1 -1 1 4\n      multmatrix([[1,0,0,0],[0,0,1,0],[0,-1,0,0],[0,0,0,1]]) translate([-8192,-8192,0]) cube([16384,16384,8192]);\n      // out -1 1 1 4\n      multmatrix([[0,0,1,0],[-1,0,0,0],[0,-1,0,0],[0,0,0,1]]) translate([-8192,-8192,0]) cube([16384,16384,8192]);\n    }\n    // out 1 1 1 1\n    multmatrix([[1,1,1,1],[-1,0,1,0],[0,-1,1,0],[0,0,0,1]]) translate([-8192,-8192,0]) cube([16384,16384,8192]);\n  }\n}\n";

// The same without its first literal.
const CUT: &str =
    "// bcsg 1 solid\n// box -1 -1 -1 2 2 2\nunion() {\n  // own 1 1 1 8\n  difference() {\n    intersection() {\n      translate([-1,-1,-1]) cube([3,3,3]);\n      // out 1 1 -1 4\n      // out 1 -1 1 4\n      multmatrix([[1,0,0,0],[0,0,1,0],[0,-1,0,0],[0,0,0,1]]) translate([-8192,-8192,0]) cube([16384,16384,8192]);\n      // out -1 1 1 4\n      multmatrix([[0,0,1,0],[-1,0,0,0],[0,-1,0,0],[0,0,0,1]]) translate([-8192,-8192,0]) cube([16384,16384,8192]);\n    }\n    // out 1 1 1 1\n    multmatrix([[1,1,1,1],[-1,0,1,0],[0,-1,1,0],[0,0,0,1]]) translate([-8192,-8192,0]) cube([16384,16384,8192]);\n  }\n}\n";

const RUNS: [Case; 40] = [
    Case {
        words: "ask 1 1 1 8",
        input: TETRA,
        code: 0,
        out: "in\n",
        notes: "",
    },
    Case {
        words: "ask 1 1 -1 4",
        input: TETRA,
        code: 0,
        out: "out\n",
        notes: "",
    },
    Case {
        words: "ask 0 1 1 4",
        input: TETRA,
        code: 0,
        out: "edge\n",
        notes: "",
    },
    Case {
        words: "ask 1 1 -1 4",
        input: CUT,
        code: 0,
        out: "in\n",
        notes: "",
    },
    Case {
        words: "ask 2 -2 0 1",
        input: DISC,
        code: 0,
        out: "in\n",
        notes: "",
    },
    Case {
        words: "ask -6 -9 0 2",
        input: DISC,
        code: 0,
        out: "out\n",
        notes: "",
    },
    Case {
        words: "ask 5 0 0 1",
        input: DISC,
        code: 0,
        out: "edge\n",
        notes: "",
    },
    Case {
        words: "ask 6 0 0 1",
        input: DISC,
        code: 0,
        out: "edge\n",
        notes: "",
    },
    Case {
        words: "ask 0 0 0 1",
        input: "",
        code: 2,
        out: "",
        notes: "refused: BadShape line 1 token 1\n",
    },
    Case {
        words: "ask 0 0 7 1",
        input: "union(){}",
        code: 0,
        out: "out\n",
        notes: "",
    },
    Case {
        words: "ask 0 0 0 1",
        input: "union(){",
        code: 2,
        out: "",
        notes: "refused: BadShape line 2 token 5\n",
    },
    Case {
        words: "ask 0 0 0 1",
        input: "union(){\n",
        code: 2,
        out: "",
        notes: "refused: BadShape line 2 token 5\n",
    },
    Case {
        words: "ask 0 0 0 1",
        input: "union(){ ? }",
        code: 2,
        out: "",
        notes: "refused: BadToken line 1 token 5\n",
    },
    Case {
        words: "ask 0 0 0 1",
        input: "intersection(){}",
        code: 2,
        out: "",
        notes: "refused: BadShape line 1 token 5\n",
    },
    Case {
        words: "ask 0 0 0 1",
        input: "union(){} union(){}",
        code: 2,
        out: "",
        notes: "refused: Extra line 1 token 6\n",
    },
    Case {
        words: "ask 0 0 0 1",
        input: "translate([-6,-06,0]) square([12,12]);",
        code: 2,
        out: "",
        notes: "refused: BadNumber line 1 token 6\n",
    },
    Case {
        words: "ask 0 0 0 1",
        input: "multmatrix([[2,0,0,0],[0,2,0,0],[0,0,1,0],[0,0,0,1]]) translate([-8192,0,0]) square([16384,8192]);",
        code: 2,
        out: "",
        notes: "refused: BadFrame line 1 token 1\n",
    },
    Case {
        words: "ask 0 0 0 1",
        input: "union(){translate([0,0,0]) square([1,1]);translate([0,0,0]) cube([1,1,1]);}",
        code: 2,
        out: "",
        notes: "refused: Mixed line 1 token 24\n",
    },
    Case {
        words: "ask 1152921504606846977 0 0 1",
        input: DISC,
        code: 2,
        out: "",
        notes: "refused: PointTooFine\n",
    },
    Case {
        words: "ask 0 0 1 1",
        input: DISC,
        code: 2,
        out: "",
        notes: "refused: PointOffPlane\n",
    },
    Case {
        words: "ask 0 0 1 1",
        input: "translate([0,0,0]) square([1,1]); ?",
        code: 2,
        out: "",
        notes: "refused: BadToken line 1 token 20\n",
    },
    Case {
        words: "ask 1 2 3",
        input: "",
        code: 3,
        out: "",
        notes: "usage: unknown command line\n",
    },
    Case {
        words: "ask 1 2 3 4 5",
        input: "",
        code: 3,
        out: "",
        notes: "usage: unknown command line\n",
    },
    Case {
        words: "ask 1 2 3 0",
        input: "",
        code: 3,
        out: "",
        notes: "usage: unknown command line\n",
    },
    Case {
        words: "trial",
        input: "",
        code: 3,
        out: "",
        notes: "usage: unknown command line\n",
    },
    Case {
        words: "trial off",
        input: "",
        code: 3,
        out: "",
        notes: "usage: unknown command line\n",
    },
    Case {
        words: "trial off 0",
        input: "",
        code: 3,
        out: "",
        notes: "usage: unknown command line\n",
    },
    Case {
        words: "trial off 19",
        input: "",
        code: 3,
        out: "",
        notes: "usage: unknown command line\n",
    },
    Case {
        words: "trial off -1",
        input: "",
        code: 3,
        out: "",
        notes: "usage: unknown command line\n",
    },
    Case {
        words: "trial off 1x",
        input: "",
        code: 3,
        out: "",
        notes: "usage: unknown command line\n",
    },
    Case {
        words: "trial contour 11",
        input: "",
        code: 3,
        out: "",
        notes: "usage: unknown command line\n",
    },
    Case {
        words: "trial off 1 1",
        input: "",
        code: 3,
        out: "",
        notes: "usage: unknown command line\n",
    },
    Case {
        words: "trial cube 1",
        input: "",
        code: 3,
        out: "",
        notes: "usage: unknown command line\n",
    },
    Case {
        words: "upgrade",
        input: "multmatrix([[1,0,0,0],[0,1,0,0],[0,0,1,0],[0,0,0,1]]) translate([-8192,0,0]) square([16384,8192]);",
        code: 0,
        out: "// bcsg 2 contour\ntranslate([-8192,0,0]) square([16384,8192]);\n",
        notes: "",
    },
    Case {
        words: "upgrade",
        input: "union(){}",
        code: 0,
        out: "// bcsg 2 solid\nunion() {\n}\n",
        notes: "",
    },
    Case {
        words: "ask 1 1 0 1",
        input: "intersection(){translate([-8192,0,0]) square([16384,8192]); multmatrix([[1,0,0,0],[0,1,0,0],[0,0,1,0],[0,0,0,1]]) translate([-8192,0,0]) square([16384,8192]);}",
        code: 0,
        out: "in\n",
        notes: "",
    },
    Case {
        words: "upgrade",
        input: "translate([2000,0,0]) square([16384,8192]);",
        code: 2,
        out: "",
        notes: "refused: BadFrame line 1 token 1\n",
    },
    Case {
        words: "upgrade",
        input: "// a comment\ntranslate ( [ 1 , 2 , 0 ] ) // another\n square([3,4]) ;",
        code: 0,
        out: "// bcsg 2 contour\ntranslate([1,2,0]) square([3,4]);\n",
        notes: "",
    },
    Case {
        words: "upgrade",
        input: "",
        code: 2,
        out: "",
        notes: "refused: BadShape line 1 token 1\n",
    },
    Case {
        words: "upgrade now",
        input: "",
        code: 3,
        out: "",
        notes: "usage: unknown command line\n",
    },
];

#[test]
fn points_stand_to_trees(rt: HostRuntime) -> Result<(), Fail> {
    let alloc = rt.alloc();
    for case in &RUNS {
        let end = run_on(alloc, case.words, case.input.as_bytes())?;
        assert_eq!(rt; end.status.code(), case.code);
        assert_eq!(rt; end.out.held(), case.out.as_bytes());
        assert_eq!(rt; end.notes.held(), case.notes.as_bytes());
    }
    Ok(())
}

// 65 operators in one another are too deep, 64 are not.
#[test]
fn operators_nest_to_their_limit(rt: HostRuntime) -> Result<(), Fail> {
    let alloc = rt.alloc();
    let mut text = String::new(alloc);
    for _ in 0..64 {
        text.push_str("union(){")?;
    }
    for _ in 0..64 {
        text.push_str("}")?;
    }
    let end = run_on(alloc, "ask 0 0 0 1", text.as_bytes())?;
    assert_eq!(rt; end.out.held(), b"out\n".as_slice());
    let mut deeper = String::from_str(alloc, "union(){")?;
    deeper.push_str(text.as_str())?;
    deeper.push_str("}")?;
    let end = run_on(alloc, "ask 0 0 0 1", deeper.as_bytes())?;
    assert_eq!(rt;
        end.notes.held(),
        b"refused: TooDeep line 1 token 257\n".as_slice()
    );
    Ok(())
}

const SUMMARY_OFF: &str =
    "trial off 10\nplanes 24\ncells 432\ninside 55\nterms 10\nliterals 60\nundecided 0\n";

const SUMMARY_CONTOUR: &str =
    "trial contour 4\nlines 4\ndiscs 4\ncandidates 13\ninside 1\nterms 1\nliterals 8\nundecided 0\n";

// Whether a trial writes what the conversion of its text writes, and then the summary. It has a source that it must not read.
fn is_summed_up(
    alloc: Global,
    words: &str,
    converting: &str,
    text: &[u8],
    summary: &str,
) -> Result<bool, Fail> {
    let end = run_on(alloc, words, b"no boundary".as_slice())?;
    let converted = run_on(alloc, converting, text)?;
    let mut want = Vec::from_slice(alloc, converted.out.held())?;
    want.extend_from_slice(summary.as_bytes())?;
    Ok(end.status.code() == 0 && end.out.held() == want.as_slice())
}

#[test]
fn trials_are_summed_up(rt: HostRuntime) -> Result<(), Fail> {
    let alloc = rt.alloc();
    let stair = trial_off(alloc, 10)?;
    assert!(rt;
        is_summed_up(
            alloc,
            "trial off 10",
            "convert off",
            stair.as_slice(),
            SUMMARY_OFF
        )?
    );
    let plate = trial_contour(alloc, 4)?;
    assert!(rt;
        is_summed_up(
            alloc,
            "trial contour 4",
            "convert contour",
            plate.as_slice(),
            SUMMARY_CONTOUR
        )?
    );
    Ok(())
}

// Each number of a trial.
const ALL: [&str; 28] = [
    "trial off 1",
    "trial off 2",
    "trial off 3",
    "trial off 4",
    "trial off 5",
    "trial off 6",
    "trial off 7",
    "trial off 8",
    "trial off 9",
    "trial off 10",
    "trial off 11",
    "trial off 12",
    "trial off 13",
    "trial off 14",
    "trial off 15",
    "trial off 16",
    "trial off 17",
    "trial off 018",
    "trial contour 1",
    "trial contour 2",
    "trial contour 3",
    "trial contour 4",
    "trial contour 5",
    "trial contour 6",
    "trial contour 7",
    "trial contour 8",
    "trial contour 9",
    "trial contour 10",
];

#[test]
fn each_trial_is_done(rt: HostRuntime) -> Result<(), Fail> {
    let alloc = rt.alloc();
    for words in &ALL {
        let end = run_on(alloc, words, b"".as_slice())?;
        assert_eq!(rt; end.status.code(), 0);
    }
    Ok(())
}
