//! Runs on meshes: what is written, each refusal, and where points stand.

use crate::case::{Case, run_on, without_notes};
use std::test::Fail;

const NO_SOLID_TEXT: &str = "// bcsg 2 solid\n// box -1 -1 -1 1 1 1\nunion() {\n}\n";

const TETRA: &str = "OFF\n4 4 6\n0 0 0\n1 0 0\n0 1 0\n0 0 1\n3 0 2 1\n3 0 1 3\n3 0 3 2\n3 1 2 3\n";

const TETRA_TEXT: &str =
    "// bcsg 2 solid\n// box -1 -1 -1 2 2 2\nunion() {\n  difference() {\n    intersection() {\n      translate([-1,-1,-1]) cube([3,3,3]);\n      translate([-8192,-8192,0]) cube([16384,16384,8192]);\n      translate([-8192,0,-8192]) cube([16384,8192,16384]);\n      translate([0,-8192,-8192]) cube([8192,16384,16384]);\n    }\n    multmatrix([[1,1,1,1],[-1,0,1,0],[0,-1,1,0],[0,0,0,1]]) translate([-8192,-8192,0]) cube([16384,16384,8192]);\n  }\n}\n";

const CUBE: &str =
    "OFF 8 12 0\n0.000000 0.000000 0.000000\n1.000000 0.000000 0.000000\n1.000000 1.000000 0.000000\n0.000000 1.000000 0.000000\n0.000000 0.000000 1.000000\n1.000000 0.000000 1.000000\n1.000000 1.000000 1.000000\n0.000000 1.000000 1.000000\n3 0 2 1\n3 0 3 2\n3 4 5 6\n3 4 6 7\n3 0 1 5\n3 0 5 4\n3 1 2 6\n3 1 6 5\n3 2 3 7\n3 2 7 6\n3 3 0 4\n3 3 4 7\n";

const CUBE_TEXT: &str =
    "// bcsg 2 solid\n// box -1 -1 -1 2 2 2\nunion() {\n  difference() {\n    intersection() {\n      translate([-1,-1,-1]) cube([3,3,3]);\n      translate([-8192,-8192,0]) cube([16384,16384,8192]);\n      translate([-8192,0,-8192]) cube([16384,8192,16384]);\n      translate([0,-8191,-8192]) cube([8192,16384,16384]);\n    }\n    translate([-8192,-8192,1]) cube([16384,16384,8192]);\n    translate([1,-8192,-8192]) cube([8192,16384,16384]);\n    translate([-8191,1,-8192]) cube([16384,8192,16384]);\n  }\n}\n";

const OPEN_APART: &str =
    "OFF\n12 3 0\n0 0 0\n0 1 0\n1 0 0\n0 0 0\n1 0 0\n0 0 1\n0 0 0\n0 0 1\n0 1 0\n1 0 0\n0 1 0\n0 0 1\n3 0 1 2\n3 3 4 5\n3 6 7 8\n";

const BENT: &str = "OFF\n4 1 0\n0 0 0\n1 0 0\n1 1 0\n0 1 1\n4 0 1 2 3\n";

const FLAT: &str = "OFF\n3 1 0\n0 0 0\n1 0 0\n2 0 0\n3 0 1 2\n";

const TWIN: &str = "OFF\n3 1 0\n0 0 0\n1 0 0\n0 1 0\n3 0 0 1\n";

const PYRAMID: &str =
    "OFF\n5 6 9\n-1 -1 0\n1 -1 0\n1 1 0\n-1 1 0\n0 0 1\n3 0 2 1\n3 0 3 2\n3 0 1 4\n3 1 2 4\n3 2 3 4\n3 3 0 4\n";

const APART: &str =
    "OFF\n12 4 0\n0 0 0\n0 1 0\n1 0 0\n0 0 0\n1 0 0\n0 0 1\n0 0 0\n0 0 1\n0 1 0\n1 0 0\n0 1 0\n0 0 1\n3 0 1 2\n3 3 4 5\n3 6 7 8\n3 9 10 11\n";

const FAR: &str =
    "OFF\n4 4 6\n-1023 -1023 -1023\n1023 -1022 -1023\n-1022 1023 -1023\n-1023 -1023 1023\n3 0 2 1\n3 0 1 3\n3 0 3 2\n3 1 2 3\n";

const RUNS: [Case; 39] = [
    Case {
        words: "convert off",
        input: "OFF\n4 4 6\n0 0 0\n1 0 0\n0 1 0\n",
        code: 2,
        out: "",
        notes: "refused: Short line 6\n",
    },
    Case {
        words: "convert off",
        input: "OFF\n4 4 6\n0 0 0\n1 0 0\n0 1 0\n0 0 1\n3 0 2 1\n3 0 1 3\n3 0 3 2\n",
        code: 2,
        out: "",
        notes: "refused: Short line 10\n",
    },
    Case {
        words: "convert off",
        input: "OFF\n4 4 6\n0 0 0\n1 0 0\n0 1 0\n0 0 1\n3 0 2 1\n3 0 1 3\n3 0 3 2\n3 1 2\n",
        code: 2,
        out: "",
        notes: "refused: Short line 10 word 4\n",
    },
    Case {
        words: "convert off",
        input: "OFF\n4 4\n",
        code: 2,
        out: "",
        notes: "refused: BadCount line 2 word 3\n",
    },
    Case {
        words: "convert off",
        input: "OFF 1024 2048 0",
        code: 2,
        out: "",
        notes: "refused: Short line 2\n",
    },
    Case {
        words: "convert off",
        input: "OFF 1111111111111111111111111111111111111111 0 0\n",
        code: 2,
        out: "",
        notes: "refused: TooMany line 1 word 2\n",
    },
    Case {
        words: "convert off",
        input: "OFF -1 0 0\n",
        code: 2,
        out: "",
        notes: "refused: BadCount line 1 word 2\n",
    },
    Case {
        words: "convert off",
        input: "OFF 0 0 0\n",
        code: 0,
        out: NO_SOLID_TEXT,
        notes: "",
    },
    Case {
        words: "convert off",
        input: TETRA,
        code: 0,
        out: TETRA_TEXT,
        notes: "",
    },
    Case {
        words: "convert off",
        input: CUBE,
        code: 0,
        out: CUBE_TEXT,
        notes: "",
    },
    Case {
        words: "convert off",
        input: OPEN_APART,
        code: 2,
        out: "",
        notes: "refused: OddEdge 0 1 0 1 0 0 count 1\n",
    },
    Case {
        words: "convert off",
        input: BENT,
        code: 2,
        out: "",
        notes: "refused: BentFace face 0 place 3\n",
    },
    Case {
        words: "convert off",
        input: FLAT,
        code: 2,
        out: "",
        notes: "refused: FlatFace face 0\n",
    },
    Case {
        words: "convert off",
        input: TWIN,
        code: 2,
        out: "",
        notes: "refused: TwinCorner face 0 place 0\n",
    },
    Case {
        words: "convert off",
        input: "OFF\n1 0 0\n1024 0 0\n",
        code: 2,
        out: "",
        notes: "refused: TooFar line 3 word 1\n",
    },
    Case {
        words: "convert off",
        input: "OFF\n1 0 0\n0.5 0 0\n",
        code: 2,
        out: "",
        notes: "refused: NotWhole line 3 word 1\n",
    },
    Case {
        words: "convert off",
        input: "",
        code: 2,
        out: "",
        notes: "refused: NotOff line 1\n",
    },
    Case {
        words: "convert off",
        input: "OFF 3 1\n",
        code: 2,
        out: "",
        notes: "refused: BadCount line 1 word 4\n",
    },
    Case {
        words: "convert off",
        input: "OFF 1025 0 0\n",
        code: 2,
        out: "",
        notes: "refused: TooMany line 1 word 2\n",
    },
    Case {
        words: "convert off",
        input: "OFF 1 0 0\n0 0\n",
        code: 2,
        out: "",
        notes: "refused: Short line 2 word 3\n",
    },
    Case {
        words: "convert off",
        input: "OFF 1 0 0\n0 x 0\n",
        code: 2,
        out: "",
        notes: "refused: BadWord line 2 word 2\n",
    },
    Case {
        words: "convert off",
        input: "OFF 0 0 0\n5\n",
        code: 2,
        out: "",
        notes: "refused: Extra line 2 word 1\n",
    },
    Case {
        words: "side off 0 0 0 1",
        input: "OFF 3 1 0\n0 0 0\n1 0 0\n0 1 0\n3 0 1 3\n",
        code: 2,
        out: "",
        notes: "refused: BadIndex line 5 word 4\n",
    },
    Case {
        words: "side off 0 0 0 1",
        input: "OFF 3 1 0\n0 0 0\n1 0 0\n0 1 0\n2 0 1\n",
        code: 2,
        out: "",
        notes: "refused: ShortFace line 5 word 1\n",
    },
    Case {
        words: "convert of",
        input: TETRA,
        code: 3,
        out: "",
        notes: "usage: unknown command line\n",
    },
    Case {
        words: "side off 1 1 1",
        input: CUBE,
        code: 3,
        out: "",
        notes: "usage: unknown command line\n",
    },
    Case {
        words: "side off 0 0 1152921504606846977 1",
        input: "?",
        code: 2,
        out: "",
        notes: "refused: PointTooFine\n",
    },
    Case {
        words: "side off 1 1 1 2",
        input: CUBE,
        code: 0,
        out: "odd\n",
        notes: "",
    },
    Case {
        words: "side off 1 1 3 2",
        input: CUBE,
        code: 0,
        out: "even\n",
        notes: "",
    },
    Case {
        words: "side off 0 1 1 2",
        input: CUBE,
        code: 0,
        out: "edge\n",
        notes: "",
    },
    Case {
        words: "side off 0 0 1 2",
        input: PYRAMID,
        code: 0,
        out: "odd\n",
        notes: "",
    },
    Case {
        words: "side off 2 2 1 4",
        input: PYRAMID,
        code: 0,
        out: "odd\n",
        notes: "",
    },
    Case {
        words: "side off 0 0 -1 1",
        input: PYRAMID,
        code: 0,
        out: "even\n",
        notes: "",
    },
    Case {
        words: "side off 0 0 0 1",
        input: PYRAMID,
        code: 0,
        out: "edge\n",
        notes: "",
    },
    Case {
        words: "side off 1 1 1 8",
        input: APART,
        code: 0,
        out: "odd\n",
        notes: "",
    },
    Case {
        words: "side off -2045 -2045 -2046 4",
        input: FAR,
        code: 0,
        out: "odd\n",
        notes: "",
    },
    Case {
        words: "convert off",
        input: "COFF\n",
        code: 2,
        out: "",
        notes: "refused: NotOff line 1 word 1\n",
    },
    Case {
        words: "convert off",
        input: "OFF 1 0 0\n",
        code: 2,
        out: "",
        notes: "refused: Short line 2\n",
    },
    Case {
        words: "convert off",
        input: "OFF 1 0 0\n0 0 0 0\n",
        code: 2,
        out: "",
        notes: "refused: Extra line 2 word 4\n",
    },
];

#[test]
fn each_run_on_meshes_has_its_status_text_and_line(rt: HostRuntime) -> Result<(), Fail> {
    for case in &RUNS {
        let end = run_on(rt.alloc(), case.words, case.input.as_bytes())?;
        assert_eq!(rt; end.status.code(), case.code);
        let out = without_notes(rt.alloc(), end.out.held())?;
        assert_eq!(rt; out.as_str(), case.out);
        assert_eq!(rt; end.notes.held(), case.notes.as_bytes());
    }
    Ok(())
}
