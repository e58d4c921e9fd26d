//! Contour texts that are refused, each with its first fault, and contour texts that are read, each with the elements
//! that its contours begin with.
use bc_gcode::*;
use bc_num::V2;
use bc_solid::Element;
use std::test::Fail;

const ORIGIN: V2 = V2 { x: 0, y: 0 };

const ONE: V2 = V2 { x: 1, y: 0 };

const REFUSED: [(&str, GFault); 26] = [
    ("X5", GFault::MissingMotion { line: 1 }),
    ("G91", GFault::Incremental { line: 1, word: 1 }),
    ("G18", GFault::UnknownWord { line: 1, word: 1 }),
    ("G01 X1 X2", GFault::TwinWord { line: 1, word: 3 }),
    ("G01 X1.5", GFault::NotWhole { line: 1, word: 2 }),
    ("G01 X", GFault::BadWord { line: 1, word: 2 }),
    ("G01 X1024", GFault::TooFar { line: 1, word: 2 }),
    ("G00 X0 Y0 Z5", GFault::ThreeAxis { line: 1 }),
    ("G02 X1 Y0", GFault::MissingCentre { line: 1 }),
    ("G02 I1024", GFault::TooFar { line: 1, word: 0 }),
    (
        "G01 X1\nM30\n?",
        GFault::OpenContour {
            line: 2,
            start: ORIGIN,
            end: ONE,
        },
    ),
    (
        "G01 X1",
        GFault::OpenContour {
            line: 2,
            start: ORIGIN,
            end: ONE,
        },
    ),
    (
        "G00 X0 Y0\nG01 X10 Y0\nG00 X5 Y5\n",
        GFault::OpenContour {
            line: 3,
            start: ORIGIN,
            end: V2 { x: 10, y: 0 },
        },
    ),
    ("G01 X1 (", GFault::BadWord { line: 1, word: 3 }),
    (
        "G00 X1024 Y0\nG03 X1024 Y0 I0 J5\n",
        GFault::TooFar { line: 1, word: 2 },
    ),
    (
        "G00 X0 Y0\nG03 X0 Y0 I1024 J0\n",
        GFault::TooFar { line: 2, word: 0 },
    ),
    ("X(c)5", GFault::BadWord { line: 1, word: 1 }),
    ("G01 X1.5.5", GFault::NotWhole { line: 1, word: 2 }),
    ("G01 X1..", GFault::BadWord { line: 1, word: 3 }),
    ("G1.5", GFault::UnknownWord { line: 1, word: 1 }),
    ("G0 G01.0", GFault::TwinWord { line: 1, word: 2 }),
    ("X1 X", GFault::BadWord { line: 1, word: 2 }),
    ("M30 ?\n", GFault::BadWord { line: 1, word: 2 }),
    ("Q1", GFault::UnknownWord { line: 1, word: 1 }),
    ("Z1 X1 X1024", GFault::TwinWord { line: 1, word: 3 }),
    (
        "G2 J9999999999999999999999999999",
        GFault::TooFar { line: 1, word: 0 },
    ),
];

#[test]
fn refused_texts(rt: HostRuntime) -> Result<(), Fail> {
    for (text, want) in REFUSED {
        assert!(rt; text.len() <= 1 << 20);
        match read_contours(rt.alloc(), text.as_bytes()) {
            Ok(_) => assert!(rt; false, "{text} was read"),
            Err(found) => assert_eq!(rt; found, want),
        }
    }
    Ok(())
}

const PLATE: &str =
    "%\n(plate 40 x 20)\nG21 G90 G17\nT1 M06\nS1200 M03\nG00 Z5.0\nG00 X5 Y0\nG01 Z-1.5 F100\nG01 X35 Y0 F300\nG03 X40 Y5 I0 J5\nG01 Y15\nG03 X35 Y20 I-5 J0\nG01 X5\nG03 X0 Y15 I0 J-5\nG01 Y5\nG03 X5 Y0 I5 J0\nG00 Z5\nG00 X15 Y10\nG01 Z-1.5\nG02 X15 Y10 I-3 J0\nG00 Z5\nG00 X31 Y10\nG02 I-3 J0\nG00 Z5\nM05\nM30\n%\n";

// A text, and the first element of each of its contours with how many elements the contour has.
const READ: [(&str, &[(Element, usize)]); 6] = [
    (
        PLATE,
        &[
            (
                Element::Edge {
                    a: V2 { x: 5, y: 0 },
                    b: V2 { x: 35, y: 0 },
                },
                8,
            ),
            (
                Element::Arc {
                    a: V2 { x: 15, y: 10 },
                    b: V2 { x: 15, y: 10 },
                    c: V2 { x: 12, y: 10 },
                    ccw: false,
                },
                1,
            ),
            (
                Element::Arc {
                    a: V2 { x: 31, y: 10 },
                    b: V2 { x: 31, y: 10 },
                    c: V2 { x: 28, y: 10 },
                    ccw: false,
                },
                1,
            ),
        ],
    ),
    (
        "g0x5y0\n(a) g3 i-5 ; b",
        &[(
            Element::Arc {
                a: V2 { x: 5, y: 0 },
                b: V2 { x: 5, y: 0 },
                c: ORIGIN,
                ccw: true,
            },
            1,
        )],
    ),
    ("", &[]),
    ("% ?\nM2\n?", &[]),
    ("G1 X0 Y0 (nothing; here) N7", &[]),
    (
        "N1 G01 X+1. Y.0\nG1 X0004 Y4\nG80 N.5\nG1\nX0 Y0.000;(",
        &[(Element::Edge { a: ORIGIN, b: ONE }, 3)],
    ),
];

#[test]
fn read_texts(rt: HostRuntime) -> Result<(), Fail> {
    for (text, wants) in READ {
        assert!(rt; text.len() <= 1 << 20);
        match read_contours(rt.alloc(), text.as_bytes()) {
            Ok(raw) => {
                assert_eq!(rt; raw.contours.len(), wants.len());
                for (contour, want) in raw.contours.as_slice().iter().zip(wants.iter()) {
                    assert_eq!(rt; contour.len(), want.1);
                    match contour.as_slice() {
                        [first, ..] => assert_eq!(rt; *first, want.0),
                        [] => assert!(rt; false, "a contour without elements"),
                    }
                }
            }
            Err(fault) => assert!(rt; false, "{fault}"),
        }
    }
    Ok(())
}
