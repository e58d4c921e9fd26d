//! OFF texts that are refused, each with its first fault, and OFF texts that are read, each with how many vertices and
//! faces it says and the last of both.
use bc_num::V3;
use bc_off::{OffFault, read_off};
use std::test::Fail;

const FIVE: &str = "OFF 3 1 0\n0 0 0\n1 0 0\n0 1 0\n";

// Texts, each with the last of its lines, and their first fault. Where the first is FIVE the fault is on line 5.
const REFUSED: [(&str, &str, OffFault); 47] = [
    ("", "", OffFault::NotOff { line: 1, word: 0 }),
    ("COFF", "", OffFault::NotOff { line: 1, word: 1 }),
    ("OFF 3 1", "", OffFault::BadCount { line: 1, word: 4 }),
    ("OFF 1025 0 0", "", OffFault::TooMany { line: 1, word: 2 }),
    ("OFF 1 0 0\n", "0 0", OffFault::Short { line: 2, word: 3 }),
    ("OFF 1 0 0", "", OffFault::Short { line: 2, word: 0 }),
    (
        "OFF 1 0 0\n",
        "0 x 0",
        OffFault::BadWord { line: 2, word: 2 },
    ),
    (
        "OFF 1 0 0\n",
        "0 0 0 0",
        OffFault::Extra { line: 2, word: 4 },
    ),
    (FIVE, "3 0 1 3", OffFault::BadIndex { line: 5, word: 4 }),
    (FIVE, "2 0 1", OffFault::ShortFace { line: 5, word: 1 }),
    ("OFF 0 0 0\n", "5", OffFault::Extra { line: 2, word: 1 }),
    // The head.
    (
        "\n# OFF\n \t\r\n",
        "",
        OffFault::NotOff { line: 4, word: 0 },
    ),
    ("\n\n", "x OFF", OffFault::NotOff { line: 3, word: 1 }),
    ("off", "", OffFault::NotOff { line: 1, word: 1 }),
    ("OFF", "", OffFault::Short { line: 2, word: 0 }),
    ("OFF\n# 1 1 1\n", "\n", OffFault::Short { line: 4, word: 0 }),
    ("OFF\n\n", "3 1", OffFault::BadCount { line: 3, word: 3 }),
    ("OFF\n", "x 9999 0", OffFault::BadCount { line: 2, word: 1 }),
    ("OFF\n", "1.5 1 1", OffFault::BadCount { line: 2, word: 1 }),
    ("OFF\n", "-1 1 1", OffFault::BadCount { line: 2, word: 1 }),
    (
        "OFF 1024 ",
        "2049 x",
        OffFault::TooMany { line: 1, word: 3 },
    ),
    ("OFF 1025 ", "x", OffFault::TooMany { line: 1, word: 2 }),
    (
        "OFF x 2049 0 ",
        "0",
        OffFault::BadCount { line: 1, word: 2 },
    ),
    ("OFF 0 0 -0.5", "", OffFault::BadCount { line: 1, word: 4 }),
    ("OFF 0 0 0 ", "x", OffFault::Extra { line: 1, word: 5 }),
    // Vertices.
    (
        "OFF 1 0 0\n",
        "1024 x 0",
        OffFault::TooFar { line: 2, word: 1 },
    ),
    (
        "OFF 1 0 0\n",
        "0 -1024 0.5",
        OffFault::TooFar { line: 2, word: 2 },
    ),
    (
        "OFF 1 0 0\n",
        "0 0.5 x",
        OffFault::NotWhole { line: 2, word: 2 },
    ),
    (
        "OFF 1 0 0\n",
        "1024.5 0 0",
        OffFault::NotWhole { line: 2, word: 1 },
    ),
    (
        "OFF 1 0 0\n",
        "0 1e3 0 0",
        OffFault::BadWord { line: 2, word: 2 },
    ),
    (
        "OFF 2 0 0\n0 0 0\n",
        "#1 1 1",
        OffFault::Short { line: 4, word: 0 },
    ),
    (
        "OFF 1 0 0\n",
        "0 0 # 0",
        OffFault::Short { line: 2, word: 3 },
    ),
    // Faces.
    (FIVE, "", OffFault::Short { line: 5, word: 0 }),
    (FIVE, "x", OffFault::BadWord { line: 5, word: 1 }),
    (FIVE, "2.5 0", OffFault::NotWhole { line: 5, word: 1 }),
    (FIVE, "-3 0 1 2", OffFault::ShortFace { line: 5, word: 1 }),
    (FIVE, "65 x", OffFault::TooMany { line: 5, word: 1 }),
    (FIVE, "64 0 1 2", OffFault::Short { line: 5, word: 5 }),
    (FIVE, "3 0 1", OffFault::Short { line: 5, word: 4 }),
    (FIVE, "3 0 -1", OffFault::BadIndex { line: 5, word: 3 }),
    (FIVE, "3 0 1.5", OffFault::NotWhole { line: 5, word: 3 }),
    (FIVE, "3 3 x", OffFault::BadIndex { line: 5, word: 2 }),
    (
        FIVE,
        "3 0 1 2 a b c d e",
        OffFault::Extra { line: 5, word: 9 },
    ),
    (
        FIVE,
        "3 0 1 2 a b c d e\n?",
        OffFault::Extra { line: 5, word: 9 },
    ),
    (
        FIVE,
        "3 0 1 2\n\n#\n ?",
        OffFault::Extra { line: 8, word: 1 },
    ),
    (
        "OFF 0 1 0\n",
        "3 0 0 0",
        OffFault::BadIndex { line: 2, word: 2 },
    ),
    (
        "OFF 1 0 0\n",
        "9999999999999999999999999 0 0",
        OffFault::TooFar { line: 2, word: 1 },
    ),
];

#[test]
fn refused_texts(rt: HostRuntime) -> Result<(), Fail> {
    for (front, last, want) in REFUSED {
        let text = format!(in rt.alloc(); "{front}{last}")?;
        assert!(rt; text.len() <= 1 << 20);
        match read_off(rt.alloc(), text.as_bytes()) {
            Ok(_) => assert!(rt; false, "{text} was read"),
            Err(found) => assert_eq!(rt; found, want, "{text}"),
        }
    }
    Ok(())
}

const CUBE: &str =
    "OFF 8 12 0\n0.000000 0.000000 0.000000\n1.000000 0.000000 0.000000\n1.000000 1.000000 0.000000\n0.000000 1.000000 0.000000\n0.000000 0.000000 1.000000\n1.000000 0.000000 1.000000\n1.000000 1.000000 1.000000\n0.000000 1.000000 1.000000\n3 0 2 1\n3 0 3 2\n3 4 5 6\n3 4 6 7\n3 0 1 5\n3 0 5 4\n3 1 2 6\n3 1 6 5\n3 2 3 7\n3 2 7 6\n3 3 0 4\n3 3 4 7\n";

// Texts, with how many vertices and faces they say, the last vertex and the last face.
const READ: [(&str, usize, usize, V3, &[u32]); 5] = [
    (CUBE, 8, 12, V3 { x: 0, y: 1, z: 1 }, &[3, 4, 7]),
    (
        "# a tetrahedron\n\nOFF # counts follow\n\t4 4 99\r\n\n0 0 0\n+1 0 -0 # x\n0 01. 0\n0 0 1.\n\n3 0 2 1\n3 0 1 3 255 0 0 0\n#\n3 0 3 2 red\n4 1 2 3 1 # 5\n \n#",
        4,
        4,
        V3 { x: 0, y: 0, z: 1 },
        &[1, 2, 3, 1],
    ),
    (
        "OFF 1 1 7\n1023 -1023 0\n3 0 0 0 a b c d\n\n",
        1,
        1,
        V3 {
            x: 1023,
            y: -1023,
            z: 0,
        },
        &[0, 0, 0],
    ),
    (
        "OFF\n2 1 99999999999999999999999999\n0 0 0\n0 0 -5\n12 0 1 0 1 0 1 0 1 0 1 0 1",
        2,
        1,
        V3 { x: 0, y: 0, z: -5 },
        &[0, 1, 0, 1, 0, 1, 0, 1, 0, 1, 0, 1],
    ),
    ("OFF 0 0 0", 0, 0, V3 { x: 0, y: 0, z: 0 }, &[]),
];

#[test]
fn read_texts(rt: HostRuntime) -> Result<(), Fail> {
    for (text, vertices, faces, vertex, corners) in READ {
        assert!(rt; text.len() <= 1 << 20);
        match read_off(rt.alloc(), text.as_bytes()) {
            Ok(raw) => {
                assert_eq!(rt; (raw.points.len(), raw.faces.len()), (vertices, faces));
                if let Some(last) = raw.points.as_slice().last() {
                    assert_eq!(rt; *last, vertex);
                }
                if let Some(last) = raw.faces.as_slice().last() {
                    assert_eq!(rt; last.as_slice(), corners);
                }
            }
            Err(fault) => assert!(rt; false, "{fault}"),
        }
    }
    Ok(())
}
