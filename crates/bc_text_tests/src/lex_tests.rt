//! Texts cut into lines, lines into words of contours or words between blanks, and texts into the tokens of CSG.
use bc_lex::*;
use std::test::Fail;

const TEXTS: [(&[u8], &[&[u8]]); 6] = [
    (b"", &[]),
    (b"\n", &[b""]),
    (b"G0\nX1\n", &[b"G0", b"X1"]),
    (b"G0\r\n\nX1", &[b"G0\r", b"", b"X1"]),
    (b"\n\n", &[b"", b""]),
    (b"(a\nb)", &[b"(a", b"b)"]),
];

#[test]
fn lines_of_texts(rt: HostRuntime) -> Result<(), Fail> {
    for (text, wants) in TEXTS {
        assert!(rt; text.len() < 100);
        let mut lines = Lines::new(text);
        let mut number: u32 = 0;
        for want in wants {
            number = number.saturating_add(1);
            match lines.next() {
                Some(line) => {
                    assert_eq!(rt; line.number, number);
                    assert_eq!(rt; line.text, *want);
                }
                None => assert!(rt; false, "line {number} is missing"),
            }
        }
        assert!(rt; lines.next().is_none());
        assert_eq!(rt; lines.number(), number);
    }
    Ok(())
}

// A line, its words by their letter, the place of their number and its bytes, and whether bytes come that begin no word.
const LINES: [(&[u8], &[(u8, usize, &[u8])], bool); 14] = [
    (b"", &[], false),
    (b" % X5", &[], false),
    (b"X1%", &[(b'X', 1, b"1")], true),
    (
        b"g0x5y-0.",
        &[(b'G', 1, b"0"), (b'X', 3, b"5"), (b'Y', 5, b"-0.")],
        false,
    ),
    (b"X \t 5 Y1\r", &[(b'X', 4, b"5"), (b'Y', 7, b"1")], false),
    (b"X1Y2", &[(b'X', 1, b"1"), (b'Y', 3, b"2")], false),
    (b"X1.5.5", &[(b'X', 1, b"1.5")], true),
    (b"X+.5", &[(b'X', 1, b"+.5")], false),
    (b"X1e3", &[(b'X', 1, b"1"), (b'E', 3, b"3")], false),
    (
        b"(a ; (b) G2(c)I-5 ; X",
        &[(b'G', 10, b"2"), (b'I', 15, b"-5")],
        false,
    ),
    (b"X(c)5", &[], true),
    (b"G01 X", &[(b'G', 1, b"01")], true),
    (b"G01 X1 (", &[(b'G', 1, b"01"), (b'X', 5, b"1")], true),
    (b"X. Y1", &[], true),
];

#[test]
fn words_of_lines(rt: HostRuntime) -> Result<(), Fail> {
    for (text, wants, is_broken) in LINES {
        assert!(rt; text.len() < 100);
        let mut words = GWords::new(Line { number: 3, text });
        let mut nth: u32 = 0;
        for (letter, from, number) in wants {
            nth = nth.saturating_add(1);
            match words.next() {
                Ok(Some(word)) => {
                    assert_eq!(rt; (word.line, word.nth), (3, nth));
                    assert_eq!(rt; (word.letter, word.from), (*letter, *from));
                    assert_eq!(rt; word.number, *number);
                }
                _ => assert!(rt; false, "word {nth} is missing"),
            }
        }
        for _ in 0..2 {
            match words.next() {
                Ok(word) => assert!(rt; word.is_none() && !is_broken),
                Err(bad) => {
                    assert!(rt; is_broken);
                    assert_eq!(rt;
                        bad,
                        BadAt {
                            line: 3,
                            nth: nth.saturating_add(1)
                        }
                    );
                }
            }
        }
    }
    Ok(())
}

// A line, and its words between blanks by where they begin and their bytes.
const ROWS: [(&[u8], &[(usize, &[u8])]); 8] = [
    (b"", &[]),
    (b" \t\r", &[]),
    (b"# OFF", &[]),
    (b"OFF", &[(0, b"OFF")]),
    (b"3 0 2\r", &[(0, b"3"), (2, b"0"), (4, b"2")]),
    (b"\t -1.0\t\t+2 #3 4", &[(2, b"-1.0"), (8, b"+2")]),
    (b"1#2 3", &[(0, b"1")]),
    (b" ;x(,\x0b%", &[(1, b";x(,\x0b%")]),
];

#[test]
fn words_between_blanks(rt: HostRuntime) -> Result<(), Fail> {
    for (text, wants) in ROWS {
        assert!(rt; text.len() < 100);
        let mut words = Words::new(Line { number: 7, text });
        let mut nth: u32 = 0;
        assert_eq!(rt; words.line(), 7);
        for (from, bytes) in wants {
            assert!(rt; !words.is_ended());
            assert_eq!(rt; words.nth(), nth);
            nth = nth.saturating_add(1);
            match words.next() {
                Some(word) => {
                    assert_eq!(rt; (word.line, word.nth, word.from), (7, nth, *from));
                    assert_eq!(rt; word.text, *bytes);
                }
                None => assert!(rt; false, "word {nth} is missing"),
            }
        }
        assert!(rt; words.is_ended());
        assert!(rt; words.next().is_none());
        assert_eq!(rt; words.nth(), nth);
    }
    Ok(())
}

// A text, its tokens by their line, place, kind and bytes, and the line of bytes that begin no token.
type Piece<'a> = (u32, usize, Kind, &'a [u8]);

const PIECES: [(&[u8], &[Piece<'static>], Option<u32>); 8] = [
    (b"", &[], None),
    (b" \t\r\n// (a)\n //", &[], None),
    (
        b"cube([1,-2]);",
        &[
            (1, 0, Kind::Name, b"cube"),
            (1, 4, Kind::Mark, b"("),
            (1, 5, Kind::Mark, b"["),
            (1, 6, Kind::Number, b"1"),
            (1, 7, Kind::Mark, b","),
            (1, 8, Kind::Number, b"-2"),
            (1, 10, Kind::Mark, b"]"),
            (1, 11, Kind::Mark, b")"),
            (1, 12, Kind::Mark, b";"),
        ],
        None,
    ),
    (
        b"r_2 = // one\n\n007a",
        &[
            (1, 0, Kind::Name, b"r_2"),
            (1, 4, Kind::Mark, b"="),
            (3, 14, Kind::Number, b"007"),
            (3, 17, Kind::Name, b"a"),
        ],
        None,
    ),
    (b"{\n-\n}", &[(1, 0, Kind::Mark, b"{")], Some(2)),
    (b"1.5", &[(1, 0, Kind::Number, b"1")], Some(1)),
    (b"a /b", &[(1, 0, Kind::Name, b"a")], Some(1)),
    (b"_a", &[], Some(1)),
];

#[test]
fn tokens_of_texts(rt: HostRuntime) -> Result<(), Fail> {
    for (text, wants, broken) in PIECES {
        assert!(rt; text.len() < 100);
        let mut tokens = Tokens::new(text);
        let mut nth: u32 = 0;
        for (line, from, kind, bytes) in wants {
            nth = nth.saturating_add(1);
            match tokens.next() {
                Ok(Some(token)) => {
                    assert_eq!(rt; (token.line, token.nth, token.from), (*line, nth, *from));
                    assert_eq!(rt; token.kind, *kind);
                    assert_eq!(rt; token.text, *bytes);
                }
                _ => assert!(rt; false, "token {nth} is missing"),
            }
        }
        for _ in 0..2 {
            match (tokens.next(), broken) {
                (Ok(None), None) => {}
                (Err(bad), Some(line)) => {
                    let nth = nth.saturating_add(1);
                    assert_eq!(rt; bad, BadAt { line, nth });
                }
                _ => assert!(rt; false, "the other end"),
            }
        }
        assert_eq!(rt; tokens.nth(), nth);
    }
    Ok(())
}
