//! Runs on parts of some size, each of which wants a text, and on boundaries at their limits and past them.

use crate::case::run_on;
use std::alloc::Global;
use std::test::Fail;

// A plate of 40 by 20 with round corners and two holes, as a milling program has it.
const PLATE: &str =
    "%\n(plate 40 x 20)\nG21 G90 G17\nT1 M06\nS1200 M03\nG00 Z5.0\nG00 X5 Y0\nG01 Z-1.5 F100\nG01 X35 Y0 F300\nG03 X40 Y5 I0 J5\nG01 Y15\nG03 X35 Y20 I-5 J0\nG01 X5\nG03 X0 Y15 I0 J-5\nG01 Y5\nG03 X5 Y0 I5 J0\nG00 Z5\nG00 X15 Y10\nG01 Z-1.5\nG02 X15 Y10 I-3 J0\nG00 Z5\nG00 X31 Y10\nG02 I-3 J0\nG00 Z5\nM05\nM30\n%\n";

// An angle of eight faces.
const ELL: &str =
    "OFF 12 8 0\n0 0 0\n2 0 0\n2 1 0\n1 1 0\n1 2 0\n0 2 0\n0 0 1\n2 0 1\n2 1 1\n1 1 1\n1 2 1\n0 2 1\n6 0 1 2 3 4 5\n6 6 7 8 9 10 11\n4 0 1 7 6\n4 1 2 8 7\n4 2 3 9 8\n4 3 4 10 9\n4 4 5 11 10\n4 5 0 6 11\n";

// Edges there and back, one above the other: n lines, and nothing inside.
pub fn lines(alloc: Global, n: u32) -> Result<String, Fail> {
    let mut text = String::new(alloc);
    for k in 0..n {
        text.push_str(format!(in alloc; "G00 X0 Y{k}\nG01 X1\nX0\n")?.as_str())?;
    }
    Ok(text)
}

// Circles around one centre: n discs, one in the other.
pub fn circles(alloc: Global, n: u8) -> Result<String, Fail> {
    let n = u32::from(n);
    let mut text = String::new(alloc);
    for k in 1..n + 1 {
        text.push_str(format!(in alloc; "G00 X{k} Y0\nG03 I-{k}\n")?.as_str())?;
    }
    Ok(text)
}

// Triangles of two sides each, one above the other: n planes, and nothing inside.
pub fn triangles(alloc: Global, n: u8) -> Result<String, Fail> {
    let n = u32::from(n);
    let mut text = format!(in alloc; "OFF {} {} 0\n", 3 * n, 2 * n)?;
    for k in 0..n {
        text.push_str(format!(in alloc; "0 0 {k}\n1 0 {k}\n0 1 {k}\n")?.as_str())?;
    }
    for k in 0..n {
        let (a, b, c) = (3 * k, 3 * k + 1, 3 * k + 2);
        text.push_str(format!(in alloc; "3 {a} {b} {c}\n3 {a} {b} {c}\n")?.as_str())?;
    }
    Ok(text)
}

// 512 edges to and fro, and a number more.
fn edges(alloc: Global, n: u32) -> Result<String, Fail> {
    let mut text = String::from_str(alloc, "G01 X1\n")?;
    for k in 1..n {
        text.push_str(if k % 2 == 1 { "X0\n" } else { "X1\n" })?;
    }
    Ok(text)
}

// Whether the run is done, and the text that it writes begins so.
fn writes(alloc: Global, words: &str, input: &str, front: &str) -> Result<bool, Fail> {
    let end = run_on(alloc, words, input.as_bytes())?;
    Ok(
        end.status.code() == 0
            && end.out.held().starts_with(front.as_bytes())
            && end.notes.held().is_empty(),
    )
}

// Whether the run is refused with this line, and writes nothing.
pub fn is_refused(alloc: Global, words: &str, input: &str, line: &str) -> Result<bool, Fail> {
    let end = run_on(alloc, words, input.as_bytes())?;
    Ok(end.status.code() == 2 && end.out.held().is_empty() && end.notes.held() == line.as_bytes())
}

#[test]
fn parts_are_converted(rt: HostRuntime) -> Result<(), Fail> {
    let alloc = rt.alloc();
    let front = "// bcsg 2 contour\n// box -1 -1 41 21\nunion() {\n  // own ";
    assert!(rt; writes(alloc, "convert contour", PLATE, front)?);
    let front = "// bcsg 2 solid\n// box -1 -1 -1 3 3 2\nunion() {\n  // own ";
    assert!(rt; writes(alloc, "convert off", ELL, front)?);
    Ok(())
}

#[test]
fn boundaries_at_their_limits_are_converted(rt: HostRuntime) -> Result<(), Fail> {
    let alloc = rt.alloc();
    let front = "// bcsg 2 contour\n// box -1 -1 2 40\nunion() {\n}\n";
    assert!(rt; writes(alloc, "convert contour", lines(alloc, 40)?.as_str(), front)?);
    let mut both = lines(alloc, 40)?;
    both.push_str(circles(alloc, 10)?.as_str())?;
    let front = "// bcsg 2 contour\n// box -11 -11 11 40\nunion() {\n  // own ";
    assert!(rt; writes(alloc, "convert contour", both.as_str(), front)?);
    let front = "// bcsg 2 contour\n// box -1 -1 2 1\nunion() {\n}\n";
    assert!(rt; writes(alloc, "convert contour", edges(alloc, 512)?.as_str(), front)?);
    let front = "// bcsg 2 solid\n// box -1 -1 -1 2 2 40\nunion() {\n}\n";
    assert!(rt; writes(alloc, "convert off", triangles(alloc, 40)?.as_str(), front)?);
    Ok(())
}

#[test]
fn boundaries_past_their_limits_are_refused(rt: HostRuntime) -> Result<(), Fail> {
    let alloc = rt.alloc();
    let text = lines(alloc, 41)?;
    assert!(rt;
        is_refused(
            alloc,
            "convert contour",
            text.as_str(),
            "refused: TooManyLines 41\n"
        )?
    );
    let text = circles(alloc, 11)?;
    assert!(rt;
        is_refused(
            alloc,
            "convert contour",
            text.as_str(),
            "refused: TooManyDiscs 11\n"
        )?
    );
    let text = edges(alloc, 513)?;
    assert!(rt;
        is_refused(
            alloc,
            "convert contour",
            text.as_str(),
            "refused: TooMany line 513\n"
        )?
    );
    let text = triangles(alloc, 41)?;
    assert!(rt;
        is_refused(
            alloc,
            "convert off",
            text.as_str(),
            "refused: TooManyPlanes 41\n"
        )?
    );
    Ok(())
}
