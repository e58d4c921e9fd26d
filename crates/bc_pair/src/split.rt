//! Where a joined text is cut: at its first line that is `====`, with or without a CR behind it. Each part is a slice
//! of the text.
ghost use Rattle.std.specs.Prelude.{◌≡◌, ◌<◌, ◌≤◌, ◌^◌, length, take, drop, IsErr, IfOk, ◌↔◌};
ghost use Rattle.bc_pair.specs.Parts.{is_separator as separates, HasNoSeparator, ArePartsOf, parts};

use bc_lex::Lines;

/// The two texts of a joined stream, as slices of it.
#[derive(Clone, Copy, Debug)]
pub struct Parts<'a> {
    /// What stands before the separator's line.
    pub first: &'a [u8],
    /// What stands behind the separator's LF; empty where it has none.
    pub second: &'a [u8],
    /// The number of the separator's line, counted from 1.
    pub line: u32,
}

/// No line of the stream separates parts.
#[derive(Clone, Copy, Debug, PartialEq, Eq)]
pub struct NoPart;

// Whether the line separates parts: it is `====`, with or without a CR behind it.
fn is_separator(line: &[u8]) -> bool
    ensures { result ≡ separates line.now }
{
    line == b"====".as_slice() || line == b"====\r".as_slice()
}

// The bytes of the text before a place.
fn before<'a>(text: &'a [u8], at: usize) -> &'a [u8]
    requires { at ≤ length text.now }
    ensures { result.now ≡ take at text.now }
{
    &text[..at]
}

// The bytes of the text from a place on.
fn behind<'a>(text: &'a [u8], at: usize) -> &'a [u8]
    requires { at ≤ length text.now }
    ensures { result.now ≡ drop at text.now }
{
    &text[at..]
}

/// The parts before and behind the first line that is `====`, with or without a CR behind it. The text has fewer than 2^32
/// bytes. No memory is taken, and the cost grows with what stands before the second part.
///
/// # Errors
///
/// `NoPart` exactly where there is no such line.
pub fn split_parts<'a>(text: &'a [u8]) -> Result<Parts<'a>, NoPart>
    requires { length text.now < 2 ^ 32 }
    ensures parts { IfOk result (λ p. ArePartsOf text.now (parts p)) }
    ensures none { IsErr result ↔ HasNoSeparator text.now }
{
    let mut lines = Lines::new(text);
    let mut start = 0;
    while let Some(line) = lines.next() {
        if is_separator(line.text) {
            return Ok(Parts {
                first: before(text, start),
                second: behind(text, lines.place()),
                line: line.number,
            });
        }
        start = lines.place();
    }
    Err(NoPart)
}
