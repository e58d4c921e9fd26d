//! The parts of CSG text: which name begins which part, and the pattern of a part's tokens. `reading` goes through a
//! pattern token by token.
ghost use Rattle.std.specs.Prelude.{◌≡◌, bytes_eq};
ghost use Rattle.bc_read.specs.Table.{pattern as pattern_of, op_named, begins, chosen, word_of};

/// What an operator does with its children.
#[derive(Clone, Copy, Debug, PartialEq, Eq)]
pub enum Op {
    Union,
    Meet,
    Cut,
}

/// The forms in which leaves are written: a matrix before a cube or a square, or none before a circle, a cube or a square.
#[derive(Clone, Copy, Debug, PartialEq, Eq)]
pub enum Form {
    Slab,
    Strip,
    Disc,
    Block,
    Tile,
}

/// The parts of which nodes are made: an operator behind its name up to its `{`; a leaf behind its first name up to the
/// name of its shape; and from there to its `;`.
#[derive(Clone, Copy, Debug, PartialEq, Eq)]
pub enum Part {
    Opening(Op),
    Moved,
    Placed,
    Closing(Form),
}

/// The pattern of a part. Each byte stands for a token: `#` for a number, `s` for the name `sqrt`, `t` for the name
/// `translate`, and each other for itself.
pub fn pattern(part: Part) -> &'static [u8]
    ensures { result.now ≡ pattern_of part }
{
    match part {
        Part::Opening(_) => b"(){",
        Part::Moved => b"([#,#,#])",
        Part::Placed => b"([[#,#,#,#],[#,#,#,#],[#,#,#,#],[#,#,#,#]])t([#,#,#])",
        Part::Closing(Form::Slab) | Part::Closing(Form::Block) => b"([#,#,#]);",
        Part::Closing(Form::Strip) | Part::Closing(Form::Tile) => b"([#,#]);",
        Part::Closing(Form::Disc) => b"(r=s(#));",
    }
}

/// The operator that has this name.
pub fn op_of(text: &[u8]) -> Option<Op>
    ensures { result ≡ op_named text.now }
{
    if text == b"union".as_slice() {
        Some(Op::Union)
    } else if text == b"intersection".as_slice() {
        Some(Op::Meet)
    } else if text == b"difference".as_slice() {
        Some(Op::Cut)
    } else {
        None
    }
}

/// The part that a token begins where a node may stand.
pub fn part_of(text: &[u8]) -> Option<Part>
    ensures { result ≡ begins text.now }
{
    match op_of(text) {
        Some(op) => Some(Part::Opening(op)),
        None => {
            if text == b"translate".as_slice() {
                Some(Part::Moved)
            } else if text == b"multmatrix".as_slice() {
                Some(Part::Placed)
            } else {
                None
            }
        }
    }
}

/// The form that the name of a shape chooses behind a part.
pub fn form_of(part: Part, text: &[u8]) -> Option<Form>
    ensures { result ≡ chosen part text.now }
{
    match part {
        Part::Moved => match text {
            b"cube" => Some(Form::Block),
            b"square" => Some(Form::Tile),
            b"circle" => Some(Form::Disc),
            _ => None,
        },
        Part::Placed => match text {
            b"cube" => Some(Form::Slab),
            b"square" => Some(Form::Strip),
            _ => None,
        },
        Part::Opening(_) | Part::Closing(_) => None,
    }
}

/// Whether a token is the one for which a pattern's byte stands, which is no `#`.
pub fn is_word(text: &[u8], b: u8) -> bool
    ensures { result ≡ bytes_eq text.now (word_of b) }
{
    match b {
        b's' => text == b"sqrt".as_slice(),
        b't' => text == b"translate".as_slice(),
        _ => match text {
            [only] => *only == b,
            _ => false,
        },
    }
}
