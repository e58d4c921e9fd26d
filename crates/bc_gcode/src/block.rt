//! What the words of one line say, and the motion modes. `words` reads a block from a line, and `moves` does what it
//! says.

/// A motion mode of RS274/NGC: G00, G01, G02 and G03.
#[derive(Clone, Copy, Debug, PartialEq, Eq)]
pub enum Motion {
    Rapid,
    Linear,
    Clockwise,
    CounterClockwise,
}

/// What the words of a line say: end point and centre as far as they stand, whether a Z does, and whether an M word ends
/// the program. `mode` is there where a word sets the motion mode, and `Some(None)` where G80 clears it.
#[derive(Clone, Copy, Debug, PartialEq, Eq)]
pub struct Block {
    pub x: Option<i64>,
    pub y: Option<i64>,
    pub i: Option<i64>,
    pub j: Option<i64>,
    pub z: bool,
    pub mode: Option<Option<Motion>>,
    pub ends: bool,
}
