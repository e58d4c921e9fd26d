//! How a run of the program ended, why it was refused, and its exit status. `reporting` has the line that is written
//! of a status.
ghost use Rattle.std.specs.Prelude.{◌≡◌};
ghost use Rattle.bc_status.specs.Status.{code_of};

use crate::{InnerFault, PartFault};
use bc_gcode::GFault;
use bc_natural::NatFault;
use bc_off::OffFault;
use bc_prism::LayerFault;
use bc_read::CsgFault;
use bc_solid::{ContourFault, MeshFault};

/// Why good words are not answered. Each command says which of these it may answer, and in which order they are looked for.
/// A fault inside is never a want of memory, which is a status of its own.
#[derive(Clone, Copy, Debug, PartialEq, Eq)]
pub enum Refusal {
    /// A number of the point is past 2^60 in size, or its denominator is past 2^40.
    PointTooFine,
    /// The point of a question about contours, or about a tree of plane leaves, has a Z other than 0.
    PointOffPlane,
    /// The text has more bytes than the command takes.
    TooLong,
    /// The text is not of the OFF grammar.
    Off(OffFault),
    /// The text is not of the contour grammar.
    G(GFault),
    /// The mesh is not closed.
    Mesh(MeshFault),
    /// The contours are not closed.
    Contour(ContourFault),
    /// The boundary has more distinct planes, or more distinct lines or else discs, than a conversion takes.
    Limit(NatFault),
    /// The text is not of the CSG grammar.
    Csg(CsgFault),
    /// No line of a joined text is `====`.
    NoPart,
    /// This part of a joined text, counted from 1, has more bytes than a boundary text may have.
    PartTooLong { part: u32 },
    /// The second part of a joined text is at fault.
    Second(PartFault),
    /// The formula of an audit has a leaf of the plane.
    NotSolid,
    /// A block of the formula is not the box of the mesh.
    OtherBox,
    /// The text has no sections of layers.
    Layer(LayerFault),
    /// The contours of this section, counted from 0, are not converted.
    InLayer { layer: u32, fault: InnerFault },
}

/// How a run of the program ended.
#[derive(Clone, Copy, Debug, PartialEq, Eq)]
pub enum Status {
    Done,
    Refused(Refusal),
    /// The words are not in the command table.
    Usage,
    /// The source failed.
    ReadFault,
    /// The sink failed.
    WriteFault,
    /// There was no memory left.
    Memory,
}

impl Status {
    /// The exit status of the program: 0, 2, 3, 4, 5, 6 in the order of the variants.
    pub fn code(&self) -> u8
        ensures { result ≡ code_of self.now }
    {
        match self {
            Status::Done => 0,
            Status::Refused(_) => 2,
            Status::Usage => 3,
            Status::ReadFault => 4,
            Status::WriteFault => 5,
            Status::Memory => 6,
        }
    }
}
