//! Faults of one part of a text, told as such.
ghost use Rattle.std.specs.Prelude.{◌≡◌};
ghost use Rattle.bc_status.specs.Parts.{refusal_in_second, in_second, refusal_in_layer, in_layer};

use crate::{Refusal, Status};
use bc_gcode::GFault;
use bc_natural::NatFault;
use bc_off::OffFault;
use bc_read::CsgFault;
use bc_solid::{ContourFault, MeshFault};

/// Why the second part of a joined text is refused. Lines count from its own first one.
#[derive(Clone, Copy, Debug, PartialEq, Eq)]
pub enum PartFault {
    /// It is not of the OFF grammar.
    Off(OffFault),
    /// It is not of the contour grammar.
    G(GFault),
    /// Its mesh is not closed.
    Mesh(MeshFault),
    /// Its contours are not closed.
    Contour(ContourFault),
    /// It is not of the CSG grammar.
    Csg(CsgFault),
}

/// Why the contours of a section are refused. Lines count from the first one behind its `LAYER` line.
#[derive(Clone, Copy, Debug, PartialEq, Eq)]
pub enum InnerFault {
    /// They are not of the contour grammar.
    G(GFault),
    /// They are not closed.
    Contour(ContourFault),
    /// They have more distinct lines or discs than a conversion takes.
    Limit(NatFault),
}

impl Refusal {
    // The same fault of the second part of a joined text. What is no fault of a text stays as it is.
    fn in_second(self) -> Refusal
        ensures { result ≡ refusal_in_second self }
    {
        match self {
            Refusal::Off(fault) => Refusal::Second(PartFault::Off(fault)),
            Refusal::G(fault) => Refusal::Second(PartFault::G(fault)),
            Refusal::Mesh(fault) => Refusal::Second(PartFault::Mesh(fault)),
            Refusal::Contour(fault) => Refusal::Second(PartFault::Contour(fault)),
            Refusal::Csg(fault) => Refusal::Second(PartFault::Csg(fault)),
            refusal => refusal,
        }
    }

    // The same fault of a section of layers. What is no fault of contours stays as it is.
    fn in_layer(self, layer: u32) -> Refusal
        ensures { result ≡ refusal_in_layer layer self }
    {
        match self {
            Refusal::G(fault) => Refusal::InLayer {
                layer,
                fault: InnerFault::G(fault),
            },
            Refusal::Contour(fault) => Refusal::InLayer {
                layer,
                fault: InnerFault::Contour(fault),
            },
            Refusal::Limit(fault) => Refusal::InLayer {
                layer,
                fault: InnerFault::Limit(fault),
            },
            refusal => refusal,
        }
    }
}

impl Status {
    /// The same status, where a refusal is one of the second part of a joined text.
    pub fn in_second(self) -> Status
        ensures { result ≡ in_second self }
    {
        match self {
            Status::Refused(refusal) => Status::Refused(refusal.in_second()),
            status => status,
        }
    }

    /// The same status, where a refusal is one of the section of layers with this number, counted from 0.
    pub fn in_layer(self, layer: u32) -> Status
        ensures { result ≡ in_layer layer self }
    {
        match self {
            Status::Refused(refusal) => Status::Refused(refusal.in_layer(layer)),
            status => status,
        }
    }
}
