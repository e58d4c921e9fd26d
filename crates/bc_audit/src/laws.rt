//! Laws of audits. Each is a function that does nothing: its promise is the law.
ghost use Rattle.bc_audit.specs.Audits.{IsOneBox, OneOutcome};
ghost use Rattle.bc_audit.specs.SlabPlanes.{OnePlaneList};

/// A mesh and a tree whose leaves are within their ranges have one list of planes.
pub fn plane_list_law()
    ensures { OnePlaneList }
{}

/// A mesh has one box, an answer and a fault of an audit exclude each other, and so do the two faults.
pub fn outcome_law()
    ensures one_box { IsOneBox }
    ensures one_outcome { OneOutcome }
{}
