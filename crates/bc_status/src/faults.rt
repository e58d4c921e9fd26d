//! What becomes of the faults of the crates below: want of memory is a status of its own, and every other fault is refused.
ghost use Rattle.std.specs.Prelude.{◌≡◌};
ghost use Rattle.bc_status.specs.Faults.{Becomes, IsEndOfReading, IsEndOfAudit};
ghost use Rattle.bc_status.specs.declared.status.Status.TheVariants.{Refused, Memory};
ghost use Rattle.bc_status.specs.declared.status.Refusal.TheVariants as refusals;
ghost use Rattle.bc_gcode.specs.declared.fault.GFault.TheVariants as grammar;
ghost use Rattle.bc_off.specs.declared.fault.OffFault.TheVariants as words;
ghost use Rattle.bc_solid.specs.declared.contour_fault.ContourFault.TheVariants as closing;
ghost use Rattle.bc_solid.specs.declared.mesh_fault.MeshFault.TheVariants as mesh;
ghost use Rattle.bc_natural.specs.declared.nat_fault.NatFault.TheVariants as limits;
ghost use Rattle.bc_read.specs.declared.fault.CsgFault.TheVariants as csg;
ghost use Rattle.bc_prism.specs.declared.fault.LayerFault.TheVariants as layers;

use crate::{Refusal, Status};
use bc_audit::AuditFault;
use bc_gcode::GFault;
use bc_io::ReadEnd;
use bc_natural::NatFault;
use bc_num::Memory as NoMemory;
use bc_off::OffFault;
use bc_pair::NoPart;
use bc_prism::LayerFault;
use bc_read::CsgFault;
use bc_solid::{ContourFault, MeshFault};

impl From<ReadEnd> for Status {
    ghost from_gives = { IsEndOfReading };

    fn from(end: ReadEnd) -> Status {
        match end {
            ReadEnd::Fault => Status::ReadFault,
            ReadEnd::TooLong => Status::Refused(Refusal::TooLong),
            ReadEnd::Memory => Status::Memory,
        }
    }
}

impl From<GFault> for Status {
    ghost from_gives = { Becomes grammar.Memory refusals.G };

    fn from(fault: GFault) -> Status {
        match fault {
            GFault::Memory => Status::Memory,
            fault => Status::Refused(Refusal::G(fault)),
        }
    }
}

impl From<OffFault> for Status {
    ghost from_gives = { Becomes words.Memory refusals.Off };

    fn from(fault: OffFault) -> Status {
        match fault {
            OffFault::Memory => Status::Memory,
            fault => Status::Refused(Refusal::Off(fault)),
        }
    }
}

impl From<ContourFault> for Status {
    ghost from_gives = { Becomes closing.Memory refusals.Contour };

    fn from(fault: ContourFault) -> Status {
        match fault {
            ContourFault::Memory => Status::Memory,
            fault => Status::Refused(Refusal::Contour(fault)),
        }
    }
}

impl From<MeshFault> for Status {
    ghost from_gives = { Becomes mesh.Memory refusals.Mesh };

    fn from(fault: MeshFault) -> Status {
        match fault {
            MeshFault::Memory => Status::Memory,
            fault => Status::Refused(Refusal::Mesh(fault)),
        }
    }
}

impl From<NatFault> for Status {
    ghost from_gives = { Becomes limits.Memory refusals.Limit };

    fn from(fault: NatFault) -> Status {
        match fault {
            NatFault::Memory => Status::Memory,
            fault => Status::Refused(Refusal::Limit(fault)),
        }
    }
}

impl From<CsgFault> for Status {
    ghost from_gives = { Becomes csg.Memory refusals.Csg };

    fn from(fault: CsgFault) -> Status {
        match fault {
            CsgFault::Memory => Status::Memory,
            fault => Status::Refused(Refusal::Csg(fault)),
        }
    }
}

impl From<LayerFault> for Status {
    ghost from_gives = { Becomes layers.Memory refusals.Layer };

    fn from(fault: LayerFault) -> Status {
        match fault {
            LayerFault::Memory => Status::Memory,
            fault => Status::Refused(Refusal::Layer(fault)),
        }
    }
}

impl From<AuditFault> for Status {
    ghost from_gives = { IsEndOfAudit };

    fn from(fault: AuditFault) -> Status {
        match fault {
            AuditFault::OtherBox => Status::Refused(Refusal::OtherBox),
            AuditFault::TooManyPlanes { n } => {
                Status::Refused(Refusal::Limit(NatFault::TooManyPlanes { n }))
            }
            AuditFault::Memory => Status::Memory,
        }
    }
}

impl From<NoPart> for Status {
    ghost from_gives = { λ _ s. s ≡ Refused refusals.NoPart };

    fn from(_: NoPart) -> Status {
        Status::Refused(Refusal::NoPart)
    }
}

impl From<Refusal> for Status {
    ghost from_gives = { λ f s. s ≡ Refused f };

    fn from(refusal: Refusal) -> Status {
        Status::Refused(refusal)
    }
}

impl From<NoMemory> for Status {
    ghost from_gives = { λ _ s. s ≡ Memory };

    fn from(_: NoMemory) -> Status {
        Status::Memory
    }
}
