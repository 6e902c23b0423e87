// What a replica refuses.
ghost use Rattle.std.specs.Prelude.{◌≡◌};
ghost use Rattle.protocol.specs.declared.fault.ReplicaFault.TheVariants.{Read, Register};
ghost use Rattle.protocol.specs.Faults.{refusal_of};

use refusals::{Layer, Refusal};
use seals::fault::RegisterFault;
use wire::fault::ReadFault;

#[derive(Clone, Copy, PartialEq, Eq, Debug)]
pub enum ReplicaFault {
    // the reader's own fault, or a setting outside its range
    Read(ReadFault),
    // an unknown seal, or no room for one
    Register(RegisterFault),
    // another view than the replica's
    WrongView,
    // phase, role or kind does not allow it
    NotAllowed,
    // the sender is not entitled to say this
    NotEntitled,
    // a number out of turn
    OutOfTurn,
    // another request than the one that stands there
    OtherRequest,
    // such a message of this sender was heard before
    HeardBefore,
    // too few messages yet
    TooFew,
    // an entry of a report without a certificate; holds the entry's number
    NoCertificate(u8),
    // a closing names a report that is not held
    ReportNotHeld,
    // no number or no view left
    NoneLeft,
    // the buffer is too short for the message
    ShortBuffer,
    // opening: a closing names a report that is not held
    NamedReportMissing,
}

impl From<ReadFault> for ReplicaFault {
    ghost from_gives = { λ fault r. r ≡ Read fault };

    fn from(fault: ReadFault) -> ReplicaFault {
        ReplicaFault::Read(fault)
    }
}

impl From<RegisterFault> for ReplicaFault {
    ghost from_gives = { λ fault r. r ≡ Register fault };

    fn from(fault: RegisterFault) -> ReplicaFault {
        ReplicaFault::Register(fault)
    }
}

impl From<ReplicaFault> for Refusal {
    ghost from_gives = { λ fault r. r ≡ refusal_of fault };

    fn from(fault: ReplicaFault) -> Refusal {
        let (number, place) = match fault {
            ReplicaFault::Read(fault) => return Refusal::from(fault),
            ReplicaFault::Register(fault) => return Refusal::from(fault),
            ReplicaFault::WrongView => (6, 0),
            ReplicaFault::NotAllowed => (7, 0),
            ReplicaFault::NotEntitled => (8, 0),
            ReplicaFault::OutOfTurn => (9, 0),
            ReplicaFault::OtherRequest => (10, 0),
            ReplicaFault::HeardBefore => (11, 0),
            ReplicaFault::TooFew => (12, 0),
            ReplicaFault::NoCertificate(entry) => (13, usize::from(entry)),
            ReplicaFault::ReportNotHeld => (14, 0),
            ReplicaFault::NoneLeft => (15, 0),
            ReplicaFault::ShortBuffer => (16, 0),
            ReplicaFault::NamedReportMissing => (17, 0),
        };
        Refusal {
            number,
            layer: Layer::House,
            place,
        }
    }
}
