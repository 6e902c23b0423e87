// What a register refuses.
ghost use Rattle.std.specs.Prelude.{◌≡◌};
ghost use Rattle.seals.specs.Faults.{refusal_of};

use refusals::{Layer, Refusal};

#[derive(Clone, Copy, PartialEq, Eq, Debug)]
pub enum RegisterFault {
    // the pair was never sealed
    Unknown,
    // the pair is new and does not fit
    Full,
}

impl From<RegisterFault> for Refusal {
    ghost from_gives = { λ fault r. r ≡ refusal_of fault };

    fn from(fault: RegisterFault) -> Refusal {
        let number = match fault {
            RegisterFault::Unknown => 4,
            RegisterFault::Full => 5,
        };
        Refusal {
            number,
            layer: Layer::Register,
            place: 0,
        }
    }
}
