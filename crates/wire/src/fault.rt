// What the reader refuses.
ghost use Rattle.std.specs.Prelude.{◌≡◌};
ghost use Rattle.wire.specs.Faults.{refusal_of};

use refusals::{Layer, Refusal};

#[derive(Clone, Copy, PartialEq, Eq, Debug)]
pub enum ReadFault {
    // fewer bytes than a head, or a length that head and kind do not make; holds the length given
    Length(usize),
    // no such kind of message
    UnknownKind,
    // a field outside its range; holds the field's offset
    Field(usize),
    // a setting outside its range
    Setting,
}

impl From<ReadFault> for Refusal {
    ghost from_gives = { λ fault r. r ≡ refusal_of fault };

    fn from(fault: ReadFault) -> Refusal {
        let (number, place) = match fault {
            ReadFault::Length(given) => (1, given),
            ReadFault::UnknownKind => (2, 0),
            ReadFault::Field(offset) => (3, offset),
            ReadFault::Setting => (3, 0),
        };
        Refusal {
            number,
            layer: Layer::Reader,
            place,
        }
    }
}
