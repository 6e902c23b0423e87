// A refusal: what a call answers to input that it does not accept.
#![tactic(auto)]

ghost use Rattle.std.specs.Prelude.{Some};
ghost use Rattle.refusals.specs.Printed.{layer_name, printed};

use std::fmt;

// The part of the system that refused.
#[derive(Clone, Copy, PartialEq, Eq, Debug)]
pub enum Layer {
    Reader,
    Register,
    House,
    Till,
}

// The number says why, the layer who refused, and the place where in the input.
// The number stands as it is printed: the reasons of each layer are the cases of its own fault, which becomes a refusal by From.
#[derive(Clone, Copy, PartialEq, Eq, Debug)]
pub struct Refusal {
    pub number: u8,
    pub layer: Layer,
    pub place: usize,
}

impl fmt::Display for Layer {
    ghost output = { λ l. Some (layer_name l) };

    fn fmt<W: fmt::Write>(&self, f: &mut fmt::Formatter<W>) -> fmt::Result {
        let name = match self {
            Layer::Reader => "reader",
            Layer::Register => "register",
            Layer::House => "house",
            Layer::Till => "till",
        };
        write!(f, "{name}")
    }
}

impl fmt::Display for Refusal {
    ghost output = { λ r. Some (printed r) };

    fn fmt<W: fmt::Write>(&self, f: &mut fmt::Formatter<W>) -> fmt::Result {
        let number = self.number;
        let layer = self.layer;
        let place = self.place;
        write!(f, "refused {number} {layer} {place}")
    }
}
