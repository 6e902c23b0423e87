// A small machine of two makers, and the two joined into one machine.
ghost use Rattle.std.specs.Prelude.{◌-◌, ◌^◌};
ghost use Rattle.machines.specs.declared.example.Last.TheVariants.{Plain, Flipped};
ghost use Rattle.machines.specs.Example.{last_work};

use crate::machine::Machine;

// Keeps the last work as it is.
#[derive(Drop)]
struct PlainLast {
    last: u64,
}

impl Machine for PlainLast {
    ghost meaning = { last_work };

    ghost state = { λ m. m.last };

    fn reset(&mut self) {
        self.last = 0;
    }

    fn apply(&mut self, work: u64) -> u64 {
        let last = self.last;
        self.last = work;
        last
    }
}

// Keeps what is missing from the last work to the largest.
#[derive(Drop)]
struct FlippedLast {
    missing: u64,
}

impl Machine for FlippedLast {
    ghost meaning = { last_work };

    ghost state = { λ m. 2 ^ 64 - 1 - m.missing };

    fn reset(&mut self) {
        self.missing = u64::MAX;
    }

    fn apply(&mut self, work: u64) -> u64 {
        let last = u64::MAX - self.missing;
        self.missing = u64::MAX - work;
        last
    }
}

// A machine of either maker.
#[derive(Drop)]
enum Last {
    Plain(PlainLast),
    Flipped(FlippedLast),
}

impl Machine for Last {
    ghost meaning = { last_work };

    ghost state = { λ m. elim m [ Plain p ↦ p.last | Flipped f ↦ 2 ^ 64 - 1 - f.missing ] };

    fn reset(&mut self) {
        match self {
            Last::Plain(plain) => plain.reset(),
            Last::Flipped(flipped) => flipped.reset(),
        }
    }

    fn apply(&mut self, work: u64) -> u64 {
        match self {
            Last::Plain(plain) => plain.apply(work),
            Last::Flipped(flipped) => flipped.apply(work),
        }
    }
}

#[test]
fn both_makers_answer_alike(rt: HostRuntime) {
    let mut machines = [
        Last::Plain(PlainLast { last: 3 }),
        Last::Flipped(FlippedLast { missing: 3 }),
    ];
    for machine in &mut machines {
        machine.reset();
        assert_eq!(rt; machine.apply(7), 0);
        assert_eq!(rt; machine.apply(9), 7);
    }
}
