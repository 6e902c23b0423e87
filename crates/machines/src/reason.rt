// Why a machine refuses a work, and the outcome that says so.
ghost use Rattle.std.specs.Prelude.{◌≡◌};
ghost use Rattle.machines.specs.Outcomes.{refused};

// the outcome of a refused work is this and the reason's number
const REFUSED: u64 = 1 << 40;

#[derive(Clone, Copy, PartialEq, Eq, Debug)]
pub enum Reason {
    NoSuchWork = 1,
    TooManyCopies = 2,
    TooFewCopies = 3,
    QueueFull = 4,
    QueueEmpty = 5,
}

impl Reason {
    // A method and no `From`, since `u64::from(reason)` would read as the reason's number.
    pub fn outcome(self) -> u64
        ensures { result ≡ refused self }
    {
        REFUSED + self as u64
    }
}
