// A replica: its state, and the machine that it runs.
ghost use Rattle.replica.specs.Valid.{Placed, Ordered, Counted, Sized, Peered, Earlier};

use protocol::state::State;

#[derive(Drop)]
pub struct Replica<M> {
    pub(crate) state: State,
    pub(crate) machine: M,
    ghost placed: { Placed state },
    ghost ordered: { Ordered state },
    ghost counted: { Counted state },
    ghost sized: { Sized state },
    ghost peered: { Peered state },
    ghost earlier: { Earlier state },
}
