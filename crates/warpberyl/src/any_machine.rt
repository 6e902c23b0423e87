// A machine of either maker.
use crate::command::MachineKind;
use machines::ledger::Ledger;
use machines::machine::Machine;
use machines::press_queue::PressQueue;

// The two have different meanings, and an `impl Machine` has one, so this enum has no such impl, and no `dyn` can join them.
#[derive(Drop)]
pub(crate) enum AnyMachine {
    Ledger(Ledger),
    Press(PressQueue),
}

// a fresh machine
impl From<MachineKind> for AnyMachine {
    fn from(kind: MachineKind) -> AnyMachine {
        match kind {
            MachineKind::Ledger => AnyMachine::Ledger(Ledger::new()),
            MachineKind::Press => AnyMachine::Press(PressQueue::new()),
        }
    }
}

impl AnyMachine {
    pub(crate) fn apply(&mut self, work: u64) -> u64 {
        match self {
            AnyMachine::Ledger(ledger) => ledger.apply(work),
            AnyMachine::Press(queue) => queue.apply(work),
        }
    }
}
