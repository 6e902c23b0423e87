// The ledger: how many copies of each piece are left.
ghost use Rattle.std.specs.Prelude.{◌≡◌, ◌<◌, ℕ, List};
ghost use Rattle.machines.specs.declared.ledger_work.LedgerWork.TheVariants.{Buy, Print};
ghost use Rattle.machines.specs.Ledgers.{ledger, ledger_does, pieces};
ghost use Rattle.machines.specs.Outcomes.{outcome_of, if_known};

use crate::ledger_work::{LedgerWork, PIECES};
use crate::machine::Machine;
use crate::reason::Reason;
use std::marker::Model;

// how many copies of a piece may be left at most
pub const MOST_COPIES: u64 = 1_000_000;

#[derive(Drop)]
pub struct Ledger {
    left: [u32; PIECES],
}

// A contract sees how many copies of each piece are left.
impl Model for Ledger {
    ghost Value = { List ℕ };

    ghost view = { λ l. l.left };
}

impl Ledger {
    pub fn new() -> Ledger
        ensures { result ≡ ledger.fresh }
    {
        Ledger { left: [0; PIECES] }
    }

    fn buy(&mut self, piece: u8, copies: u32) -> Result<u64, Reason>
        requires { piece < pieces }
        ensures state { self.new ≡ (ledger_does self.old (Buy piece copies)).0 }
        ensures outcome { outcome_of result ≡ (ledger_does self.old (Buy piece copies)).1 }
    {
        let left = &mut self.left[usize::from(piece)];
        if u64::from(*left) + u64::from(copies) > MOST_COPIES {
            return Err(Reason::TooManyCopies);
        }
        *left += copies;
        Ok(u64::from(*left))
    }

    fn print(&mut self, piece: u8, copies: u32) -> Result<u64, Reason>
        requires { piece < pieces }
        ensures state { self.new ≡ (ledger_does self.old (Print piece copies)).0 }
        ensures outcome { outcome_of result ≡ (ledger_does self.old (Print piece copies)).1 }
    {
        let left = &mut self.left[usize::from(piece)];
        *left = left.checked_sub(copies).ok_or(Reason::TooFewCopies)?;
        Ok(u64::from(*left))
    }

    fn perform(&mut self, work: u64) -> Result<u64, Reason>
        ensures state { self.new ≡ (ledger.step self.old work).0 }
        ensures outcome { outcome_of result ≡ (ledger.step self.old work).1 }
    {
        match LedgerWork::try_from(work)? {
            LedgerWork::Buy { piece, copies } => self.buy(piece, copies),
            LedgerWork::Print { piece, copies } => self.print(piece, copies),
            LedgerWork::Ask { piece } => Ok(u64::from(self.left[usize::from(piece)])),
        }
    }
}

impl Machine for Ledger {
    ghost meaning = { ledger };

    ghost state = { λ left. left };

    fn reset(&mut self) {
        self.left = [0; PIECES];
    }

    fn apply(&mut self, work: u64) -> u64 {
        self.perform(work).unwrap_or_else(Reason::outcome)
    }
}
