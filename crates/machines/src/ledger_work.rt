// The works of the ledger. Their bytes are operation (1), piece (1), zero (2), copies (4).
ghost use Rattle.std.specs.Prelude.{◌≡◌};
ghost use Rattle.machines.specs.Ledgers.{ReadsLedgerWork, WritesLedgerWork, ledger_bytes};

use crate::reason::Reason;

// how many pieces there are, numbered from 0
pub const PIECES: usize = 32;

// The first bytes: constants, since the operations are the cases of `LedgerWork`, and each byte is read and written at one place.
const BUY: u8 = 1;

const PRINT: u8 = 2;

const ASK: u8 = 3;

// A work may name a piece that does not exist: it is written, and refused when read.
#[derive(Clone, Copy, PartialEq, Eq, Debug)]
pub enum LedgerWork {
    Buy { piece: u8, copies: u32 },
    Print { piece: u8, copies: u32 },
    Ask { piece: u8 },
}

// the work that these eight bytes are, if they are one of the ledger's
impl TryFrom<u64> for LedgerWork {
    type Error = Reason;

    ghost try_from_gives = { ReadsLedgerWork };

    fn try_from(work: u64) -> Result<LedgerWork, Reason> {
        let [operation, piece, 0, 0, c0, c1, c2, c3] = work.to_be_bytes() else {
            return Err(Reason::NoSuchWork);
        };
        if usize::from(piece) >= PIECES {
            return Err(Reason::NoSuchWork);
        }
        let copies = u32::from_be_bytes([c0, c1, c2, c3]);
        match operation {
            BUY => Ok(LedgerWork::Buy { piece, copies }),
            PRINT => Ok(LedgerWork::Print { piece, copies }),
            ASK if copies == 0 => Ok(LedgerWork::Ask { piece }),
            _ => Err(Reason::NoSuchWork),
        }
    }
}

impl From<LedgerWork> for u64 {
    ghost from_gives = { WritesLedgerWork };

    fn from(work: LedgerWork) -> u64 {
        match work {
            LedgerWork::Buy { piece, copies } => work_of(BUY, piece, copies),
            LedgerWork::Print { piece, copies } => work_of(PRINT, piece, copies),
            LedgerWork::Ask { piece } => work_of(ASK, piece, 0),
        }
    }
}

fn work_of(operation: u8, piece: u8, copies: u32) -> u64
    ensures { result ≡ ledger_bytes operation piece copies }
{
    let [c0, c1, c2, c3] = copies.to_be_bytes();
    u64::from_be_bytes([operation, piece, 0, 0, c0, c1, c2, c3])
}
