// The six kinds of message.
ghost use Rattle.std.specs.Prelude.{◌≡◌, ◌<◌, Some, None, MatchResult};
ghost use Rattle.wire.specs.declared.fault.ReadFault.TheVariants.{UnknownKind};
ghost use Rattle.wire.specs.Kinds.{kind_of, kind_number, kind_name, numbered, may_count, may_number, body_length, message_length};

use crate::fault::ReadFault;
use std::fmt;

// The last view and the last number of a request.
pub const LAST_VIEW: u32 = 999_999;

pub const LAST_NUMBER: u8 = 96;

#[derive(Clone, Copy, PartialEq, Eq, Debug)]
pub enum Kind {
    Prepare,
    Commit,
    Doubt,
    Report,
    Closing,
    Reply,
}

// Whether a request may have that number.
pub(crate) fn is_numbered(number: u32) -> bool
    ensures { result ≡ numbered number }
{
    1 <= number && number <= u32::from(LAST_NUMBER)
}

// The kind that a number stands for.
impl TryFrom<u8> for Kind {
    type Error = ReadFault;

    ghost try_from_gives = { λ number r. MatchResult r (λ kind. kind_of number ≡ Some kind) (λ fault. (fault ≡ UnknownKind) × (kind_of number ≡ None)) };

    fn try_from(number: u8) -> Result<Kind, ReadFault> {
        match number {
            1 => Ok(Kind::Prepare),
            2 => Ok(Kind::Commit),
            3 => Ok(Kind::Doubt),
            4 => Ok(Kind::Report),
            5 => Ok(Kind::Closing),
            6 => Ok(Kind::Reply),
            _ => Err(ReadFault::UnknownKind),
        }
    }
}

// Written out, as the way back is, so that the two can be read side by side.
impl From<Kind> for u8 {
    ghost from_gives = { λ kind number. number ≡ kind_number kind };

    fn from(kind: Kind) -> u8 {
        match kind {
            Kind::Prepare => 1,
            Kind::Commit => 2,
            Kind::Doubt => 3,
            Kind::Report => 4,
            Kind::Closing => 5,
            Kind::Reply => 6,
        }
    }
}

impl fmt::Display for Kind {
    ghost output = { λ kind. Some (kind_name kind) };

    fn fmt<W: fmt::Write>(&self, f: &mut fmt::Formatter<W>) -> fmt::Result {
        let name = match self {
            Kind::Prepare => "PREPARE",
            Kind::Commit => "COMMIT",
            Kind::Doubt => "DOUBT",
            Kind::Report => "REPORT",
            Kind::Closing => "CLOSING",
            Kind::Reply => "REPLY",
        };
        write!(f, "{name}")
    }
}

impl Kind {
    // Whether a message of this kind may have that many rows.
    pub(crate) fn may_count(self, rows: u8) -> bool
        ensures { result ≡ may_count self rows }
    {
        match self {
            Kind::Doubt => rows == 0,
            Kind::Report => rows <= LAST_NUMBER,
            _ => rows == 1,
        }
    }

    // Whether a row, counted from 0, may have that number.
    pub(crate) fn may_number(self, row: usize, number: u32) -> bool
        requires { row < 1000 }
        ensures { result ≡ may_number self row number }
    {
        match self {
            Kind::Doubt => false,
            Kind::Report => number as usize == row + 1,
            Kind::Closing => number == 0,
            _ => is_numbered(number),
        }
    }

    // How many bytes each body has.
    pub(crate) fn body_length(self) -> usize
        ensures { result ≡ body_length self }
    {
        match self {
            Kind::Prepare | Kind::Commit => 14,
            Kind::Doubt => 0,
            Kind::Report => 18,
            Kind::Closing => 2,
            Kind::Reply => 22,
        }
    }

    // How many bytes a message with that many rows has.
    pub fn message_length(self, rows: u8) -> usize
        ensures { result ≡ message_length self rows }
    {
        7 + usize::from(rows) * (6 + self.body_length())
    }
}
