// The commands, and the command that a line says.
use machines::ledger_work::LedgerWork;
use machines::queue_work::QueueWork;
use scenario::lines::Words;
use scenario::words::{bytes, decimal, hexadecimal_u64};
use std::alloc::{AllocError, Global};
use std::error::Error;
use std::fmt;

#[derive(Drop)]
pub(crate) enum Command {
    // makes a new cluster
    Cluster { size: u8, register: RegisterPlan },
    // asks the cluster's register
    Register(RegisterCommand),
    // needs no cluster
    Plain(PlainCommand),
}

#[derive(Drop)]
pub(crate) enum RegisterCommand {
    Seal { replica: u8, bytes: Vec<u8> },
    Sealed { replica: u8, bytes: Vec<u8> },
    Fits { length: u32 },
}

#[derive(Drop)]
pub(crate) enum PlainCommand {
    Read { size: u8, bytes: Vec<u8> },
    Group { size: u8, view: u32 },
    Request { client: u16, stamp: u32, work: u64 },
    Hash { bytes: Vec<u8> },
    Machine { kind: MachineKind },
    Do { work: u64 },
}

// The machines that can be asked for. A command names one, since a machine in it would make every command as large.
#[derive(Clone, Copy)]
pub(crate) enum MachineKind {
    Ledger,
    Press,
}

// The registers that can be asked for, with their bytes and slots.
#[derive(Clone, Copy)]
pub(crate) enum RegisterPlan {
    Journal { space: usize },
    Index { space: usize, slots: usize },
}

// The most bytes, and the most slots, of a register.
const MOST_SPACE: u32 = 16_777_216;

// Why a line cannot be understood.
#[derive(Clone, Copy, Debug)]
pub(crate) enum Reason {
    UnknownCommand,
    TooFewWords,
    TooManyWords,
    // no number up to this one
    Number(u32),
    Work,
    Bytes,
    Machine,
    Register,
    NoCluster,
    Memory,
}

impl fmt::Display for Reason {
    fn fmt<W: fmt::Write>(&self, f: &mut fmt::Formatter<W>) -> fmt::Result {
        match self {
            Reason::UnknownCommand => write!(f, "unknown command"),
            Reason::TooFewWords => write!(f, "too few words"),
            Reason::TooManyWords => write!(f, "too many words"),
            Reason::Number(most) => write!(f, "not a number from 0 to {most}"),
            Reason::Work => write!(f, "not a work"),
            Reason::Bytes => write!(f, "not pairs of hexadecimal digits"),
            Reason::Machine => write!(f, "not a machine, ledger or press"),
            Reason::Register => write!(f, "not a register, journal or index"),
            Reason::NoCluster => write!(f, "no cluster yet"),
            Reason::Memory => write!(f, "out of memory"),
        }
    }
}

impl Error for Reason {}

impl From<AllocError> for Reason {
    fn from(_e: AllocError) -> Reason {
        Reason::Memory
    }
}

// The words of a line behind the command's name.
#[derive(Drop)]
struct Arguments<'a> {
    words: Words<'a>,
}

impl<'a> Arguments<'a> {
    fn word(&mut self) -> Result<&'a [u8], Reason> {
        self.words.next().ok_or(Reason::TooFewWords)
    }

    fn end(&mut self) -> Result<(), Reason> {
        match self.words.next() {
            Some(_) => Err(Reason::TooManyWords),
            None => Ok(()),
        }
    }

    // A number from 0 to the largest that may be.
    fn number<T: TryFrom<u64> + Into<u32> + PartialOrd + Copy>(
        &mut self,
        most: T,
    ) -> Result<T, Reason>
    where
        T::Error: Drop,
    {
        decimal(self.word()?)
            .filter(|n| *n <= most)
            .ok_or(Reason::Number(most.into()))
    }

    fn work(&mut self) -> Result<u64, Reason> {
        let word = self.word()?;
        match word {
            b"buy" => Ok(u64::from(LedgerWork::Buy {
                piece: self.number(u8::MAX)?,
                copies: self.number(u32::MAX)?,
            })),
            b"print" => Ok(u64::from(LedgerWork::Print {
                piece: self.number(u8::MAX)?,
                copies: self.number(u32::MAX)?,
            })),
            b"ask" => Ok(u64::from(LedgerWork::Ask {
                piece: self.number(u8::MAX)?,
            })),
            b"put" => Ok(u64::from(QueueWork::Put {
                job: self.number(u32::MAX)?,
            })),
            b"take" => Ok(u64::from(QueueWork::Take)),
            _ => hexadecimal_u64(word).ok_or(Reason::Work),
        }
    }

    fn space(&mut self) -> Result<usize, Reason> {
        Ok(self.number(MOST_SPACE)? as usize)
    }

    fn machine(&mut self) -> Result<MachineKind, Reason> {
        match self.word()? {
            b"ledger" => Ok(MachineKind::Ledger),
            b"press" => Ok(MachineKind::Press),
            _ => Err(Reason::Machine),
        }
    }

    fn register(&mut self) -> Result<RegisterPlan, Reason> {
        match self.word()? {
            b"journal" => Ok(RegisterPlan::Journal {
                space: self.space()?,
            }),
            b"index" => Ok(RegisterPlan::Index {
                space: self.space()?,
                slots: self.space()?,
            }),
            _ => Err(Reason::Register),
        }
    }

    fn bytes(&mut self, heap: Global) -> Result<Vec<u8>, Reason> {
        match self.word()? {
            b"-" => Ok(Vec::new(heap)),
            word => bytes(heap, word)?.ok_or(Reason::Bytes),
        }
    }
}

// Each command reads words of its own, which a `match` says more plainly than a table.
fn named(heap: Global, name: &[u8], words: &mut Arguments<'_>) -> Result<Command, Reason> {
    match name {
        b"cluster" => {
            let size = words.number(u8::MAX)?;
            words.machine()?;
            let register = words.register()?;
            Ok(Command::Cluster { size, register })
        }
        b"seal" => Ok(Command::Register(RegisterCommand::Seal {
            replica: words.number(u8::MAX)?,
            bytes: words.bytes(heap)?,
        })),
        b"sealed" => Ok(Command::Register(RegisterCommand::Sealed {
            replica: words.number(u8::MAX)?,
            bytes: words.bytes(heap)?,
        })),
        b"fits" => Ok(Command::Register(RegisterCommand::Fits {
            length: words.number(u32::MAX)?,
        })),
        _ => Ok(Command::Plain(plain(heap, name, words)?)),
    }
}

fn plain(heap: Global, name: &[u8], words: &mut Arguments<'_>) -> Result<PlainCommand, Reason> {
    match name {
        b"read" => Ok(PlainCommand::Read {
            size: words.number(u8::MAX)?,
            bytes: words.bytes(heap)?,
        }),
        b"group" => Ok(PlainCommand::Group {
            size: words.number(u8::MAX)?,
            view: words.number(u32::MAX)?,
        }),
        b"request" => Ok(PlainCommand::Request {
            client: words.number(u16::MAX)?,
            stamp: words.number(u32::MAX)?,
            work: words.work()?,
        }),
        b"hash" => Ok(PlainCommand::Hash {
            bytes: words.bytes(heap)?,
        }),
        b"machine" => Ok(PlainCommand::Machine {
            kind: words.machine()?,
        }),
        b"do" => Ok(PlainCommand::Do {
            work: words.work()?,
        }),
        _ => Err(Reason::UnknownCommand),
    }
}

// The command of a line; a blank line and a remark have none.
pub(crate) fn parse(heap: Global, line: &[u8]) -> Result<Option<Command>, Reason> {
    if line.starts_with(b"#") {
        return Ok(None);
    }
    let mut words = Words::new(line);
    let Some(name) = words.next() else {
        return Ok(None);
    };
    let mut arguments = Arguments { words };
    let command = named(heap, name, &mut arguments)?;
    arguments.end()?;
    Ok(Some(command))
}
