// The built-in story: a request becomes a message and is read back, and damaged messages are refused.
use crate::answer::{answer_read, answer_seal};
use groups::group::Group;
use machines::ledger::Ledger;
use machines::ledger_work::LedgerWork;
use machines::machine::Machine;
use machines::press_queue::PressQueue;
use machines::queue_work::QueueWork;
use scenario::words::print;
use seals::index::IndexedJournal;
use seals::journal::Journal;
use seals::register::Register;
use std::fmt;
use std::fmt::Write;
use wire::config::ClusterConfig;
use wire::draft::{Content, Draft};
use wire::request::Request;

const SIZE: u8 = 3;

// How long a PREPARE is, as a constant, since it is the length of an array.
const LENGTH: usize = 27;

// The parts of a PREPARE: how many bytes each has, and what they say here.
const PARTS: [(usize, &str); 9] = [
    (1, "kind 1: a PREPARE"),
    (1, "from house 0"),
    (4, "in view 0"),
    (1, "with one row"),
    (4, "the row's number: request number 1"),
    (2, "the length of its body: 14 bytes"),
    (2, "the body begins: client 1"),
    (4, "stamp 1"),
    (8, "the work: operation 1 (buy), piece 5, 40 copies"),
];

pub(crate) fn demo(out: &mut String) -> fmt::Result {
    let config = ClusterConfig::new(SIZE).map_err(|_| fmt::Error)?;
    let work = LedgerWork::Buy {
        piece: 5,
        copies: 40,
    };
    let request = Request::new(1, 1, work.into()).map_err(|_| fmt::Error)?;
    let draft = Draft {
        replica: 0,
        view: 0,
        content: Content::Prepare { number: 1, request },
    };
    let mut message = [0u8; LENGTH];
    let Ok(Some(length)) = draft.write(config, &mut message) else {
        return Err(fmt::Error);
    };
    writeln!(
        out,
        "Three houses keep one numbered list of requests. Client 1 sends its first, with stamp 1:"
    )?;
    writeln!(
        out,
        "buy 40 copies of piece 5. House 0 takes it as number 1 and tells the others so by a PREPARE."
    )?;
    writeln!(out, "The message has {length} bytes:")?;
    write!(out, "  ")?;
    print(out, &message)?;
    writeln!(out, "\n\nPart by part they say:")?;
    tell_parts(out, &message)?;
    writeln!(out, "\nThe reader takes the bytes apart again:")?;
    tell_read(out, "these 27 bytes", &message)?;
    tell_group(out, config)?;
    tell_damage(out, message)?;
    tell_registers(out, message)?;
    tell_machines(out)
}

fn tell_parts(out: &mut String, message: &[u8]) -> fmt::Result {
    let mut rest = message;
    for (length, meaning) in PARTS {
        let part = rest.split_off(..length).ok_or(fmt::Error)?;
        let mut digits = String::new(*out.allocator());
        print(&mut digits, part)?;
        writeln!(out, "  {digits:<16}  {meaning}")?;
    }
    Ok(())
}

fn tell_group(out: &mut String, config: ClusterConfig) -> fmt::Result {
    let group = Group::serving(config, 0);
    let primary = group.primary();
    write!(out, "\nIn view 0 a group of two houses serves:")?;
    let mut joint = "";
    for member in group.members() {
        write!(out, "{joint} house {member}")?;
        joint = " and";
    }
    Ok(writeln!(out, ". Its primary is house {primary}.")?)
}

fn tell_read(out: &mut String, what: &str, bytes: &[u8]) -> fmt::Result {
    write!(out, "  {what}: ")?;
    answer_read(out, SIZE, bytes)
}

// What the reader says of the message with some damage done to it.
fn tell_damaged<D: FnOnce(&mut [u8; LENGTH])>(
    out: &mut String,
    message: [u8; LENGTH],
    what: &str,
    damage: D,
) -> fmt::Result
    requires { D.IsAlwaysCallable damage }
{
    let mut damaged = message;
    damage(&mut damaged);
    tell_read(out, what, &damaged)
}

// A refusal says why, by its number, who refused, and where.
fn tell_damage(out: &mut String, message: [u8; LENGTH]) -> fmt::Result {
    writeln!(
        out,
        "\nA damaged message is refused. Refusal 1 is a wrong length, with the length that came;"
    )?;
    writeln!(
        out,
        "2 is an unknown kind; 3 is a field outside its range, with the place of its first byte:"
    )?;
    tell_read(out, "the first 26 bytes", &message[0..26])?;
    tell_read(out, "no bytes at all", &[])?;
    tell_damaged(out, message, "kind 7 (there are 1 to 6)", |m| m[0] = 7)?;
    tell_damaged(
        out,
        message,
        "number 97 (there are 1 to 96)",
        |m| m[10] = 97,
    )?;
    tell_damaged(out, message, "house 3 (there are 0 to 2)", |m| m[1] = 3)?;
    tell_damaged(out, message, "view 1000000 (the last is 999999)", |m| {
        m[3] = 0x0f;
        m[4] = 0x42;
        m[5] = 0x40;
    })?;
    tell_damaged(
        out,
        message,
        "client 0 (clients count from 1)",
        |m| m[14] = 0,
    )
}

fn tell_seal<R: Register>(
    out: &mut String,
    name: &str,
    register: &mut R,
    message: &[u8],
) -> fmt::Result {
    write!(out, "  {name}: sealing it: ")?;
    answer_seal(out, register, 0, message, "ok")?;
    let known = register.is_sealed(0, message);
    let other = register.is_sealed(1, message);
    Ok(writeln!(
        out,
        "  {name}: sealed by house 0: {known}, by house 1: {other}"
    )?)
}

// Both registers, and one that is full.
fn tell_registers(out: &mut String, message: [u8; LENGTH]) -> fmt::Result {
    writeln!(
        out,
        "\nHouse 0 seals its message, so that the others can believe it. There are two registers:"
    )?;
    let mut space = [0u8; 100];
    tell_seal(out, "journal", &mut Journal::new(&mut space), &message)?;
    let mut memory = [0u8; 100];
    let mut slots = [0u32; 8];
    tell_seal(
        out,
        "index  ",
        &mut IndexedJournal::new(&mut memory, &mut slots),
        &message,
    )?;
    writeln!(
        out,
        "\nA journal of 60 bytes has room for two messages of 27 bytes, each with 3 bytes before it:"
    )?;
    let mut small = [0u8; 60];
    let mut journal = Journal::new(&mut small);
    for house in 0..3u8 {
        write!(out, "  sealed by house {house}: ")?;
        answer_seal(out, &mut journal, house, &message, "ok")?;
    }
    Ok(())
}

fn tell_work<M: Machine, W: Into<u64>>(
    out: &mut String,
    machine: &mut M,
    what: &str,
    work: W,
) -> fmt::Result {
    let outcome = machine.apply(work.into());
    Ok(writeln!(out, "  {what}: {outcome}")?)
}

// A day at each machine; a refused work answers 2^40 and its reason.
fn tell_machines(out: &mut String) -> fmt::Result {
    writeln!(
        out,
        "\nA day at the ledger; a refused work answers 1099511627776 and its reason:"
    )?;
    let piece = 5;
    let mut ledger = Ledger::new();
    let buy = LedgerWork::Buy { piece, copies: 40 };
    tell_work(out, &mut ledger, "buy 40 of piece 5, then left", buy)?;
    let too_many = LedgerWork::Print { piece, copies: 45 };
    tell_work(out, &mut ledger, "print 45, too many (reason 3)", too_many)?;
    let print = LedgerWork::Print { piece, copies: 12 };
    tell_work(out, &mut ledger, "print 12, then left", print)?;
    writeln!(out, "\nAnd at the press queue:")?;
    let mut queue = PressQueue::new();
    let put = |job: u32| QueueWork::Put { job };
    tell_work(out, &mut queue, "put job 7, then waiting", put(7))?;
    tell_work(out, &mut queue, "put job 8, then waiting", put(8))?;
    tell_work(out, &mut queue, "take the oldest", QueueWork::Take)?;
    tell_work(out, &mut queue, "take the next", QueueWork::Take)?;
    tell_work(
        out,
        &mut queue,
        "take from the empty queue (reason 5)",
        QueueWork::Take,
    )
}
