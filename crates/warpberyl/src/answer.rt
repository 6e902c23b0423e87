// What each command answers.
use crate::any_machine::AnyMachine;
use crate::command::{PlainCommand, Reason, RegisterCommand, RegisterPlan};
use groups::group::Group;
use refusals::Refusal;
use scenario::words::print;
use seals::fnv::fnv1a;
use seals::register::Register;
use std::fmt;
use std::fmt::Write;
use wire::config::ClusterConfig;
use wire::message::{Message, Report};
use wire::read::read;
use wire::request::Request;

// What a call that may be refused answers where it is not.
const DONE: &str = "ok 0";

fn answer_refusal(out: &mut String, refusal: Refusal) -> fmt::Result {
    Ok(writeln!(out, "{refusal}")?)
}

// A call's outcome on a line: what it gives, or the refusal.
fn answer_call<T: fmt::Display + Drop, E: Into<Refusal>>(
    out: &mut String,
    outcome: Result<T, E>,
) -> fmt::Result {
    match outcome {
        Ok(value) => Ok(writeln!(out, "{value}")?),
        Err(fault) => answer_refusal(out, fault.into()),
    }
}

// A word or two on a line. The text goes in as it is: formatting it would take a tenth of the time of the whole line.
fn answer_done(out: &mut String, done: &str) -> fmt::Result {
    out.push_str(done)?;
    Ok(out.push('\n')?)
}

// Whether a call was refused, on a line: that it was done, or the refusal.
fn answer_outcome<T: Drop, E: Into<Refusal>>(
    out: &mut String,
    outcome: Result<T, E>,
    done: &str,
) -> fmt::Result {
    match outcome {
        Ok(_) => answer_done(out, done),
        Err(fault) => answer_refusal(out, fault.into()),
    }
}

// Answers a command that needs no cluster. A plain match: each command has parts of its own.
pub(crate) fn answer(
    out: &mut String,
    machine: &mut AnyMachine,
    command: PlainCommand,
) -> fmt::Result {
    match command {
        PlainCommand::Read { size, bytes } => answer_read(out, size, bytes.as_slice()),
        PlainCommand::Group { size, view } => answer_group(out, size, view),
        PlainCommand::Request {
            client,
            stamp,
            work,
        } => answer_request(out, client, stamp, work),
        PlainCommand::Hash { bytes } => {
            print(out, &fnv1a(bytes.as_slice()).to_be_bytes())?;
            Ok(out.push('\n')?)
        }
        PlainCommand::Machine { kind } => {
            *machine = kind.into();
            answer_done(out, DONE)
        }
        PlainCommand::Do { work } => {
            let outcome = machine.apply(work);
            Ok(writeln!(out, "{outcome}")?)
        }
    }
}

// Answers a command about the register. A plain match, as above.
pub(crate) fn answer_register<R: Register>(
    out: &mut String,
    register: &mut R,
    command: RegisterCommand,
) -> fmt::Result {
    match command {
        RegisterCommand::Seal { replica, bytes } => answer_seal(
            out,
            register,
            replica,
            bytes.as_slice(),
            DONE,
        ),
        RegisterCommand::Sealed { replica, bytes } => answer_yes(
            out,
            register.is_sealed(replica, bytes.as_slice()),
        ),
        RegisterCommand::Fits { length } => answer_yes(out, register.has_room(length as usize)),
    }
}

fn answer_yes(out: &mut String, yes: bool) -> fmt::Result {
    answer_done(out, if yes { "yes" } else { "no" })
}

// Answers whether a cluster may have the size, and hands on the plan for its register if it may.
pub(crate) fn answer_cluster(
    out: &mut String,
    size: u8,
    plan: RegisterPlan,
) -> Result<Option<RegisterPlan>, fmt::Error> {
    let cluster = ClusterConfig::new(size);
    answer_outcome(out, cluster, DONE)?;
    Ok(cluster.ok().map(|_| plan))
}

pub(crate) fn answer_error(out: &mut String, line: u64, reason: Reason) -> fmt::Result {
    Ok(writeln!(out, "error {line}: {reason}")?)
}

pub(crate) fn answer_read(out: &mut String, size: u8, bytes: &[u8]) -> fmt::Result {
    let message = ClusterConfig::new(size).and_then(|config| read(config, bytes));
    match message {
        Ok(message) => tell(out, message),
        Err(fault) => answer_refusal(out, fault.into()),
    }
}

fn answer_group(out: &mut String, size: u8, view: u32) -> fmt::Result {
    let group = ClusterConfig::new(size).and_then(|config| Group::of_view(config, view));
    answer_call(out, group.map(Members))
}

fn answer_request(out: &mut String, client: u16, stamp: u32, work: u64) -> fmt::Result {
    let request = Request::new(client, stamp, work);
    answer_outcome(out, request, DONE)
}

// Seals bytes under a replica's number, and says so in a word or two.
pub(crate) fn answer_seal<R: Register>(
    out: &mut String,
    register: &mut R,
    replica: u8,
    bytes: &[u8],
    done: &str,
) -> fmt::Result {
    let sealed = register.seal(replica, bytes);
    answer_outcome(out, sealed, done)
}

// The answer about a group: its members.
#[derive(Clone, Copy)]
struct Members(Group);

impl fmt::Display for Members {
    fn fmt<W: fmt::Write>(&self, f: &mut fmt::Formatter<W>) -> fmt::Result {
        write!(f, "ok")?;
        for member in self.0.members() {
            write!(f, " {member}")?;
        }
        Ok(())
    }
}

// A message in words. It goes straight into the text, since `print` promises of a text what it cannot of any writer.
fn tell(out: &mut String, message: Message<'_>) -> fmt::Result {
    let kind = message.kind();
    let house = message.replica();
    let view = message.view();
    write!(out, "{kind} house {house} view {view}")?;
    match message {
        Message::Prepare(vote) | Message::Commit(vote) => {
            tell_request(out, vote.number(), vote.request())?;
        }
        Message::Doubt(_) => {}
        Message::Report(report) => tell_report(out, &report)?,
        Message::Closing(closing) => {
            let mask = closing.mask();
            write!(out, " mask {mask}")?;
        }
        Message::Reply(reply) => {
            tell_request(out, reply.number(), reply.request())?;
            let outcome = reply.outcome();
            write!(out, " outcome {outcome}")?;
        }
    }
    Ok(out.push('\n')?)
}

fn tell_request(out: &mut String, number: u32, request: Request) -> fmt::Result {
    let client = request.client();
    let stamp = request.stamp();
    write!(out, " number {number} client {client} stamp {stamp} work ")?;
    print(out, &request.work().to_be_bytes())
}

fn tell_report(out: &mut String, report: &Report<'_>) -> fmt::Result {
    let rows = report.len();
    write!(out, " rows {rows}")?;
    for (number, entry) in (1..=rows).zip(report.entries()) {
        let view = entry.view;
        let client = entry.request.client();
        let stamp = entry.request.stamp();
        write!(out, " {number}:{view}:{client}:{stamp}:")?;
        print(out, &entry.request.work().to_be_bytes())?;
    }
    Ok(())
}
