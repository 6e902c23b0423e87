// The program: plays a text line by line.
#![tactic(auto)]

ghost use Rattle.std.specs.Prelude.{◌<◌, ◌≤◌, length, IfOk, OnSome};

mod answer;
mod any_machine;
mod command;
mod demo;
mod options;

use answer::{answer, answer_cluster, answer_error, answer_register};
use any_machine::AnyMachine;
use command::{Command, MachineKind, Reason, RegisterPlan, parse};
use demo::demo;
use options::{Job, Misuse};
use scenario::lines::Lines;
use seals::index::IndexedJournal;
use seals::journal::Journal;
use seals::register::Register;
use std::alloc::Global;
use std::error::Error;
use std::io::Read;
use std::process::ExitCode;
use std::{env, fmt, fs, io};

const HELP: &str = "usage: warpberyl [--keep-going] [FILE]  plays FILE, or the standard input
       warpberyl --demo                 plays a built-in story
       warpberyl --help                 prints this

A text has a command on each line. Blank lines and lines that begin with # are passed over.
A line that cannot be understood answers `error LINE: REASON`; the play goes on, and the
program ends with status 1, or with status 0 under --keep-going.

Commands:
  read SIZE BYTES            the message that the bytes say to a cluster of SIZE houses
  group SIZE VIEW            the houses that serve a view
  request CLIENT STAMP WORK  whether a request can be built
  cluster SIZE MACHINE REGISTER
                             a new cluster with an empty register, in place of the old one
  seal HOUSE BYTES           the register seals the bytes under the house's number
  sealed HOUSE BYTES         whether they are sealed
  fits LENGTH                whether a new message of that length fits
  hash BYTES                 the FNV-1a hash of 32 bits
  machine MACHINE            a fresh machine that stands by itself, in place of the old one
  do WORK                    what that machine answers (a ledger before any `machine`)

Words, decimal if not said otherwise:
  SIZE, HOUSE, PIECE   0 to 255
  CLIENT               0 to 65535
  STAMP, VIEW, COPIES  0 to 4294967295, and so are JOB and LENGTH
  MACHINE              ledger, or press
  REGISTER             journal SPACE, or index SPACE SLOTS: bytes and slots, up to 16777216
  WORK                 16 hexadecimal digits, or one of
                       buy PIECE COPIES, print PIECE COPIES, ask PIECE, put JOB, take
  BYTES                pairs of hexadecimal digits, or - for no bytes

A refusal is `refused NUMBER LAYER PLACE`.
";

// How many bytes of answers are kept before they are written.
const FULL: usize = 65536;

// Why the program did not do what it was asked for.
#[derive(Debug, Drop)]
enum Failure<'a> {
    CommandLine,
    Misuse(Misuse<'a>),
    Text(&'a str, io::Error),
    Answers(io::Error),
    Demo,
    Output,
}

impl fmt::Display for Failure<'_> {
    fn fmt<W: fmt::Write>(&self, f: &mut fmt::Formatter<W>) -> fmt::Result {
        match self {
            Failure::CommandLine => write!(f, "cannot read the command line"),
            Failure::Misuse(misuse) => write!(f, "{misuse}"),
            Failure::Text(name, error) => write!(f, "cannot read {name}: {error}"),
            Failure::Answers(error) => write!(f, "cannot write the answers: {error}"),
            Failure::Demo => write!(f, "cannot play the demo"),
            Failure::Output => write!(f, "cannot write to the standard output"),
        }
    }
}

impl Error for Failure<'_> {}

impl<'a> From<Misuse<'a>> for Failure<'a> {
    fn from(misuse: Misuse<'a>) -> Failure<'a> {
        Failure::Misuse(misuse)
    }
}

// Outside `read_text`, what fails is the writing of answers.
impl From<io::Error> for Failure<'_> {
    fn from(error: io::Error) -> Self {
        Failure::Answers(error)
    }
}

// A play so far: the line's number, whether each line so far was understood, the answers not yet written.
// The number counts on over all the clusters of a text, so it stands here and in no loop; `(1u64..).zip(lines)` was tried, and did not prove.
#[derive(Drop)]
struct Stage {
    number: u64,
    // no value stands beside it: lines that could not be understood are answered at once
    understood: bool,
    machine: AnyMachine,
    out: String,
}

impl Stage {
    fn new(heap: Global) -> Stage {
        Stage {
            number: 0,
            understood: true,
            machine: AnyMachine::from(MachineKind::Ledger),
            out: String::new(heap),
        }
    }

    // Answers a line; the plan for a new cluster is handed on.
    fn play_line<R: Register>(
        &mut self,
        heap: Global,
        register: Option<&mut R>,
        line: &[u8],
    ) -> Result<Option<RegisterPlan>, fmt::Error> {
        self.number = self.number.saturating_add(1);
        let reason = match (parse(heap, line), register) {
            (Ok(None), _) => return Ok(None),
            (Ok(Some(Command::Cluster { size, register })), _) => return answer_cluster(
                &mut self.out,
                size,
                register,
            ),
            (Ok(Some(Command::Plain(command))), _) => {
                answer(&mut self.out, &mut self.machine, command)?;
                return Ok(None);
            }
            (Ok(Some(Command::Register(command))), Some(register)) => {
                answer_register(&mut self.out, register, command)?;
                return Ok(None);
            }
            (Ok(Some(Command::Register(_))), None) => Reason::NoCluster,
            (Err(reason), _) => reason,
        };
        self.understood = false;
        answer_error(&mut self.out, self.number, reason)?;
        Ok(None)
    }

    fn write_out(&mut self, rt: &HostRuntime) -> io::Result<()> {
        rt.write_all(self.out.as_bytes())?;
        self.out.clear();
        Ok(())
    }
}

// Plays on with a register, if there is one, until a new cluster is made or the text ends.
fn play_on<R: Register + Drop>(
    rt: &HostRuntime,
    lines: &mut Lines<'_>,
    stage: &mut Stage,
    mut register: Option<R>,
) -> io::Result<Option<RegisterPlan>>
    ensures within { length lines.new ≤ length lines.old }
    ensures fewer { IfOk result (λ plan. OnSome plan (length lines.new < length lines.old)) }
{
    // a `for` over the lines, by three ways of borrowing them, was tried: it does not show that fewer are left where it returns
    while let Some(line) = lines.next() {
        let Ok(plan) = stage.play_line(rt.alloc(), register.as_mut(), line) else {
            return Err(io::Error::from(io::ErrorKind::OutOfMemory));
        };
        if plan.is_some() {
            return Ok(plan);
        }
        if stage.out.len() >= FULL {
            stage.write_out(rt)?;
        }
    }
    Ok(None)
}

// Plays on with a new register. The arms differ in what they lend to it.
fn play_with(
    rt: &HostRuntime,
    lines: &mut Lines<'_>,
    stage: &mut Stage,
    plan: RegisterPlan,
) -> io::Result<Option<RegisterPlan>>
    ensures within { length lines.new ≤ length lines.old }
    ensures fewer { IfOk result (λ plan. OnSome plan (length lines.new < length lines.old)) }
{
    match plan {
        RegisterPlan::Journal { space } => {
            let mut memory = vec![in rt.alloc(); 0u8; space]?;
            let register = Journal::new(memory.as_mut_slice());
            play_on(rt, lines, stage, Some(register))
        }
        RegisterPlan::Index { space, slots } => {
            let mut memory = vec![in rt.alloc(); 0u8; space]?;
            let mut words = vec![in rt.alloc(); 0u32; slots]?;
            let register = IndexedJournal::new(memory.as_mut_slice(), words.as_mut_slice());
            play_on(rt, lines, stage, Some(register))
        }
    }
}

// Plays a text, and says whether every line could be understood.
fn play(rt: &HostRuntime, text: &[u8]) -> io::Result<bool> {
    let mut lines = Lines::new(text);
    let mut stage = Stage::new(rt.alloc());
    let mut next = play_on::<Journal<'_>>(rt, &mut lines, &mut stage, None)?;
    while let Some(plan) = next {
        next = play_with(rt, &mut lines, &mut stage, plan)?;
    }
    stage.write_out(rt)?;
    Ok(stage.understood)
}

fn read_text(rt: &HostRuntime, file: Option<&str>) -> io::Result<Vec<u8>> {
    match file {
        Some(path) => fs::read(rt, path),
        None => {
            let mut text = Vec::new(rt.alloc());
            rt.stdin().read_to_end(&mut text)?;
            Ok(text)
        }
    }
}

fn play_all<'a>(
    rt: &HostRuntime,
    keep_going: bool,
    file: Option<&'a str>,
) -> Result<ExitCode, Failure<'a>> {
    let name = file.unwrap_or("the standard input");
    let text = read_text(rt, file).map_err(|e| Failure::Text(name, e))?;
    let understood = play(rt, text.as_slice())?;
    Ok(if understood || keep_going {
        ExitCode::SUCCESS
    } else {
        ExitCode::FAILURE
    })
}

fn tell_demo(rt: &HostRuntime) -> Result<ExitCode, Failure<'static>> {
    let mut out = String::new(rt.alloc());
    demo(&mut out).map_err(|_| Failure::Demo)?;
    tell(rt, out.as_str())
}

fn tell(rt: &HostRuntime, text: &str) -> Result<ExitCode, Failure<'static>> {
    rt.write_all(text.as_bytes()).map_err(|_| Failure::Output)?;
    Ok(ExitCode::SUCCESS)
}

fn arguments(rt: &HostRuntime) -> io::Result<Vec<String>> {
    Ok(env::args(rt)?.skip(1).collect(rt.alloc())?)
}

fn run<'a>(rt: &HostRuntime, words: &'a [String]) -> Result<ExitCode, Failure<'a>> {
    match Job::try_from(words)? {
        Job::Help => tell(rt, HELP),
        Job::Demo => tell_demo(rt),
        Job::Play { keep_going, file } => play_all(rt, keep_going, file),
    }
}

fn complain(rt: &HostRuntime, failure: &Failure<'_>) -> ExitCode {
    let _ = eprintln!(rt; "warpberyl: {failure}");
    ExitCode::FAILURE
}

fn main(rt: HostRuntime) -> ExitCode {
    let Ok(words) = arguments(&rt) else {
        return complain(&rt, &Failure::CommandLine);
    };
    run(&rt, words.as_slice()).unwrap_or_else(|failure| complain(&rt, &failure))
}
