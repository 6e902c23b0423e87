// The fields of a read message.
ghost use Rattle.std.specs.Prelude.{◌≡◌, ◌≤◌, length};
ghost use Rattle.std.specs.Iterator.{YieldsFirst, item_count};
ghost use Rattle.std.specs.List.{slice_get};
ghost use Rattle.wire.specs.Messages.{says, request_of, entry_in, rows_of, entries_of, entries_left};
ghost use Rattle.wire.specs.Statements.{view_of};
ghost use Rattle.wire.specs.Writing.{kind_in, rows_in};

use crate::entry::LogEntry;
use crate::kind::Kind;
use crate::message::{Closing, Message, Reply, Report, Vote};
use crate::numbers::bytes_at;
use crate::reader::read_request;
use crate::request::Request;

impl Message<'_> {
    pub fn kind(&self) -> Kind
        ensures { result ≡ kind_in (says self.now).statement }
    {
        match self {
            Message::Prepare(_) => Kind::Prepare,
            Message::Commit(_) => Kind::Commit,
            Message::Doubt(_) => Kind::Doubt,
            Message::Report(_) => Kind::Report,
            Message::Closing(_) => Kind::Closing,
            Message::Reply(_) => Kind::Reply,
        }
    }

    // How many rows, and so bodies, the message has.
    #[tactic(auto, using(crate::proofs::Found::length_entries))]
    pub fn rows(&self) -> usize
        ensures { result ≡ rows_in (says self.now).statement }
    {
        match self {
            Message::Doubt(_) => 0,
            Message::Report(report) => report.len(),
            _ => 1,
        }
    }

    // The replica that the message is from. Each case holds all of its message, so replica and view are read out of each.
    pub fn replica(&self) -> u8
        ensures { result ≡ (says self.now).replica }
    {
        match self {
            Message::Prepare(vote) | Message::Commit(vote) => vote.replica,
            Message::Doubt(doubt) => doubt.replica,
            Message::Report(report) => report.replica,
            Message::Closing(closing) => closing.replica,
            Message::Reply(reply) => reply.vote.replica,
        }
    }

    // The view that the message is about.
    pub fn view(&self) -> u32
        ensures { result ≡ view_of (says self.now).statement }
    {
        match self {
            Message::Prepare(vote) | Message::Commit(vote) => vote.view,
            Message::Doubt(doubt) => doubt.view,
            Message::Report(report) => report.view,
            Message::Closing(closing) => closing.view,
            Message::Reply(reply) => reply.vote.view,
        }
    }
}

// Bytes that no reader accepted may make no request: the blank one then stands there, so that each row has an entry.
fn entry_of(body: &[u8]) -> LogEntry
    requires { 18 ≤ length body.now }
    ensures { result ≡ entry_in body.now }
{
    let (view, request) = body.split_at(4);
    LogEntry {
        view: u32::from_be_bytes(bytes_at(view, 0)),
        request: read_request(4, request).unwrap_or(Request::blank()),
    }
}

impl Vote<'_> {
    pub fn number(&self) -> u32
        ensures { result ≡ self.now.number }
    {
        self.number
    }

    pub fn request(&self) -> Request
        ensures { result ≡ request_of self.now }
    {
        self.request
    }
}

impl Closing<'_> {
    pub fn mask(&self) -> u16
        ensures { result ≡ self.now.mask }
    {
        self.mask
    }
}

impl Reply<'_> {
    pub fn number(&self) -> u32
        ensures { result ≡ self.now.vote.number }
    {
        self.vote.number
    }

    pub fn request(&self) -> Request
        ensures { result ≡ request_of self.now.vote }
    {
        self.vote.request
    }

    pub fn outcome(&self) -> u64
        ensures { result ≡ self.now.outcome }
    {
        self.outcome
    }
}

impl<'a> Report<'a> {
    // How many entries there are.
    pub fn len(&self) -> usize
        ensures { result ≡ rows_of self.now }
    {
        self.bodies.len() / 18
    }

    // All entries in order.
    pub fn entries(&self) -> Entries<'a>
        ensures { entries_left result ≡ entries_of self.now }
    {
        Entries {
            bodies: self.bodies,
        }
    }

    // The entry of a row, counted from 0; straight to it, where an iterator would go over the rows before.
    pub fn entry(&self, row: usize) -> Option<LogEntry>
        ensures { result ≡ slice_get (entries_of self.now) row }
    {
        if row >= self.len() {
            return None;
        }
        let (_, body) = self.bodies.split_at(18 * row);
        Some(entry_of(body))
    }
}

// The entries of a report that are still to come.
#[derive(Drop)]
pub struct Entries<'a> {
    bodies: &'a [u8],
}

impl Iterator for Entries<'_> {
    type Item = LogEntry;

    ghost next_gives = { YieldsFirst entries_left };

    ghost remaining = { item_count entries_left };

    fn next(&mut self) -> Option<LogEntry> {
        let (body, rest) = self.bodies.split_at_checked(18)?;
        self.bodies = rest;
        Some(entry_of(body))
    }
}
