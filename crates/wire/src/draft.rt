// A draft: a message that is to be written.
ghost use Rattle.std.specs.Prelude.{◌≡◌, ◌≤◌, length};
ghost use Rattle.wire.specs.Buffers.{over};
ghost use Rattle.wire.specs.Kinds.{last_number};
ghost use Rattle.wire.specs.Laws.{Wrote};
ghost use Rattle.wire.specs.Writing.{writing, kind_in, rows_in, size, misfit, refused_at, answered, filled};

use crate::buffer::{put_closing, put_head, put_reply, put_report, put_vote};
use crate::config::ClusterConfig;
use crate::entry::LogEntry;
use crate::fault::ReadFault;
use crate::kind::Kind;
use crate::ranges::{check_head, check_mask, check_number, check_report};
use crate::request::Request;

// Who says what, and in which view. A report that is written holds entries and one that was read holds bytes,
// so a draft is a type beside `Message`.
#[derive(Clone, Copy)]
pub struct Draft<'a> {
    pub replica: u8,
    pub view: u32,
    pub content: Content<'a>,
}

// What a message of each kind says. Number and request stand in three cases as fields: a struct of both would be taken apart at each use.
#[derive(Clone, Copy)]
pub enum Content<'a> {
    Prepare {
        number: u32,
        request: Request,
    },
    Commit {
        number: u32,
        request: Request,
    },
    Doubt,
    Report {
        entries: &'a [LogEntry],
    },
    Closing {
        mask: u16,
    },
    Reply {
        number: u32,
        request: Request,
        outcome: u64,
    },
}

impl Draft<'_> {
    ghost use Rattle.wire.specs.Drafts.{statement_of};

    fn kind(&self) -> Kind
        ensures { result ≡ kind_in (statement_of self.now) }
    {
        match self.content {
            Content::Prepare { .. } => Kind::Prepare,
            Content::Commit { .. } => Kind::Commit,
            Content::Doubt => Kind::Doubt,
            Content::Report { .. } => Kind::Report,
            Content::Closing { .. } => Kind::Closing,
            Content::Reply { .. } => Kind::Reply,
        }
    }

    // How many rows, and so bodies, the message has.
    fn rows(&self) -> usize
        ensures { result ≡ rows_in (statement_of self.now) }
    {
        match self.content {
            Content::Doubt => 0,
            Content::Report { entries } => entries.len(),
            _ => 1,
        }
    }

    // Refuses the first field that is outside its range.
    fn check(&self, config: ClusterConfig) -> Result<(), ReadFault>
        ensures { result ≡ refused_at (misfit config self.now.replica (statement_of self.now)) }
    {
        check_head(config, self.replica, self.view)?;
        match self.content {
            Content::Doubt => Ok(()),
            Content::Report { entries } => check_report(self.view, entries),
            Content::Closing { mask } => check_mask(config, mask),
            Content::Prepare { number, .. } | Content::Commit { number, .. } => {
                check_number(number)
            }
            // named, so that the check knows its range
            Content::Reply {
                number,
                outcome: _outcome,
                ..
            } => check_number(number),
        }
    }

    fn put(&self, out: &mut [u8])
        requires room { size (statement_of self.now) ≤ length out.old }
        requires rows { rows_in (statement_of self.now) ≤ last_number }
        ensures { out.new ≡ over 0 (writing self.now.replica (statement_of self.now)) out.old }
    {
        let kind = self.kind();
        let rows = self.rows() as u8;
        put_head(out, kind, self.replica, self.view, rows);
        match self.content {
            Content::Prepare { number, request } | Content::Commit { number, request } => {
                put_vote(out, kind, number, request);
            }
            Content::Doubt => {}
            Content::Report { entries } => put_report(out, entries),
            Content::Closing { mask } => put_closing(out, mask),
            Content::Reply {
                number,
                request,
                outcome,
            } => put_reply(out, number, request, outcome),
        }
    }

    // Writes the message at the start of a buffer and answers its length, or `None` where the buffer is too short.
    // The first field outside its range is refused. Later bytes always stay, and all do where nothing is written.
    pub fn write(&self, config: ClusterConfig, out: &mut [u8]) -> Result<Option<usize>, ReadFault>
        ensures answers { result ≡ answered config self.now.replica (statement_of self.now) (length out.old) }
        ensures fills { out.new ≡ filled result (writing self.now.replica (statement_of self.now)) out.old }
        ensures reads_back { Wrote config self.now.replica (statement_of self.now) result out.new }
    {
        self.check(config)?;
        let length = self.kind().message_length(self.rows() as u8);
        if out.len() < length {
            return Ok(None);
        }
        self.put(out);
        Ok(Some(length))
    }
}
