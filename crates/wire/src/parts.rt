// A message cut into its parts: what its head says, its table of contents and its bodies.
ghost use Rattle.std.specs.Prelude.{◌≡◌, ◌*◌, ◌≤◌, IsTrue, length, Ok, MatchResult};
ghost use Rattle.wire.specs.Bytes.{num};
ghost use Rattle.wire.specs.Kinds.{may_count, body_length};
ghost use Rattle.wire.specs.Messages.{said, Holds};
ghost use Rattle.wire.specs.Reading.{request_read, replied, closed, reported, bodies_read, fields_read, stated};

use crate::config::ClusterConfig;
use crate::fault::ReadFault;
use crate::kind::Kind;
use crate::message::{Closing, Doubt, Message, Reply, Report, Vote};
use crate::numbers::bytes_at;
use crate::ranges::{check_head, check_mask};
use crate::reader::{check_entries, check_rows, read_request};

// The kind allows so many rows, and the parts are as long as kind and rows make them.
#[derive(Clone, Copy)]
pub(crate) struct Parts<'a> {
    pub(crate) kind: Kind,
    pub(crate) replica: u8,
    pub(crate) view: u32,
    pub(crate) rows: u8,
    pub(crate) contents: &'a [u8],
    pub(crate) bodies: &'a [u8],
    ghost rows_value: { IsTrue (may_count kind rows) },
    ghost contents_len: { length contents.now ≡ 6 * rows },
    ghost bodies_len: { length bodies.now ≡ rows * body_length kind },
}

// `holds` ties a result to the parts that it was made of, which no type keeps, and `says` differs: so both stand at each.
impl<'a> Parts<'a> {
    fn read_vote(self) -> Result<Vote<'a>, ReadFault>
        requires { (4 ≤ length self.contents.now) × (14 ≤ length self.bodies.now) }
        ensures { MatchResult result
            (λ v. (v.replica ≡ self.entry.replica)
            × (v.view ≡ self.entry.view)
            × (v.number ≡ num self.entry.contents.now 0 4)
            × (request_read 13 self.entry.bodies.now ≡ Ok v.request)
            × (v.contents.now ≡ self.entry.contents.now)
            × (v.body.now ≡ self.entry.bodies.now))
            (λ fault. request_read 13 self.entry.bodies.now ≡ Err fault) }
    {
        Ok(Vote {
            replica: self.replica,
            view: self.view,
            number: u32::from_be_bytes(bytes_at(self.contents, 0)),
            request: read_request(13, self.bodies)?,
            contents: self.contents,
            body: self.bodies,
        })
    }

    fn read_reply(self) -> Result<Message<'a>, ReadFault>
        requires { (4 ≤ length self.contents.now) × (22 ≤ length self.bodies.now) }
        ensures says { said result ≡ stated self.entry.replica (replied self.entry.view self.entry.contents.now self.entry.bodies.now) }
        ensures holds { Holds self.entry.contents.now self.entry.bodies.now result }
    {
        Ok(Message::Reply(Reply {
            vote: self.read_vote()?,
            outcome: u64::from_be_bytes(bytes_at(self.bodies, 14)),
        }))
    }

    fn read_closing(self, config: ClusterConfig) -> Result<Message<'a>, ReadFault>
        requires { 2 ≤ length self.bodies.now }
        ensures says { said result ≡ stated self.entry.replica (closed config self.entry.view self.entry.bodies.now) }
        ensures holds { Holds self.entry.contents.now self.entry.bodies.now result }
    {
        let mask = u16::from_be_bytes(bytes_at(self.bodies, 0));
        check_mask(config, mask)?;
        Ok(Message::Closing(Closing {
            replica: self.replica,
            view: self.view,
            mask,
            contents: self.contents,
            body: self.bodies,
        }))
    }

    fn read_report(self) -> Result<Message<'a>, ReadFault>
        requires { length self.bodies.now ≡ 18 * self.rows }
        ensures says { said result ≡ stated self.entry.replica (reported self.entry.view self.entry.rows self.entry.bodies.now) }
        ensures holds { Holds self.entry.contents.now self.entry.bodies.now result }
    {
        check_entries(self.view, 7 + 6 * usize::from(self.rows), self.bodies)?;
        Ok(Message::Report(Report {
            replica: self.replica,
            view: self.view,
            contents: self.contents,
            bodies: self.bodies,
        }))
    }

    // What the bodies state, by kind. A plain match: each kind makes another case of `Message`.
    fn read_bodies(self, config: ClusterConfig) -> Result<Message<'a>, ReadFault>
        ensures says { said result ≡ stated self.entry.replica (bodies_read config self.entry.kind self.entry.view self.entry.rows self.entry.contents.now self.entry.bodies.now) }
        ensures holds { Holds self.entry.contents.now self.entry.bodies.now result }
    {
        match self.kind {
            Kind::Prepare => Ok(Message::Prepare(self.read_vote()?)),
            Kind::Commit => Ok(Message::Commit(self.read_vote()?)),
            Kind::Doubt => Ok(Message::Doubt(Doubt {
                replica: self.replica,
                view: self.view,
            })),
            Kind::Report => self.read_report(),
            Kind::Closing => self.read_closing(config),
            Kind::Reply => self.read_reply(),
        }
    }

    // The fields in byte order.
    pub(crate) fn read_fields(self, config: ClusterConfig) -> Result<Message<'a>, ReadFault>
        ensures says { said result ≡ fields_read config self.entry.kind self.entry.replica self.entry.view self.entry.rows self.entry.contents.now self.entry.bodies.now }
        ensures holds { Holds self.entry.contents.now self.entry.bodies.now result }
    {
        check_head(config, self.replica, self.view)?;
        check_rows(self.kind, self.contents)?;
        self.read_bodies(config)
    }
}
