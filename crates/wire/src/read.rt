// The reader: every string of bytes is a message, or has one first refusal.
ghost use Rattle.std.specs.Prelude.{◌≡◌, Ok, slice_index};
ghost use Rattle.wire.specs.Laws.{IsWriting};
ghost use Rattle.wire.specs.Messages.{said, Holds};
ghost use Rattle.wire.specs.Reading.{contents_in, bodies_in, reading};
ghost use Rattle.wire.specs.Statements.{Said};

use crate::config::ClusterConfig;
use crate::fault::ReadFault;
use crate::head::read_head;
use crate::kind::Kind;
use crate::message::Message;
use crate::parts::Parts;

fn read_message(config: ClusterConfig, bytes: &[u8]) -> Result<Message<'_>, ReadFault>
    ensures says { said result ≡ reading config bytes.now }
    ensures holds { Holds (contents_in (slice_index bytes.now 6) bytes.now) (bodies_in (slice_index bytes.now 6) bytes.now) result }
{
    let head = read_head(bytes)?;
    let kind = Kind::try_from(head.kind)?;
    if !kind.may_count(head.rows) {
        return Err(ReadFault::Field(6));
    }
    if bytes.len() != kind.message_length(head.rows) {
        return Err(ReadFault::Length(bytes.len()));
    }
    let (contents, bodies) = head.rest.split_at(6 * usize::from(head.rows));
    let parts = Parts {
        kind,
        replica: head.replica,
        view: head.view,
        rows: head.rows,
        contents,
        bodies,
    };
    parts.read_fields(config)
}

// The message that the bytes are, or the first refusal.
pub fn read(config: ClusterConfig, bytes: &[u8]) -> Result<Message<'_>, ReadFault>
    ensures reads_exactly { said result ≡ reading config bytes.now }
    ensures holds_its_parts { Holds (contents_in (slice_index bytes.now 6) bytes.now) (bodies_in (slice_index bytes.now 6) bytes.now) result }
    ensures is_the_writing_of_one_message { (m : Said) → said result ≡ Ok m → IsWriting config bytes.now m }
{
    read_message(config, bytes)
}
