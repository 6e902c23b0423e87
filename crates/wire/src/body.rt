// Handing out the bodies of a message.
ghost use Rattle.std.specs.Prelude.{◌≡◌, ◌<◌, length, take, drop};
ghost use Rattle.wire.specs.Bodies.{offset_of, body_in, handed};
ghost use Rattle.wire.specs.Kinds.{body_length, message_length};

use crate::config::ClusterConfig;
use crate::fault::ReadFault;
use crate::kind::Kind;
use crate::read::read;

// A part of a message, and where it begins there.
#[derive(Clone, Copy)]
pub struct Body<'a> {
    pub offset: usize,
    pub bytes: &'a [u8],
}

fn body_at(bytes: &[u8], kind: Kind, rows: usize, row: usize) -> Body<'_>
    requires { (row < rows) × (length bytes.now ≡ message_length kind rows) }
    ensures { (result.offset ≡ offset_of kind rows row) × (result.bytes.now ≡ take (body_length kind) (drop (offset_of kind rows row) bytes.now)) }
{
    let length = kind.body_length();
    let offset = 7 + 6 * rows + row * length;
    Body {
        offset,
        bytes: &bytes[offset..offset + length],
    }
}

// The body of a row, counted from 0, as that part of the message; `None` past the last row.
pub fn read_body(
    config: ClusterConfig,
    bytes: &[u8],
    row: usize,
) -> Result<Option<Body<'_>>, ReadFault>
    ensures { handed result ≡ body_in config bytes.now row }
{
    let message = read(config, bytes)?;
    let rows = message.rows();
    if row >= rows {
        return Ok(None);
    }
    Ok(Some(body_at(bytes, message.kind(), rows, row)))
}
