// Reading: every string of bytes is a message or has one first refusal. Bounds on rows, places and lengths keep sums in range.
ghost use Rattle.std.specs.Prelude.{◌≡◌, ◌+◌, ◌*◌, ◌/◌, ◌<◌, ◌≤◌, length};
ghost use Rattle.wire.specs.Reading.{checked, parts_read, row_read, request_read, entry_read, entries_read};

use crate::fault::ReadFault;
use crate::kind::Kind;
use crate::numbers::bytes_at;
use crate::request::Request;

// A row of the table of contents, counted from 0.
fn check_row(kind: Kind, row: usize, bytes: &[u8]) -> Result<(), ReadFault>
    requires { (row < 1000) × (6 ≤ length bytes.now) }
    ensures { result ≡ row_read kind row bytes.now }
{
    let place = 7 + 6 * row;
    if !kind.may_number(row, u32::from_be_bytes(bytes_at(bytes, 0))) {
        return Err(ReadFault::Field(place));
    }
    let length = u16::from_be_bytes(bytes_at(bytes, 4));
    if usize::from(length) != kind.body_length() {
        return Err(ReadFault::Field(place + 4));
    }
    Ok(())
}

pub(crate) fn check_rows(kind: Kind, contents: &[u8]) -> Result<(), ReadFault>
    requires { length contents.now < 6000 }
    ensures { result ≡ checked (parts_read 6 (row_read kind) (length contents.now / 6) 0 contents.now) }
{
    contents
        .chunks_exact(6)
        .enumerate()
        .try_for_each(|(row, bytes)| check_row(kind, row, bytes))
}

// A request whose first byte is at a place of the message.
pub(crate) fn read_request(place: usize, bytes: &[u8]) -> Result<Request, ReadFault>
    requires { 14 ≤ length bytes.now }
    ensures { result ≡ request_read place bytes.now }
{
    let client = u16::from_be_bytes(bytes_at(bytes, 0));
    let stamp = u32::from_be_bytes(bytes_at(bytes, 2));
    let work = u64::from_be_bytes(bytes_at(bytes, 6));
    Request::new(client, stamp, work).map_err(|_| ReadFault::Field(place))
}

// An entry of a report for a view, whose first byte is at a place of the message.
fn check_entry(view: u32, place: usize, bytes: &[u8]) -> Result<(), ReadFault>
    requires { (18 ≤ length bytes.now) × (place < 20000) }
    ensures { result ≡ checked (entry_read view place bytes.now) }
{
    if u32::from_be_bytes(bytes_at(bytes, 0)) >= view {
        return Err(ReadFault::Field(place));
    }
    let (_, request) = bytes.split_at(4);
    read_request(place + 4, request)?;
    Ok(())
}

pub(crate) fn check_entries(view: u32, place: usize, bodies: &[u8]) -> Result<(), ReadFault>
    requires { (length bodies.now < 10000) × (place < 2000) }
    ensures { result ≡ checked (entries_read view (length bodies.now / 18) place bodies.now) }
{
    bodies
        .chunks_exact(18)
        .enumerate()
        .try_for_each(|(row, bytes)| check_entry(view, place + 18 * row, bytes))
}
