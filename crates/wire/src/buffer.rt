// Writing the pieces of a message into a buffer. Each piece takes the offset that the format gives it: a writer that
// counts would hide the layout.
ghost use Rattle.std.specs.Prelude.{◌≡◌, ◌+◌, ◌*◌, ◌≤◌, ◌++◌, length};
ghost use Rattle.wire.specs.declared.kind.Kind.TheVariants.{Closing, Reply};
ghost use Rattle.wire.specs.Buffers.{over};
ghost use Rattle.wire.specs.Bytes.{be};
ghost use Rattle.wire.specs.Kinds.{last_number};
ghost use Rattle.wire.specs.Writing.{head_bytes, row_bytes, request_bytes, entry_bytes, table_bytes, entries_bytes};

use crate::entry::LogEntry;
use crate::kind::Kind;
use crate::request::Request;

fn put(out: &mut [u8], at: usize, bytes: &[u8])
    requires { at + length bytes.now ≤ length out.old }
    ensures { out.new ≡ over at bytes.now out.old }
{
    out[at..at + bytes.len()].copy_from_slice(bytes);
}

pub(crate) fn put_head(out: &mut [u8], kind: Kind, replica: u8, view: u32, rows: u8)
    requires { 7 ≤ length out.old }
    ensures { out.new ≡ over 0 (head_bytes kind replica view rows) out.old }
{
    put(out, 0, &[u8::from(kind), replica]);
    put(out, 2, &view.to_be_bytes());
    put(out, 6, &[rows]);
}

fn put_row(out: &mut [u8], at: usize, kind: Kind, number: u32)
    requires { at + 6 ≤ length out.old }
    ensures { out.new ≡ over at (row_bytes kind number) out.old }
{
    put(out, at, &number.to_be_bytes());
    put(out, at + 4, &(kind.body_length() as u16).to_be_bytes());
}

fn put_request(out: &mut [u8], at: usize, request: Request)
    requires { at + 14 ≤ length out.old }
    ensures { out.new ≡ over at (request_bytes request) out.old }
{
    put(out, at, &request.client.to_be_bytes());
    put(out, at + 2, &request.stamp.to_be_bytes());
    put(out, at + 6, &request.work.to_be_bytes());
}

// The row and the body of a request under a number.
pub(crate) fn put_vote(out: &mut [u8], kind: Kind, number: u32, request: Request)
    requires { 27 ≤ length out.old }
    ensures { out.new ≡ over 7 (row_bytes kind number ++ request_bytes request) out.old }
{
    put_row(out, 7, kind, number);
    put_request(out, 13, request);
}

pub(crate) fn put_reply(out: &mut [u8], number: u32, request: Request, outcome: u64)
    requires { 35 ≤ length out.old }
    ensures { out.new ≡ over 7 (row_bytes Reply number ++ (request_bytes request ++ be 8 outcome)) out.old }
{
    put_vote(out, Kind::Reply, number, request);
    put(out, 27, &outcome.to_be_bytes());
}

pub(crate) fn put_closing(out: &mut [u8], mask: u16)
    requires { 15 ≤ length out.old }
    ensures { out.new ≡ over 7 (row_bytes Closing 0 ++ be 2 mask) out.old }
{
    put_row(out, 7, Kind::Closing, 0);
    put(out, 13, &mask.to_be_bytes());
}

// A row of a report is its number alone, so the rows are counted.
fn put_table(out: &mut [u8], rows: u8)
    requires { 7 + 6 * rows ≤ length out.old }
    ensures { out.new ≡ over 7 (table_bytes rows 1) out.old }
{
    for row in 0..rows {
        put_row(
            out,
            7 + 6 * usize::from(row),
            Kind::Report,
            u32::from(row) + 1,
        );
    }
}

fn put_entry(out: &mut [u8], at: usize, entry: LogEntry)
    requires { at + 18 ≤ length out.old }
    ensures { out.new ≡ over at (entry_bytes entry) out.old }
{
    put(out, at, &entry.view.to_be_bytes());
    put_request(out, at + 4, entry.request);
}

fn put_entries(out: &mut [u8], offset: usize, entries: &[LogEntry])
    requires { offset + 18 * length entries.now ≤ length out.old }
    ensures { out.new ≡ over offset (entries_bytes entries.now) out.old }
{
    for (row, entry) in entries.iter().enumerate() {
        put_entry(out, offset + 18 * row, *entry);
    }
}

// The table of contents and the bodies of a report.
pub(crate) fn put_report(out: &mut [u8], entries: &[LogEntry])
    requires rows { length entries.now ≤ last_number }
    requires room { 7 + 24 * length entries.now ≤ length out.old }
    ensures { out.new ≡ over 7 (table_bytes (length entries.now) 1 ++ entries_bytes entries.now) out.old }
{
    put_table(out, entries.len() as u8);
    put_entries(out, 7 + 6 * entries.len(), entries);
}
