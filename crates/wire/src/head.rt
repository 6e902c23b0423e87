// The head of a message: kind, replica, view and count of rows.
ghost use Rattle.std.specs.Prelude.{◌≡◌, ◌<◌, ◌≤◌, length, drop, MatchResult, slice_index};
ghost use Rattle.wire.specs.declared.fault.ReadFault.TheVariants.{Length};
ghost use Rattle.wire.specs.Bytes.{num};

use crate::fault::ReadFault;

// What came, as yet unchecked: the kind is a number, and `Parts` has what was checked of it.
#[derive(Clone, Copy)]
pub(crate) struct Head<'a> {
    pub(crate) kind: u8,
    pub(crate) replica: u8,
    pub(crate) view: u32,
    pub(crate) rows: u8,
    pub(crate) rest: &'a [u8],
}

pub(crate) fn read_head(bytes: &[u8]) -> Result<Head<'_>, ReadFault>
    ensures { MatchResult result
        (λ h. (h.kind ≡ slice_index bytes.now 0)
        × (h.replica ≡ slice_index bytes.now 1)
        × (h.view ≡ num bytes.now 2 4)
        × (h.rows ≡ slice_index bytes.now 6)
        × (h.rest.now ≡ drop 7 bytes.now)
        × (7 ≤ length bytes.now))
        (λ fault. (fault ≡ Length (length bytes.now)) × (length bytes.now < 7)) }
{
    let [kind, replica, v0, v1, v2, v3, rows, rest @ ..] = bytes else {
        return Err(ReadFault::Length(bytes.len()));
    };
    let view = u32::from_be_bytes([*v0, *v1, *v2, *v3]);
    Ok(Head {
        kind: *kind,
        replica: *replica,
        view,
        rows: *rows,
        rest,
    })
}
