// Entries as bytes: replica (1 byte), length (2 bytes, big endian), bytes.
ghost use Rattle.std.specs.Prelude.{◌≡◌, drop, IfSome};
ghost use Rattle.std.specs.Option.{option_map};
ghost use Rattle.std.specs.Iterator.{YieldsFirstBy, item_count};
ghost use Rattle.seals.specs.Registers.{among};
ghost use Rattle.seals.specs.Layout.{entries, first, pair_of, width};

// bytes before those of the entry
pub(crate) const HEAD: usize = 3;
// the length field has two bytes
pub(crate) const LONGEST: usize = 65535;

// a replica and the bytes that it sealed
#[derive(Clone, Copy, PartialEq, Eq)]
pub(crate) struct Entry<'a> {
    pub(crate) replica: u8,
    pub(crate) bytes: &'a [u8],
}

// the entries that bytes hold, one after another
#[derive(Drop)]
struct Entries<'a> {
    rest: &'a [u8],
}

// the entry that these bytes begin with, if they hold it whole, and the bytes behind it
pub(crate) fn split_entry(bytes: &[u8]) -> Option<(Entry<'_>, &[u8])>
    ensures entry { option_map (λ r. pair_of r.0) result ≡ first bytes.now }
    ensures rest { IfSome result (λ r. r.1.now ≡ drop (width (pair_of r.0)) bytes.now) }
{
    let (&[replica, high, low], rest) = bytes.split_first_chunk::<HEAD>()?;
    let length = usize::from(u16::from_be_bytes([high, low]));
    let (bytes, rest) = rest.split_at_checked(length)?;
    Some((Entry { replica, bytes }, rest))
}

impl<'a> Iterator for Entries<'a> {
    type Item = Entry<'a>;

    ghost next_gives = { YieldsFirstBy pair_of (λ s. entries s.rest.now) };

    ghost remaining = { item_count (λ s. entries s.rest.now) };

    fn next(&mut self) -> Option<Entry<'a>> {
        let (entry, rest) = split_entry(self.rest)?;
        self.rest = rest;
        Some(entry)
    }
}

// whether these bytes have an entry of this pair
pub(crate) fn contains(log: &[u8], entry: Entry<'_>) -> bool
    ensures { result ≡ among (entries log.now) entry.entry.replica entry.entry.bytes.now }
{
    Entries { rest: log }.any(|other| other == entry)
}
